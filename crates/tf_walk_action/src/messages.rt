//! Messages about a request that can't be made.

ghost use Rattle.std.specs.Prelude.{◌≡◌, ◌++◌, IfOk, codes, string_bytes};
ghost use Rattle.tf_plan_object.specs.Instance.{instance_fault_of};
ghost use Rattle.tf_walk_action.specs.Message.{argument_text, evaluation_text, fault_message};

use crate::action_result::Faulted;
use std::alloc::{AllocError, Global};
use tf_expr_syntax::EvalFault;
use tf_plan_object::{ArgumentFault, InstanceFault};

/// Builds the result of a request with a fault, with the message about it.
///
/// # Errors
///
/// Fails only if memory runs out.
pub(crate) fn faulted(alloc: Global, fault: InstanceFault) -> Result<Faulted, AllocError>
    ensures { IfOk result (λ f. instance_fault_of f.fault ≡ instance_fault_of fault) }
{
    let message = fault_message(alloc, &fault)?;
    Ok(Faulted { fault, message })
}

/// Writes `NAME: Evaluate(KIND)` or `NAME: BadArgument`.
fn fault_message(alloc: Global, fault: &InstanceFault) -> Result<String, AllocError>
    ensures { IfOk result (λ text. string_bytes text ≡ fault_message (instance_fault_of fault.now)) }
{
    match fault {
        InstanceFault::ForEach(why) => evaluation_message(alloc, "for_each", *why),
        InstanceFault::Argument { name, fault } => match fault {
            ArgumentFault::Evaluation(why) => evaluation_message(alloc, name.as_str(), *why),
            ArgumentFault::BadArgument => bad_argument_message(alloc, name.as_str()),
        },
    }
}

fn evaluation_message(alloc: Global, name: &str, why: EvalFault) -> Result<String, AllocError>
    ensures { IfOk result (λ text. string_bytes text ≡ name.now ++ codes ": " ++ evaluation_text why) }
{
    format!(in alloc; "{name}: Evaluate({why})")
}

fn bad_argument_message(alloc: Global, name: &str) -> Result<String, AllocError>
    ensures { IfOk result (λ text. string_bytes text ≡ name.now ++ codes ": " ++ codes "BadArgument") }
{
    format!(in alloc; "{name}: BadArgument")
}
