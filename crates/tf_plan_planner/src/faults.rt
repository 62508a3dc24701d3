//! Refusals that are reported alone: of a resource whose instances can't be computed, and of an exceeded limit.

ghost use Rattle.std.specs.Prelude.{◌≡◌, ◌<◌, ◌∷◌, [], IfOk, length, string_bytes};
ghost use Rattle.tf_config_address.specs.ResourceAddr.{addr_of};
ghost use Rattle.tf_config_names.specs.Table.{names_in};
ghost use Rattle.tf_plan_planner.specs.Refused.{IsPlaced, Tells, TellsFault, beyond_limit, instances_refusal};
ghost use Rattle.tf_config_refusal.specs.Refusal.{bare, fault, kind, refusal_of};
ghost use Rattle.tf_config_refusal.specs.declared.code.Code.TheVariants.{Evaluate};

use crate::refused::Refused;
use std::alloc::{AllocError, Global};
use tf_config_address::ResourceAddr;
use tf_config_names::{Declaration, Declarations};
use tf_config_refusal::{Code, Detail, Refusal};
use tf_expand_keys::{ExpansionFault, RepetitionFault};
use tf_expr_eval::EvalFault;

/// Builds the refusal of a fault of the expansion.
///
/// # Errors
///
/// Fails only if memory runs out, or ran out in the expansion.
pub(crate) fn expansion_refusal(
    alloc: Global,
    names: &Declarations<'_>,
    fault: ExpansionFault,
) -> Result<Refusal, AllocError>
    requires { IsPlaced (names_in names.now) fault }
    ensures { IfOk result (λ refusal. TellsFault (names_in names.now) fault (refusal_of refusal)) }
{
    match fault {
        ExpansionFault::OutOfMemory => Err(AllocError),
        ExpansionFault::TooMany => limit_refusal(alloc),
        ExpansionFault::Resource(place, why) => match names.at(place) {
            Declaration::Resource(addr, _) => instances_refusal(alloc, addr, why),
            Declaration::Local(_, _) => unreachable!(),
        },
    }
}

/// Builds the refusal of a resource whose instances can't be computed.
fn instances_refusal(
    alloc: Global,
    addr: &ResourceAddr,
    why: RepetitionFault,
) -> Result<Refusal, AllocError>
    ensures { IfOk result (λ refusal. refusal_of refusal ≡ instances_refusal (addr_of addr.now) why) }
{
    let place = addr.to_string(alloc)?;
    match why {
        RepetitionFault::BadCount => Ok(bare(Code::BadCount, place)),
        RepetitionFault::BadForEach => Ok(bare(Code::BadForEach, place)),
        RepetitionFault::UnknownInstances => Ok(bare(Code::UnknownInstances, place)),
        RepetitionFault::Evaluation(why) => Ok(evaluation(place, why)),
    }
}

/// Builds the refusal of an exceeded limit.
///
/// # Errors
///
/// Fails only if memory runs out.
pub(crate) fn limit_refusal(alloc: Global) -> Result<Refusal, AllocError>
    ensures { IfOk result (λ refusal. refusal_of refusal ≡ beyond_limit) }
{
    let place = String::from_str(alloc, "configuration")?;
    Ok(bare(Code::Limit, place))
}

/// Builds the refusal of a failed evaluation at a place.
pub(crate) fn evaluation(place: String, why: EvalFault) -> Refusal
    ensures { refusal_of result ≡ fault Evaluate (string_bytes place) (kind why) }
{
    Refusal::Fault {
        code: Code::Evaluate,
        place,
        detail: Detail::Kind(why),
    }
}

/// Builds the refusal of a fault at a place without detail.
pub(crate) fn bare(code: Code, place: String) -> Refusal
    ensures { refusal_of result ≡ fault code (string_bytes place) bare }
{
    Refusal::Fault {
        code,
        place,
        detail: Detail::Bare,
    }
}

/// Returns one refusal as the only one.
///
/// # Errors
///
/// Fails only if memory runs out.
pub(crate) fn alone(alloc: Global, refusal: Refusal) -> Result<Refused, AllocError>
    ensures { IfOk result (Tells (λ refusal_views. refusal_views ≡ refusal_of refusal ∷ [])) }
{
    Ok(Refused::These(vec![in alloc; refusal]?))
}
