//! Why a request can't be built.

ghost use Rattle.std.specs.Prelude.{◌≡◌, IfOk, string_bytes};
ghost use Rattle.tf_config_refusal.specs.Refusal.{detail_of};
ghost use Rattle.tf_plan.specs.Fault.{HasFault, argument_detail};
ghost use Rattle.tf_plan.specs.declared.fault.RequestFault.TheVariants.{OutOfMemory};
ghost use Rattle.tf_plan_object.specs.Instance.{instance_fault_of};

use std::alloc::{AllocError, Global};
use tf_config_refusal::Detail;
use tf_plan_object::{ArgumentFault, InstanceFault};

/// Why an action's request can't be built.
#[derive(Debug, Drop)]
pub enum RequestFault {
    /// `for_each` or an argument has a fault.
    Argument {
        /// `for_each`, or the argument.
        name: String,
        /// How its evaluation failed, or nothing: then it is a bad argument.
        detail: Detail,
    },
    /// Memory ran out.
    OutOfMemory,
}

impl From<AllocError> for RequestFault {
    ghost from_gives = { λ _ fault. fault ≡ OutOfMemory };

    fn from(_error: AllocError) -> RequestFault {
        RequestFault::OutOfMemory
    }
}

/// Returns the fault of an action's instance as the fault of its request.
pub(crate) fn request_fault(alloc: Global, fault: InstanceFault) -> Result<RequestFault, AllocError>
    ensures { IfOk result (HasFault (instance_fault_of fault)) }
{
    match fault {
        InstanceFault::ForEach(why) => Ok(RequestFault::Argument {
            name: String::from_str(alloc, "for_each")?,
            detail: Detail::Kind(why),
        }),
        InstanceFault::Argument { name, fault } => Ok(RequestFault::Argument {
            name,
            detail: argument_detail(fault),
        }),
    }
}

/// Returns how the evaluation of an argument failed, or nothing for a bad argument.
fn argument_detail(fault: ArgumentFault) -> Detail
    ensures { detail_of result ≡ argument_detail fault }
{
    match fault {
        ArgumentFault::Evaluation(why) => Detail::Kind(why),
        ArgumentFault::BadArgument => Detail::Bare,
    }
}
