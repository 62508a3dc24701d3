//! Faults of names in `ignore_changes`, together with those of arguments.

ghost use Rattle.std.specs.Prelude.{◌≡◌, IfOk, map, option_map, string_bytes};
ghost use Rattle.tf_plan_object.specs.Instance.{argument_fault, instance_fault_of, instance_of};
ghost use Rattle.tf_plan_object.specs.declared.argument.ArgumentFault.TheVariants.{BadArgument};
ghost use Rattle.tf_plan_decision.specs.Ignored.{with_ignored_changes, ignored_fault, sooner_fault};

use crate::names::sooner;
use std::alloc::{AllocError, Global};
use tf_plan_object::{ArgumentFault, InstanceFault};
use tf_provider_protocol::Schema;
use tf_value_data::Value;

/// Returns the first name, in byte order, in `ignore_changes` that no attribute of the schema has.
pub fn ignored_fault<'a>(schema: &Schema, ignored: &'a [String]) -> Option<&'a str>
    ensures { option_map (λ s. s.now) result ≡ ignored_fault schema.now (map string_bytes ignored.now) }
{
    let mut first = None;
    for name in ignored {
        if schema.attribute(name.as_str()).is_none() {
            first = sooner(first, name.as_str());
        }
    }
    first
}

/// Adds to what is planned for an instance a bad argument for a name in `ignore_changes` that no attribute has, if
/// there is one.
pub(crate) fn with_ignored_changes(
    alloc: Global,
    name: Option<&str>,
    planned: Result<Value, InstanceFault>,
) -> Result<Result<Value, InstanceFault>, AllocError>
    ensures { IfOk result (λ heeded. instance_of heeded ≡ with_ignored_changes (option_map (λ s. s.now) name.entry) (instance_of planned)) }
{
    match name {
        None => Ok(planned),
        Some(name) => match planned {
            Ok(_) => Ok(Err(bad_argument(alloc, name)?)),
            Err(InstanceFault::ForEach(why)) => Ok(Err(InstanceFault::ForEach(why))),
            Err(InstanceFault::Argument { name: found, fault }) => {
                Ok(Err(sooner_fault(alloc, found, fault, name)?))
            }
        },
    }
}

/// Returns the fault of the argument that was found, or that of the ignored name if this comes first in byte order.
fn sooner_fault(
    alloc: Global,
    found: String,
    fault: ArgumentFault,
    name: &str,
) -> Result<InstanceFault, AllocError>
    ensures { IfOk result (λ sooner. instance_fault_of sooner ≡ argument_fault (sooner_fault (string_bytes found, fault) (name.now, BadArgument))) }
{
    if name < found.as_str() {
        bad_argument(alloc, name)
    } else {
        Ok(InstanceFault::Argument { name: found, fault })
    }
}

fn bad_argument(alloc: Global, name: &str) -> Result<InstanceFault, AllocError>
    ensures { IfOk result (λ fault. instance_fault_of fault ≡ argument_fault (name.now, BadArgument)) }
{
    Ok(InstanceFault::Argument {
        name: String::from_str(alloc, name)?,
        fault: ArgumentFault::BadArgument,
    })
}
