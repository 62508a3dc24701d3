//! The refusals of instances.

ghost use Rattle.std.specs.Prelude.{◌≡◌, ◌++◌, ◌∷◌, IfOk, map, string_bytes};
ghost use Rattle.tf_plan_object.specs.Instance.{instance_fault_of};
ghost use Rattle.tf_plan_decision.specs.Deciding.{refused_of};
ghost use Rattle.tf_plan_decision.specs.Answer.{prior_fault_of};
ghost use Rattle.tf_plan_planner.specs.Told.{argument_told, fault_told, instance_told, unfit_told};
ghost use Rattle.tf_config_refusal.specs.Refusal.{refusal_of};

use crate::faults::{bare, evaluation};
use std::alloc::{AllocError, Global};
use tf_config_refusal::{Code, Refusal};
use tf_plan_data::address_text;
use tf_plan_decision::{DecisionFault, PriorFault, RefusedInstance};
use tf_plan_object::{ArgumentFault, InstanceFault};

/// Builds the refusals of instances, in their order.
pub(crate) fn refusals_of(
    alloc: Global,
    instances: Vec<RefusedInstance>,
) -> Result<Vec<Refusal>, AllocError>
    ensures { IfOk result (λ refusals. map refusal_of refusals.items ≡ map instance_told (map refused_of instances.items)) }
{
    let mut refusals = Vec::with_capacity(alloc, instances.len())?;
    for instance in instances {
        refusals.push(instance_refusal(alloc, instance)?)?;
    }
    Ok(refusals)
}

/// Builds the refusal of an instance.
fn instance_refusal(alloc: Global, instance: RefusedInstance) -> Result<Refusal, AllocError>
    ensures { IfOk result (λ refusal. refusal_of refusal ≡ instance_told (refused_of instance)) }
{
    let RefusedInstance { addr, key, why } = instance;
    let address = address_text(alloc, &addr, &key)?;
    match why {
        DecisionFault::NoProvider => Ok(bare(Code::NoProvider, address)),
        DecisionFault::Unfit(fault) => unfit(alloc, address, fault),
        DecisionFault::Faulty(fault) => faulty(alloc, address, fault),
        DecisionFault::Prevented => Ok(bare(Code::PreventDestroy, address)),
    }
}

/// Builds the refusal of a prior object of the instance at an address that doesn't fit.
fn unfit(alloc: Global, address: String, fault: PriorFault) -> Result<Refusal, AllocError>
    ensures { IfOk result (λ refusal. refusal_of refusal ≡ unfit_told (string_bytes address) (prior_fault_of fault)) }
{
    match fault {
        PriorFault::Whole => Ok(bare(Code::BadState, address)),
        PriorFault::Attribute(name) => {
            let place = attribute_place(alloc, address, name)?;
            Ok(bare(Code::BadState, place))
        }
    }
}

/// Builds the refusal of a fault in what is planned for the instance at an address.
fn faulty(alloc: Global, address: String, fault: InstanceFault) -> Result<Refusal, AllocError>
    ensures { IfOk result (λ refusal. refusal_of refusal ≡ fault_told (string_bytes address) (instance_fault_of fault)) }
{
    match fault {
        InstanceFault::ForEach(why) => Ok(evaluation(address, why)),
        InstanceFault::Argument { name, fault } => {
            let place = attribute_place(alloc, address, name)?;
            Ok(argument(place, fault))
        }
    }
}

/// Returns the place of an attribute of the instance at an address.
fn attribute_place(alloc: Global, address: String, name: String) -> Result<String, AllocError>
    ensures { IfOk result (λ place. string_bytes place ≡ string_bytes address ++ 46 ∷ string_bytes name) }
{
    let address = address.as_str();
    let name = name.as_str();
    format!(in alloc; "{address}.{name}")
}

/// Builds the refusal of an argument at its place.
fn argument(place: String, fault: ArgumentFault) -> Refusal
    ensures { refusal_of result ≡ argument_told (string_bytes place) fault }
{
    match fault {
        ArgumentFault::Evaluation(why) => evaluation(place, why),
        ArgumentFault::BadArgument => bare(Code::BadArgument, place),
    }
}
