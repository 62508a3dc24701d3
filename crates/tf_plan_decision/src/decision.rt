//! Decisions about instances that the configuration has.

ghost use Rattle.std.specs.Prelude.{◌≡◌, IfOk, map, option_map, string_bytes};
ghost use Rattle.tf_plan_object.specs.Instance.{instance_of};
ghost use Rattle.tf_config_data.specs.Config.{lifecycle_of};
ghost use Rattle.tf_state_data.specs.Record.{record_of};
ghost use Rattle.tf_value_data.specs.Tree.{tree_of};
ghost use Rattle.tf_plan_decision.specs.Answer.{answer_of, decision_of, decision_fault_of};
ghost use Rattle.tf_plan_decision.specs.Decision.{beside, change, current, decision, is_protected, removal_fault, unless_prevented};

use crate::differing::{differing, forcing};
use crate::ignored::{ignored_fault, with_ignored_changes};
use crate::prior::{PriorFault, first_unfit};
use std::alloc::{AllocError, Global};
use tf_config_data::Lifecycle;
use tf_plan_object::{InstanceFault, kept_object};
use tf_provider_protocol::Schema;
use tf_state_data::Record;
use tf_value_data::Value;

/// A decision about an instance.
#[derive(Debug, Drop)]
pub(crate) enum Decision {
    /// Nothing is done: the object is as it should be.
    Nothing,
    /// There is no object, and this one is created.
    Create(Value),
    /// An update to this object. The names are those of the attributes that change, in byte order.
    Update(Value, Vec<String>),
    /// The object is replaced by this one. The names, in byte order, are those of the attributes that differ and whose
    /// changes replace an object. The list is empty if the prior object is tainted.
    Replace(Value, Vec<String>),
}

/// Why an instance is refused.
#[derive(Debug, Drop)]
pub enum DecisionFault {
    /// No provider has its type.
    NoProvider,
    /// A prior object doesn't fit the schema of its type.
    Unfit(PriorFault),
    /// The planned object has a fault. A name in `ignore_changes` that no attribute has is a bad argument.
    Faulty(InstanceFault),
    /// The current object would be replaced or destroyed, and the block has `prevent_destroy`.
    Prevented,
}

/// Decides about an instance, by what is planned for it (`tf_plan_object::plan_instance`) and by its records: its
/// current object, if there is one, and the deposed ones by their keys. Or returns the first reason why it is refused:
///
/// - One of these objects doesn't fit the schema.
/// - The planned object has a fault. Of all names with a fault, including names in `ignore_changes` that no attribute
///   has, the first in byte order is reported.
/// - The current object would be replaced, and the block has `prevent_destroy`.
///
/// # Errors
///
/// Fails only if memory runs out.
pub(crate) fn decide(
    alloc: Global,
    schema: &Schema,
    lifecycle: &Lifecycle,
    records: &[Record],
    planned: Result<Value, InstanceFault>,
) -> Result<Result<Decision, DecisionFault>, AllocError>
    ensures { IfOk result (λ answer. answer_of answer
        ≡ decision schema.now (lifecycle_of lifecycle.now) (map record_of records.now) (instance_of planned)) }
{
    if let Some(fault) = first_unfit(alloc, schema, records)? {
        return Ok(Err(DecisionFault::Unfit(fault)));
    }
    let name = ignored_fault(schema, &lifecycle.ignore_changes);
    match with_ignored_changes(alloc, name, planned)? {
        Ok(planned) => {
            let ignored = &lifecycle.ignore_changes;
            let change = change(alloc, schema, ignored, current(records), planned)?;
            Ok(unless_prevented(lifecycle.prevent_destroy, change))
        }
        Err(fault) => Ok(Err(DecisionFault::Faulty(fault))),
    }
}

/// Returns why the objects of an instance that the configuration doesn't have can't be destroyed, if anything refuses
/// it. One of them doesn't fit the schema, or else there is a current object and its resource has a block with
/// `prevent_destroy`. Deposed objects aren't protected.
///
/// # Errors
///
/// Fails only if memory runs out.
pub(crate) fn removal_fault_of(
    alloc: Global,
    schema: &Schema,
    lifecycle: Option<&Lifecycle>,
    records: &[Record],
) -> Result<Option<DecisionFault>, AllocError>
    ensures { IfOk result (λ refusal. option_map decision_fault_of refusal
        ≡ removal_fault schema.now (option_map (λ l. lifecycle_of l.now) lifecycle.entry) (map record_of records.now)) }
{
    if let Some(fault) = first_unfit(alloc, schema, records)? {
        return Ok(Some(DecisionFault::Unfit(fault)));
    }
    if is_protected(lifecycle, records) {
        Ok(Some(DecisionFault::Prevented))
    } else {
        Ok(None)
    }
}

fn is_protected(lifecycle: Option<&Lifecycle>, records: &[Record]) -> bool
    ensures { result ≡ is_protected (option_map (λ l. lifecycle_of l.now) lifecycle.entry) (map record_of records.now) }
{
    match lifecycle {
        Some(lifecycle) => lifecycle.prevent_destroy && current(records).is_some(),
        None => false,
    }
}

/// Returns the record of the current object.
pub(crate) fn current(records: &[Record]) -> Option<&Record>
    ensures { option_map (λ r. record_of r.now) result ≡ current (map record_of records.now) }
{
    for record in records {
        if record.id.deposed.is_none() {
            return Some(record);
        }
    }
    None
}

/// Compares the planned object with the prior one, ignoring `prevent_destroy`.
fn change(
    alloc: Global,
    schema: &Schema,
    ignored: &[String],
    prior: Option<&Record>,
    planned: Value,
) -> Result<Decision, AllocError>
    ensures { IfOk result (λ d. decision_of d
        ≡ change schema.now (map string_bytes ignored.now) (option_map (λ r. record_of r.now) prior.entry) (tree_of planned)) }
{
    match prior {
        None => Ok(Decision::Create(planned)),
        Some(record) => {
            if record.tainted {
                Ok(Decision::Replace(planned, Vec::new(alloc)))
            } else {
                beside(alloc, schema, ignored, &record.attributes.value, planned)
            }
        }
    }
}

/// Compares the planned object with a prior one that isn't tainted.
fn beside(
    alloc: Global,
    schema: &Schema,
    ignored: &[String],
    prior: &Value,
    planned: Value,
) -> Result<Decision, AllocError>
    ensures { IfOk result (λ d. decision_of d
        ≡ beside schema.now (map string_bytes ignored.now) (tree_of prior.now) (tree_of planned)) }
{
    let kept = kept_object(alloc, schema, ignored, prior, &planned)?;
    let names = differing(alloc, prior, &kept)?;
    if names.is_empty() {
        return Ok(Decision::Nothing);
    }
    let forces = forcing(alloc, schema, &names)?;
    if forces.is_empty() {
        Ok(Decision::Update(kept, names))
    } else {
        Ok(Decision::Replace(planned, forces))
    }
}

/// Returns a decision, or refuses a replace if `prevent_destroy` is set.
fn unless_prevented(prevent_destroy: bool, change: Decision) -> Result<Decision, DecisionFault>
    ensures { answer_of result ≡ unless_prevented prevent_destroy (decision_of change) }
{
    match change {
        Decision::Replace(object, names) => {
            if prevent_destroy {
                Err(DecisionFault::Prevented)
            } else {
                Ok(Decision::Replace(object, names))
            }
        }
        other => Ok(other),
    }
}
