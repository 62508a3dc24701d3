//! The records of a prior state without an action.

ghost use Rattle.std.specs.Prelude.{◌≡◌, ◌++◌, IfOk, OnOk, filter, length, map};
ghost use Rattle.std.specs.List.{list_any};
ghost use Rattle.tf_plan_data.specs.Words.{action_of, deposed_key, instance_key_of, addr_of, names_in, plan_names, plan_of, record_of, resource_of, step_of};
ghost use Rattle.tf_walk_buffers.specs.MetadataUpdates.{is_about, is_none, stays};
ghost use Rattle.tf_walk_buffers.specs.Unchanged.{unchanged_record, unchanged_record_of, unchanged_records, unchanged_records_at};

use std::alloc::{AllocError, Global};
use tf_config_address::{InstanceKey, ResourceAddr};
use tf_config_names::Declarations;
use tf_plan_data::{Action, Plan, Step};
use tf_plan_order::ResourceIndex;
use tf_state_data::{Record, Resource};

/// The record of an object without an action, whose block exists.
#[derive(Drop)]
pub(crate) struct UnchangedRecord<'p> {
    /// The address of its resource.
    pub(crate) addr: &'p ResourceAddr,
    /// The number of its resource, which is that of a name.
    pub(crate) number: usize,
    /// Its record in the prior state.
    pub(crate) kept: &'p Record,
}

/// Returns the records of a plan's prior state that stay, by the names of the plan's configuration. Each is looked up
/// once, because that scans all actions.
///
/// # Errors
///
/// Fails with `AllocError` if memory runs out.
pub(crate) fn unchanged_records<'p>(
    alloc: Global,
    plan: &'p Plan,
    names: &Declarations<'p>,
) -> Result<Vec<UnchangedRecord<'p>>, AllocError>
    requires names { names_in names.now ≡ plan_names (plan_of plan.now) }
    ensures { IfOk result (λ found. map unchanged_record_of found.items ≡ unchanged_records (plan_of plan.now)) }
{
    let mut found = Vec::new(alloc);
    if plan.prior.resources().is_empty() {
        return Ok(found);
    }
    let resource_index = ResourceIndex::new(alloc, names, &plan.prior)?;
    for resource in plan.prior.resources() {
        let number = resource_index.place(resource.addr());
        add_resource(&mut found, plan, names.len(), resource, number)?;
    }
    Ok(found)
}

/// Adds the records of a resource that stay, by its number and the count of names.
fn add_resource<'p>(
    found: &mut Vec<UnchangedRecord<'p>>,
    plan: &Plan,
    count: usize,
    resource: &'p Resource,
    number: Option<usize>,
) -> Result<(), AllocError>
    requires { count ≡ length (plan_names (plan_of plan.now)) }
    ensures { OnOk result (map unchanged_record_of found.new.items ≡ map unchanged_record_of found.old.items
        ++ unchanged_records_at (plan_of plan.now) (resource_of resource.now) number) }
{
    match number {
        Some(number) if number < count => {
            add_records(found, plan, resource.addr(), number, resource.records())
        }
        _ => Ok(()),
    }
}

/// Adds the records that stay, of a resource whose block exists.
fn add_records<'p>(
    found: &mut Vec<UnchangedRecord<'p>>,
    plan: &Plan,
    addr: &'p ResourceAddr,
    number: usize,
    records: &'p [Record],
) -> Result<(), AllocError>
    ensures { OnOk result (map unchanged_record_of found.new.items ≡ map unchanged_record_of found.old.items
        ++ map (unchanged_record (addr_of addr.now) number) (filter (stays (plan_of plan.now) number) (map record_of records.now))) }
{
    for kept in records {
        if stays(plan, number, kept) {
            found.push(UnchangedRecord { addr, number, kept })?;
        }
    }
    Ok(())
}

/// Checks whether a record of the resource with a number stays.
fn stays(plan: &Plan, number: usize, kept: &Record) -> bool
    ensures { result ≡ stays (plan_of plan.now) number (record_of kept.now) }
{
    kept.id.deposed.is_none() && !is_any_about(plan.actions.as_slice(), number, &kept.id.key)
}

/// Checks whether any action is about the current object of an instance.
fn is_any_about(actions: &[Action], number: usize, key: &InstanceKey) -> bool
    ensures { result ≡ list_any (is_about number (instance_key_of key.now)) (map action_of actions.now) }
{
    for action in actions {
        if is_about(number, key, action) {
            return true;
        }
    }
    false
}

/// Checks whether an action is about the current object of an instance.
fn is_about(number: usize, key: &InstanceKey, action: &Action) -> bool
    ensures { result ≡ is_about number (instance_key_of key.now) (action_of action.now) }
{
    action.resource == number && is_current(&action.step) && action.key == *key
}

/// Checks whether a step is about the current object of an instance.
fn is_current(step: &Step) -> bool
    ensures { result ≡ is_none (deposed_key (step_of step.now)) }
{
    !matches!(step, Step::DestroyDeposed(_, _))
}
