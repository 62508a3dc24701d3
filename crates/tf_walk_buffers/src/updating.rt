//! The metadata updates of objects for which nothing is planned: what their resources need, and whether those are late.

ghost use Rattle.std.specs.Prelude.{◌≡◌, ◌<◌, None, IfOk, length, map};
ghost use Rattle.std.specs.List.{AllByRecursion};
ghost use Rattle.tf_plan_data.specs.Words.{names_in, plan_names, plan_of};
ghost use Rattle.tf_walk_buffers.specs.Needed.{IsListed};
ghost use Rattle.tf_state_next.specs.Events.{metadata_update_of};
ghost use Rattle.tf_walk_buffers.specs.MetadataUpdates.{metadata_updates};
ghost use Rattle.tf_walk_buffers.specs.Unchanged.{HasNumberBelow, IsResourceAsked, metadata_update_of_unchanged, unchanged_record_of, unchanged_records};

use crate::dependencies::dependencies_listed;
use crate::needed::needed_lists;
use crate::reserving_actions::is_late;
use crate::unchanged::{UnchangedRecord, unchanged_records};
use std::alloc::{AllocError, Global};
use tf_config_names::Declarations;
use tf_graph::NodeSet;
use tf_plan_data::Plan;
use tf_state_next::{MetadataUpdate, RecordInput};

/// Returns the metadata updates of a plan, by the names of its configuration: those of the records without an action
/// whose blocks exist. If there are no such records, nothing is made.
///
/// # Errors
///
/// Fails with `AllocError` if memory runs out.
pub fn metadata_updates_for<'p>(
    alloc: Global,
    plan: &'p Plan,
    names: &Declarations<'p>,
) -> Result<Vec<MetadataUpdate<'p>>, AllocError>
    requires names { names_in names.now ≡ plan_names (plan_of plan.now) }
    ensures { IfOk result (λ found. map metadata_update_of found.items ≡ metadata_updates (plan_of plan.now)) }
{
    let unchanged = unchanged_records(alloc, plan, names)?;
    if unchanged.is_empty() {
        return Ok(Vec::new(alloc));
    }
    updates_of(alloc, plan, names, unchanged.as_slice())
}

/// Returns the metadata updates of records that stay. What their resources need is listed for all of them together.
fn updates_of<'p>(
    alloc: Global,
    plan: &Plan,
    names: &Declarations<'_>,
    unchanged: &[UnchangedRecord<'p>],
) -> Result<Vec<MetadataUpdate<'p>>, AllocError>
    requires names { names_in names.now ≡ plan_names (plan_of plan.now) }
    requires below { AllByRecursion (HasNumberBelow (length (plan_names (plan_of plan.now)))) (map unchanged_record_of unchanged.now) }
    ensures { IfOk result (λ found. map metadata_update_of found.items
        ≡ map (metadata_update_of_unchanged (plan_of plan.now)) (map unchanged_record_of unchanged.now)) }
{
    let asked = asked_for(alloc, unchanged, names.len())?;
    let lists = needed_lists(alloc, names, &plan.dependence, &asked)?;
    let mut found = Vec::with_capacity(alloc, unchanged.len())?;
    for one in unchanged {
        found.push(update_of(alloc, plan, names, lists.as_slice(), one)?)?;
    }
    Ok(found)
}

/// Returns the numbers of the resources of some records, among `count` names.
fn asked_for(
    alloc: Global,
    unchanged: &[UnchangedRecord<'_>],
    count: usize,
) -> Result<NodeSet, AllocError>
    requires { AllByRecursion (HasNumberBelow count) (map unchanged_record_of unchanged.now) }
    ensures length { IfOk result (λ asked. length asked ≡ count) }
    ensures asked { IfOk result (λ asked. AllByRecursion (IsResourceAsked asked) (map unchanged_record_of unchanged.now)) }
{
    let mut asked = NodeSet::new(alloc, count)?;
    for one in unchanged {
        asked.insert(one.number);
    }
    Ok(asked)
}

/// Returns the metadata update of a record.
fn update_of<'p>(
    alloc: Global,
    plan: &Plan,
    names: &Declarations<'_>,
    lists: &[Vec<usize>],
    unchanged: &UnchangedRecord<'p>,
) -> Result<MetadataUpdate<'p>, AllocError>
    requires names { names_in names.now ≡ plan_names (plan_of plan.now) }
    requires listed { IsListed (plan_of plan.now).needs (plan_names (plan_of plan.now)) unchanged.now.number lists.now }
    ensures { IfOk result (λ update. metadata_update_of update ≡ metadata_update_of_unchanged (plan_of plan.now) (unchanged_record_of unchanged.now)) }
{
    let kept = unchanged.kept;
    let number = unchanged.number;
    let given = RecordInput {
        key: kept.id.key.clone()?,
        schema_version: kept.schema_version,
        dependencies: dependencies_listed(alloc, names, lists, number)?,
        create_before_destroy: is_late(plan, number),
        deposed_key: None,
    };
    Ok(MetadataUpdate {
        addr: unchanged.addr,
        given,
    })
}
