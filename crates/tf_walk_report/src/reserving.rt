//! Reserves all memory that the report needs, before the first call.

ghost use Rattle.std.specs.Prelude.{◌≡◌, ◌+◌, ◌≤◌, ◌++◌, ◌∷◌, [], IfOk, OnOk, if◌then◌else◌, length, map, vec_capacity, vec_len};
ghost use Rattle.std.specs.List.{range_with_len};
ghost use Rattle.tf_walk_action.specs.Words.{action_of, FitsTogether, is_apply, IsTable, addr_of, names_in, outputs_of, plan_names, plan_of};
ghost use Rattle.tf_state_next.specs.Events.{metadata_update_of};
ghost use Rattle.tf_state_next.specs.StateDraft.{IsStateDraft};
ghost use Rattle.tf_walk_buffers.specs.MetadataUpdates.{metadata_updates};
ghost use Rattle.tf_walk_outputs.specs.Outputs.{kept_entries};
ghost use Rattle.tf_walk_outputs.specs.Buffers.{outputs_in};
ghost use Rattle.tf_walk_report.specs.Reserved.{AreEmptyEvents, AreEmptyLists, AreReserved, applied_addrs};
ghost use Rattle.tf_walk_report.specs.Settling.{IsReady};

use crate::diagnostic::Diagnostic;
use crate::outputs::texts_for;
use crate::settling::Settling;
use crate::texts::OutputTexts;
use std::alloc::{AllocError, Global};
use tf_config_address::ResourceAddr;
use tf_config_names::Declarations;
use tf_plan_data::{Action, Plan};
use tf_state_next::{Events, StateDraft, draft_state};
use tf_walk_action::{Excuse, Outcome};
use tf_walk_buffers::{ActionBuffers, metadata_updates_for, reserve_actions};
use tf_walk_outputs::{kept_outputs, reserve_outputs};

/// All memory that the report on a plan needs. What actions change may not be dropped, so neither may the events that
/// hold it.
pub struct ReportBuffers<'p> {
    pub(crate) lists: ReportLists,
    pub(crate) rooms: Vec<ActionBuffers<'p>>,
    pub(crate) draft: StateDraft<'p>,
    pub(crate) events: Events<'p>,
    pub(crate) settling: Settling<'p>,
    pub(crate) output_texts: Vec<OutputTexts>,
}

/// Lists with capacity for what is reported.
#[derive(Drop)]
pub struct ReportLists {
    pub outcomes: Vec<Outcome>,
    pub diagnostics: Vec<Diagnostic>,
    pub excused: Vec<Excuse>,
}

/// Reserves all memory that the report on a plan needs, by the names of the plan's configuration. Is given no provider,
/// so it calls no provider.
///
/// # Errors
///
/// Fails with `AllocError` if memory runs out.
pub fn reserve_report<'p>(
    alloc: Global,
    plan: &'p Plan,
    names: &Declarations<'p>,
) -> Result<ReportBuffers<'p>, AllocError>
    requires names { names_in names.now ≡ plan_names (plan_of plan.now) }
    requires fits { FitsTogether plan.now }
    ensures { IfOk result (AreReserved plan.now) }
{
    let rooms = reserve_actions(alloc, plan, names)?;
    let draft = draft_of(alloc, plan)?;
    let settling = settling_for(alloc, plan, names)?;
    let output_texts = texts_for(alloc, &plan.config.outputs)?;
    let lists = lists_for(alloc, plan.actions.len(), output_texts.len())?;
    let events = events_for(alloc, plan, names)?;
    Ok(ReportBuffers {
        lists,
        rooms,
        draft,
        events,
        settling,
        output_texts,
    })
}

/// Returns lists with capacity for what is reported of the given numbers of actions and outputs.
fn lists_for(alloc: Global, actions: usize, outputs: usize) -> Result<ReportLists, AllocError>
    ensures { IfOk result (AreEmptyLists actions outputs) }
{
    Ok(ReportLists {
        outcomes: Vec::with_capacity(alloc, actions)?,
        diagnostics: with_both(alloc, actions, outputs)?,
        excused: with_both(alloc, actions, outputs)?,
    })
}

/// Returns the metadata updates, and lists with capacity for what each action changes.
fn events_for<'p>(
    alloc: Global,
    plan: &'p Plan,
    names: &Declarations<'p>,
) -> Result<Events<'p>, AllocError>
    requires names { names_in names.now ≡ plan_names (plan_of plan.now) }
    requires fits { FitsTogether plan.now }
    ensures empty { IfOk result (AreEmptyEvents (vec_len plan.now.actions)) }
    ensures metadata_updates { IfOk result (λ e. map metadata_update_of e.metadata_updates.items ≡ metadata_updates (plan_of plan.now)) }
{
    let metadata_updates = metadata_updates_for(alloc, plan, names)?;
    let applies = Vec::with_capacity(alloc, plan.actions.len())?;
    match Vec::with_capacity(alloc, plan.actions.len()) {
        Ok(destroys) => Ok(Events {
            destroys,
            applies,
            metadata_updates,
        }),
        Err(AllocError) => {
            applies.destroy_empty();
            Err(AllocError)
        }
    }
}

/// Returns the draft of the state after the actions of a plan.
fn draft_of(alloc: Global, plan: &Plan) -> Result<StateDraft<'_>, AllocError>
    ensures { IfOk result (IsStateDraft (plan_of plan.now).prior (applied_addrs (plan_of plan.now).actions)) }
{
    let addrs = addrs_of(alloc, plan.actions.as_slice())?;
    draft_state(alloc, &plan.prior, &addrs)
}

/// Returns the resources of creates and updates, as often as there are such actions.
fn addrs_of(alloc: Global, actions: &[Action]) -> Result<Vec<&ResourceAddr>, AllocError>
    ensures { IfOk result (λ addrs. map (λ l. addr_of l.now) addrs.items ≡ applied_addrs (map action_of actions.now)) }
{
    let mut addrs = Vec::new(alloc);
    for action in actions {
        add_addr(&mut addrs, action)?;
    }
    Ok(addrs)
}

/// Adds the resource of an action, if that creates or updates an object.
fn add_addr<'a>(addrs: &mut Vec<&'a ResourceAddr>, action: &'a Action) -> Result<(), AllocError>
    ensures { OnOk result (map (λ l. addr_of l.now) addrs.new.items ≡ map (λ l. addr_of l.now) addrs.old.items
        ++ (if is_apply (action_of action.now).step then (action_of action.now).addr ∷ [] else [])) }
{
    if action.step.is_apply() {
        addrs.push(&action.addr)?;
    }
    Ok(())
}

/// Returns the buffers for the outputs of a plan.
fn settling_for<'p>(
    alloc: Global,
    plan: &'p Plan,
    names: &Declarations<'_>,
) -> Result<Settling<'p>, AllocError>
    ensures ready { IfOk result (IsReady (names_in names.now)) }
    ensures kept { IfOk result (λ s. outputs_of s.kept.entries ≡ kept_entries (plan_of plan.now).config.outputs (plan_of plan.now).prior.outputs) }
    ensures stored { IfOk result (λ s. IsTable (plan_of plan.now).prior.outputs → IsTable (outputs_of s.kept.entries)) }
    ensures seen { IfOk result (λ s. s.seen.items ≡ range_with_len 0 (vec_len plan.now.actions)) }
    ensures outputs { IfOk result (λ s. outputs_in s.rooms.items ≡ (plan_of plan.now).config.outputs) }
{
    let rooms = reserve_outputs(alloc, names, &plan.config.outputs)?;
    Ok(Settling {
        good: unmarked(alloc, names.len())?,
        settled: unmarked(alloc, names.len())?,
        seen: places(alloc, plan.actions.len())?,
        ends: Vec::with_capacity(alloc, rooms.len())?,
        kept: kept_outputs(alloc, plan.prior.outputs(), &plan.config.outputs)?,
        rooms,
    })
}

/// Returns an empty list with capacity for two numbers of items together.
fn with_both<T: Drop>(alloc: Global, first: usize, second: usize) -> Result<Vec<T>, AllocError>
    ensures none { IfOk result (λ v. v.items ≡ []) }
    ensures room { IfOk result (λ v. first + second ≤ vec_capacity v) }
{
    let mut items = Vec::with_capacity(alloc, first)?;
    match first.checked_add(second) {
        Some(both) => items.reserve(both)?,
        None => return Err(AllocError),
    }
    Ok(items)
}

/// Returns the given number of marks, all unset.
fn unmarked(alloc: Global, count: usize) -> Result<Vec<bool>, AllocError>
    ensures { IfOk result (λ v. length v.items ≡ count) }
{
    let mut marks = Vec::with_capacity(alloc, count)?;
    for _ in 0..count {
        marks.push(false)?;
    }
    Ok(marks)
}

/// Returns the indexes of the given number of actions.
fn places(alloc: Global, count: usize) -> Result<Vec<usize>, AllocError>
    ensures { IfOk result (λ v. v.items ≡ range_with_len 0 count) }
{
    let mut places = Vec::with_capacity(alloc, count)?;
    for place in 0..count {
        places.push(place)?;
    }
    Ok(places)
}
