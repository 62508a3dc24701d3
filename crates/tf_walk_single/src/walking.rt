//! The walk of one thread.

ghost use Rattle.std.specs.Prelude.{◌≡◌, ◌<◌, None, Some, map, option_map, length, slice_set};
ghost use Rattle.tf_walk_action.specs.Words.{action_of, AreServed, config_of, action_result_of, ended_action, FitsTogether, names_in, names_of, plan_of};
ghost use Rattle.tf_walk_single.specs.Ends.{AllHaveEnded, IsSoFar, IsStaged, end_at};

use crate::claims::{close, next_permit};
use crate::resolved_memo::ResolvedMemo;
use crate::steps::end_action;
use std::alloc::Global;
use std::mem;
use tf_claim::Book;
use tf_config_names::Declarations;
use tf_plan_data::Plan;
use tf_provider::{Journal, Provider};
use tf_walk_action::{ActionResult, Stop};

/// Takes every action of a plan to its end. Goes from the first on as long as an action may be claimed, and then again
/// from the first on. Once the walk is to stop, calls no further provider.
pub fn walk(
    alloc: Global,
    plan: &Plan,
    names: &Declarations<'_>,
    providers: &[Box<dyn Provider + Sync>],
    book: &mut Book,
    journal: &mut Journal,
    results: &mut [Option<ActionResult>],
    stop: &Stop,
)
    requires fits { FitsTogether plan.now }
    requires names { names_in names.now ≡ names_of (config_of plan.now.config) }
    requires served { AreServed (map meaning providers.now) (map action_of plan.now.actions.items) }
    requires so_far { IsSoFar (map meaning providers.now) (plan_of plan.now) (map (option_map action_result_of) results.old) journal.old.entries }
    requires staged { IsStaged book.old.stages (map (option_map action_result_of) results.old) }
    requires book { book.old.graph ≡ plan.now.order }
    requires graph { journal.old.graph ≡ plan.now.order }
    ensures so_far { IsSoFar (map meaning providers.now) (plan_of plan.now) (map (option_map action_result_of) results.new) journal.new.entries }
    ensures all { AllHaveEnded (plan_of plan.now) (map (option_map action_result_of) results.new) }
    ensures graph { journal.new.graph ≡ plan.now.order }
{
    let _order = plan.order.graph();
    let mut memo = ResolvedMemo::new(alloc);
    let mut from = 0;
    while let Some(permit) = next_permit(book, from) {
        let action = permit.action();
        let (ended, finished) = end_action(
            alloc, plan, names, providers, results, journal, stop, &mut memo, permit,
        );
        keep(results, action, ended);
        close(book, finished);
        from = action + 1;
    }
}

/// Stores the result of an action that has none yet.
fn keep(results: &mut [Option<ActionResult>], action: usize, ended: ActionResult)
    requires within { action < length results.old }
    requires free { end_at (map (option_map action_result_of) results.old) action ≡ None }
    requires own { ended_action ended ≡ action }
    ensures { results.new ≡ slice_set results.old action (Some ended) }
{
    match mem::replace(&mut results[action], Some(ended)) {
        None => {}
        Some(_) => unreachable!(),
    }
}
