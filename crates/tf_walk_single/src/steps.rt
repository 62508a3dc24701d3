//! The end of one action.

ghost use Rattle.std.specs.List.{list_all};
ghost use Rattle.std.specs.Prelude.{◌≡◌, ◌<◌, None, Some, is_some, length, map, option_map, slice_get, false, true, IfOk, IsSomeAnd, IsTrue, MatchOption};
ghost use Rattle.tf_walk_action.specs.Words.{action_of, action_results_of, ActionResultView, AreServed, asked, asks_fully, call_of, comes_of, config_of, action_result_of, done_at, ended_action, fault_of, FitsTogether, is_good, IsByFlag, IsRun, names_in, names_of, objects_seen, op_at, plan_of, predecessors_of, schema_in, seen_by, state_of};
ghost use Rattle.tf_walk_action.specs.AskedBy.{asked_by};
ghost use Rattle.tf_walk_action.specs.Outcome.{Requests, AreRequests, objects_by};
ghost use Rattle.tf_walk_single.specs.Ends.{Enters, IsEnd, IsSoFar, done_in, end_at};
ghost use Rattle.tf_walk_single.specs.ResolvedMemo.{IsTrueResolvedMemo};

use crate::calls::{first_not_good, make_call};
use crate::resolved_memo::ResolvedMemo;
use std::alloc::Global;
use tf_claim::{Finished, Permit};
use tf_config_names::Declarations;
use tf_plan_data::Plan;
use tf_provider::{Journal, Provider, first_provider};
use tf_walk_action::{
    ActionResult, Faulted, Going, NotGood, PreparedCall, ResultObjects, Stop, Unasked, ask_provider,
};

/// Ends a claimed action. Skips it if an action directly before it isn't good. Leaves it if the walk is to stop by
/// then. Excuses it if memory for its request runs out. Reports what is wrong if its request has a fault. Otherwise
/// calls its provider. `memo` is what is kept of earlier requests, for those that follow.
pub fn end_action(
    alloc: Global,
    plan: &Plan,
    names: &Declarations<'_>,
    providers: &[Box<dyn Provider + Sync>],
    results: &[Option<ActionResult>],
    journal: &mut Journal,
    stop: &Stop,
    memo: &mut ResolvedMemo,
    permit: Permit,
) -> (ActionResult, Finished)
    requires fits { FitsTogether plan.now }
    requires names { names_in names.now ≡ names_of (config_of plan.now.config) }
    requires served { AreServed (map meaning providers.now) (map action_of plan.now.actions.items) }
    requires so_far { IsSoFar (map meaning providers.now) (plan_of plan.now) (map (option_map action_result_of) results.now) journal.old.entries }
    requires free { end_at (map (option_map action_result_of) results.now) permit ≡ None }
    requires before { list_all (λ n. is_some (end_at (map (option_map action_result_of) results.now) n)) (predecessors_of plan.now.order permit) ≡ true }
    requires within { permit < length plan.now.actions.items }
    requires graph { journal.old.graph ≡ plan.now.order }
    requires memo { IsTrueResolvedMemo (plan_of plan.now) (map (option_map action_result_of) results.now) memo.old }
    ensures finished { result.1 ≡ permit }
    ensures action { ended_action result.0 ≡ permit }
    ensures flag { IsByFlag stop.now result.0 }
    ensures ended { (requests : Requests) → AreRequests (plan_of plan.now) requests → IsEnd (map meaning providers.now) requests (plan_of plan.now) permit
        (seen_by (done_in (map (option_map action_result_of) results.now)) (predecessors_of plan.now.order permit)) (action_result_of result.0) }
    ensures entered { Enters permit (op_at (map action_of plan.now.actions.items) permit) (action_result_of result.0) journal.old.entries journal.new.entries }
    ensures same_graph { journal.new.graph ≡ journal.old.graph }
    ensures memo { IsTrueResolvedMemo (plan_of plan.now) (map (option_map action_result_of) results.now) memo.new }
{
    let action = permit.action();
    if let Some(bad) = not_good_before(plan, results, memo, action) {
        return ActionResult::skipped(permit, bad);
    }
    let going = match stop.look() {
        Ok(going) => going,
        Err(stopped) => return ActionResult::left(permit, stopped),
    };
    match ask(alloc, plan, names, providers, results, memo, action) {
        Err(unasked) => ActionResult::not_asked(permit, unasked),
        Ok(Err(faulted)) => ActionResult::faulted(permit, faulted),
        Ok(Ok(asking)) => serve(providers, journal, permit, going, asking),
    }
}

/// Returns the evidence that an action directly before one isn't good, if there is such an action. Otherwise the memo
/// is for the given action from now on. All actions directly before it have ended. If the memo holds for it, they are
/// known to be good.
fn not_good_before(
    plan: &Plan,
    results: &[Option<ActionResult>],
    memo: &mut ResolvedMemo,
    action: usize,
) -> Option<NotGood>
    requires within { action < plan.now.order.nodes }
    requires sized { length results.now ≡ plan.now.order.nodes }
    requires ended { list_all (λ n. is_some (end_at (map (option_map action_result_of) results.now) n)) (predecessors_of plan.now.order action) ≡ true }
    requires memo { IsTrueResolvedMemo (plan_of plan.now) (map (option_map action_result_of) results.now) memo.old }
    ensures bad { MatchOption result
        ((list_all (λ n. is_good (done_in (map (option_map action_result_of) results.now) n)) (predecessors_of plan.now.order action) ≡ true)
        × (memo.new.action ≡ Some action))
        (λ _. list_all (λ n. is_good (done_in (map (option_map action_result_of) results.now) n)) (predecessors_of plan.now.order action) ≡ false) }
    ensures memo { IsTrueResolvedMemo (plan_of plan.now) (map (option_map action_result_of) results.now) memo.new }
{
    let order = plan.order.graph();
    if memo.is_reusable_for(order, action) {
        memo.action = Some(action);
        return None;
    }
    match first_not_good(results, order.predecessors(action)) {
        Some(bad) => Some(bad),
        None => {
            memo.begin(action);
            None
        }
    }
}

/// Builds the request of the action that the memo is for, or returns what is wrong with it, by the results of the
/// actions before it. Each outcome that this may have is one with which the action may end.
///
/// # Errors
///
/// Fails only if memory runs out. What the memo keeps is true then too.
fn ask(
    alloc: Global,
    plan: &Plan,
    names: &Declarations<'_>,
    providers: &[Box<dyn Provider + Sync>],
    results: &[Option<ActionResult>],
    memo: &mut ResolvedMemo,
    action: usize,
) -> Result<Result<PreparedCall, Faulted>, Unasked>
    requires fits { FitsTogether plan.now }
    requires names { names_in names.now ≡ names_of (config_of plan.now.config) }
    requires served { AreServed (map meaning providers.now) (map action_of plan.now.actions.items) }
    requires within { action < length plan.now.actions.items }
    requires own { memo.old.action ≡ Some action }
    requires memo { IsTrueResolvedMemo (plan_of plan.now) (map (option_map action_result_of) results.now) memo.old }
    ensures asked { IfOk result (λ made. (requests : Requests) (d : ActionResultView) → AreRequests (plan_of plan.now) requests
        → IsRun (comes_of (map meaning providers.now) (asked_by made)) d → IsEnd (map meaning providers.now) requests (plan_of plan.now) action
        (seen_by (done_in (map (option_map action_result_of) results.now)) (predecessors_of plan.now.order action)) d) }
    ensures served { IfOk result (λ made. IfOk made (λ asking.
        IsSomeAnd (schema_in (asked asking.request).type_name (map meaning providers.now)) (λ s. IsTrue (asks_fully (asked asking.request) s)))) }
    ensures op { IfOk result (λ made. IfOk made (λ asking. op_at (map action_of plan.now.actions.items) action ≡ Some (asked asking.request).op)) }
    ensures memo { IsTrueResolvedMemo (plan_of plan.now) (map (option_map action_result_of) results.now) memo.new }
{
    let actions = plan.actions.as_slice();
    let seen = seen_before(plan, names, results, action);
    let kept = &mut memo.kept;
    ask_provider(alloc, plan, names, providers, &actions[action], &seen, kept)
}

/// Returns what a request sees of the actions directly before its own.
fn seen_before<'a>(
    plan: &'a Plan,
    names: &'a Declarations<'a>,
    results: &'a [Option<ActionResult>],
    action: usize,
) -> ResultObjects<'a>
    requires names { names_in names.now ≡ names_of (config_of plan.now.config) }
    requires within { action < plan.now.order.nodes }
    ensures { objects_seen (names_in result.names.now) (state_of result.prior.now) (map action_of result.actions.now) (seen_by (done_at (action_results_of result.results.now)) result.seen.now)
        ≡ objects_by (plan_of plan.now) (seen_by (done_in (map (option_map action_result_of) results.now)) (predecessors_of plan.now.order action)) }
{
    ResultObjects {
        names,
        prior: &plan.prior,
        actions: plan.actions.as_slice(),
        seen: plan.order.graph().predecessors(action),
        results,
    }
}

/// Calls the first provider that has the type of a request, after a look at the walk's flag.
fn serve(
    providers: &[Box<dyn Provider + Sync>],
    journal: &mut Journal,
    permit: Permit,
    going: Going,
    asking: PreparedCall,
) -> (ActionResult, Finished)
    requires served { IsSomeAnd (schema_in (asked asking.request).type_name (map meaning providers.now)) (λ s. IsTrue (asks_fully (asked asking.request) s)) }
    requires within { permit < journal.old.graph.nodes }
    requires fits { fault_of journal.old permit ≡ None }
    ensures finished { result.1 ≡ permit }
    ensures action { ended_action result.0 ≡ permit }
    ensures flag { IsByFlag going result.0 }
    ensures ended { IsRun (call_of (map meaning providers.now) (asked asking.request)) (action_result_of result.0) }
    ensures entered { Enters permit (Some (asked asking.request).op) (action_result_of result.0) journal.old.entries journal.new.entries }
    ensures same_graph { journal.new.graph ≡ journal.old.graph }
{
    match first_provider(providers, asking.request.type_name.as_str()) {
        None => unreachable!(),
        Some(provider) => make_call(provider, journal, permit, going, asking),
    }
}
