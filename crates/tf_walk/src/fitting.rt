//! Checks that the results of all actions fit together.

ghost use Rattle.std.specs.List.{list_all};
ghost use Rattle.std.specs.Prelude.{◌≡◌, ◌<◌, ℕ, All, IsTrue, length};
ghost use Rattle.tf_walk_workers.specs.Laws.{is_skipped};
ghost use Rattle.tf_walk_action.specs.ResultViews.{result_or_skipped, action_results_of};
ghost use Rattle.tf_walk_action.specs.Outcome.{done_at, is_good};
ghost use Rattle.tf_walk.specs.Fitting.{IsSkippedRightly, AreSkippedRightly};

use std::sync::Wait;
use std::thread;
use tf_graph::Graph;
use tf_walk_action::ActionResult;

/// Returns once each action is skipped exactly if one directly before it isn't good. No report would be true of results that
/// don't fit together, so it reads them again as long as they don't.
pub(crate) fn demand_fit<R: Wait>(rt: &R, order: &Graph, results: &[Option<ActionResult>])
    requires { length results.now ≡ order.now.nodes }
    ensures { AreSkippedRightly order.now (action_results_of results.now) }
{
    for _ in rt.forever() {
        if all_fit(order, results) {
            return;
        }
        thread::yield_now();
    }
    unreachable!()
}

/// Returns whether each action is skipped exactly if one directly before it isn't good.
fn all_fit(order: &Graph, results: &[Option<ActionResult>]) -> bool
    requires { length results.now ≡ order.now.nodes }
    ensures { IsTrue result → AreSkippedRightly order.now (action_results_of results.now) }
{
    for action in 0..order.nodes() {
        let fits = fits(order, results, action);
        if !fits {
            return false;
        }
    }
    true
}

/// Returns whether an action is skipped exactly if one directly before it isn't good.
fn fits(order: &Graph, results: &[Option<ActionResult>], action: usize) -> bool
    requires sized { length results.now ≡ order.now.nodes }
    requires within { action < order.now.nodes }
    ensures { IsTrue result → IsSkippedRightly order.now (action_results_of results.now) action }
{
    is_skipped_at(results, action) != are_good(results, order.predecessors(action))
}

/// Returns whether an action was skipped.
fn is_skipped_at(results: &[Option<ActionResult>], action: usize) -> bool
    requires { action < length results.now }
    ensures { result ≡ is_skipped (done_at (action_results_of results.now) action) }
{
    is_skipped(&results[action])
}

/// Returns whether each of some actions is good.
fn are_good(results: &[Option<ActionResult>], actions: &[usize]) -> bool
    requires { All (λ n. n < length results.now) actions.now }
    ensures { result ≡ list_all (λ n. is_good (done_at (action_results_of results.now) n)) actions.now }
{
    for action in actions {
        if !is_good(&results[*action]) {
            return false;
        }
    }
    true
}

/// Returns whether an action is good. One without a result isn't.
fn is_good(ended: &Option<ActionResult>) -> bool
    ensures { result ≡ is_good (result_or_skipped ended.now) }
{
    match ended {
        Some(ended) => ended.is_good(),
        None => false,
    }
}

/// Returns whether an action was skipped. An action without a result counts as skipped.
fn is_skipped(ended: &Option<ActionResult>) -> bool
    ensures { result ≡ is_skipped (result_or_skipped ended.now) }
{
    matches!(ended, None | Some(ActionResult::Skipped(_, _)))
}
