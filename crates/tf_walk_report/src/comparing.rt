//! Checks whether the journal of a report agrees with the report.

ghost use Rattle.std.specs.Prelude.{◌≡◌, IsTrue, false, map};
ghost use Rattle.tf_plan_data.specs.Action.{action_of};
ghost use Rattle.tf_walk_report.specs.JournalTold.{AreCallsTold, IsJournalTold, IsSettled};

use crate::calls_told::{are_told, count_told};
use crate::operations::are_of_actions;
use crate::report::{Report, Walked};
use tf_graph::Graph;
use tf_plan_data::{Action, Plan};

/// Compares the journal of a report on a plan with the report's outcomes and excuses. Returns `Whole` exactly if the
/// journal holds the calls that these say were made, each once with its verdict and with its operation in the plan, no
/// call before one that it depends on. Otherwise returns `Torn`, with all else as it was. Takes no memory. If the
/// journal was made for this plan's graph, the time is linear in actions, pairs and entries, and for each excused
/// action in the excuses.
pub fn settle(plan: &Plan, report: Report) -> Walked
    ensures { IsSettled plan.now.order (map action_of plan.now.actions.items) report result }
{
    if is_journal_told(&report, plan.order.graph(), plan.actions.as_slice()) {
        Walked::Whole(report)
    } else {
        Walked::Torn(report)
    }
}

/// Checks whether the journal of a report agrees with the report, by the actions of its plan and their graph.
fn is_journal_told(report: &Report, graph: &Graph, actions: &[Action]) -> bool
    ensures told { IsTrue result → IsJournalTold graph.now (map action_of actions.now) report.now }
    ensures torn { result ≡ false → IsJournalTold graph.now (map action_of actions.now) report.now → ⊥ }
{
    if !report.journal.follows(graph) {
        return false;
    }
    let of_actions = are_of_actions(report.journal.entries(), actions);
    if !of_actions {
        return false;
    }
    are_calls_told(report)
}

/// Checks whether the journal of a report has the calls that the report says were made.
fn are_calls_told(report: &Report) -> bool
    ensures told { IsTrue result → AreCallsTold report.now.journal.graph report.now }
    ensures torn { result ≡ false → AreCallsTold report.now.journal.graph report.now → ⊥ }
{
    let entries = report.journal.entries();
    let outcomes = report.outcomes.as_slice();
    let excused = report.excused.as_slice();
    let all = are_told(entries, outcomes, excused);
    if !all {
        return false;
    }
    entries.len() == count_told(outcomes, excused)
}
