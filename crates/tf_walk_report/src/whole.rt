//! The report on a plan that was carried out.

ghost use Rattle.std.specs.Prelude.{◌≡◌, List, length, map};
ghost use Rattle.tf_walk_action.specs.Words.{action_results_of, entries_view, FitsTogether, names_in, op_of, plan_names, plan_of};
ghost use Rattle.tf_walk_outputs.specs.Outputs.{OutputResultView};
ghost use Rattle.tf_walk_report.specs.ActionReport.{AreJudged};
ghost use Rattle.tf_walk_report.specs.Reserved.{AreReserved};
ghost use Rattle.tf_walk_report.specs.Report.{IsTold};

use crate::additions::report_actions;
use crate::gather::{count_good, tell_excuses, tell_outcomes};
use crate::outputs::{tell_output_excuses, tell_outputs};
use crate::report::Report;
use crate::reserving::{ReportBuffers, ReportLists};
use crate::settling::{OutputValues, outputs_after};
use std::alloc::Global;
use tf_expand_keys::Module;
use tf_plan_data::Plan;
use tf_provider::{Journal, Provider};
use tf_state_next::state_after;
use tf_walk_action::ActionResult;

/// Builds the report on a plan from the result of each of its actions, in action order. Has no error for running out of
/// memory: it allocates only for the values of outputs, and reports a failed allocation on that output.
pub fn report_of(
    alloc: Global,
    plan: &Plan,
    declared: &Module,
    providers: &[Box<dyn Provider + Sync>],
    buffers: ReportBuffers<'_>,
    results: Vec<Option<ActionResult>>,
    journal: Journal,
) -> Report
    requires names { names_in declared.now.names.now ≡ plan_names (plan_of plan.now) }
    requires variables { entries_view declared.now.variables.now.entries ≡ (plan_of plan.now).variables }
    requires dependence { declared.now.dependence.now ≡ plan.now.dependence }
    requires fits { FitsTogether plan.now }
    requires buffers { AreReserved plan.now buffers }
    requires sized { length results.items ≡ length plan.now.actions.items }
    requires judged { AreJudged (map meaning providers.now) (map (λ a. op_of a.step) (plan_of plan.now).actions) (action_results_of results.items) }
    ensures told { (outputs : List OutputResultView) × IsTold (map meaning providers.now) (plan_of plan.now) (action_results_of results.items) outputs result }
    ensures journal { result.journal ≡ journal }
{
    let _nodes = plan.order.graph().nodes();
    let ReportBuffers {
        lists,
        rooms,
        draft,
        mut events,
        settling,
        output_texts,
    } = buffers;
    let ReportLists {
        mut outcomes,
        mut diagnostics,
        mut excused,
    } = lists;
    tell_outcomes(&mut outcomes, &results);
    tell_excuses(&mut excused, &results);
    let good = count_good(plan.actions.as_slice(), &results);
    let OutputValues { values, ends } = outputs_after(alloc, plan, declared, settling, &results);
    report_actions(providers, rooms, results, &mut events, &mut diagnostics);
    tell_output_excuses(&mut excused, &ends);
    tell_outputs(output_texts, ends, &mut diagnostics);
    Report {
        state: state_after(draft, events, values),
        outcomes,
        diagnostics,
        journal,
        excused,
        good,
    }
}
