//! The end of a walk: the report on all actions, with the journal of its calls.

ghost use Rattle.std.specs.Prelude.{◌≡◌, ◌+◌, List, [], None, map, replicate};
ghost use Rattle.std.specs.List.{AllByRecursion};
ghost use Rattle.tf_walk_action.specs.Journal.{IsOfAction};
ghost use Rattle.tf_walk_workers.specs.Calls.{HasParts, records_of};
ghost use Rattle.tf_walk_action.specs.Words.{FitsTogether, names_in, plan_names, plan_of};
ghost use Rattle.tf_walk_report.specs.Reserved.{AreReserved};
ghost use Rattle.tf_walk_report.specs.Report.{IsWalked, report_of};

use crate::fitting::demand_fit;
use std::alloc::Global;
use std::sync::Wait;
use tf_config_names::Declarations;
use tf_expand_keys::{Module, ModuleParts};
use tf_plan_data::Plan;
use tf_provider::{Journal, Provider};
use tf_tally::{Part, Tally};
use tf_walk_action::ActionResult;
use tf_walk_report::{ReportBuffers, Walked, report_of};
use tf_walk_workers::{CallRecord, Cells, WalkBrand};

/// Returns the report on a plan whose actions have all ended, from their cells, with the journal of their calls. The part is
/// all of the walk's tally but the cells' parts, and keeps what the journal has. It can't return out of memory.
pub(crate) fn report_walk<N: WalkBrand, R: Wait>(
    rt: &R,
    alloc: Global,
    plan: &Plan,
    names: &Declarations<'_>,
    providers: &[Box<dyn Provider + Sync>],
    buffers: ReportBuffers<'_>,
    cells: Cells<N>,
    mut results: Vec<Option<ActionResult>>,
    journal: Journal,
    tally: &Tally<CallRecord>,
    mut part: Part<CallRecord>,
) -> Walked
    requires tally { tally.now ≡ N.table }
    requires part { HasParts N.table part.holding.parts (records_of journal.entries) [] part }
    requires whole { part.holding.whole ≡ part.holding.parts + plan.now.order.nodes }
    requires ops { AllByRecursion (IsOfAction N.plan.actions) journal.entries }
    requires fits { FitsTogether plan.now }
    requires meanings { N.meanings ≡ map meaning providers.now }
    requires plan { N.plan ≡ plan_of plan.now }
    requires names { names_in names.now ≡ plan_names (plan_of plan.now) }
    requires buffers { AreReserved plan.now buffers }
    requires cells { cells ≡ plan.now.order.nodes }
    requires results { results.items ≡ replicate plan.now.order.nodes None }
    requires journal { journal.graph ≡ plan.now.order }
    ensures walked { IsWalked (map meaning providers.now) (plan_of plan.now) result }
    ensures journal { (report_of result).journal.graph ≡ plan.now.order }
{
    cells.take_out(tally, &mut part, &mut results);
    tally.audit(&mut part);
    let _entries = journal.entries();
    demand_fit(rt, plan.order.graph(), &results);
    let declared = Module {
        parts: ModuleParts {
            variables: &plan.variables,
            names,
            dependence: &plan.dependence,
        },
    };
    Walked::Whole(report_of(alloc, plan, &declared, providers, buffers, results, journal))
}
