//! The outcomes of outputs, once all actions have ended.

ghost use Rattle.std.specs.Prelude.{◌≡◌, ◌<◌, ◌≤◌, ℕ, [], List, length, map, vec_capacity};
ghost use Rattle.tf_walk_action.specs.Words.{action_of, done_at, action_results_of, entries_view, has, IsTable, names_in, outputs_of, plan_of, seen_by};
ghost use Rattle.tf_walk_action.specs.Outcome.{objects_seen};
ghost use Rattle.tf_walk_outputs.specs.Outputs.{AreOutputsEnded};
ghost use Rattle.tf_walk_outputs.specs.Buffers.{HavePlaces, outputs_in};
ghost use Rattle.tf_walk_outputs.specs.Settled.{AreSettled};
ghost use Rattle.tf_walk_report.specs.Good.{are_good_at};
ghost use Rattle.tf_walk_report.specs.Settling.{AreEnded, IsReady};

use crate::good::note_good;
use std::alloc::Global;
use std::collections::BTreeMap;
use tf_expand_keys::Module;
use tf_plan_data::{Action, Plan};
use tf_state_data::Object;
use tf_walk_action::{ActionResult, ResultObjects};
use tf_walk_outputs::{OutputBuffers, OutputResult, renew_outputs, settle_names};

/// The buffers for outputs.
#[derive(Drop)]
pub struct Settling<'p> {
    /// For each name's index, a mark for whether all creates and updates of its resource are good.
    pub good: Vec<bool>,
    /// For each name's index, a mark for whether the name is settled.
    pub settled: Vec<bool>,
    /// The indexes of all actions.
    pub seen: Vec<usize>,
    /// The buffers for each output.
    pub rooms: Vec<OutputBuffers<'p>>,
    /// An empty list with capacity for the outcome of each output.
    pub ends: Vec<OutputResult>,
    /// The prior values of outputs that are still declared, by name.
    pub kept: BTreeMap<String, Object>,
}

/// The values of outputs by name, and the outcome of each output.
#[derive(Drop)]
pub struct OutputValues {
    pub values: BTreeMap<String, Object>,
    pub ends: Vec<OutputResult>,
}

/// Evaluates the outputs, by the results of the actions. If memory runs out for an output's value, that is the output's
/// outcome.
pub fn outputs_after(
    alloc: Global,
    plan: &Plan,
    declared: &Module,
    settling: Settling<'_>,
    results: &[Option<ActionResult>],
) -> OutputValues
    requires ready { IsReady (names_in declared.now.names.now) settling }
    requires sized { length results.now ≡ length plan.now.actions.items }
    ensures { AreEnded (entries_view declared.now.variables.now.entries) (names_in declared.now.names.now) (plan_of plan.now).shapes (plan_of plan.now).prior
        (plan_of plan.now).actions (action_results_of results.now) settling.entry result }
{
    let Settling {
        good,
        settled,
        seen,
        rooms,
        mut ends,
        kept,
    } = settling;
    let good = noted(good, plan.actions.as_slice(), results);
    let settled = settled_by(declared, &good, settled);
    let answered = ResultObjects {
        names: declared.parts.names,
        prior: &plan.prior,
        actions: plan.actions.as_slice(),
        seen: &seen,
        results,
    };
    let values = renew_outputs(
        alloc,
        declared,
        plan.shapes.as_slice(),
        rooms,
        &settled,
        &answered,
        kept,
        &mut ends,
    );
    OutputValues { values, ends }
}

/// Returns which resources have only good creates and updates, by the indexes of their names.
fn noted(mut good: Vec<bool>, actions: &[Action], results: &[Option<ActionResult>]) -> Vec<bool>
    requires { length results.now ≡ length actions.now }
    ensures length { length result.items ≡ length good.items }
    ensures good { (n : ℕ) → n < length good.items → has result.items n ≡ are_good_at (map action_of actions.now) (action_results_of results.now) n }
{
    note_good(&mut good, actions, results);
    good
}

/// Returns which names are settled, by their indexes.
fn settled_by(declared: &Module, good: &[bool], mut settled: Vec<bool>) -> Vec<bool>
    requires good { length good.now ≡ length (names_in declared.now.names.now) }
    requires settled { length settled.items ≡ length (names_in declared.now.names.now) }
    ensures { AreSettled (names_in declared.now.names.now) (has good.now) (has result.items) }
{
    settle_names(declared, good, &mut settled);
    settled
}
