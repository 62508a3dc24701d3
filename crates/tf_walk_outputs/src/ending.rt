//! The evaluation of outputs after an apply.

ghost use Rattle.std.specs.Prelude.{◌≡◌, ◌≤◌, [], IfOk, Ok, length, true, vec_capacity};
ghost use Rattle.tf_expand_keys.specs.Words.{entries_view, has, has_no_set, IsTable, named_by, names_in, shapes_of, resolved_names_of, tree_of};
ghost use Rattle.tf_config_data.specs.Names.{places as places_of};
ghost use Rattle.tf_walk_outputs.specs.Keeping.{IsSameOrExcused, MayBeSaved, done_of};
ghost use Rattle.tf_walk_outputs.specs.Outputs.{AreOutputsEnded, IsOutputDone, done_with};
ghost use Rattle.tf_walk_names.specs.Resolving.{AreResolvedSoFar, IsOutput};
ghost use Rattle.tf_walk_outputs.specs.Buffers.{HavePlaces, outputs_in};
ghost use Rattle.tf_state_data.specs.State.{outputs_of};
ghost use Rattle.tf_expr_syntax.specs.ExprTree.{tree_of as expr_of};

use crate::ends::{EvaluatedOutput, OutputResult};
use crate::keeping::keep;
use crate::output_buffers::OutputBuffers;
use crate::settled::all_settled;
use std::alloc::{AllocError, Global};
use std::collections::BTreeMap;
use tf_expand_keys::{InstanceKeys, Module, Resolved};
use tf_expr_eval::EvalFault;
use tf_expr_syntax::Expr;
use tf_state_data::Object;
use tf_value_data::{Value, is_within_limits, with_nulls};
use tf_walk_names::{Results, output_value};

/// Evaluates all outputs. Returns their values by name, without null ones, and puts the outcome of each output into
/// `ends`, in the order of `rooms`. An output without a value keeps its entry in `kept`. `settled` says for each name's
/// index whether the name is settled, and `shapes` has the keys of its instances. This function can't fail: if memory
/// runs out for an output, that is the output's outcome. Outputs share the values of names, so each local is evaluated
/// once. If memory runs out for a value, the shared values are dropped, and the output is evaluated again by itself.
pub fn renew_outputs<R: Results>(
    alloc: Global,
    declared: &Module,
    shapes: &[InstanceKeys],
    rooms: Vec<OutputBuffers<'_>>,
    settled: &[bool],
    results: &R,
    kept: BTreeMap<String, Object>,
    ends: &mut Vec<OutputResult>,
) -> BTreeMap<String, Object>
    requires places { HavePlaces (names_in declared.now.names.now) rooms.items }
    requires none { ends.old.items ≡ [] }
    requires room { length rooms.items ≤ vec_capacity ends.old }
    ensures ended { AreOutputsEnded (entries_view declared.now.variables.now.entries) (names_in declared.now.names.now)
        (shapes_of shapes.now) (R.objects results.now) (has settled.now) (outputs_of kept.entries) (outputs_in rooms.entry.items) ends.new.items (outputs_of result.entries) }
    ensures stored { IsTable (outputs_of kept.entries) → IsTable (outputs_of result.entries) }
{
    let mut outputs = kept;
    let mut stood = Vec::new(alloc);
    for room in rooms {
        let OutputBuffers { name, expr, places } = room;
        let ended = end_output(
            alloc, declared, shapes, expr, &places, settled, results, &mut stood,
        );
        ends.push(keep(&mut outputs, name, ended)).unwrap();
    }
    outputs
}

/// Evaluates one output, by the indexes of the names in it. `stood` has the values of names so far.
fn end_output<R: Results>(
    alloc: Global,
    declared: &Module,
    shapes: &[InstanceKeys],
    expr: &Expr,
    places: &[usize],
    settled: &[bool],
    results: &R,
    stood: &mut Vec<Resolved>,
) -> EvaluatedOutput
    requires places { places.now ≡ places_of (names_in declared.now.names.now) (named_by (expr_of expr.now)) }
    requires answered { AreResolvedSoFar (entries_view declared.now.variables.now.entries) (names_in declared.now.names.now)
        (shapes_of shapes.now) (R.objects results.now) (resolved_names_of stood.old.items) }
    ensures answered { AreResolvedSoFar (entries_view declared.now.variables.now.entries) (names_in declared.now.names.now)
        (shapes_of shapes.now) (R.objects results.now) (resolved_names_of stood.new.items) }
    ensures done { IsOutputDone (entries_view declared.now.variables.now.entries) (names_in declared.now.names.now)
        (shapes_of shapes.now) (R.objects results.now) (has settled.now) (expr_of expr.now) (done_of result) }
    ensures stored { MayBeSaved (done_of result) }
{
    let _ = &declared.parts;
    if !all_settled(settled, places) {
        return EvaluatedOutput::NotEvaluated;
    }
    match shared_value(alloc, declared, shapes, expr, results, stood) {
        Err(_) => EvaluatedOutput::NoMemory,
        Ok(Err(fault)) => EvaluatedOutput::Faulted(fault),
        Ok(Ok(value)) => within_limits(value),
    }
}

/// Returns the value of an output, or the fault of its expression, by the values of names so far. If memory runs out
/// and there were such values, drops them and evaluates the output again by itself.
fn shared_value<R: Results>(
    alloc: Global,
    declared: &Module,
    shapes: &[InstanceKeys],
    expr: &Expr,
    results: &R,
    stood: &mut Vec<Resolved>,
) -> Result<Result<Value, EvalFault>, AllocError>
    requires answered { AreResolvedSoFar (entries_view declared.now.variables.now.entries) (names_in declared.now.names.now)
        (shapes_of shapes.now) (R.objects results.now) (resolved_names_of stood.old.items) }
    ensures answered { AreResolvedSoFar (entries_view declared.now.variables.now.entries) (names_in declared.now.names.now)
        (shapes_of shapes.now) (R.objects results.now) (resolved_names_of stood.new.items) }
    ensures output { IfOk result (λ output. IsOutput (entries_view declared.now.variables.now.entries) (names_in declared.now.names.now)
        (shapes_of shapes.now) (R.objects results.now) (expr_of expr.now) output) }
{
    let is_shared = !stood.is_empty();
    match output_value(alloc, declared, shapes, expr, results, stood) {
        Err(_) if is_shared => {
            stood.clear();
            output_value(alloc, declared, shapes, expr, results, stood)
        }
        answer => answer,
    }
}

/// Returns the outcome of an output with a value: `TooLarge` if the value is beyond the limits, or else the value with
/// null for each unknown part.
fn within_limits(value: Value) -> EvaluatedOutput
    requires { has_no_set (tree_of value) ≡ true }
    ensures done { IsSameOrExcused (done_with (Ok (tree_of value))) (done_of result) }
    ensures stored { MayBeSaved (done_of result) }
{
    if !is_within_limits(&value) {
        return EvaluatedOutput::Faulted(EvalFault::TooLarge);
    }
    EvaluatedOutput::Valued(Object {
        value: with_nulls(value),
    })
}
