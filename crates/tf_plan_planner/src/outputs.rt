//! The refusals of outputs.

ghost use Rattle.std.specs.Prelude.{◌≡◌, ◌++◌, OnOk, map};
ghost use Rattle.tf_plan_data.specs.Words.{entries_view, names_in, resolved_names_of};
ghost use Rattle.tf_plan_planner.specs.Outputs.{output_refusal, output_refusals};
ghost use Rattle.tf_config_refusal.specs.Refusal.{refusal_of};
ghost use Rattle.tf_expr_syntax.specs.ExprTree.{entries_view as expressions_view, tree_of};

use crate::faults::evaluation;
use std::alloc::{AllocError, Global};
use std::collections::BTreeMap;
use tf_config_refusal::Refusal;
use tf_expand_keys::{Module, NamesScope, Resolved, all_stand};
use tf_expr_eval::{EvalFault, find_expr};
use tf_expr_syntax::Expr;

/// Adds the refusals of outputs, by these resolved names.
pub(crate) fn add_outputs(
    alloc: Global,
    refusals: &mut Vec<Refusal>,
    declared: &Module,
    kept: &[Resolved],
    outputs: &BTreeMap<String, Expr>,
) -> Result<(), AllocError>
    ensures { OnOk result (map refusal_of refusals.new.items ≡ map refusal_of refusals.old.items
        ++ output_refusals (entries_view declared.now.variables.now.entries) (names_in declared.now.names.now) (resolved_names_of kept.now) (expressions_view outputs.now.entries)) }
{
    for (name, expr) in outputs.iter() {
        add_output(alloc, refusals, declared, kept, name.as_str(), expr)?;
    }
    Ok(())
}

/// Adds the refusal of an output whose value can't be evaluated, if all that it refers to resolves.
fn add_output(
    alloc: Global,
    refusals: &mut Vec<Refusal>,
    declared: &Module,
    kept: &[Resolved],
    name: &str,
    expr: &Expr,
) -> Result<(), AllocError>
    ensures { OnOk result (map refusal_of refusals.new.items ≡ map refusal_of refusals.old.items
        ++ output_refusal (entries_view declared.now.variables.now.entries) (names_in declared.now.names.now) (resolved_names_of kept.now) name.now (tree_of expr.now)) }
{
    let named = declared.parts.names.named_in(alloc, expr)?;
    if !all_stand(kept, named.as_slice()) {
        return Ok(());
    }
    let scope = NamesScope {
        variables: declared.parts.variables,
        names: declared.parts.names,
        resolved_names: kept,
    };
    match find_expr(alloc, expr, &scope) {
        Ok(_) => Ok(()),
        Err(EvalFault::OutOfMemory) => Err(AllocError),
        Err(why) => {
            let place = format!(in alloc; "output.{name}")?;
            refusals.push(evaluation(place, why))?;
            Ok(())
        }
    }
}
