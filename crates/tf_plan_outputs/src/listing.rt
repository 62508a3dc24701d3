//! All planned changes of outputs.

ghost use Rattle.std.specs.Prelude.{◌≡◌, IfOk, map, option_map, string_bytes};
ghost use Rattle.tf_config_names.specs.Table.{names_in};
ghost use Rattle.tf_plan_data.specs.Fits.{FitsTogether};
ghost use Rattle.tf_plan_data.specs.Plan.{plan_names, plan_of};
ghost use Rattle.tf_plan_outputs.specs.Changes.{AreOutputChanges, IsOutputChange};
ghost use Rattle.tf_plan_outputs.specs.Objects.{objects_planned};
ghost use Rattle.tf_plan_outputs.specs.Views.{change_view};
ghost use Rattle.tf_value_data.specs.Tree.{get, tree_of};
ghost use Rattle.tf_walk_action.specs.SoFar.{ResolvedSoFar};

use crate::change::OutputChange;
use crate::names::output_names;
use crate::values::planned_value;
use std::alloc::{AllocError, Global};
use tf_config_names::Declarations;
use tf_expand_keys::Resolved;
use tf_expr_syntax::find;
use tf_plan_data::{Plan, Planned};
use tf_value_data::Value;

/// Returns the planned changes of outputs: one for each output that the configuration declares or the prior state has,
/// in byte order of their names. Outputs share the values of names, so each local is evaluated once.
///
/// # Errors
///
/// Fails only if memory runs out.
pub fn output_changes(alloc: Global, plan: &Planned) -> Result<Vec<OutputChange<'_>>, AllocError>
    ensures { IfOk result (λ made. AreOutputChanges (plan_of plan.now) (map change_view made.items)) }
{
    let plan = &plan.plan;
    let names = Declarations::new(alloc, &plan.config, &plan.dependence)?;
    changes_of(alloc, plan, &names)
}

/// Returns the planned changes of outputs, by the names of the plan's configuration.
fn changes_of<'a>(
    alloc: Global,
    plan: &'a Plan,
    names: &Declarations<'_>,
) -> Result<Vec<OutputChange<'a>>, AllocError>
    requires fits { FitsTogether plan.now }
    requires names { names_in names.now ≡ plan_names (plan_of plan.now) }
    ensures { IfOk result (λ made. AreOutputChanges (plan_of plan.now) (map change_view made.items)) }
{
    let mut resolved = Vec::new(alloc);
    let mut made = Vec::new(alloc);
    let listed = output_names(alloc, plan)?;
    for name in listed {
        made.push(change_of(alloc, plan, names, name, &mut resolved)?)?;
    }
    Ok(made)
}

/// Returns the planned change of the output with this name. `resolved` has the values of names so far, by index.
fn change_of<'a>(
    alloc: Global,
    plan: &'a Plan,
    names: &Declarations<'_>,
    name: String,
    resolved: &mut Vec<Resolved>,
) -> Result<OutputChange<'a>, AllocError>
    requires fits { FitsTogether plan.now }
    requires names { names_in names.now ≡ plan_names (plan_of plan.now) }
    requires so_far { ResolvedSoFar (plan_of plan.now) (objects_planned (plan_of plan.now)) resolved.old.items }
    ensures name { IfOk result (λ made. string_bytes made.name ≡ string_bytes name) }
    ensures change { IfOk result (λ made. IsOutputChange (plan_of plan.now) (change_view made)) }
    ensures so_far { ResolvedSoFar (plan_of plan.now) (objects_planned (plan_of plan.now)) resolved.new.items }
{
    let before = value_before(plan, name.as_str());
    let after = match find(&plan.config.outputs, name.as_str()) {
        Some(expr) => Some(planned_value(alloc, plan, names, expr, resolved)?),
        None => None,
    };
    Ok(OutputChange {
        name,
        before,
        after,
    })
}

/// Returns the value of an output in the prior state, if it has the output.
fn value_before<'a>(plan: &'a Plan, name: &str) -> Option<&'a Value>
    ensures { option_map (λ v. tree_of v.now) result ≡ get name.now (plan_of plan.now).prior.outputs }
{
    match plan.prior.outputs().get(name) {
        Some(output) => Some(&output.value),
        None => None,
    }
}
