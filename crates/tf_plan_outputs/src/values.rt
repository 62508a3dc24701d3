//! The values that a plan gives to outputs.

ghost use Rattle.std.specs.Prelude.{◌≡◌, IfOk, Ok};
ghost use Rattle.tf_config_names.specs.Table.{names_in};
ghost use Rattle.tf_expr_syntax.specs.ExprTree.{tree_of as expr_of};
ghost use Rattle.tf_plan_data.specs.Fits.{FitsTogether};
ghost use Rattle.tf_plan_data.specs.Plan.{plan_names, plan_of};
ghost use Rattle.tf_plan_outputs.specs.Changes.{IsPlannedValue, planned_with};
ghost use Rattle.tf_plan_outputs.specs.Objects.{objects_planned};
ghost use Rattle.tf_walk_action.specs.SoFar.{ResolvedSoFar};
ghost use Rattle.tf_value_data.specs.Tree.{tree_of};

use crate::objects::PlannedObjects;
use std::alloc::{AllocError, Global};
use tf_config_names::Declarations;
use tf_expand_keys::{Module, ModuleParts, Resolved};
use tf_expr_syntax::Expr;
use tf_plan_data::Plan;
use tf_value_data::{Value, is_within_limits};
use tf_walk_names::output_value;

/// Returns the value that a plan gives to an output. The value is unknown if the output's expression has a fault with
/// the planned values, or is beyond the limits. `resolved` has the values of names so far, by index.
pub(crate) fn planned_value(
    alloc: Global,
    plan: &Plan,
    names: &Declarations<'_>,
    expr: &Expr,
    resolved: &mut Vec<Resolved>,
) -> Result<Value, AllocError>
    requires fits { FitsTogether plan.now }
    requires names { names_in names.now ≡ plan_names (plan_of plan.now) }
    requires so_far { ResolvedSoFar (plan_of plan.now) (objects_planned (plan_of plan.now)) resolved.old.items }
    ensures value { IfOk result (λ value. IsPlannedValue (plan_of plan.now) (expr_of expr.now) (tree_of value)) }
    ensures so_far { ResolvedSoFar (plan_of plan.now) (objects_planned (plan_of plan.now)) resolved.new.items }
{
    let declared = Module {
        parts: ModuleParts {
            variables: &plan.variables,
            names,
            dependence: &plan.dependence,
        },
    };
    let objects = PlannedObjects {
        names,
        prior: &plan.prior,
        actions: plan.actions.as_slice(),
    };
    match output_value(
        alloc,
        &declared,
        plan.shapes.as_slice(),
        expr,
        &objects,
        resolved,
    )? {
        Ok(value) => Ok(within_limits(value)),
        Err(_) => Ok(Value::Unknown),
    }
}

/// Returns a value, or the unknown one if the value is beyond the limits.
fn within_limits(value: Value) -> Value
    ensures { tree_of result ≡ planned_with (Ok (tree_of value)) }
{
    if is_within_limits(&value) {
        value
    } else {
        Value::Unknown
    }
}
