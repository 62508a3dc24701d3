//! Evaluation in scopes that return values of the caller's own.

ghost use Rattle.tf_expr_eval.specs.ExprMeaning.{meaning};
ghost use Rattle.tf_expr_eval.specs.Meaning.{template_meaning};
ghost use Rattle.tf_expr_operators.specs.Answer.{Gives};
ghost use Rattle.tf_expr_syntax.specs.ExprTree.{tree_of};
ghost use Rattle.tf_expr_syntax.specs.TemplateTree.{template_view};

use crate::looked::{looked_up, looked_up_expr};
use crate::lookup::LookUp;
use std::alloc::Global;
use tf_expr_eval::{EvalFault, eval, eval_expr};
use tf_expr_syntax::{Expr, Template};
use tf_value_data::Value;

/// Evaluates a template in a scope that returns values of the caller's own. Each reference is looked up once, before the
/// evaluation.
///
/// # Errors
///
/// Fails with the first fault of its parts from left to right, as `eval` reports it: the fault of a reference that isn't evaluated is
/// not reported. `OutOfMemory` if memory runs out, also while a reference is looked up that isn't evaluated.
pub fn eval_with<S: LookUp>(
    alloc: Global,
    template: &Template,
    scope: &S,
) -> Result<Value, EvalFault>
    ensures { Gives (template_meaning (S.environment scope.now) (template_view template.now)) result }
{
    let looked = looked_up(alloc, template, scope)?;
    eval(alloc, template, &looked)
}

/// Evaluates an expression in a scope that returns values of the caller's own. Each reference is looked up once, before the
/// evaluation.
///
/// # Errors
///
/// Fails with the first fault of its parts, as `eval_expr` reports it: the fault of a reference that isn't evaluated is not reported.
/// `OutOfMemory` if memory runs out, also while a reference is looked up that isn't evaluated.
pub fn eval_expr_with<S: LookUp>(alloc: Global, expr: &Expr, scope: &S) -> Result<Value, EvalFault>
    ensures { Gives (meaning (S.environment scope.now) (tree_of expr.now)) result }
{
    let looked = looked_up_expr(alloc, expr, scope)?;
    eval_expr(alloc, expr, &looked)
}
