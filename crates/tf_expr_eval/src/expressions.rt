//! Evaluation of expressions.

ghost use Rattle.tf_value_data.specs.Tree.{entries_view as entries_of_values};
ghost use Rattle.tf_expr_operators.specs.Answer.{Gives};
ghost use Rattle.tf_expr_operators.specs.Bounded.{GivesBounded};
ghost use Rattle.tf_expr_operators.specs.Found.{Finds};
ghost use Rattle.tf_expr_eval.specs.Answering.{GivesAs};
ghost use Rattle.tf_expr_eval.specs.ExprMeaning.{meaning, below};
ghost use Rattle.tf_expr_syntax.specs.ExprTree.{tree_of, entries_view};

use crate::evaluation::{eval, find};
use crate::laws::values_are_within_limits;
use crate::scope::Scope;
use std::alloc::Global;
use std::collections::BTreeMap;
use tf_expr_operators::{Bounded, EvalFault, Found, list, made, map};
use tf_expr_syntax::Expr;
use tf_value_data::Value;

/// Evaluates an expression in a scope.
///
/// # Errors
///
/// Fails with the first fault of its parts, elements in order and properties in byte order of their names; with
/// `TooLarge` if a list or a map is beyond the limits on values; or with `OutOfMemory`.
#[cycle(eval)]
pub fn eval_expr<S: Scope>(alloc: Global, expr: &Expr, scope: &S) -> Result<Value, EvalFault>
    ensures { Gives (meaning (S.environment scope.now) (tree_of expr.now)) result }
{
    match expr {
        Expr::Null => Ok(Value::Null),
        Expr::Bool(truth) => Ok(Value::Bool(*truth)),
        Expr::Int(number) => Ok(Value::Int(*number)),
        Expr::Template(template) => eval(alloc, template, scope),
        Expr::List(exprs) => {
            let mut values = Vec::with_capacity(alloc, exprs.len())?;
            for part in exprs {
                values.push(eval_expr(alloc, part, scope)?)?;
            }
            list(values)
        }
        Expr::Map(entries) => map(eval_entries(alloc, entries, scope)?),
    }
}

/// Evaluates the expressions of a map.
#[cycle(eval)]
fn eval_entries<S: Scope>(
    alloc: Global,
    entries: &BTreeMap<String, Expr>,
    scope: &S,
) -> Result<BTreeMap<String, Value>, EvalFault>
    ensures { GivesAs (λ m. entries_of_values m.entries) (below (S.environment scope.now) (entries_view entries.now.entries)) result }
{
    let mut values = BTreeMap::new(alloc);
    for (key, expr) in entries.iter() {
        let value = eval_expr(alloc, expr, scope)?;
        let name = key.clone()?;
        drop(values.insert(name, value)?);
    }
    Ok(values)
}

/// Evaluates an expression in a scope. A template's value that the scope owns isn't copied.
///
/// # Errors
///
/// Fails as `eval_expr`.
pub fn find_expr<'a, S: Scope>(
    alloc: Global,
    expr: &Expr,
    scope: &'a S,
) -> Result<Found<'a>, EvalFault>
    ensures { Finds (meaning (S.environment scope.now) (tree_of expr.now)) result }
{
    match expr {
        Expr::Template(template) => find(alloc, template, scope),
        _ => made(eval_expr(alloc, expr, scope)),
    }
}

/// Evaluates an expression in a scope and returns the value with its proved limits, so it isn't measured again.
///
/// # Errors
///
/// Fails as `eval_expr`.
pub fn eval_bounded<S: Scope>(alloc: Global, expr: &Expr, scope: &S) -> Result<Bounded, EvalFault>
    ensures { GivesBounded (meaning (S.environment scope.now) (tree_of expr.now)) result }
{
    values_are_within_limits();
    let value = eval_expr(alloc, expr, scope)?;
    Ok(Bounded::of(value))
}
