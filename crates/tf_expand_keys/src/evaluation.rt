//! Values of expressions, with out of memory as an error of its own.

ghost use Rattle.std.specs.Prelude.{IfOk};
ghost use Rattle.tf_expr_operators.specs.Found.{FindsExactly};
ghost use Rattle.tf_expr_syntax.specs.ExprTree.{tree_of};
ghost use Rattle.tf_expr_eval.specs.ExprMeaning.{meaning};

use std::alloc::{AllocError, Global};
use tf_expr_eval::{EvalFault, Found, Scope, find_expr};
use tf_expr_syntax::Expr;

/// Returns the value or the fault of an expression, borrowing the value if possible. Out of memory is not a fault: the
/// function returns it as its error.
pub(crate) fn valued<'a, S: Scope>(
    alloc: Global,
    expr: &Expr,
    scope: &'a S,
) -> Result<Result<Found<'a>, EvalFault>, AllocError>
    ensures { IfOk result (λ answer. FindsExactly (meaning (S.environment scope.now) (tree_of expr.now)) answer) }
{
    match find_expr(alloc, expr, scope) {
        Ok(value) => Ok(Ok(value)),
        Err(EvalFault::OutOfMemory) => Err(AllocError),
        Err(fault) => Ok(Err(fault)),
    }
}
