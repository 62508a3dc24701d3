//! The values of names.

ghost use Rattle.std.specs.Prelude.{◌≡◌, IfOk, Some, is_some};
ghost use Rattle.tf_expr_eval.specs.Meaning.{and_then};
ghost use Rattle.tf_expr_operators.specs.Answer.{Shows, limited};
ghost use Rattle.tf_expr_syntax.specs.ExprTree.{tree_of as expr_of};
ghost use Rattle.tf_expand_keys.specs.Words.{meaning, or_missing, resolved_of};

use std::alloc::{AllocError, Global};
use tf_expr_eval::{Bounded, EvalFault, Scope, eval_bounded};
use tf_expr_syntax::Expr;
use tf_value_data::Value;

/// What a local or a resource resolves to.
#[derive(Debug, Drop)]
pub enum Resolved {
    /// Nothing: the resource is refused, or a name that it needs doesn't resolve.
    Nothing,
    /// A value, which is within the limits.
    Value(Bounded),
    /// A fault, reported at every reference. Out of memory is not one.
    Fault(EvalFault),
}

impl Resolved {
    /// Checks whether there is a value or a fault.
    pub fn is_there(&self) -> bool
        ensures { result ≡ is_some (resolved_of self.now) }
    {
        match self {
            Resolved::Nothing => false,
            Resolved::Value(_) | Resolved::Fault(_) => true,
        }
    }

    /// Borrows the value.
    ///
    /// # Errors
    ///
    /// Fails with the fault, or with `Missing` if there is nothing.
    pub fn shown(&self) -> Result<&Value, EvalFault>
        ensures { Shows (and_then (or_missing (resolved_of self.now)) limited) result }
    {
        match self {
            Resolved::Nothing => Err(EvalFault::Missing),
            Resolved::Value(bounded) => Ok(bounded.value()),
            Resolved::Fault(fault) => Err(*fault),
        }
    }
}

/// Evaluates the expression of a local.
///
/// # Errors
///
/// Fails only if memory runs out.
pub fn evaluated<S: Scope>(alloc: Global, expr: &Expr, scope: &S) -> Result<Resolved, AllocError>
    ensures { IfOk result (λ resolved. resolved_of resolved ≡ Some (meaning (S.environment scope.now) (expr_of expr.now))) }
{
    match eval_bounded(alloc, expr, scope) {
        Ok(bounded) => Ok(Resolved::Value(bounded)),
        Err(EvalFault::OutOfMemory) => Err(AllocError),
        Err(fault) => Ok(Resolved::Fault(fault)),
    }
}
