//! The values of outputs after an apply.

ghost use Rattle.std.specs.Prelude.{IfOk};
ghost use Rattle.tf_expand_keys.specs.Words.{Answers, entries_view, meaning, names_in, shapes_of, resolved_names_of};
ghost use Rattle.tf_expr_syntax.specs.ExprTree.{tree_of};
ghost use Rattle.tf_walk_names.specs.Resolving.{AreResolvedSoFar, IsOutput, without_sets};

use crate::results::Results;
use crate::sharing::add_resolved_names;
use std::alloc::{AllocError, Global};
use tf_expand_keys::{InstanceKeys, Module, NamesScope, Resolved};
use tf_expr_eval::{EvalFault, Scope, eval_expr};
use tf_expr_syntax::Expr;
use tf_value_data::{Value, with_lists};

/// Returns the value of an output after an apply, or the fault of its expression. The value is what the expression
/// means if resources have the objects that their providers returned, with the list of its texts in place of each set.
/// `shapes` has for each name's index the keys of its instances. Evaluates only locals, and copies only objects, that
/// the expression names directly or through locals.
///
/// `kept` has the values of names so far, by index, and is empty at first. The values of the names in the expression
/// are added to it, so outputs that share it have each local evaluated once.
///
/// # Errors
///
/// Fails with `AllocError` if memory runs out. What `kept` holds is right then too, and may be more than before.
pub fn output_value<R: Results>(
    alloc: Global,
    declared: &Module,
    shapes: &[InstanceKeys],
    expr: &Expr,
    results: &R,
    kept: &mut Vec<Resolved>,
) -> Result<Result<Value, EvalFault>, AllocError>
    requires answered { AreResolvedSoFar (entries_view declared.now.variables.now.entries) (names_in declared.now.names.now)
        (shapes_of shapes.now) (R.objects results.now) (resolved_names_of kept.old.items) }
    ensures output { IfOk result (λ output. IsOutput (entries_view declared.now.variables.now.entries) (names_in declared.now.names.now)
        (shapes_of shapes.now) (R.objects results.now) (tree_of expr.now) output) }
    ensures answered { AreResolvedSoFar (entries_view declared.now.variables.now.entries) (names_in declared.now.names.now)
        (shapes_of shapes.now) (R.objects results.now) (resolved_names_of kept.new.items) }
{
    let named = declared.parts.names.named_in(alloc, expr)?;
    add_resolved_names(alloc, declared, shapes, named.as_slice(), results, kept)?;
    let scope = NamesScope {
        variables: declared.parts.variables,
        names: declared.parts.names,
        resolved_names: kept.as_slice(),
    };
    listed_value(alloc, expr, &scope)
}

/// Returns what an expression means, with the list of its texts in place of each set.
fn listed_value<S: Scope>(
    alloc: Global,
    expr: &Expr,
    scope: &S,
) -> Result<Result<Value, EvalFault>, AllocError>
    ensures { IfOk result (λ answer. Answers (without_sets (meaning (S.environment scope.now) (tree_of expr.now))) answer) }
{
    match eval_expr(alloc, expr, scope) {
        Ok(value) => Ok(Ok(with_lists(alloc, value)?)),
        Err(EvalFault::OutOfMemory) => Err(AllocError),
        Err(fault) => Ok(Err(fault)),
    }
}
