//! Copies, written out since a derived one says nothing of a type that holds itself.

ghost use Rattle.std.specs.Prelude.{◌≡◌, IfOk};
ghost use Rattle.tf_expr_syntax.specs.ExprTree.{tree_of, trees_view, entries_view};

use crate::expr::Expr;
use std::alloc::AllocError;
use std::collections::BTreeMap;
use std::default::Emptied;

impl Clone for Expr {
    ghost is_clone = { λ e f. tree_of f ≡ tree_of e };

    #[cycle(copy)]
    fn clone(&self) -> Result<Expr, AllocError> {
        match self {
            Expr::Null => Ok(Expr::Null),
            Expr::Bool(truth) => Ok(Expr::Bool(*truth)),
            Expr::Int(number) => Ok(Expr::Int(*number)),
            Expr::Template(template) => Ok(Expr::Template(template.clone()?)),
            Expr::List(exprs) => Ok(Expr::List(copy_list(exprs)?)),
            Expr::Map(entries) => Ok(Expr::Map(copy_entries(entries)?)),
        }
    }
}

/// Returns an equal expression.
///
/// # Errors
///
/// Fails only if memory runs out.
pub fn copy_expr(expr: &Expr) -> Result<Expr, AllocError>
    ensures { IfOk result (λ e. tree_of e ≡ tree_of expr.now) }
{
    expr.clone()
}

#[cycle(copy)]
fn copy_list(exprs: &Vec<Expr>) -> Result<Vec<Expr>, AllocError>
    ensures { IfOk result (λ v. trees_view v.items ≡ trees_view exprs.now.items) }
{
    let mut copies = Vec::with_capacity(*exprs.allocator(), exprs.len())?;
    for expr in exprs {
        copies.push(expr.clone()?)?;
    }
    Ok(copies)
}

#[cycle(copy)]
fn copy_entries(entries: &BTreeMap<String, Expr>) -> Result<BTreeMap<String, Expr>, AllocError>
    ensures { IfOk result (λ m. entries_view m.entries ≡ entries_view entries.now.entries) }
{
    let mut copies = BTreeMap::emptied(entries)?;
    for (key, expr) in entries.iter() {
        let name = key.clone()?;
        drop(copies.insert(name, expr.clone()?)?);
    }
    Ok(copies)
}
