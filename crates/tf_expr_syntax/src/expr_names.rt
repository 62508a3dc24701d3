//! The names and calls in an expression.

ghost use Rattle.std.specs.Prelude.{◌≡◌, IfOk, OnOk, map, string_bytes};
ghost use Rattle.tf_expr_syntax.specs.Adding.{Adds};
ghost use Rattle.tf_expr_syntax.specs.ExprNames.{called_below, called_by, named_below, named_by};
ghost use Rattle.tf_expr_syntax.specs.ExprTree.{entries_view, tree_of};
ghost use Rattle.tf_expr_syntax.specs.TemplateNames.{reference_of};

use crate::expr::Expr;
use crate::names::{Names, add_parts, copied_references, copied_texts};
use crate::tree::Reference;
use std::alloc::{AllocError, Global};
use std::collections::BTreeMap;

impl Expr {
    /// Returns what the expression's templates name and call, in walk order, by reference: no text is copied.
    ///
    /// # Errors
    ///
    /// Fails only if memory runs out.
    pub fn names_within(&self, alloc: Global) -> Result<Names<'_>, AllocError>
        ensures named { IfOk result (λ n. map (λ r. reference_of r.now) n.references.items ≡ named_by (tree_of self.now)) }
        ensures called { IfOk result (λ n. map (λ f. string_bytes f.now) n.functions.items ≡ called_by (tree_of self.now)) }
    {
        let mut found = Names::new(alloc);
        add(self, &mut found)?;
        Ok(found)
    }

    /// Returns copies of the references in the expression's templates, in walk order, with repetition.
    ///
    /// # Errors
    ///
    /// Fails only if memory runs out.
    pub fn references(&self, alloc: Global) -> Result<Vec<Reference>, AllocError>
        ensures { IfOk result (λ v. map reference_of v.items ≡ named_by (tree_of self.now)) }
    {
        let names = self.names_within(alloc)?;
        copied_references(alloc, names.references.as_slice())
    }

    /// Returns copies of the names of the functions that the expression's templates call, in walk order, with
    /// repetition. A call comes before the calls among its arguments.
    ///
    /// # Errors
    ///
    /// Fails only if memory runs out.
    pub fn functions(&self, alloc: Global) -> Result<Vec<String>, AllocError>
        ensures { IfOk result (λ v. map string_bytes v.items ≡ called_by (tree_of self.now)) }
    {
        let names = self.names_within(alloc)?;
        copied_texts(alloc, names.functions.as_slice())
    }
}

#[cycle(names)]
fn add<'a>(expr: &'a Expr, found: &mut Names<'a>) -> Result<(), AllocError>
    ensures { OnOk result (Adds found.old found.new (named_by (tree_of expr.now)) (called_by (tree_of expr.now))) }
{
    match expr {
        Expr::Null | Expr::Bool(_) | Expr::Int(_) => Ok(()),
        Expr::Template(template) => add_parts(&template.parts, found),
        Expr::List(exprs) => {
            for expr in exprs {
                add(expr, found)?;
            }
            Ok(())
        }
        Expr::Map(entries) => add_entries(entries, found),
    }
}

#[cycle(names)]
fn add_entries<'a>(
    entries: &'a BTreeMap<String, Expr>,
    found: &mut Names<'a>,
) -> Result<(), AllocError>
    ensures { OnOk result (Adds found.old found.new (named_below (entries_view entries.now.entries)) (called_below (entries_view entries.now.entries))) }
{
    for (_, expr) in entries.iter() {
        add(expr, found)?;
    }
    Ok(())
}
