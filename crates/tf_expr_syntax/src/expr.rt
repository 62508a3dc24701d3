//! Trees of expressions.

ghost use Rattle.std.specs.Prelude.{◌≡◌, option_map};
ghost use Rattle.tf_expr_syntax.specs.ExprTree.{entries_view, get, tree_of};

use crate::tree::Template;
use std::collections::BTreeMap;

/// An expression: a JSON tree whose texts are templates.
#[derive(Debug, Drop)]
pub enum Expr {
    /// `null`
    Null,
    /// `true` or `false`
    Bool(bool),
    /// A whole number.
    Int(i64),
    /// A text, which is a template.
    Template(Template),
    /// An array: expressions in order.
    List(Vec<Expr>),
    /// An object: expressions by property name, in byte order of the names. The names are literal.
    Map(BTreeMap<String, Expr>),
}

/// Returns the expression of a name, or `None` if the name has no expression.
pub fn find<'a>(entries: &'a BTreeMap<String, Expr>, name: &str) -> Option<&'a Expr>
    ensures { option_map (λ e. tree_of e.now) result ≡ get name.now (entries_view entries.now.entries) }
{
    entries.get(name)
}
