//! Syntax trees of templates and expressions.
//!
//! A template is a text with interpolations, such as `net-${var.name}`, and an expression is a JSON tree whose texts
//! are templates. The definitions in `specs/` say what each tree is as plain data, how deep it is and how tightly it
//! binds (`TemplateTree`, `ExprTree`), and what it names and calls (`TemplateNames`, `ExprNames`). The crates that
//! read texts and JSON trees say which of them are a template or an expression.
#![tactic(auto)]

mod copies;
mod expr;
mod expr_copies;
mod expr_names;
mod fault;
mod function;
mod names;
mod operator;
mod tree;

pub use copies::copy;
pub use expr::{Expr, find};
pub use expr_copies::copy_expr;
pub use fault::EvalFault;
pub use function::Function;
pub use names::{Names, functions, names_of, references};
pub use operator::Operator;
pub use tree::{Prefix, Reference, Template, Term};
