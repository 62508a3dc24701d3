//! Reading of templates and expressions.
//!
//! An expression is a JSON tree whose texts are templates. The definitions in `specs/` say what a JSON tree has to be
//! (`Reading`: checks in walk order) and which expression it is. `read_expr` returns that expression, or the first
//! fault with its place. `tf_expr_syntax` defines the trees, and `tf_expr_template` reads templates; this crate
//! re-exports what readers need of both. `tf_expr_eval` defines what a tree means, and no reader depends on it.
#![tactic(auto)]

mod demand;
pub mod fault;
pub mod laws;
mod reading;
mod refusing;

pub use fault::{ExprCause, ExprFault};
pub use reading::{read_expr, read_expr_at};
pub use tf_expr_syntax::{
    Expr, Operator, Prefix, Reference, Template, Term, copy, copy_expr, find, functions, references,
};
pub use tf_expr_template::{MAX_DEPTH, ReadFault, read_template};
