//! Expressions: reading them from JSON, and their values in a scope.
//!
//! This crate is for users of the engine as a library. It re-exports `tf_expr_json`, which reads templates and expressions, and
//! `tf_expr_eval`, which evaluates them. A `Scope` lends the value of each reference to `eval` and `eval_expr`. A `LookUp`
//! returns it as a value of the caller's own; `eval_with` and `eval_expr_with` take it, or a `Scope`, since each `Scope` is a
//! `LookUp`.
#![tactic(auto)]

mod evaluating;
pub mod laws;
mod looked;
mod lookup;

pub use evaluating::{eval_expr_with, eval_with};
pub use looked::{Looked, looked_up, looked_up_expr};
pub use lookup::LookUp;
pub use tf_expr_eval::{
    Bounded, Constant, Constants, EvalFault, Found, Scope, eval, eval_bounded, eval_expr,
    find as find_value, find_expr,
};
pub use tf_expr_json::{
    Expr, ExprCause, ExprFault, MAX_DEPTH, Operator, Prefix, ReadFault, Reference, Template, Term,
    copy, copy_expr, find, functions, read_expr, read_expr_at, read_template, references,
};
pub use tf_expr_operators::{limited, limited_at};
