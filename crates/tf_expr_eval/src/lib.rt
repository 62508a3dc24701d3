//! The meaning of templates and expressions.
//!
//! The definitions are in `specs/Meaning.antt` and `specs/ExprMeaning.antt`: by recursion on the tree of a template
//! or an expression, in an environment that gives each reference a value or a fault. A `Scope` is such an environment
//! in code, and `eval` and `eval_expr` return the meaning's value or fault. If the values of the references refine to
//! others, the value of the whole does too (`knowledge_grows`, `expr_knowledge_grows`).
#![tactic(auto)]

mod constants;
mod evaluation;
mod expressions;
mod laws;
mod scope;

pub use constants::{Constant, Constants};
pub use evaluation::{eval, find};
pub use expressions::{eval_bounded, eval_expr, find_expr};
pub use laws::{expr_knowledge_grows, knowledge_grows, meaning_is_local, values_are_within_limits};
pub use scope::Scope;
pub use tf_expr_operators::{Bounded, EvalFault, Found};
