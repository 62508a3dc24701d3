//! Reading of templates and expressions.
//!
//! A template is a text with interpolations, such as `net-${var.name}`. The definitions in `specs/` say which trees a
//! text spells. `Token` and `Literal` define the front of a text by longest match, and `Spelling` the grammar, by
//! recursion on the tree. `read_template` returns a tree exactly if the text spells one that is no deeper than
//! `MAX_DEPTH`, unless memory runs out. A text spells at most one tree, and each tree that some text spells has a
//! canonical text (`Canonical`, `laws`). The trees are defined in `tf_expr_syntax`.
#![tactic(auto)]

mod fault;
pub mod laws;
mod literal;
mod make;
mod reader;
mod scan;
mod template;
mod token;
mod word;

pub use template::{MAX_DEPTH, ReadFault, read_template};
