//! A configuration as data: its declarations, by name.
//!
//! It has variables, locals, outputs and resource blocks, as in Terraform's configuration language. Expressions are
//! trees of `tf_expr_syntax`. The definitions in `specs/` give each part as plain data (`Config`), and what names mean
//! and refer to (`Names`). The crates that read a text define how it is read as a configuration.
#![tactic(auto)]

mod config;
mod variable;

pub use config::{Block, Config, Lifecycle, Repetition};
pub use variable::{Element, Variable, VariableType};
