//! Configurations and resource blocks.

use crate::variable::Variable;
use std::collections::BTreeMap;
use tf_config_address::ResourceAddr;
use tf_expr_syntax::Expr;

/// A configuration: its declarations, by name.
#[derive(Debug, Drop)]
pub struct Config {
    /// The input variables.
    pub variables: BTreeMap<String, Variable>,
    /// The expression of each local value.
    pub locals: BTreeMap<String, Expr>,
    /// The expression of each output's value.
    pub outputs: BTreeMap<String, Expr>,
    /// Each block under its type and name. Addresses are ordered by type, then by name.
    pub resources: BTreeMap<ResourceAddr, Block>,
}

/// The contents of a resource block.
#[derive(Debug, Drop)]
pub struct Block {
    /// How many instances it has.
    pub repetition: Repetition,
    /// The resources that it names in `depends_on`, in the order of the text, possibly with duplicates.
    pub depends_on: Vec<ResourceAddr>,
    /// How its objects are replaced and kept.
    pub lifecycle: Lifecycle,
    /// The arguments by name.
    pub arguments: BTreeMap<String, Expr>,
}

/// How many instances a resource block has.
#[derive(Debug, Drop)]
pub enum Repetition {
    /// One, without a key.
    Single,
    /// As many as the value of `count`.
    Count(Expr),
    /// One for each key of the value of `for_each`.
    ForEach(Expr),
}

/// The contents of a block's `lifecycle`.
#[derive(Debug, Drop)]
pub struct Lifecycle {
    /// A replacement is created before the old object is destroyed.
    pub create_before_destroy: bool,
    /// A plan that would replace or delete an object is refused.
    pub prevent_destroy: bool,
    /// The attributes whose changes are ignored, in the order of the text, possibly with duplicates.
    pub ignore_changes: Vec<String>,
}
