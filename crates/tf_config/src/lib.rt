//! Configurations: reading them and checking their names, and the values of their variables.
//!
//! This crate is for users of the engine as a library. `read` returns a configuration whose names are checked, and
//! `read_vars` the value of each of its variables. A `Config` has its parts in `parts`: what the text declares, and which
//! name needs which. Both calls are those of `tf_cli_inputs`, over `tf_config_json`. `specs/Lib.antt` re-exports the
//! definitions of what they return and refuse.
#![tactic(auto)]

pub use tf_cli_inputs::{
    Configuration as Config, ConfigurationParts as ConfigParts, Vars, read_configuration as read,
    read_variables as read_vars,
};
pub use tf_config_address::{InstanceKey, ResourceAddr};
pub use tf_config_data::{
    Block, Config as Declared, Element, Lifecycle, Repetition, Variable, VariableType,
};
pub use tf_config_json::{
    blocks_are_in_order, blocks_have_names, faultless_trees_stand, names_are_few, refusals_are_one,
    values_are_one,
};
pub use tf_config_names::Dependence;
pub use tf_config_refusal::{Code, Detail, EvalFault, Refusal};
