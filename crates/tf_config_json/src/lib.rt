//! Reading a configuration, and the values of its input variables.
//!
//! A configuration is one JSON object in Terraform's JSON syntax. `read` returns the configuration, or the first fault
//! in the order of the checks: the file's size, JSON, the walk over the properties in byte order, the limits on
//! variables, locals, outputs and resource blocks. `tf_config_names` checks afterwards whether its names are known.
//! `read_vars` returns the value of each declared variable, converted to its type: the value in the variables file, or
//! else the default. Or it returns the first fault in the order of the checks: the file's size, JSON, its literals in
//! byte order of names, the first variable without a value that fits.
#![tactic(auto)]

mod arrays;
mod bodies;
mod demand;
mod kinds;
mod laws;
mod literals;
mod objects;
mod reading;
mod types;
mod values;
mod variable_laws;
mod variables;
mod words;

pub use laws::{
    blocks_are_in_order, blocks_have_names, faultless_trees_stand, names_are_few, refusals_are_one,
};
pub use reading::read;
pub use tf_config_data::{Block, Config, Element, Lifecycle, Repetition, Variable, VariableType};
pub use tf_config_refusal::{Code, Detail, EvalFault, Refusal};
pub use variable_laws::values_are_one;
pub use variables::read_vars;
