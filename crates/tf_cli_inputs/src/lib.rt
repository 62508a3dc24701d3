//! Reading of the texts that a user gives: a configuration, the values of its variables, and the prior state.
#![tactic(auto)]

pub mod configuration;
mod reading;

pub use configuration::{
    Configuration, ConfigurationParts, Vars, read_configuration, read_variables,
};
pub use reading::{Inputs, at_state, read_texts};
