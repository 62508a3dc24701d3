//! The planned changes of outputs: for each output that the configuration declares or the prior state has, its value
//! in the prior state and the value that the plan gives it.
#![tactic(auto)]

mod change;
pub mod laws;
mod listing;
mod names;
mod objects;
mod values;

pub use change::{OutputAction, OutputChange};
pub use listing::output_changes;
