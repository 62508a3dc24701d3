//! The instances of a configuration's resources.
//!
//! This crate is for users of the engine as a library. `expand` returns the instance keys of each resource, or the refusal.
//! It calls the expansion of `tf_expand_keys`, as a plan does.
#![tactic(auto)]

mod expanded;
mod expansion;
mod look_up;

pub use expanded::Expanded;
pub use expansion::expand;
pub use tf_cli_inputs::{Configuration as Config, Vars};
pub use tf_config_address::{InstanceKey, ResourceAddr};
pub use tf_config_refusal::{Code, Detail, EvalFault, Refusal};
pub use tf_expand_keys::{InstanceKeys, MAX_INSTANCES};
pub use tf_plan_planner::Refused;
