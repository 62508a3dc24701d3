//! What is known before the first call of each action of a plan, and of each record whose metadata is updated. So the
//! outcomes of the actions are reported and saved without taking memory.
#![tactic(auto)]

mod buffers;
mod dependencies;
mod needed;
mod reserving_actions;
mod spreading;
mod unchanged;
mod updating;

pub use buffers::{ActionBuffers, Target};
pub use reserving_actions::reserve_actions;
pub use updating::metadata_updates_for;
