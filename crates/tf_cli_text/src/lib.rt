//! What a program prints and writes of the engine's answer, and its exit status.
#![tactic(auto)]

mod applied;
mod printing;

pub use applied::{Applied, state_to_write};
pub use printing::{print, print_refused, show, show_rest};
