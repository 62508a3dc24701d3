//! The changes of a plan: one for each object that it creates, updates, replaces or destroys. A replace is one change,
//! of two actions.
#![tactic(auto)]

mod change;
mod pairing;

pub use change::{Change, ChangeKind};
pub use pairing::changes;
