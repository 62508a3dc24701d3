//! Carries out a plan: calls each action once, when every action that it depends on is good, records the call and reports its
//! outcome.
//!
//! `run_one` does this on one thread, `run` with several workers, which share claims, result cells and hints
//! (`tf_walk_workers`). After the workers are joined, `run` compares the journal with the results and reports them.
#![tactic(auto)]

mod ending;
mod fitting;
mod many;
mod prepared;
mod prepared_many;
mod single;

pub use many::{MOST_WORKERS, run, run_and_close};
pub use single::run_one;
pub use tf_walk_action::{Excuse, Outcome, Stop};
pub use tf_walk_report::{Diagnostic, Report, Walked, settle};
