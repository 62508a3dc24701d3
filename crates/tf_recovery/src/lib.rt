//! The work of the programs `plan` and `apply`, with providers outside the program and with `sim` and `local_file`. Before it, they
//! recover an unfinished apply with these providers, which then answer from its log.
#![tactic(auto)]

mod applying;
mod approving;
mod carrying;
mod explaining;
mod failures;
mod outside;
mod planning;
mod printing;
mod recovering;
mod reporting;
mod settling;
mod walking;

pub use applying::apply;
pub use planning::plan;
pub use recovering::{preview, recover};
