//! The calls of the programs `plan` and `apply`: the session with providers outside the program, the providers that answer from a log,
//! and the providers whose calls are logged, counted and printed.
#![tactic(auto)]

mod calls;
mod closing;
mod context;
mod laws;
mod own;
mod pipes;
mod remotes;
mod repeating;
mod replaying;
mod results;
mod session;
mod watched;

pub use context::{ApplyContext, ApplyLog};
pub use laws::made_calls_have_begun;
pub use pipes::{Pipe, check_pipes, open_pipes};
pub use remotes::read_types;
pub use repeating::{repeat_idempotent, without_idempotent};
pub use replaying::{ReplayedProviders, replayed_providers};
pub use results::add_results;
pub use session::Session;
pub use watched::{WatchedFiles, WatchedProviders, WatchedSim, watched_providers};
