//! The workers that carry out a plan, and what they share besides claims.
//!
//! A hint says what a worker may look at next. Each worker has its own hints, and steals from others if it has none.
//! A hint is a number below a bound, whichever worker gave it. Result cells hold the result of each action. It is
//! published once, and workers read it to build later requests. A worker reads the results before its action, builds
//! the request, calls the provider, records the call, and publishes the result. Then it looks for the next action,
//! until all have ended.
#![tactic(auto)]

mod asking;
mod before;
mod bound;
mod call_record;
mod calls;
mod cells;
mod hinting;
mod hints;
mod kept;
pub mod laws;
mod log;
mod memo;
mod progress;
mod publishing;
mod reading;
mod result_cells;
mod seeing;
mod shared;
mod sharing;
mod steps;
mod walk_brand;
mod worker;

pub use before::{Before, SeenResult};
pub use bound::{HintBound, PlanBound};
pub use call_record::CallRecord;
pub use cells::{Cells, Unpublished};
pub use hinting::Hinting;
pub use hints::{HintStealer, Hints};
pub use log::{Log, Logged, Unlogged, logs_are_shared};
pub use memo::Memo;
pub use progress::WalkProgress;
pub use publishing::{Published, WalkClaims};
pub use reading::Reading;
pub use result_cells::ResultCells;
pub use shared::{BorrowedInput, SharedWalk, WalkInput, WorkerEnd, WorkerState};
pub use sharing::share_out;
pub use steps::WorkerContext;
pub use walk_brand::WalkBrand;
