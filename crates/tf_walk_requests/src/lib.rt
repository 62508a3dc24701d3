//! The requests of a plan's actions, as the replies to earlier requests come. `PlanProgress` returns each request once it can be made:
//! when each action directly before its action ended well. It is for an apply whose replies come from other programs, so that a call
//! can't wait for its reply. `request_of` builds the request of one action from the objects of others.
#![tactic(auto)]

mod instances;
mod memo;
mod progress;
mod ready;
mod replies;
mod requesting;
mod results;
mod stage;

pub use progress::PlanProgress;
pub use requesting::request_of;
pub use results::Results;
