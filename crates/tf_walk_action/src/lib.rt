//! One action of a plan that is carried out: its request and its outcome.
//!
//! The request for an instance is the object that is planned for it, evaluated again with each resource that it needs
//! as its providers answered (`tf_walk_names`). One rule says when an action is skipped, excused, faulted or called.
//! Its result is stored until it is reported. The space for messages about a reply is allocated before the call. The
//! flag that stops a walk is also here.
#![tactic(auto)]

mod action_result;
mod answered;
mod asks;
mod ends;
mod excuse;
pub mod laws;
mod messages;
mod not_good;
mod objects;
mod prepared_call;
mod recorded;
mod requests;
mod rooms;
mod stop;
mod timely;
mod unasked;

pub use action_result::{ActionResult, Faulted, Served, not_ended};
pub use answered::{ResultObjects, applies_to, prior_object};
pub use asks::ask_provider;
pub use excuse::{Excuse, Outcome};
pub use not_good::NotGood;
pub use prepared_call::PreparedCall;
pub use recorded::ended_by;
pub use stop::{Going, InTime, Stop, Stopped, stops_are_shared};
pub use timely::call_in_time;
pub use unasked::{Unasked, room_for_results};
