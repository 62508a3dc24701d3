//! The state as data: resources by address, and the records of each resource's objects, by id.
//!
//! The types ensure that resources and records are in order, without duplicates. So a look-up is a binary search, and
//! a put can't create a duplicate.
#![tactic(auto)]

mod copies;
mod laws;
mod object;
mod provider;
mod record;
mod resource;
mod state;

pub use copies::copy;
pub use laws::{puts_and_removes_change_one_record, puts_and_removes_change_one_resource};
pub use object::Object;
pub use provider::provider_address;
pub use record::Record;
pub use resource::Resource;
pub use state::State;
