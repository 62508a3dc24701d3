//! The text of a state in Terraform's state file format, version 4: reading it, writing it, and the laws of both.
#![tactic(auto)]

mod body;
mod fault;
mod laws;
mod reading;
mod record_reading;
mod record_writing;
mod resource_reading;
mod shape;
mod types;
mod value_reading;
mod writing;

pub use fault::StateFault;
pub use laws::{
    new_states_are_valid, puts_and_removes_keep_states_valid, read_states_are_valid,
    texts_are_of_one, texts_read_back,
};
pub use reading::{is_plannable, read};
pub use tf_state_data::{Object, Record, Resource, State, copy, provider_address};
pub use writing::write;
