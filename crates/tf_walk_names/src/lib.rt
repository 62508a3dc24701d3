//! The values of names in an apply, with the objects that providers returned for resources, and the values of outputs.
#![tactic(auto)]

mod named;
mod outputs;
mod resolved;
mod resources;
mod results;
mod sharing;
mod wanted;

pub use named::named_for_instance;
pub use outputs::output_value;
pub use results::Results;
pub use sharing::add_resolved_names;
