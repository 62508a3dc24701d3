#![tactic(auto)]

//! Values as JSON: the form of each value, how it is read, and the one text of a value that is sent.

mod fault;
mod laws;
mod layout;
mod reading;
mod sending;
mod writing;

pub use fault::JsonFault;
pub use laws::{forms_are_one, forms_read_back, read_trees_are_sorted, texts_read_back};
pub use layout::text;
pub use reading::{from_json, tree_from};
pub use sending::AsJson;
pub use writing::{entries_to_json, to_json};
