//! The names of a configuration: what each means, and what it refers to directly.
//!
//! A name is a local value or a resource. Each has a place, by which it is numbered: locals in byte order of their
//! names, then resources in address order. `tf_config_data` defines what names mean and refer to.
#![tactic(auto)]

mod cycles;
mod declaration;
mod dependence;
mod judging;
mod known_names;
mod places;
mod properties;
mod table;

pub use cycles::demand_acyclic;
pub use declaration::Declaration;
pub use dependence::Dependence;
pub use judging::check_names;
pub use known_names::{Context, demand_known_names};
pub use places::Places;
pub use table::Declarations;
