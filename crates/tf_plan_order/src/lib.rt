//! The resources of a configuration and of a prior state together, the instances of each, and the order of a plan's
//! actions.
//!
//! Resources have numbers: the names of the configuration keep their places, followed by the orphans, the resources of
//! the state without a block in the configuration. A member of a resource is an instance that the configuration has, or
//! that has a record, or both. The order of actions, and which resources are late, follow from two relations of
//! resources: which needs which by the configuration, and which needed which when it was made, by what the state has
//! stored.
#![tactic(auto)]

mod action;
mod addresses;
mod dependencies;
mod instance_to_plan;
mod late;
pub mod laws;
mod marks;
pub mod member_laws;
mod merging;
mod near;
mod order;
mod order_input;
mod own;
mod places;
mod resource_index;
pub mod resource_laws;
mod resource_ref;
mod stored;

pub use action::{ActionKind, OrderedAction};
pub use addresses::address_order;
pub use instance_to_plan::InstanceToPlan;
pub use late::lateness;
pub use merging::members;
pub use order::{MAX_PAIRS, Order, OrderFault};
pub use order_input::OrderInput;
pub use own::records_of;
pub use resource_index::ResourceIndex;
pub use resource_ref::ResourceRef;
pub use stored::StoredDependencies;
