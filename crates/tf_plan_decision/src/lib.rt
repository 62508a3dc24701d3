//! Decisions about the instances of a configuration and a prior state.
//!
//! A decision follows from the planned object of an instance, its prior object, the schema of its type and the block's
//! `lifecycle`. It is nothing, a create, an update or a replace, or else the reason why the instance is refused. An
//! instance that the configuration doesn't have is destroyed, or that is refused. `decide_in_order` decides about each
//! of them once, in the order of their dependence, and `gather` puts the decisions in address order.
#![tactic(auto)]

mod collecting;
mod decision;
mod differing;
mod ignored;
pub mod laws;
pub mod locality;
mod names;
mod objects;
mod outcome;
mod planned_values;
mod prior;
mod settling;
mod steps;
mod whole;

pub use collecting::{Decided, RefusedInstance};
pub use decision::DecisionFault;
pub use ignored::ignored_fault;
pub use outcome::{member_outcome, orphan_outcome};
pub use planned_values::PlannedValues;
pub use prior::{PriorFault, prior_fault};
pub use whole::{DecidedNames, decide_in_order, gather};
