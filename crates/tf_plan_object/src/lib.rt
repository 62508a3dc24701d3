//! The object that is planned for an instance of a resource, for any values of its references.
//!
//! An attribute's planned value follows from the argument that names it and from the attribute's mode and kind
//! (`specs/Argument.antt`). The object of arguments has the planned value of each attribute of the type's schema. If
//! there are faults, it is the fault whose attribute is first in byte order (`specs/Planned.antt`). The object of an
//! instance is that of its block's arguments, in which `count.index`, `each.key` and `each.value` are the instance's
//! (`specs/Instance.antt`). The plan evaluates it with the planned values of names, and the apply evaluates it again
//! with their actual values. From the one to the other, knowledge of it only grows (`laws`).
#![tactic(auto)]

mod argument;
mod instance;
mod kept;
pub mod laws;
mod object;

pub use argument::{ArgumentFault, ValueFault, attribute_value};
pub use instance::{InstanceFault, plan_instance};
pub use kept::kept_object;
pub use object::plan_object;
