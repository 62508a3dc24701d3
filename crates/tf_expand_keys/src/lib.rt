//! The values of a configuration's names at each stage of the engine, and the instances of its resources.
//!
//! In the expansion the number of a resource's objects is known, and nothing else about them. In the plan its value
//! consists of the planned objects, and in the apply of the objects that the providers answered. One rule gives the
//! value of each name by the values of the names directly before it. A stage only defines the shape of a resource and
//! each of its objects. By this rule `expand` computes the instances of each resource, or reports why it can't.
//! Knowledge of values only grows from stage to stage (`standing_laws`).
#![tactic(auto)]

mod collecting;
mod evaluation;
mod expansion;
pub mod expansion_laws;
mod instance;
mod marks;
mod needed;
mod repetition;
mod resolved;
mod scope;
mod shape;
mod stage;
pub mod standing_laws;
mod table;

pub use collecting::{Keyed, collect_instances};
pub use expansion::{ExpansionFault, MAX_INSTANCES, expand};
pub use instance::{InstanceScope, instance_constants};
pub use marks::{is_marked, mark, none_marked};
pub use needed::{needed_by, needed_by_resources};
pub use repetition::RepetitionFault;
pub use resolved::{Resolved, evaluated};
pub use scope::NamesScope;
pub use shape::InstanceKeys;
pub use stage::{ExpandedValues, Objects, ResourceInScope, ResourceValues};
pub use table::{Module, ModuleParts, all_stand, resolved_at, resolved_names, unresolved_names};
