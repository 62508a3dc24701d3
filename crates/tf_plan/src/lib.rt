//! Plans: what an apply will do, in which order, and what it will request.
//!
//! This crate is for users of the engine as a library. `plan` is the planner of `tf_plan_planner`; a `Plan` has its parts in
//! `plan`, and its `graph` says which action is before which. `text` returns what the user reads. `request` builds the request
//! of an action from the objects of earlier actions, as an apply does; the caller gives these objects by a `Results`.
//! `specs/Lib.antt` re-exports the definitions of what the calls return and refuse.
#![tactic(auto)]

mod fault;
mod requesting;
mod showing;

pub use fault::RequestFault;
pub use requesting::request;
pub use showing::text;
pub use tf_cli_inputs::{Configuration as Config, Vars};
pub use tf_config_address::{InstanceKey, ResourceAddr};
pub use tf_config_refusal::{Code, Detail, EvalFault, Refusal};
pub use tf_plan_data::{Action, Plan as PlanParts, Planned as Plan, Step, address_text};
pub use tf_plan_order::Order;
pub use tf_plan_planner::{MAX_ACTIONS, Refused, Unplanned, plan};
pub use tf_provider_protocol::{Op, Provider, Request};
pub use tf_walk_requests::Results;
