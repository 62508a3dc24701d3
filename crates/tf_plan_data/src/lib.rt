//! Plans from any prior state as data: the actions, what they are planned from, and their order.
#![tactic(auto)]

mod action;
mod addresses;
mod plan;
mod planned;
mod step;

pub use action::Action;
pub use addresses::{addr_text, address_text};
pub use plan::Plan;
pub use planned::Planned;
pub use step::Step;
