//! What an apply does, as lines of JSON in the shape of Terraform's machine-readable output.
#![tactic(auto)]

mod address;
mod calls;
mod diagnostics;
mod event;
mod hooks;
mod lines;
mod output;
mod outputs;
mod planned;
mod summary;

pub use calls::CallEvents;
pub use diagnostics::Diagnosed;
pub use event::{Writer, version_event};
pub use output::Events;
pub use outputs::outputs_event;
