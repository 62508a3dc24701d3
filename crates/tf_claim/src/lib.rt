//! Claims on the actions of a plan: who may call an action's provider, and when.
//!
//! A `Permit` is the right to call the provider of one action, and `Finished` is the evidence that this right was
//! spent. Neither can be copied or dropped, so an action that was claimed is called or waived, and then finished.
//! `Book` is the book of claims of one worker, `Claims` that of many.
#![tactic(auto)]

pub mod book;
pub mod claims;
pub mod laws;
pub mod listener;
pub mod permit;
mod rule;
pub mod seat;

pub use book::{Book, Stage};
pub use claims::Claims;
pub use listener::Listener;
pub use permit::{Finished, Permit, waive};
pub use seat::Seat;
