//! A plan as one JSON document, in the shape of Terraform's plan representation (`terraform show -json`).
#![tactic(auto)]

mod changing;
mod document;
mod known;
pub mod laws;
mod listing;
mod output_sending;
mod prior;
mod prior_sending;
mod reasons;
mod unknown;

pub use document::json_text;
