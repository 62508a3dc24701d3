//! Requests to providers, their replies, and the verdict on a reply.
//!
//! A provider has a schema for each of its types, and answers requests to create, update or destroy an object of a
//! type. The request, the reply and the schema alone determine the verdict. Calls and permits are in another crate
//! (`tf_provider`).
#![tactic(auto)]

pub mod provider;
pub mod request;
pub mod schema;
pub mod verdict;

pub use provider::{Provider, first_provider, schema_for};
pub use request::{Op, Reply, Request};
pub use schema::{Attribute, Kind, Mode, Schema, SchemaFault};
pub use verdict::{Verdict, asks_fully, has_attributes, is_allowed, judge, well_formed};
