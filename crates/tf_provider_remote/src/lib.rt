//! Providers that are other programs: their schemas, the requests that an apply has for them, and the lines of the two
//! pipes.
//!
//! No provider is called here. `tf_session` sends requests and writes the replies to the log; `tf_recovery` applies again with providers
//! that answer from the log.
#![tactic(auto)]

mod flights;
mod lines;
mod replies;
mod results;
mod schemas;
mod types;

pub use flights::{Flight, Flights};
pub use lines::{Unsent, request_line};
pub use replies::{Response, Responses, read_replies};
pub use results::{CallResult, ResultsFault, read_results};
pub use schemas::{SchemasFault, read_schemas};
pub use types::{RemoteType, RemoteTypes};
