//! Calls of providers, and the journal of an apply. A call of a provider takes a permit and spends it, so no action is called
//! twice. The reply is held in a value that can be neither copied nor dropped. Only a journal takes it, and enters the call. So
//! the value that ends an action shows by its type whether the provider was called: `Waived` if it wasn't, `Unserved` if the
//! provider ran out of memory, and otherwise the `Judged` call itself.
//!
//! At every moment no action is in a journal twice, and all actions directly before an entry's action come earlier.
#![tactic(auto)]

pub mod called;
pub mod journal;
mod waived;

pub use called::{Called, Judged, Recorded, Unserved, call};
pub use journal::{Entry, Journal, RecordFault};
pub use tf_provider_protocol::{
    Attribute, Kind, Mode, Op, Provider, Reply, Request, Schema, SchemaFault, Verdict, asks_fully,
    first_provider, has_attributes, judge, schema_for, well_formed,
};
pub use waived::{Waived, waive_for};
