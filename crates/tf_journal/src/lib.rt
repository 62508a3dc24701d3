//! The journal of an apply: which calls were made, in which order, and with which verdicts.
//!
//! At every moment no action is in a journal twice, and all actions directly before an entry's action come earlier. A call is
//! recorded once: `record` takes the `Called`, and a `Recorded` is split into the call and the right to report its action as done.
#![tactic(auto)]

pub use tf_provider::{Called, Entry, Journal, Judged, RecordFault, Recorded, Unserved};
