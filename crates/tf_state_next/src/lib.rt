//! The state after an apply, computed from the outcome of each of its actions.
//!
//! A create or an update saves an object or nothing, and a destroy leaves an object or nothing (`specs/Saved.antt`).
//! The records of an instance's current object and of its deposed ones afterwards are a function of the records before
//! and of the outcomes of the instance's actions (`specs/After.antt`). A resource is part of the state after if an
//! object of it is known (`specs/StateAfter.antt`). Providers were called by then, so nothing here may fail: a resource
//! is changed in place, without memory. The key of an object that may become deposed (`specs/DeposedKey.antt`), the
//! input for each record and space for all (`draft_state`) are allocated before the first call, and nothing is
//! allocated for the state after (`state_after`).
#![tactic(auto)]

mod draft;
mod ends;
mod events;
mod key;
pub mod laws;
pub mod object_laws;
mod record_ends;
mod recording;
mod saved;
mod whole;

pub use draft::{StateDraft, draft_state};
pub use ends::{Left, RecordInput, Saved};
pub use events::{Apply, Destroy, Events, MetadataUpdate};
pub use key::deposed_key;
pub use record_ends::{record_apply, record_destroy};
pub use saved::{left_by_destroy, saved_by_create, saved_by_update};
pub use whole::state_after;
