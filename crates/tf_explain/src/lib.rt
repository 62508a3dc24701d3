//! Explanations of refusals and diagnostics: where in the files a fault is, and what is wrong.
//!
//! [`Explained`] wraps standard error. After each line of a refusal or a diagnostic that passes through it, it adds a few indented
//! lines. The line has all that is needed: its code, its place and its detail ([`line`]). [`positions`] finds the place in the
//! file, and `causes` has the sentences. Nothing that the engine does depends on an explanation.
#![tactic(auto)]

mod blocks;
mod causes;
mod code;
mod decoding;
mod excerpt;
mod explained;
pub mod json_fault;
pub mod line;
mod near;
mod page;
pub mod positions;
pub mod repeated;
mod shown;
pub mod sources;
pub mod span;
mod tokens;
mod warned;

pub use causes::explanation;
pub use explained::Explained;
pub use sources::{SourceFile, Sources};
pub use warned::warnings;
