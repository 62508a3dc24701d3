//! The command line of the programs `plan` and `apply`, as `clap` reads it.
#![tactic(auto)]

mod asking;
mod reading;
mod sources;
mod texts;
pub mod words;

pub use asking::asked_of;
pub use reading::options;
pub use words::{GraphForm, Options, Program, VariableSource};
