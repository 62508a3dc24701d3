//! The values of variables from several sources, merged into the text of one variables file.
#![tactic(auto)]

mod choosing;
mod merging;
mod source;
mod values;

pub use choosing::{Variables, variables_of};
pub use merging::merge;
pub use source::{Cause, MergeFault, Source};
pub use values::name_in;
