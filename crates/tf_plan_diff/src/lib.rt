//! The text of a plan with old and new values.
#![tactic(auto)]

mod attributes;
mod diff;
mod headings;
mod safe;

pub use diff::diff_text;
pub use headings::Colours;
