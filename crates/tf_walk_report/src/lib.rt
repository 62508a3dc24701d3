//! The report on a plan that was carried out: what each action adds to it, what is reported of the configuration's
//! outputs (`tf_walk_outputs`), the report as a whole, and whether its journal agrees with it.
//!
//! Providers were called by then, so nothing here may be forgotten. All memory that the report needs is reserved before
//! the first call (`reserve_report`). After it no memory is taken for what a reply says (`report_of`), nor to compare
//! the journal (`settle`).
#![tactic(auto)]

mod additions;
mod calls_told;
mod comparing;
mod diagnostic;
mod gather;
mod good;
mod one_line;
mod operations;
mod outputs;
mod replied;
mod report;
mod reporting;
mod reserving;
mod settling;
mod telling;
mod texts;
mod whole;

pub use comparing::settle;
pub use diagnostic::Diagnostic;
pub use report::{Report, Walked};
pub use reserving::{ReportBuffers, reserve_report};
pub use whole::report_of;
