//! Laws of plans, reports, requests, applies and texts that follow from their definitions: answers are unique, requests agree
//! with the plan, and after an apply that went well the same configuration plans no action.
#![tactic(auto)]

pub mod asking;
pub mod convergence;
pub mod plans;
pub mod reports;
pub mod requests;
pub mod texts;
