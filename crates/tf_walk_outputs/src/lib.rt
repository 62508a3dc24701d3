//! The evaluation of a configuration's outputs after an apply.
//!
//! An output is evaluated exactly if each name in it is settled. An output without a value keeps its entry of the prior
//! state. Providers were called by then, so nothing here may fail: memory for the outputs' names, and for the indexes
//! of the names in their expressions, is reserved before the first call (`reserve_outputs`), and so is the caller's
//! list of outcomes.
#![tactic(auto)]

mod ending;
mod ends;
mod keeping;
mod output_buffers;
pub mod output_laws;
mod settled;

pub use ending::renew_outputs;
pub use ends::OutputResult;
pub use keeping::kept_outputs;
pub use output_buffers::{OutputBuffers, reserve_outputs};
pub use settled::settle_names;
