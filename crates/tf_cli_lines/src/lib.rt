//! Writing texts to outputs, whole or in part, and the lines of refusals.
#![tactic(auto)]

mod lines;
mod refusing;
mod saving;

pub use lines::verb_text;
pub use refusing::{print_refusal, print_refusals};
pub use saving::{SaveFault, save, save_all};
