//! Refusals: why no provider was called, with a code, a place and a name, and the text that the user reads.
//!
//! A reader of a JSON text refuses it at the first place, in walk order, that the format doesn't allow. The definitions
//! in `specs/` state that for any format. The demands are a list of checks, each with a place. The value that is read
//! is built in steps, one for each member. `Path` is the place in code: a list of borrowed steps that is written out
//! only if there is a fault.
#![tactic(auto)]

mod code;
mod names;
pub mod path;
pub mod refusal;

pub use code::Code;
pub use path::Path;
pub use refusal::{Detail, Refusal};
pub use tf_expr_syntax::EvalFault;
