//! A ledger whose amounts are lists of entries.
//!
//! A `Tally` deals out a fixed number of parts. A part keeps entries and reports entries: each entry that is added is kept and
//! reported once, and then the part can be split, so that one part goes on to keep it and another to report it. Whoever has all
//! parts together knows that exactly what is kept is reported. Parts can't be copied, and recording an entry takes no memory.
#![tactic(auto)]

mod holding;
mod lane;
pub mod laws;
mod part;
mod rule;
mod tally;

pub use holding::Holding;
pub use lane::Lane;
pub use part::Part;
pub use tally::Tally;
