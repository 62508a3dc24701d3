//! The log of an apply: its text, and its use.
//!
//! The text says the inputs of the apply, and of each call that it was begun and how it was answered. A provider is
//! called only after the line that says so is in the log on the disk. Its reply is returned only after the line of the
//! reply is written, or if the log is known to be lost; the next request that is begun puts that line on the disk too.
//! Answers in a log are replayed without a call, so an interrupted apply is carried out from its log.
#![tactic(auto)]

mod calling;
mod copies;
mod entries;
mod entry;
mod fault;
mod fit;
mod forms;
mod laws;
mod lines;
mod logged;
mod open_log;
mod outside;
mod parts;
mod reading;
mod replay_laws;
mod replaying;
mod same;
mod shared;
mod sink;
mod writing;

pub use copies::{copy_entries, copy_request};
pub use entries::{answer_count, in_flight, is_begun, split};
pub use entry::{Header, Log, LogEntry};
pub use fault::{LineFault, LogFault, Unwritten};
pub use forms::op_word;
pub use laws::beginnings_are_read;
pub use logged::Logged;
pub use open_log::{NotStarted, OpenLog};
pub use outside::{Announced, BegunLine, LoggedReply, Message, Unfit};
pub use parts::text_from;
pub use reading::{next_line, read_log, read_tree};
pub use replay_laws::{
    beginnings_of_logs_are_true, replayed_providers_are_themselves, same_requests_are_one,
};
pub use replaying::Replayed;
pub use same::{is_same, is_same_text};
pub use shared::providers_are_shared;
pub use sink::{Durability, NotAdded, Sink};
pub use writing::{answered_line, begun_line, header_line};
