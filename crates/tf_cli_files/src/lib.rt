//! The file handling of the programs `plan` and `apply`: their options, the files that they read, the lock and the
//! log, how the state is replaced on the disk, and the stop after a given number of calls.
#![tactic(auto)]

mod controlling;
mod ending;
mod given;
mod holder;
mod keeping;
mod loading;
mod log_fault;
mod log_file;
mod log_sink;
mod messages;
mod place;
mod program;
mod reading;
mod replacing;
mod requested;
mod sources;
mod stop_file;
mod stopping;
mod unfinished;

pub use controlling::CallControl;
pub use ending::Ending;
pub use given::ProgramInput;
pub use keeping::{EXIT_STATE_NOT_WRITTEN, keep};
pub use loading::{Loaded, load, load_locked, read_unfinished_apply};
pub use log_fault::LogFault;
pub use log_file::{LineFile, LogFile, Settled, empty};
pub use log_sink::LogSink;
pub use messages::{
    print_call_in_flight, print_calls_in_flight, print_cause, print_lost, print_misfit,
    print_no_log, print_no_memory, print_recovered, print_unrecovered,
};
pub use place::Place;
pub use program::run;
pub use reading::print_unread;
pub use replacing::{InPlace, NotInPlace, sync_folder, write_state};
pub use stop_file::StopFile;
pub use stopping::{ApplyEvents, Stopping};
pub use unfinished::UnfinishedApply;
