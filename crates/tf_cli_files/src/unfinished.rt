//! The contents of the log of an interrupted apply.

ghost use Rattle.std.specs.Prelude.{◌≡◌, IfErr, IfOk, map, option_map};
ghost use Rattle.tf_provider_log.specs.LogEntry.{log_entry_of, log_of};
ghost use Rattle.tf_cli_files.specs.Unfinished.{IsUnfinishedIn, IsUnfinished};
ghost use Rattle.tf_cli_files.specs.Program.{IsFailure};

use crate::log_file::may_begin_log;
use crate::messages::{print_bad_line, print_no_memory};
use std::alloc::{AllocError, Global};
use std::io::Write;
use std::process::ExitCode;
use tf_provider_log::{
    Header, LineFault, Log, LogEntry, LogFault, answer_count, in_flight, read_log,
};
use tf_provider_protocol::Request;

/// An interrupted apply, as its log records it.
#[derive(Drop)]
pub struct UnfinishedApply {
    /// The input of the apply.
    pub header: Header,
    /// The number of results in its log.
    pub answers: usize,
    /// The calls without a recorded result.
    pub in_flight: Vec<Request>,
}

/// Reads a log of this name. Returns `None` if it has no whole first line, in which case no call was made. If it isn't a log
/// or can't be read, prints that and returns the program's exit status.
pub fn unfinished_apply_in<E: Write>(
    alloc: Global,
    name: &str,
    bytes: &[u8],
    err: &mut E,
) -> Result<Option<(UnfinishedApply, Vec<LogEntry>)>, ExitCode>
    ensures unfinished { IfOk result (λ told. IsUnfinishedIn bytes.now (option_map (λ t. (t.0, map log_entry_of t.1.items)) told)) }
    ensures status { IfErr result IsFailure }
{
    match read_log(alloc, bytes) {
        Ok(None) if may_begin_log(bytes) => Ok(None),
        Ok(None) => Err(print_bad_line(name, 1, LineFault::NotAHeader, err)),
        Ok(Some(log)) => match unfinished_apply_of(alloc, log) {
            Ok(unfinished) => Ok(Some(unfinished)),
            Err(AllocError) => Err(print_no_memory(err)),
        },
        Err(LogFault::OutOfMemory) => Err(print_no_memory(err)),
        Err(LogFault::Line(number, fault)) => Err(print_bad_line(name, number, fault, err)),
    }
}

fn unfinished_apply_of(
    alloc: Global,
    log: Log,
) -> Result<(UnfinishedApply, Vec<LogEntry>), AllocError>
    ensures { IfOk result (λ told. IsUnfinished (log_of log) told.0 (map log_entry_of told.1.items)) }
{
    let Log { header, entries } = log;
    let unfinished = UnfinishedApply {
        header,
        answers: answer_count(&entries),
        in_flight: in_flight(alloc, &entries)?,
    };
    Ok((unfinished, entries))
}
