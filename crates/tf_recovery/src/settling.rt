//! The results of calls that were in flight when an apply ended.

use std::fs::File;
use std::io::Write;
use std::process::ExitCode;
use tf_cli_files::{Ending, Place, ProgramInput, UnfinishedApply, read_unfinished_apply};
use tf_cli_program::{is_inspected, is_state};
use tf_provider_log::LogEntry;
use tf_provider_remote::RemoteTypes;
use tf_session::{add_results, without_idempotent};

/// Adds the results of the calls in flight to the log of an unfinished apply, if the options name a file of them, and returns what
/// the log records then. If the file isn't of exactly these calls, or the given state isn't the one that the apply began with, prints
/// that and returns the program's status, 1; the log then stays as it is.
pub(crate) fn settle<E: Write>(
    rt: &HostRuntime,
    types: &RemoteTypes,
    place: &Place,
    file: &File,
    given: &ProgramInput,
    unfinished: Option<(UnfinishedApply, Vec<LogEntry>)>,
    err: &mut E,
) -> Result<Option<(UnfinishedApply, Vec<LogEntry>)>, Ending> {
    match (&given.options.in_flight, &unfinished) {
        (Some(name), Some((found, _))) if !is_inspected(found, &given.options) => {
            if !is_state(given, &found.header.state) {
                return Err(Ending::from(print_other_state(name.as_str(), place, err)));
            }
            let in_flight = found.in_flight.as_slice();
            add_results(rt, types, place, file, name.as_str(), in_flight, err)?;
            let unfinished = read_unfinished_apply(rt, place, err)?;
            Ok(without_idempotent(types, unfinished))
        }
        _ => Ok(unfinished),
    }
}

/// Prints that the state isn't the one that an apply began with, so that no results are added to its log. Returns the program's status,
/// 1.
fn print_other_state<E: Write>(name: &str, place: &Place, err: &mut E) -> ExitCode {
    let _ = writeln!(
        err,
        "error: {name}: {} is not the state that the apply began with",
        place.state
    );
    ExitCode::FAILURE
}
