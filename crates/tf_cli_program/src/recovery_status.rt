//! Compares the state file with the state that an unfinished apply left.

ghost use Rattle.std.specs.Prelude.{◌≡◌, ◌↔◌, IfErr, IfOk, IsTrue, map, option_map, string_bytes};
ghost use Rattle.tf_cli_files.specs.Program.{IsFailure};
ghost use Rattle.tf_cli_program.specs.Recovery.{IsRecoveryStatus, state_given};

use crate::recovering::recover;
use crate::taking::Unrecovered;
use std::alloc::Global;
use std::io::Write;
use std::process::ExitCode;
use tf_cli::Refused;
use tf_cli_files::{
    Place, ProgramInput, UnfinishedApply, print_calls_in_flight, print_misfit, print_no_memory,
    print_recovered, print_unrecovered,
};
use tf_provider::Provider;

/// Which state the state file holds: the one before an unfinished apply, or the one after it.
#[derive(Drop)]
pub enum RecoveryStatus {
    /// The state with which the apply began. This text has to replace it; `None` if the apply changed nothing.
    Before(Option<String>),
    /// The recovered state.
    After,
}

/// Recovers the state that an unfinished apply left, with providers that answer from its log, and compares the given state with
/// it. If that is the state before the apply, prints what is recovered. Prints the calls in flight.
///
/// # Errors
///
/// The program's status, 1, if nothing can be recovered, or if the given state is neither the one before nor the recovered one.
/// The reason is then on standard error.
pub fn recovery_status<E: Write>(
    alloc: Global,
    place: &Place,
    given: &ProgramInput,
    unfinished: &UnfinishedApply,
    replayed: &[Box<dyn Provider + Sync>],
    err: &mut E,
) -> Result<RecoveryStatus, ExitCode>
    ensures looked { IfOk result (IsRecoveryStatus (map meaning replayed.now) unfinished.now given.now) }
    ensures status { IfErr result IsFailure }
{
    let state = match recover(alloc, &unfinished.header, unfinished.answers, replayed) {
        Ok(recovered) => recovered.state,
        Err(fault) => return Err(report_fault(place, &fault, err)),
    };
    if is_state(given, &unfinished.header.state) {
        print_recovered(alloc, unfinished, err);
        return Ok(RecoveryStatus::Before(state));
    }
    if state.is_some() && is_state(given, &state) {
        print_calls_in_flight(alloc, unfinished, err);
        return Ok(RecoveryStatus::After);
    }
    Err(print_misfit(place, err))
}

/// Returns whether the given state has this text, or there is neither.
pub fn is_state(given: &ProgramInput, text: &Option<String>) -> bool
    ensures { IsTrue result ↔ (state_given given.now ≡ option_map string_bytes text.now) }
{
    match (given.state_bytes(), text) {
        (Some(bytes), Some(text)) => bytes == text.as_bytes(),
        (None, None) => true,
        _ => false,
    }
}

/// Prints why nothing is recovered, and returns the program's status.
fn report_fault<E: Write>(place: &Place, fault: &Unrecovered, err: &mut E) -> ExitCode
    ensures { IsFailure result }
{
    match fault {
        Unrecovered::Refused(Refused::NoMemory) | Unrecovered::OutOfMemory => print_no_memory(err),
        Unrecovered::Refused(_) => print_misfit(place, err),
        Unrecovered::NotAll => print_unrecovered(place.log.as_str(), err),
    }
}
