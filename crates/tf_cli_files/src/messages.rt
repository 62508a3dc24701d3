//! Messages on standard error about logs and locks.

ghost use Rattle.std.specs.Prelude.{◌≡◌, ◌∷◌, ◌++◌, [], codes, false, string_bytes};
ghost use Rattle.tf_cli_lines.specs.Saved.{AppendsStart};
ghost use Rattle.tf_cli_files.specs.Program.{IsFailure};
ghost use Rattle.tf_cli_files.specs.Assigned.{assignment_line, said_of};

use crate::place::Place;
use crate::requested::request_text;
use crate::unfinished::UnfinishedApply;
use std::alloc::Global;
use std::io;
use std::io::Write;
use std::process::ExitCode;
use tf_cli_lines::{print_refusal, save, save_all, verb_text};
use tf_cli_variables::{Cause, name_in};
use tf_config_refusal::Refusal;
use tf_provider_log::LineFault;
use tf_provider_protocol::Request;

/// Prints that memory ran out, and returns the program's exit status.
pub fn print_no_memory<E: Write>(err: &mut E) -> ExitCode
    ensures { IsFailure result }
{
    let _ = print_refusal(&Refusal::OutOfMemory, err);
    ExitCode::FAILURE
}

/// Prints an error of the system below the program's error, if errors are explained.
pub fn print_cause<E: Write>(cause: &io::Error, explains: bool, err: &mut E)
    ensures { explains ≡ false → E.contents err.new ≡ E.contents err.old }
{
    if explains {
        let _ = writeln!(err, "  {cause}");
    }
}

/// Prints that another apply holds the lock of a state, and returns the program's exit status.
pub fn print_locked<E: Write>(file: &str, err: &mut E) -> ExitCode
    ensures { IsFailure result }
{
    let _ = save_all(err, &["error: ", file, " is locked by another apply\n"]);
    ExitCode::FAILURE
}

/// Prints that a log can't be written, so that no provider is called. Returns the program's exit status.
pub fn print_no_log<E: Write>(name: &str, err: &mut E) -> ExitCode
    ensures { IsFailure result }
{
    let _ = save_all(err, &["error: cannot write ", name, "\n"]);
    ExitCode::FAILURE
}

/// Prints that the state can't be written, so that no provider is called. Returns the program's exit status.
pub(crate) fn print_unwritable<E: Write>(file: &str, err: &mut E) -> ExitCode
    ensures { IsFailure result }
{
    let _ = save_all(err, &["error: cannot write ", file, "\n"]);
    ExitCode::FAILURE
}

/// Prints that a state or a log is a pipe, a device or a socket, and returns the program's exit status.
pub(crate) fn print_special<E: Write>(file: &str, err: &mut E) -> ExitCode
    ensures { IsFailure result }
{
    let _ = save_all(err, &["error: ", file, " isn't a regular file\n"]);
    ExitCode::FAILURE
}

/// Prints why an assignment of a variable gives no value, and returns the program's exit status. The value isn't printed, since it
/// may be a secret.
pub(crate) fn print_assignment<E: Write>(text: &str, cause: Cause, err: &mut E) -> ExitCode
    ensures status { IsFailure result }
    ensures told { AppendsStart (E.contents err.old) (E.contents err.new) (assignment_line text.now cause) }
{
    write_assignment(name_in(text), said_of(cause), err);
    ExitCode::FAILURE
}

/// Prints what is wrong with the value of a variable.
fn write_assignment<E: Write>(name: &str, said: &str, err: &mut E)
    ensures { AppendsStart (E.contents err.old) (E.contents err.new) (codes "error: --var " ++ (name.now ++ (said.now ++ 10 ∷ []))) }
{
    let _ = save_all(err, &["error: --var ", name, said, "\n"]);
}

/// Returns what is printed of a source without values, after the name of the variable.
fn said_of(cause: Cause) -> &'static str
    ensures { result.now ≡ said_of cause }
{
    match cause {
        Cause::NoEqualsSign => " has no value: write NAME=VALUE",
        Cause::Undeclared => ": the configuration declares no such variable",
        Cause::NotJson => ": the value isn't JSON; only a variable of type string takes any text",
        Cause::NotAFile => ": not a variables file",
    }
}

/// Prints that a line of a log is malformed, and returns the program's exit status.
pub fn print_bad_line<E: Write>(
    name: &str,
    number: usize,
    fault: LineFault,
    err: &mut E,
) -> ExitCode
    ensures { IsFailure result }
{
    let _ = writeln!(err, "error: {name}: line {number}: {fault}");
    ExitCode::FAILURE
}

/// Prints that a log doesn't belong to the existing state, and returns the program's exit status.
pub fn print_misfit<E: Write>(place: &Place, err: &mut E) -> ExitCode
    ensures { IsFailure result }
{
    let _ = save_all(
        err,
        &[
            "error: ",
            place.log.as_str(),
            " does not fit ",
            place.state.as_str(),
            "\n",
        ],
    );
    ExitCode::FAILURE
}

/// Prints that not all results of a log could be recovered, so that nothing was written. Returns the program's exit
/// status.
pub fn print_unrecovered<E: Write>(name: &str, err: &mut E) -> ExitCode
    ensures { IsFailure result }
{
    let _ = save_all(
        err,
        &["error: ", name, ": not all results could be recovered\n"],
    );
    ExitCode::FAILURE
}

/// Prints that a log could not be written any more, so that no further call was begun.
pub fn print_lost<E: Write>(name: &str, err: &mut E) {
    let _ = save_all(
        err,
        &[
            "warning: cannot write ",
            name,
            ", so nothing more was begun\n",
        ],
    );
}

/// Prints what is recovered of an interrupted apply: how many results, if there are any, and each request that was begun
/// and has no recorded result.
pub fn print_recovered<E: Write>(alloc: Global, unfinished: &UnfinishedApply, err: &mut E) {
    if unfinished.answers > 0 {
        let _ = writeln!(
            err,
            "recovered {} results of an apply that did not end",
            unfinished.answers
        );
    }
    print_calls_in_flight(alloc, unfinished, err);
}

/// Prints each request of an interrupted apply that was begun and has no recorded result.
pub fn print_calls_in_flight<E: Write>(alloc: Global, unfinished: &UnfinishedApply, err: &mut E) {
    for request in &unfinished.in_flight {
        print_call_in_flight(alloc, request, err);
    }
}

/// Prints that a request was begun and has no recorded result, and its attributes.
pub fn print_call_in_flight<E: Write>(alloc: Global, request: &Request, err: &mut E) {
    let verb = verb_text(&Some(request.op));
    let _ = writeln!(
        err,
        "warning: {}{verb} was begun, its result is not known",
        request.address
    );
    if let Ok(text) = request_text(alloc, request) {
        let _ = save(err, text.as_str());
    }
}
