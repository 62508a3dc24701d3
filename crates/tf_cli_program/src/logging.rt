//! The log of an apply: the recovery before it, its first line, and its end.

ghost use Rattle.std.specs.Process.{exit_status};
ghost use Rattle.std.specs.Prelude.{◌≡◌, ◌≤◌, ◌↔◌, ◌⊎◌, IfErr, IfOk, IfSome, IsTrue, OnOk, map, option_map, string_bytes};
ghost use Rattle.tf_cli_files.specs.Kept.{replaced_text};
ghost use Rattle.tf_cli_files.specs.Program.{IsFailure};
ghost use Rattle.tf_cli_program.specs.Work.{header_given};
ghost use Rattle.tf_cli_program.specs.Recovery.{ContinuesFrom, IsInspected, IsReplaced, IsRetried};

use crate::recovery_status::{RecoveryStatus, recovery_status};
use std::alloc::{AllocError, Global};
use std::fs::OpenFile;
use std::io;
use std::io::Write;
use std::process::ExitCode;
use std::rt::Files;
use tf_cli_files::{
    EXIT_STATE_NOT_WRITTEN, LogFile, NotInPlace, Place, ProgramInput, Settled, UnfinishedApply,
    empty, print_cause, print_no_log, print_no_memory, sync_folder, write_state,
};
use tf_cli_options::Options;
use tf_provider::Provider;
use tf_provider_log::{Header, NotStarted, OpenLog, Sink};

/// The exit status if a call's result isn't known, so that somebody has to inspect it.
const EXIT_INSPECT: u8 = 2;

/// The word that says that the calls in flight weren't made.
const RETRY: &str = "retry";

/// Recovers the state that an unfinished apply left, writes it and empties the log. `given` then has that state in place of its
/// own. The log is synced before the state is written, so that a loss of power leaves both or only the log.
///
/// # Errors
///
/// The program's status, which isn't 0, if the state can't be recovered or written. Also if a call is in flight, unless the options
/// say that such calls weren't made: that status is 2, and the state and the log stay as they are. The reason is then on standard
/// error.
pub fn finish_recovery<R: Files + AllocGlobal, O: Write, E: Write>(
    rt: &R,
    place: &Place,
    file: &R::File,
    given: &mut ProgramInput,
    unfinished: &UnfinishedApply,
    replayed: &[Box<dyn Provider + Sync>],
    out: &mut O,
    err: &mut E,
) -> Result<(), ExitCode>
where
    R::File: LogFile,
    ensures from { IfOk result (λ _. ContinuesFrom (map meaning replayed.now) unfinished.now given.old given.new) }
    ensures into { IfOk result (λ _. IsInspected unfinished.now given.old.options) }
    ensures status { IfErr result (λ status. 1 ≤ exit_status status) }
    ensures asks { IfErr result (λ status. exit_status status ≡ 2 → IsInspected unfinished.now given.old.options → ⊥) }
{
    let status = recovery_status(rt.alloc(), place, given, unfinished, replayed, err)?;
    if !is_inspected(unfinished, &given.options) {
        return Err(ask_for_results(place, err));
    }
    match status {
        RecoveryStatus::After => {
            empty_log(file, &Settled::UpToDate, place, given.options.explain, err)
        }
        RecoveryStatus::Before(state) => {
            let explains = given.options.explain;
            let settled = replace_state(rt, place, file, explains, state, out, err)?;
            empty_log(file, &settled, place, explains, err)?;
            take_state(given, settled);
            Ok(())
        }
    }
}

/// Returns whether no call is in flight, or the options say that the calls in flight weren't made.
pub fn is_inspected(unfinished: &UnfinishedApply, options: &Options) -> bool
    ensures { IsTrue result ↔ IsInspected unfinished.now options.now }
{
    unfinished.in_flight.is_empty() || is_retried(options)
}

/// Returns whether the options say that the calls in flight weren't made.
fn is_retried(options: &Options) -> bool
    ensures { IsTrue result ↔ IsRetried options.now }
{
    match &options.in_flight {
        Some(word) => word.as_str() == RETRY,
        None => false,
    }
}

/// Prints that calls are in flight whose results somebody has to find out, and how to go on then. Returns the program's status.
pub fn ask_for_results<E: Write>(place: &Place, err: &mut E) -> ExitCode
    ensures { exit_status result ≡ 2 }
{
    let _ = writeln!(
        err,
        "error: {} has calls whose results are not known, so nothing is begun. Find out whether they were made. If none was, or if it does no harm to make them again, run apply with --in-flight retry; otherwise with --in-flight FILE, where FILE has their results",
        place.log
    );
    ExitCode::from(EXIT_INSPECT)
}

/// Recovers the state that an unfinished apply left, and writes no file. `given` then has that state in place of its own.
///
/// # Errors
///
/// The program's status, 1, if the state can't be recovered. The reason is then on standard error.
pub fn preview_recovery<E: Write>(
    alloc: Global,
    place: &Place,
    given: &mut ProgramInput,
    unfinished: &UnfinishedApply,
    replayed: &[Box<dyn Provider + Sync>],
    err: &mut E,
) -> Result<(), ExitCode>
    ensures from { IfOk result (λ _. ContinuesFrom (map meaning replayed.now) unfinished.now given.old given.new) }
    ensures status { IfErr result IsFailure }
{
    match recovery_status(alloc, place, given, unfinished, replayed, err)? {
        RecoveryStatus::After | RecoveryStatus::Before(None) => {}
        RecoveryStatus::Before(Some(state)) => given.state = Some(state.into_bytes()),
    }
    Ok(())
}

/// Writes a recovered state, if there is one. Syncs the log before that.
fn replace_state<R: Files, O: Write, E: Write>(
    rt: &R,
    place: &Place,
    file: &R::File,
    explains: bool,
    state: Option<String>,
    out: &mut O,
    err: &mut E,
) -> Result<Settled, ExitCode>
where
    R::File: LogFile,
    ensures replaced { IfOk result (λ settled. replaced_text settled ≡ option_map string_bytes state) }
    ensures status { IfErr result (λ status. (exit_status status ≡ 1) ⊎ (exit_status status ≡ 3)) }
{
    let Some(state) = state else {
        return Ok(Settled::UpToDate);
    };
    if let Err(cause) = file.sync_data() {
        return Err(print_log_fault(place, &cause, explains, err));
    }
    match write_state(rt, place, state, out, err) {
        Ok(in_place) => Ok(Settled::Replaced(in_place)),
        Err(NotInPlace { cause }) => {
            print_cause(&cause, explains, err);
            Err(ExitCode::from(EXIT_STATE_NOT_WRITTEN))
        }
    }
}

/// Prints that a log can't be written, and the error of the system if errors are explained. Returns the program's status, 1.
fn print_log_fault<E: Write>(
    place: &Place,
    cause: &io::Error,
    explains: bool,
    err: &mut E,
) -> ExitCode
    ensures { IsFailure result }
{
    let status = print_no_log(place.log.as_str(), err);
    print_cause(cause, explains, err);
    status
}

/// Replaces the given state by the text that is in the state file now, if recovery replaced the file.
fn take_state(given: &mut ProgramInput, settled: Settled)
    ensures { IsReplaced (replaced_text settled) given.old given.new }
{
    match settled {
        Settled::Replaced(in_place) => given.state = Some(in_place.into_text().into_bytes()),
        Settled::NoCalls | Settled::UpToDate => {}
    }
}

/// Empties the log, which isn't needed any more.
pub fn empty_log<F: LogFile, E: Write>(
    file: &F,
    why: &Settled,
    place: &Place,
    explains: bool,
    err: &mut E,
) -> Result<(), ExitCode>
    ensures { IfErr result IsFailure }
{
    match empty(file, why) {
        Ok(()) => Ok(()),
        Err(cause) => Err(print_log_fault(place, &cause, explains, err)),
    }
}

/// Starts the log with what was given, before any call. Texts that aren't UTF-8 are refused before any call, so they aren't logged.
pub fn start<R: Files + AllocGlobal, S: Sink, E: Write>(
    rt: &R,
    place: &Place,
    log: &OpenLog<S>,
    given: &ProgramInput,
    err: &mut E,
) -> Result<(), ExitCode>
    ensures status { IfErr result IsFailure }
    ensures quiet { OnOk result (E.contents err.new ≡ E.contents err.old) }
{
    let header = match header_of(rt.alloc(), given) {
        Ok(Some(header)) => header,
        Ok(None) => return Ok(()),
        Err(AllocError) => return Err(print_no_memory(err)),
    };
    match log.start(rt.alloc(), &header) {
        Ok(()) => {}
        Err(NotStarted::OutOfMemory) => return Err(print_no_memory(err)),
        Err(NotStarted::NotWritten) => return Err(print_no_log(place.log.as_str(), err)),
    }
    match sync_folder(rt, place) {
        Ok(()) => Ok(()),
        Err(cause) => Err(print_log_fault(place, &cause, given.options.explain, err)),
    }
}

/// Returns what was given as texts, or `None` if one of them isn't UTF-8.
fn header_of(alloc: Global, given: &ProgramInput) -> Result<Option<Header>, AllocError>
    ensures { IfOk result (λ found. IfSome found (λ header. header ≡ header_given given.now)) }
{
    let lineage = String::from_str(alloc, given.options.lineage.as_str())?;
    let Some(config) = text_of(alloc, given.config.as_slice())? else {
        return Ok(None);
    };
    let Some(vars) = optional_text(alloc, given.vars_bytes())? else {
        return Ok(None);
    };
    let Some(state) = optional_text(alloc, given.state_bytes())? else {
        return Ok(None);
    };
    Ok(Some(Header {
        config,
        vars,
        state,
        lineage,
    }))
}

/// Returns bytes as a text if they are UTF-8.
fn text_of(alloc: Global, bytes: &[u8]) -> Result<Option<String>, AllocError>
    ensures { IfOk result (λ found. IfSome found (λ text. string_bytes text ≡ bytes.now)) }
{
    match str::from_utf8(bytes) {
        Ok(text) => Ok(Some(String::from_str(alloc, text)?)),
        Err(_) => Ok(None),
    }
}

/// Returns optional bytes as an optional text, or `None` if they aren't UTF-8.
fn optional_text(alloc: Global, bytes: Option<&[u8]>) -> Result<Option<Option<String>>, AllocError>
    ensures { IfOk result (λ found. IfSome found (λ text. option_map string_bytes text ≡ option_map (λ b. b.now) bytes.entry)) }
{
    match bytes {
        None => Ok(Some(None)),
        Some(bytes) => match text_of(alloc, bytes)? {
            Some(text) => Ok(Some(Some(text))),
            None => Ok(None),
        },
    }
}
