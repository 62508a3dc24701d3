//! Recovery of an unfinished apply, with providers that answer from its log.

ghost use Rattle.std.specs.Prelude.{◌≡◌, None, IsOk, IfErr, IfOk, IfSome, map};
ghost use Rattle.tf_cli_files.specs.Program.{IsFailure};
ghost use Rattle.tf_cli_program.specs.Recovery.{ContinuesFrom, IsInspected};
ghost use Rattle.tf_provider_log.specs.LogEntry.{log_entry_of};
ghost use Rattle.tf_session.specs.Outside.{outside_replayed};

use std::alloc::AllocError;
use std::fs::File;
use std::io::Write;
use std::process::ExitCode;
use tf_cli_files::{Place, ProgramInput, UnfinishedApply};
use tf_cli_program::{finish_recovery, preview_recovery};
use tf_provider::Provider;
use tf_provider_log::LogEntry;
use tf_provider_remote::RemoteTypes;
use tf_session::{ReplayedProviders, replayed_providers};

/// Recovers the state that an unfinished apply left, if there is one, and plans from it: `given` then has that state in place of
/// its own. The providers outside the program have these types. Writes no file. Returns the program's status, 1, if the program
/// can't continue; the reason is then on standard error.
///
/// # Errors
///
/// Fails only if memory runs out.
pub fn preview<E: Write>(
    rt: &HostRuntime,
    types: &RemoteTypes,
    place: &Place,
    given: &mut ProgramInput,
    unfinished: Option<(UnfinishedApply, Vec<LogEntry>)>,
    err: &mut E,
) -> Result<Result<(), ExitCode>, AllocError>
    ensures none { unfinished ≡ None → IsOk result × IfOk result (λ answer. IsOk answer) × (given.new ≡ given.old) }
    ensures recovered { IfOk result (λ answer. IfOk answer (λ _. IfSome unfinished (λ log. ContinuesFrom (outside_replayed (⟦<RemoteTypes as Provider>⟧.meaning types.now) (map log_entry_of log.1.items)) log.0 given.old given.new))) }
    ensures status { IfOk result (λ answer. IfErr answer IsFailure) }
{
    match unfinished {
        None => Ok(Ok(())),
        Some((unfinished, entries)) => preview_by(
            rt,
            types,
            place,
            given,
            &unfinished,
            entries,
            err,
        ),
    }
}

/// Recovers the state for `plan`, with providers that each answer from their own entries of the log.
fn preview_by<E: Write>(
    rt: &HostRuntime,
    types: &RemoteTypes,
    place: &Place,
    given: &mut ProgramInput,
    unfinished: &UnfinishedApply,
    entries: Vec<LogEntry>,
    err: &mut E,
) -> Result<Result<(), ExitCode>, AllocError>
    ensures recovered { IfOk result (λ answer. IfOk answer (λ _. ContinuesFrom (outside_replayed (⟦<RemoteTypes as Provider>⟧.meaning types.now) (map log_entry_of entries.items)) unfinished.now given.old given.new)) }
    ensures status { IfOk result (λ answer. IfErr answer IsFailure) }
{
    let alloc = rt.alloc();
    let ReplayedProviders { remote, sim, files } = replayed_providers(rt, types, entries)?;
    let mut providers: Vec<Box<dyn Provider + Sync>> = Vec::new(alloc);
    providers.push(Box::new(alloc, remote)?)?;
    providers.push(Box::new(alloc, sim)?)?;
    providers.push(Box::new(alloc, files)?)?;
    Ok(preview_recovery(alloc, place, given, unfinished, providers.as_slice(), err))
}

/// Recovers the state that an unfinished apply left, if there is one, writes it and empties the log, which is `file`: `given`
/// then has that state in place of its own. The providers outside the program have these types. Returns the program's status if
/// the program can't continue, or if a call is in flight and the options don't say that it wasn't made; the reason is then on
/// standard error.
///
/// # Errors
///
/// Fails only if memory runs out.
pub fn recover<O: Write, E: Write>(
    rt: &HostRuntime,
    types: &RemoteTypes,
    place: &Place,
    file: &File,
    given: &mut ProgramInput,
    unfinished: Option<(UnfinishedApply, Vec<LogEntry>)>,
    out: &mut O,
    err: &mut E,
) -> Result<Result<(), ExitCode>, AllocError>
    ensures none { unfinished ≡ None → IsOk result × IfOk result (λ answer. IsOk answer) × (given.new ≡ given.old) }
    ensures recovered { IfOk result (λ answer. IfOk answer (λ _. IfSome unfinished (λ log. ContinuesFrom (outside_replayed (⟦<RemoteTypes as Provider>⟧.meaning types.now) (map log_entry_of log.1.items)) log.0 given.old given.new))) }
    ensures looked { IfOk result (λ answer. IfOk answer (λ _. IfSome unfinished (λ log. IsInspected log.0 given.old.options))) }
{
    match unfinished {
        None => Ok(Ok(())),
        Some((unfinished, entries)) => {
            recover_by(
                rt,
                types,
                place,
                file,
                given,
                &unfinished,
                entries,
                out,
                err,
            )
        }
    }
}

/// Recovers the state for `apply`, with providers that each answer from their own entries of the log.
fn recover_by<O: Write, E: Write>(
    rt: &HostRuntime,
    types: &RemoteTypes,
    place: &Place,
    file: &File,
    given: &mut ProgramInput,
    unfinished: &UnfinishedApply,
    entries: Vec<LogEntry>,
    out: &mut O,
    err: &mut E,
) -> Result<Result<(), ExitCode>, AllocError>
    ensures recovered { IfOk result (λ answer. IfOk answer (λ _. ContinuesFrom (outside_replayed (⟦<RemoteTypes as Provider>⟧.meaning types.now) (map log_entry_of entries.items)) unfinished.now given.old given.new)) }
    ensures looked { IfOk result (λ answer. IfOk answer (λ _. IsInspected unfinished.now given.old.options)) }
{
    let alloc = rt.alloc();
    let ReplayedProviders { remote, sim, files } = replayed_providers(rt, types, entries)?;
    let mut providers: Vec<Box<dyn Provider + Sync>> = Vec::new(alloc);
    providers.push(Box::new(alloc, remote)?)?;
    providers.push(Box::new(alloc, sim)?)?;
    providers.push(Box::new(alloc, files)?)?;
    Ok(finish_recovery(
        rt,
        place,
        file,
        given,
        unfinished,
        providers.as_slice(),
        out,
        err,
    ))
}
