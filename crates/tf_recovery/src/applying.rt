//! The work of `apply`.

use crate::approving::AtTerminal;
use crate::explaining::{
    end_early, explain_missing, explains, lacks_configuration, print_log_cause, sources, warn,
};
use crate::failures::failure_lines;
use crate::outside::apply_outside;
use crate::planning::check_forms;
use crate::recovering::recover;
use crate::reporting::{begin_events, call_events, end_events, writer};
use crate::settling::settle;
use std::alloc::AllocError;
use std::fs::File;
use std::io;
use std::io::Write;
use std::process::ExitCode;
use std::sync::{Arc, Wait};
use std::thread::Threads;
use tf_cli_events::{Diagnosed, Events};
use tf_cli_files::{
    CallControl, Ending, Loaded, Place, ProgramInput, StopFile, UnfinishedApply, load_locked,
};
use tf_cli_lines::save;
use tf_cli_options::Options;
use tf_cli_program::carry_out_logged;
use tf_explain::Explained;
use tf_provider::Provider;
use tf_provider_log::LogEntry;
use tf_provider_remote::RemoteTypes;
use tf_session::{WatchedProviders, check_pipes, read_types, repeat_idempotent, watched_providers};

/// Recovers an unfinished apply, if there is one, then applies, and returns the program's status. With `--json`, standard output
/// has what happens as JSON, one event a line.
///
/// # Errors
///
/// Fails only if memory runs out.
pub fn apply<T: Threads + Wait + Sync, O: Write, E: Write>(
    rt: &HostRuntime,
    threads: &T,
    mut options: Options,
    out: &mut O,
    err: &mut E,
) -> io::Result<ExitCode> {
    if let Err(status) = check_forms(&options, err) {
        return Ok(status);
    }
    options.explain = explains(rt, &options);
    let has_events = options.json;
    let state = options.state.clone()?;
    begin_events(rt, has_events);
    let mut out = Events::new(rt.alloc(), out, *rt, has_events);
    let mut err = Diagnosed::new(rt.alloc(), err, writer(rt, has_events), *rt);
    let status = apply_given(rt, threads, options, &mut out, &mut err)?;
    end_events(rt, &out, state.as_str());
    Ok(status)
}

/// Recovers an unfinished apply, if there is one, then applies, and returns the program's status.
fn apply_given<T: Threads + Wait + Sync, O: Write, E: Write>(
    rt: &HostRuntime,
    threads: &T,
    options: Options,
    out: &mut O,
    err: &mut E,
) -> io::Result<ExitCode> {
    let is_explained = options.explain;
    match prepare(rt, options, out, err)? {
        Ok(prepared) => apply_prepared(rt, threads, prepared, out, err),
        Err(ending) => Ok(end_early(ending, is_explained, err)),
    }
}

/// What an apply begins with, after a recovery.
#[derive(Drop)]
struct Prepared {
    /// The types of the providers outside the program.
    types: RemoteTypes,
    /// The program's input, with the recovered state.
    given: ProgramInput,
    /// The files of the state.
    place: Place,
    /// The log, which is locked.
    file: File,
}

/// Reads the files, locks the log and recovers an unfinished apply, if there is one. If the program can't continue, prints why and
/// returns its end.
fn prepare<O: Write, E: Write>(
    rt: &HostRuntime,
    options: Options,
    out: &mut O,
    err: &mut E,
) -> Result<Result<Prepared, Ending>, AllocError> {
    let types = match outside_types(rt, &options, err) {
        Ok(types) => types,
        Err(ending) => return Ok(Err(ending)),
    };
    let is_missing = lacks_configuration(rt, &options);
    let (loaded, file) = match load_locked(rt, options, err) {
        Ok(held) => held,
        Err(ending) if is_missing => return Ok(Err(explain_missing(ending, err))),
        Err(ending) => return Ok(Err(ending)),
    };
    let Loaded {
        mut given,
        place,
        unfinished,
    } = loaded;
    match recover_given(rt, &types, &place, &file, &mut given, unfinished, out, err)? {
        Ok(()) => Ok(Ok(Prepared {
            types,
            given,
            place,
            file,
        })),
        Err(ending) => Ok(Err(ending)),
    }
}

/// Recovers an unfinished apply, if there is one, and then prints its failures. If the program can't continue, prints why and returns
/// its end.
fn recover_given<O: Write, E: Write>(
    rt: &HostRuntime,
    types: &RemoteTypes,
    place: &Place,
    file: &File,
    given: &mut ProgramInput,
    unfinished: Option<(UnfinishedApply, Vec<LogEntry>)>,
    out: &mut O,
    err: &mut E,
) -> Result<Result<(), Ending>, AllocError> {
    let unfinished = repeat_idempotent(types, unfinished, err);
    let unfinished = match settle(rt, types, place, file, given, unfinished, err) {
        Ok(unfinished) => unfinished,
        Err(ending) => return Ok(Err(ending)),
    };
    let failures = failure_lines(rt.alloc(), given, &unfinished)?;
    if let Err(status) = recover(rt, types, place, file, given, unfinished, out, err)? {
        return Ok(Err(Ending::from(status)));
    }
    let _ = save(err, failures.as_str());
    Ok(Ok(()))
}

/// Applies what was given, after a recovery.
fn apply_prepared<T: Threads + Wait + Sync, O: Write, E: Write>(
    rt: &HostRuntime,
    threads: &T,
    prepared: Prepared,
    out: &mut O,
    err: &mut E,
) -> io::Result<ExitCode> {
    let Prepared {
        types,
        given,
        place,
        file,
    } = prepared;
    if !given.options.providers.is_empty() {
        return apply_outside(rt, threads, types, &place, file, &given, out, err);
    }
    let file = Arc::new(rt.alloc(), file)?;
    apply_by(rt, threads, &place, &file, &given, out, err)
}

/// Reads the types of the providers outside the program, and checks that their pipes are there. If they aren't, or if the options don't
/// go with such providers, prints that and returns the program's end.
fn outside_types<E: Write>(
    rt: &HostRuntime,
    options: &Options,
    err: &mut E,
) -> Result<RemoteTypes, Ending> {
    if options.stop_after.is_some() && !options.providers.is_empty() {
        let _ = writeln!(err, "error: --stop-after cannot be used with --provider");
        return Err(Ending::from(ExitCode::FAILURE));
    }
    let types = read_types(rt, &options.providers, err)?;
    check_pipes(rt, &options.providers, err)?;
    Ok(types)
}

/// Applies with `sim` and `local_file`, whose calls are logged, counted for `--stop-after`, and printed, as text or as events, if that
/// is asked for.
fn apply_by<T: Threads + Wait + Sync, O: Write, E: Write>(
    rt: &HostRuntime,
    threads: &T,
    place: &Place,
    file: &Arc<File>,
    given: &ProgramInput,
    out: &mut O,
    err: &mut E,
) -> io::Result<ExitCode> {
    let alloc = rt.alloc();
    let stop_file = stop_file(rt, given)?;
    let stop_after = given.options.stop_after;
    let events = call_events(rt, given.options.json);
    let control = CallControl::new(alloc, Arc::try_clone(file)?, stop_after, stop_file, events)?;
    apply_controlled(rt, threads, place, file, &control, given, out, err)
}

/// Applies with `sim` and `local_file`, whose calls this control counts, logs and reports.
fn apply_controlled<T: Threads + Wait + Sync, O: Write, E: Write>(
    rt: &HostRuntime,
    threads: &T,
    place: &Place,
    file: &File,
    control: &CallControl<File>,
    given: &ProgramInput,
    out: &mut O,
    err: &mut E,
) -> io::Result<ExitCode> {
    let alloc = rt.alloc();
    let WatchedProviders { sim, files } = watched_providers(rt, place, given, control)?;
    let mut providers: Vec<Box<dyn Provider + Sync>> = Vec::new(alloc);
    providers.push(Box::new(alloc, sim)?)?;
    providers.push(Box::new(alloc, files)?)?;
    Ok(carry_out_by(
        rt, threads, place, file, control, given, &providers, out, err,
    ))
}

/// Returns the file that stops the apply, if the options name one.
fn stop_file(rt: &HostRuntime, given: &ProgramInput) -> Result<Option<StopFile>, AllocError> {
    match &given.options.stop_file {
        Some(name) => {
            let name = String::from_str(rt.alloc(), name.as_str())?;
            Ok(Some(StopFile::new(*rt, name)))
        }
        None => Ok(None),
    }
}

/// Carries out the plan with these providers, prints the result and writes the state. Errors are explained if that is asked for.
fn carry_out_by<T: Threads + Wait + Sync, O: Write, E: Write>(
    rt: &HostRuntime,
    threads: &T,
    place: &Place,
    file: &File,
    control: &CallControl<File>,
    given: &ProgramInput,
    providers: &[Box<dyn Provider + Sync>],
    out: &mut O,
    err: &mut E,
) -> ExitCode {
    let files = sources(given, place, providers);
    warn(rt, given, files, err);
    let mut err = Explained::new(rt.alloc(), err, given.options.explain, files);
    let status = carry_out_logged(
        rt,
        threads,
        place,
        file,
        control.log(),
        given,
        providers,
        control.stop(),
        &AtTerminal::new(rt, given),
        out,
        &mut err,
    );
    print_log_cause(control, given, &mut err);
    status
}
