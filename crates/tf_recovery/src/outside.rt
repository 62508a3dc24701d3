//! The work of `apply` with providers outside the program, after a recovery.

ghost use Rattle.std.specs.Prelude.{map};
ghost use Rattle.tf_cli.specs.Applies.{MayStart};
ghost use Rattle.tf_walk_action.specs.Words.{plan_of};

use crate::carrying::{carried_out, finish};
use crate::explaining::{print_log_cause, sources, warn};
use crate::printing::{PrintedPlan, approved_plan};
use crate::reporting::call_events;
use std::fs::File;
use std::io;
use std::io::Write;
use std::process::ExitCode;
use std::sync::{Arc, Wait};
use tf_cli::SaveFault;
use tf_cli_files::{CallControl, Place, ProgramInput};
use tf_cli_program::start_log;
use tf_explain::Explained;
use tf_plan_data::Planned;
use tf_provider::Provider;
use tf_provider_local::LocalFile;
use tf_provider_remote::RemoteTypes;
use tf_provider_sim::Sim;
use tf_session::{ApplyLog, Session, open_pipes};

/// Applies with providers outside the program, after a recovery, and returns the program's status.
pub(crate) fn apply_outside<T: Wait, O: Write, E: Write>(
    rt: &HostRuntime,
    threads: &T,
    types: RemoteTypes,
    place: &Place,
    file: File,
    given: &ProgramInput,
    out: &mut O,
    err: &mut E,
) -> io::Result<ExitCode> {
    let alloc = rt.alloc();
    let file = Arc::new(alloc, file)?;
    let events = call_events(rt, given.options.json);
    let control = CallControl::new(alloc, Arc::try_clone(&file)?, None, None, events)?;
    let sim = control.wrap(alloc, Sim::new(alloc)?)?;
    let reserved = place.own_files(alloc, &given.options)?;
    let local_file = control.wrap(alloc, LocalFile::with_reserved(alloc, *rt, reserved)?)?;
    let mut providers: Vec<Box<dyn Provider + Sync>> = Vec::new(alloc);
    providers.push(Box::new(alloc, types.share()?)?)?;
    providers.push(Box::new(alloc, sim)?)?;
    providers.push(Box::new(alloc, local_file)?)?;
    let log_file: &File = &file;
    let files = sources(given, place, providers.as_slice());
    warn(rt, given, files, err);
    let mut err = Explained::new(alloc, err, given.options.explain, files);
    let status = carry_out_approved(
        rt,
        threads,
        &types,
        place,
        log_file,
        control.log(),
        given,
        &providers,
        out,
        &mut err,
    );
    print_log_cause(&control, given, &mut err);
    status
}

/// Prints the plan, asks for approval, and carries the plan out.
fn carry_out_approved<T: Wait, O: Write, E: Write>(
    rt: &HostRuntime,
    threads: &T,
    types: &RemoteTypes,
    place: &Place,
    file: &File,
    log: &ApplyLog,
    given: &ProgramInput,
    providers: &[Box<dyn Provider + Sync>],
    out: &mut O,
    err: &mut E,
) -> io::Result<ExitCode> {
    match approved_plan(rt, given, providers, out, err) {
        Ok(PrintedPlan { planned, printed }) => carry_out_outside(
            rt, threads, types, place, file, log, given, providers, &planned, printed, out, err,
        ),
        Err(status) => Ok(status),
    }
}

/// Opens the pipes, starts the log, makes the calls of a plan that was printed, prints the result and writes the state.
fn carry_out_outside<T: Wait, O: Write, E: Write>(
    rt: &HostRuntime,
    threads: &T,
    types: &RemoteTypes,
    place: &Place,
    file: &File,
    log: &ApplyLog,
    given: &ProgramInput,
    providers: &[Box<dyn Provider + Sync>],
    planned: &Planned,
    printed: Result<(), SaveFault>,
    out: &mut O,
    err: &mut E,
) -> io::Result<ExitCode>
    requires { MayStart (map meaning providers.now) (plan_of planned.now) }
{
    let folders = if planned.plan.actions.is_empty() {
        &[]
    } else {
        given.options.providers.as_slice()
    };
    let pipes = match open_pipes(rt, folders, err)? {
        Ok(pipes) => pipes,
        Err(status) => return Ok(status),
    };
    if let Err(status) = start_log(rt, place, log, given, err) {
        return Ok(status);
    }
    let events = call_events(rt, given.options.json);
    let most = given.options.parallelism;
    let mut session = Session::new(rt.alloc(), types.share()?, pipes, most, events)?;
    let answer = carried_out(
        rt,
        threads,
        given,
        planned,
        log,
        providers,
        &mut session,
        err,
    )?;
    Ok(finish(
        rt, place, file, log, given, &session, answer, printed, out, err,
    ))
}
