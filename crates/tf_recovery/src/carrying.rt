//! An apply with providers outside the program, from the first call to the state.

ghost use Rattle.std.specs.Prelude.{◌≡◌, IfOk, None, OnOk, map};
ghost use Rattle.tf_plan_data.specs.Words.{AreServed, plan_of};
ghost use Rattle.tf_provider_log.specs.LogEntry.{log_entry_of};
ghost use Rattle.tf_provider_remote.specs.Flights.{next_provider};
ghost use Rattle.tf_recovery.specs.Calls.{AreDue, IsCarriedOut};
ghost use Rattle.tf_recovery.specs.Outcome.{IsOutcome};
ghost use Rattle.tf_session.specs.Calls.{AreKept};
ghost use Rattle.tf_session.specs.Outside.{outside_replayed};

use crate::walking::apply_over_log;
use std::alloc::AllocError;
use std::fs::File;
use std::io::Write;
use std::process::ExitCode;
use std::sync::Wait;
use tf_cli::{Applied, Refused, SaveFault, show_rest, state_to_write};
use tf_cli_files::{Place, ProgramInput, print_call_in_flight};
use tf_cli_program::{ask_for_results, end_apply};
use tf_plan_data::Planned;
use tf_provider::Provider;
use tf_provider_remote::RemoteTypes;
use tf_session::{ApplyContext, ApplyLog, Session};
use tf_walk_requests::PlanProgress;

/// Applies what was given, whose plan this is: makes the calls of its actions, each once the actions before it ended well, until no
/// call is left to make, or nothing more is to be begun, and no reply can come any more. Makes no other call, and forgets none, so
/// none is made twice.
pub(crate) fn carried_out<T: Wait, E: Write>(
    rt: &HostRuntime,
    threads: &T,
    given: &ProgramInput,
    planned: &Planned,
    log: &ApplyLog,
    providers: &[Box<dyn Provider + Sync>],
    session: &mut Session,
    err: &mut E,
) -> Result<Result<Applied, Refused>, AllocError>
    requires { AreServed (map meaning providers.now) (plan_of planned.now).actions }
    ensures outcome { IfOk result (λ answer. IsOutcome (outside_replayed (⟦<RemoteTypes as Provider>⟧.meaning session.new.types) (map log_entry_of session.new.calls.entries.items)) given.now answer) }
    ensures kept { OnOk result (AreKept session.old.calls session.new.calls) }
    ensures due { OnOk result (AreDue (map meaning providers.now) (plan_of planned.now) session.old session.new) }
    ensures carried_out { OnOk result (IsCarriedOut (map meaning providers.now) (plan_of planned.now) session.new) }
    ensures no_reply { OnOk result (next_provider session.new.lost.items session.new.calls.flights.flights.items ≡ None) }
{
    let alloc = rt.alloc();
    let context = ApplyContext {
        rt,
        log,
        providers,
        given,
    };
    let mut progress = PlanProgress::new(alloc, planned.plan.actions.len())?;
    for _ in threads.forever() {
        let requests = progress.next_requests(alloc, planned, providers, session.entries())?;
        if requests.is_empty() && !session.awaits_reply() {
            return apply_over_log(rt, given, session.types(), session.entries());
        }
        session.serve(context, requests, err)?;
    }
    unreachable!()
}

/// Ends an apply: prints what follows the plan's text, writes the state if it changed, and empties the log. Warns if the apply was
/// stopped. If requests are still in flight, prints these and how to go on; the state and the log then stay as they are, unless the
/// log lacks a reply.
pub(crate) fn finish<O: Write, E: Write>(
    rt: &HostRuntime,
    place: &Place,
    file: &File,
    log: &ApplyLog,
    given: &ProgramInput,
    session: &Session,
    answer: Result<Applied, Refused>,
    printed: Result<(), SaveFault>,
    out: &mut O,
    err: &mut E,
) -> ExitCode {
    let _ = log.sync();
    if session.is_stopped() {
        let _ = writeln!(err, "warning: stopped, so nothing more was begun");
    }
    if session.flights().is_empty() || log.is_lost() {
        print_flights(rt, session, err);
        let explains = given.options.explain;
        return end_apply(rt, place, file, log, explains, answer, printed, out, err);
    }
    let _ = show_rest(printed, &answer, out, err);
    drop(state_to_write(answer));
    print_flights(rt, session, err);
    if are_repeated(session) {
        return print_repeated(place, err);
    }
    ask_for_results(place, err)
}

/// Returns whether all requests in flight are of idempotent types.
fn are_repeated(session: &Session) -> bool {
    for flight in session.flights().list() {
        if !session
            .types()
            .is_idempotent(flight.request.type_name.as_str())
        {
            return false;
        }
    }
    true
}

/// Prints that the next apply makes the requests in flight again. Returns the program's status, 2.
fn print_repeated<E: Write>(place: &Place, err: &mut E) -> ExitCode {
    let _ = writeln!(
        err,
        "error: {} has calls whose results are not known. Their types are idempotent, so run apply again",
        place.log
    );
    ExitCode::from(2)
}

/// Prints which requests are in flight.
fn print_flights<E: Write>(rt: &HostRuntime, session: &Session, err: &mut E) {
    for flight in session.flights().list() {
        print_call_in_flight(rt.alloc(), &flight.request, err);
    }
}
