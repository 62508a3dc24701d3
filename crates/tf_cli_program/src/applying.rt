//! What the program `apply` does with the files that it was given.

ghost use Rattle.std.specs.Prelude.{◌≡◌, ℕ, List, IfErr, IfOk, None, Option, Some, if◌then◌else◌, map, option_map, string_bytes, unwrap_or};
ghost use Rattle.std.specs.Process.{exit_status};
ghost use Rattle.tf_cli.specs.Applies.{IsPlanOf, MayStart, text_in};
ghost use Rattle.tf_cli_files.specs.declared.given.ProgramInput.{ProgramInput};
ghost use Rattle.tf_cli_lines.specs.Saved.{AppendsStart};
ghost use Rattle.tf_cli_program.specs.Work.{EndsApply, EndsAs, EndsLogged, IsPrinted, IsSettled, IsShownPlan, texts_of};
ghost use Rattle.tf_plan_diff.specs.Diff.{diff_text};
ghost use Rattle.tf_plan_planner.specs.declared.refused.Refused.TheVariants.{NoMemory};
ghost use Rattle.tf_cli_text.specs.Shown.{refused_errors};
ghost use Rattle.tf_provider_protocol.specs.Meaning.{Meaning};
ghost use Rattle.tf_walk_action.specs.Words.{plan_of};

use crate::approval::Approval;
use crate::logging::{empty_log, start};
use crate::planning::plan_given;
use std::alloc::Global;
use std::io;
use std::io::Write;
use std::process::ExitCode;
use std::rt::Files;
use std::sync::Wait;
use std::thread::Threads;
use tf_cli::{
    Applied, Refused, SaveFault, Stop, carry_out, print_refused, save, show_rest, state_to_write,
    text_of,
};
use tf_cli_files::{
    EXIT_STATE_NOT_WRITTEN, LogFile, NotInPlace, Place, ProgramInput, Settled, print_cause,
    print_lost, write_state,
};
use tf_cli_options::Options;
use tf_plan_data::Planned;
use tf_plan_diff::{Colours, diff_text};
use tf_provider::Provider;
use tf_provider_log::{OpenLog, Sink};

/// Whether printing succeeded.
type Printed = Result<(), SaveFault>;

/// Plans what `apply` was given, prints the plan, asks for approval if `approval` says so and the plan has actions, carries the plan
/// out with providers that log their calls, prints the rest of the result, writes the state if it changed, and returns the status.
/// Before any call, the log has what was given. Afterwards it is empty, unless the state couldn't be written. If the user
/// doesn't approve, nothing is called or written, and the status is 1.
pub fn carry_out_logged<
    R: Files + AllocGlobal,
    T: Threads + Wait + Sync,
    S: Sink,
    A: Approval,
    O: Write,
    E: Write,
>(
    rt: &R,
    threads: &T,
    place: &Place,
    file: &R::File,
    log: &OpenLog<S>,
    given: &ProgramInput,
    providers: &[Box<dyn Provider + Sync>],
    stop: &Stop,
    approval: &A,
    out: &mut O,
    err: &mut E,
) -> ExitCode
where
    R::File: LogFile,
    ensures { EndsLogged (map meaning providers.now) given.now result (O.contents out.old) (O.contents out.new) (E.contents err.old) }
{
    match plan_given(rt.alloc(), given, providers) {
        Ok(planned) => approve_and_run(
            rt, threads, place, file, log, given, &planned, providers, stop, approval, out, err,
        ),
        Err(refused) => refuse(&refused, err),
    }
}

/// Prints refusals, and returns the status, 1.
pub fn refuse<E: Write>(refused: &Refused, err: &mut E) -> ExitCode
    ensures status { exit_status result ≡ 1 }
    ensures errors { AppendsStart (E.contents err.old) (E.contents err.new) (refused_errors refused.now) }
{
    let _ = print_refused(refused, err);
    ExitCode::FAILURE
}

/// Makes the text that shows the plan; if the user has to approve the plan, prints that text and asks; then carries the plan out.
fn approve_and_run<
    R: Files + AllocGlobal,
    T: Threads + Wait + Sync,
    S: Sink,
    A: Approval,
    O: Write,
    E: Write,
>(
    rt: &R,
    threads: &T,
    place: &Place,
    file: &R::File,
    log: &OpenLog<S>,
    given: &ProgramInput,
    planned: &Planned,
    providers: &[Box<dyn Provider + Sync>],
    stop: &Stop,
    approval: &A,
    out: &mut O,
    err: &mut E,
) -> ExitCode
where
    R::File: LogFile,
    requires starts { MayStart (map meaning providers.now) (plan_of planned.now) }
    requires planned { IsPlanOf (map meaning providers.now) (texts_of given.now) (string_bytes given.now.options.lineage) (plan_of planned.now) }
    ensures { EndsLogged (map meaning providers.now) given.now result (O.contents out.old) (O.contents out.new) (E.contents err.old) }
{
    let text = match text_of(rt.alloc(), planned) {
        Ok(text) => text,
        Err(refused) => return refuse(&refused, err),
    };
    let diff = match diff_of(rt.alloc(), &given.options, approval.colours(), planned) {
        Ok(diff) => diff,
        Err(refused) => return refuse(&refused, err),
    };
    if planned.plan.actions.is_empty() || !approval.is_asked() {
        return run_logged(
            rt, threads, place, file, log, given, planned, text, diff, None, providers, stop, out,
            err,
        );
    }
    let printed = save(out, shown_of(&text, &diff));
    if !approval.approves() {
        return ExitCode::FAILURE;
    }
    run_logged(
        rt,
        threads,
        place,
        file,
        log,
        given,
        planned,
        text,
        diff,
        Some(printed),
        providers,
        stop,
        out,
        err,
    )
}

/// Returns the text of a plan with old values, if the options ask for it. Refuses only if memory runs out.
fn diff_of(
    alloc: Global,
    options: &Options,
    colours: Colours,
    planned: &Planned,
) -> Result<Option<String>, Refused>
    ensures diff { IfOk result (λ diff. option_map string_bytes diff ≡ (if options.now.diff then Some (diff_text colours (plan_of planned.now)) else None)) }
    ensures refused { IfErr result (λ refused. refused ≡ NoMemory) }
{
    if !options.diff {
        return Ok(None);
    }
    let text = diff_text(alloc, &planned.plan, colours)?;
    Ok(Some(text))
}

/// Returns the text that shows a plan: that with old values, if there is one, or the plan's own.
fn shown_of<'a>(text: &'a String, diff: &'a Option<String>) -> &'a str
    ensures { result.now ≡ unwrap_or (option_map string_bytes diff.now) (string_bytes text.now) }
{
    match diff {
        Some(diff) => diff.as_str(),
        None => text.as_str(),
    }
}

/// Starts the log, prints the text that shows the plan if it isn't printed yet, carries the plan out, and empties the log.
fn run_logged<R: Files + AllocGlobal, T: Threads + Wait + Sync, S: Sink, O: Write, E: Write>(
    rt: &R,
    threads: &T,
    place: &Place,
    file: &R::File,
    log: &OpenLog<S>,
    given: &ProgramInput,
    planned: &Planned,
    text: String,
    diff: Option<String>,
    printed: Option<Printed>,
    providers: &[Box<dyn Provider + Sync>],
    stop: &Stop,
    out: &mut O,
    err: &mut E,
) -> ExitCode
where
    R::File: LogFile,
    requires starts { MayStart (map meaning providers.now) (plan_of planned.now) }
    requires planned { IsPlanOf (map meaning providers.now) (texts_of given.now) (string_bytes given.now.options.lineage) (plan_of planned.now) }
    requires shown { string_bytes text ≡ text_in (plan_of planned.now) }
    requires shows { IsShownPlan (map meaning providers.now) given.now (unwrap_or (option_map string_bytes diff) (string_bytes text)) }
    ensures { (before : Option (List ℕ)) → IsPrinted printed (unwrap_or (option_map string_bytes diff) (string_bytes text)) before (O.contents out.old) → EndsLogged (map meaning providers.now) given.now result before (O.contents out.new) (E.contents err.old) }
{
    if let Err(status) = start(rt, place, log, given, err) {
        return status;
    }
    let printed = print_text(printed, shown_of(&text, &diff), out);
    let workers = given.options.parallelism;
    let answer = carry_out(threads, rt.alloc(), planned, text, providers, workers, stop);
    let explains = given.options.explain;
    end_apply(rt, place, file, log, explains, answer, printed, out, err)
}

/// Prints a text, unless it is already printed.
fn print_text<O: Write>(printed: Option<Printed>, text: &str, out: &mut O) -> Printed
    ensures { (before : Option (List ℕ)) → IsPrinted printed text.now before (O.contents out.old) → IsPrinted (Some result) text.now before (O.contents out.new) }
{
    match printed {
        Some(printed) => printed,
        None => save(out, text),
    }
}

/// Prints what follows the text that shows the plan, which is already printed, writes the state if it changed, and empties the log
/// unless the state couldn't be written. Returns the status. An error of the system is printed if errors are
/// explained.
pub fn end_apply<R: Files + AllocGlobal, S: Sink, O: Write, E: Write>(
    rt: &R,
    place: &Place,
    file: &R::File,
    log: &OpenLog<S>,
    explains: bool,
    answer: Result<Applied, Refused>,
    printed: Result<(), SaveFault>,
    out: &mut O,
    err: &mut E,
) -> ExitCode
where
    R::File: LogFile,
    ensures { (ms : List Meaning) (given : ProgramInput) (before : Option (List ℕ)) (shown : List ℕ) → IsShownPlan ms given shown → IsPrinted (Some printed) shown before (O.contents out.old) → EndsAs ms given answer result before (O.contents out.new) (E.contents err.old) }
{
    let (status, settled) = keep_result(rt, place, log, answer, printed, out, err);
    if let Err(Some(cause)) = &settled {
        print_cause(cause, explains, err);
    }
    if log.is_lost() {
        print_lost(place.log.as_str(), err);
    }
    if let Ok(why) = settled {
        let _ = empty_log(file, &why, place, explains, err);
    }
    ExitCode::from(status)
}

/// Prints what follows the text that shows the plan, which is already printed, and writes the state if it changed. Returns the status,
/// and why the log isn't needed any more. If the state isn't written, which is status 3, returns the error of the system in its place,
/// if there is one. The log of the calls is synced before the state is written; if it can't be, it is lost.
fn keep_result<R: Files + AllocGlobal, S: Sink, O: Write, E: Write>(
    rt: &R,
    place: &Place,
    log: &OpenLog<S>,
    answer: Result<Applied, Refused>,
    printed: Result<(), SaveFault>,
    out: &mut O,
    err: &mut E,
) -> (u8, Result<Settled, Option<io::Error>>)
    ensures settled { IsSettled answer result.0 result.1 }
    ensures ends { (ms : List Meaning) (given : ProgramInput) (before : Option (List ℕ)) (shown : List ℕ) → IsShownPlan ms given shown → IsPrinted (Some printed) shown before (O.contents out.old) → EndsApply ms given answer result.0 before (O.contents out.new) (E.contents err.old) (E.contents err.new) }
{
    let _ = log.sync();
    let status = show_rest(printed, &answer, out, err);
    match state_to_write(answer) {
        Some(text) => match write_state(rt, place, text, out, err) {
            Ok(in_place) => (status, Ok(Settled::Replaced(in_place))),
            Err(NotInPlace { cause }) => (EXIT_STATE_NOT_WRITTEN, Err(Some(cause))),
        },
        None if status == EXIT_STATE_NOT_WRITTEN => (status, Err(None)),
        None => (status, Ok(Settled::UpToDate)),
    }
}
