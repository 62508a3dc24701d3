//! The output of an apply, and its exit status.

ghost use Rattle.std.specs.Io.KnownBytes.{Appends};
ghost use Rattle.std.specs.List.{list_all};
ghost use Rattle.std.specs.Prelude.{◌≡◌, IsErr, MatchResult, OnOk};
ghost use Rattle.tf_cli_lines.specs.Saved.{AppendsStart};
ghost use Rattle.tf_cli_text.specs.Shown.{all_good, applied_errors, applied_output, applied_status, cant_write, counts, diagnostic_line, diagnostic_lines, error_line, errors_of, is_good_outcome, is_torn, output_of, refused_errors, report_summary, status_of, summary_of, summary_opening, torn_warning, unwritten_error, warnings};
ghost use Rattle.tf_walk_report.specs.Diagnostics.{diagnostic_of};
ghost use Rattle.tf_walk_report.specs.Report.{report_of};

use crate::applied::Applied;
use itoa::Buffer;
use std::io::Write;
use tf_cli_lines::{SaveFault, print_refusals, save, save_all, verb_text};
use tf_plan_planner::Refused;
use tf_provider::Verdict;
use tf_walk_action::Outcome;
use tf_walk_report::{Diagnostic, Report, Walked};

/// Whether printing succeeded.
type Printed = Result<(), SaveFault>;

/// Prints all that `apply` prints before it writes the state file, and returns the status so far: 1 if the apply is
/// refused, 3 if the state has changed and there is no text of it, 2 if some action or output isn't good or the
/// report is torn, else 0. If a write to a writer fails, writes nothing more to it, and ignores the error. `print`
/// returns it.
pub fn show<O: Write, E: Write>(answer: &Result<Applied, Refused>, out: &mut O, err: &mut E) -> u8
    ensures status { result ≡ status_of answer.now }
    ensures output { AppendsStart (O.contents out.old) (O.contents out.new) (output_of answer.now) }
    ensures errors { AppendsStart (E.contents err.old) (E.contents err.new) (errors_of answer.now) }
{
    let _ = print(answer, out, err);
    status(answer)
}

/// Prints what [`show`] prints after the plan's text, and returns the same status. `planned` is what printing that text
/// returned: if it failed, writes nothing more to standard output.
#[tactic(auto, using(tf_cli_lines::proofs::Writes::appends_none))]
pub fn show_rest<O: Write, E: Write>(
    planned: Result<(), SaveFault>,
    answer: &Result<Applied, Refused>,
    out: &mut O,
    err: &mut E,
) -> u8
    ensures status { result ≡ status_of answer.now }
    ensures output { MatchResult planned (λ _. AppendsStart (O.contents out.old) (O.contents out.new) (summary_of answer.now)) (λ _. O.contents out.new ≡ O.contents out.old) }
    ensures errors { AppendsStart (E.contents err.old) (E.contents err.new) (errors_of answer.now) }
{
    let _ = print_rest(planned, answer, out, err);
    status(answer)
}

/// Prints what comes after the plan's text.
#[tactic(auto, using(tf_cli_lines::proofs::Writes::appends_none))]
fn print_rest<O: Write, E: Write>(
    planned: Printed,
    answer: &Result<Applied, Refused>,
    out: &mut O,
    err: &mut E,
) -> Printed
    ensures output { MatchResult planned (λ _. AppendsStart (O.contents out.old) (O.contents out.new) (summary_of answer.now)) (λ _. O.contents out.new ≡ O.contents out.old) }
    ensures errors { AppendsStart (E.contents err.old) (E.contents err.new) (errors_of answer.now) }
{
    match answer {
        Ok(applied) => print_report(planned, applied, out, err),
        Err(refused) => print_refused(refused, err),
    }
}

/// Prints all that `apply` prints before it writes the state file. If a write to a writer fails, writes nothing more
/// to it, but still writes the rest to the other one.
#[tactic(auto, using(tf_cli_lines::proofs::Writes::appends_none))]
pub fn print<O: Write, E: Write>(
    answer: &Result<Applied, Refused>,
    out: &mut O,
    err: &mut E,
) -> Printed
    ensures output { OnOk result (Appends (O.contents out.old) (O.contents out.new) (output_of answer.now)) }
    ensures errors { OnOk result (Appends (E.contents err.old) (E.contents err.new) (errors_of answer.now)) }
    ensures output_part { AppendsStart (O.contents out.old) (O.contents out.new) (output_of answer.now) }
    ensures errors_part { AppendsStart (E.contents err.old) (E.contents err.new) (errors_of answer.now) }
{
    match answer {
        Ok(applied) => print_applied(applied, out, err),
        Err(refused) => print_refused(refused, err),
    }
}

fn status(answer: &Result<Applied, Refused>) -> u8
    ensures { result ≡ status_of answer.now }
{
    match answer {
        Ok(applied) => status_of_applied(applied),
        Err(_) => 1,
    }
}

fn status_of_applied(applied: &Applied) -> u8
    ensures { result ≡ applied_status applied.now }
{
    if cant_write(applied) {
        3
    } else if is_complete(applied.walked.report()) && !is_torn(&applied.walked) {
        0
    } else {
        2
    }
}

fn print_applied<O: Write, E: Write>(applied: &Applied, out: &mut O, err: &mut E) -> Printed
    ensures output { OnOk result (Appends (O.contents out.old) (O.contents out.new) (applied_output applied.now)) }
    ensures errors { OnOk result (Appends (E.contents err.old) (E.contents err.new) (applied_errors applied.now)) }
    ensures output_part { AppendsStart (O.contents out.old) (O.contents out.new) (applied_output applied.now) }
    ensures errors_part { AppendsStart (E.contents err.old) (E.contents err.new) (applied_errors applied.now) }
{
    let planned = save(out, applied.plan.as_str());
    print_report(planned, applied, out, err)
}

/// Prints what comes after the plan's text: the summary, if that text was printed, and the diagnostics and warnings.
fn print_report<O: Write, E: Write>(
    planned: Printed,
    applied: &Applied,
    out: &mut O,
    err: &mut E,
) -> Printed
    ensures output { MatchResult planned (λ _. OnOk result (Appends (O.contents out.old) (O.contents out.new) (report_summary (report_of applied.now.walked)))) (λ _. IsErr result) }
    ensures errors { OnOk result (Appends (E.contents err.old) (E.contents err.new) (applied_errors applied.now)) }
    ensures output_part { MatchResult planned (λ _. AppendsStart (O.contents out.old) (O.contents out.new) (report_summary (report_of applied.now.walked))) (λ _. O.contents out.new ≡ O.contents out.old) }
    ensures errors_part { AppendsStart (E.contents err.old) (E.contents err.new) (applied_errors applied.now) }
{
    let report = applied.walked.report();
    let told = print_diagnostics(&report.diagnostics, err);
    let summed = print_summary(planned, report, out);
    let warned = print_warnings(told, applied, err);
    summed?;
    warned
}

/// Prints the summary, if all that comes before it was printed.
fn print_summary<O: Write>(before: Printed, report: &Report, out: &mut O) -> Printed
    ensures whole { MatchResult before (λ _. OnOk result (Appends (O.contents out.old) (O.contents out.new) (report_summary report.now))) (λ _. IsErr result) }
    ensures part { MatchResult before (λ _. AppendsStart (O.contents out.old) (O.contents out.new) (report_summary report.now)) (λ _. O.contents out.new ≡ O.contents out.old) }
{
    before?;
    let (added, changed, destroyed) = report.good;
    print_counts(opening(is_complete(report)), added, changed, destroyed, out)
}

/// Prints the warnings after the diagnostics, if these were printed.
fn print_warnings<E: Write>(before: Printed, applied: &Applied, err: &mut E) -> Printed
    ensures whole { MatchResult before (λ _. OnOk result (Appends (E.contents err.old) (E.contents err.new) (warnings applied.now))) (λ _. IsErr result) }
    ensures part { MatchResult before (λ _. AppendsStart (E.contents err.old) (E.contents err.new) (warnings applied.now)) (λ _. E.contents err.new ≡ E.contents err.old) }
{
    before?;
    let torn = torn_warning(is_torn(&applied.walked));
    let unwritten = unwritten_error(cant_write(applied));
    let texts = [torn, unwritten];
    save_all(err, &texts)
}

fn print_counts<O: Write>(
    opening: &str,
    added: u32,
    changed: u32,
    destroyed: u32,
    out: &mut O,
) -> Printed
    ensures whole { OnOk result (Appends (O.contents out.old) (O.contents out.new) (counts opening.now added changed destroyed)) }
    ensures part { AppendsStart (O.contents out.old) (O.contents out.new) (counts opening.now added changed destroyed) }
{
    let mut first = Buffer::new();
    let mut second = Buffer::new();
    let mut third = Buffer::new();
    let texts = [
        opening,
        first.format(added),
        " added, ",
        second.format(changed),
        " changed, ",
        third.format(destroyed),
        " destroyed.\n",
    ];
    save_all(out, &texts)
}

fn print_diagnostics<E: Write>(diagnostics: &[Diagnostic], err: &mut E) -> Printed
    ensures whole { OnOk result (Appends (E.contents err.old) (E.contents err.new) (diagnostic_lines diagnostics.now)) }
    ensures part { AppendsStart (E.contents err.old) (E.contents err.new) (diagnostic_lines diagnostics.now) }
{
    for diagnostic in diagnostics {
        print_diagnostic(diagnostic, err)?;
    }
    Ok(())
}

fn print_diagnostic<E: Write>(diagnostic: &Diagnostic, err: &mut E) -> Printed
    ensures whole { OnOk result (Appends (E.contents err.old) (E.contents err.new) (diagnostic_line (diagnostic_of diagnostic.now))) }
    ensures part { AppendsStart (E.contents err.old) (E.contents err.new) (diagnostic_line (diagnostic_of diagnostic.now)) }
{
    let place = diagnostic.place.as_str();
    let verb = verb_text(&diagnostic.verb);
    let message = diagnostic.message.as_str();
    print_error(diagnostic.code.number(), place, verb, message, err)
}

fn print_error<'a, E: Write>(
    code: u8,
    place: &'a str,
    verb: &'a str,
    message: &'a str,
    err: &mut E,
) -> Printed
    ensures whole { OnOk result (Appends (E.contents err.old) (E.contents err.new) (error_line code place.now verb.now message.now)) }
    ensures part { AppendsStart (E.contents err.old) (E.contents err.new) (error_line code place.now verb.now message.now) }
{
    let mut number = Buffer::new();
    let texts = [
        "error ",
        number.format(code),
        " at ",
        place,
        verb,
        ": ",
        message,
        "\n",
    ];
    save_all(err, &texts)
}

/// Prints each refusal on a line. If a write fails, writes nothing more.
pub fn print_refused<E: Write>(refused: &Refused, err: &mut E) -> Printed
    ensures whole { OnOk result (Appends (E.contents err.old) (E.contents err.new) (refused_errors refused.now)) }
    ensures part { AppendsStart (E.contents err.old) (E.contents err.new) (refused_errors refused.now) }
{
    match refused {
        Refused::NoMemory => save(err, "error 15 at memory: OutOfMemory\n"),
        Refused::These(refusals) => print_refusals(refusals, err),
    }
}

fn is_torn(walked: &Walked) -> bool
    ensures { result ≡ is_torn walked.now }
{
    matches!(walked, Walked::Torn(_))
}

/// Returns whether each action is good, and there is no diagnostic of any output.
fn is_complete(report: &Report) -> bool
    ensures { result ≡ all_good report.now }
{
    are_good(&report.outcomes) && report.diagnostics.is_empty()
}

fn are_good(outcomes: &[Outcome]) -> bool
    ensures { result ≡ list_all is_good_outcome outcomes.now }
{
    for outcome in outcomes {
        if !is_good(*outcome) {
            return false;
        }
    }
    true
}

fn is_good(outcome: Outcome) -> bool
    ensures { result ≡ is_good_outcome outcome }
{
    matches!(outcome, Outcome::Judged(Verdict::Good))
}

/// Returns whether the state has changed and there is no text of it.
fn cant_write(applied: &Applied) -> bool
    ensures { result ≡ cant_write applied.now }
{
    applied.changed && applied.state.is_err()
}

fn torn_warning(torn: bool) -> &'static str
    ensures { result.now ≡ torn_warning torn }
{
    if torn {
        "warning: the journal is withheld\n"
    } else {
        ""
    }
}

fn unwritten_error(unwritten: bool) -> &'static str
    ensures { result.now ≡ unwritten_error unwritten }
{
    if unwritten {
        "error: state not written\n"
    } else {
        ""
    }
}

/// Returns the beginning of the summary.
fn opening(complete: bool) -> &'static str
    ensures { result.now ≡ summary_opening complete }
{
    if complete {
        "Apply complete! Resources: "
    } else {
        "Apply incomplete. Resources: "
    }
}
