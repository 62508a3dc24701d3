//! What the program `plan` does with the files that it was given.

ghost use Rattle.std.specs.Prelude.{◌≡◌, IfErr, IfOk, map, string_bytes};
ghost use Rattle.tf_cli_program.specs.Work.{EndsPlan, IsPlanAnswer, PrintsAs, plain_answer, plan_status, shown_text};
ghost use Rattle.tf_plan_planner.specs.declared.refused.Refused.TheVariants.{NoMemory};
ghost use Rattle.tf_walk_action.specs.Words.{plan_of};

use crate::planning::plan_given;
use std::alloc::Global;
use std::io::Write;
use tf_cli::{Refused, print_refused, save, text_of};
use tf_cli_files::ProgramInput;
use tf_cli_options::{GraphForm, Options};
use tf_plan_data::Planned;
use tf_plan_diff::{Colours, diff_text};
use tf_plan_json::json_text;
use tf_plan_text::dot_text;
use tf_provider::Provider;

/// The exit status of a plan with actions, if the options ask for a status that says so.
const HAS_CHANGES: u8 = 2;

/// Plans what `plan` was given, and prints the plan on standard output, in the form that the options ask for, or the refusals on
/// standard error. `colours` are those of a plan with old values. Returns the status: 1 if the plan is refused; 2 if it has actions
/// and the options ask for a detailed status; otherwise 0. A failed write changes no status.
pub fn print_plan<O: Write, E: Write>(
    alloc: Global,
    given: &ProgramInput,
    colours: Colours,
    providers: &[Box<dyn Provider + Sync>],
    out: &mut O,
    err: &mut E,
) -> u8
    ensures { (answer : _) × IsPlanAnswer (map meaning providers.now) given.now colours answer × EndsPlan answer result (O.contents out.old) (O.contents out.new) (E.contents err.old) (E.contents err.new) }
{
    print_answer(answer_of(alloc, given, colours, providers), out, err)
}

/// Returns the text of the plan of what was given, in the form that the options ask for, and the status.
fn answer_of(
    alloc: Global,
    given: &ProgramInput,
    colours: Colours,
    providers: &[Box<dyn Provider + Sync>],
) -> Result<(String, u8), Refused>
    ensures { IsPlanAnswer (map meaning providers.now) given.now colours (plain_answer result) }
{
    match plan_given(alloc, given, providers) {
        Ok(planned) => {
            let status = status_of(&given.options, &planned);
            match form_of(alloc, &given.options, colours, &planned) {
                Ok(text) => Ok((text, status)),
                Err(refused) => Err(refused),
            }
        }
        Err(refused) => Err(refused),
    }
}

/// Returns the status of a plan.
fn status_of(options: &Options, planned: &Planned) -> u8
    ensures { result ≡ plan_status options.now (plan_of planned.now) }
{
    if options.detailed_exitcode && !planned.plan.actions.is_empty() {
        HAS_CHANGES
    } else {
        0
    }
}

/// Returns the text of a plan in the form that the options ask for. Refuses only if memory runs out.
fn form_of(
    alloc: Global,
    options: &Options,
    colours: Colours,
    planned: &Planned,
) -> Result<String, Refused>
    ensures prints { IfOk result (λ text. PrintsAs options.now colours (plan_of planned.now) (string_bytes text)) }
    ensures refused { IfErr result (λ refused. refused ≡ NoMemory) }
{
    match options.graph {
        Some(GraphForm::Dot) => {
            let text = dot_text(alloc, &planned.plan)?;
            Ok(text)
        }
        None if options.json => {
            let text = json_text(alloc, planned)?;
            Ok(text)
        }
        None => shown_text(alloc, options, colours, planned),
    }
}

/// Returns the text that shows a plan, with the old values if the options ask for them. Refuses only if memory runs out.
pub fn shown_text(
    alloc: Global,
    options: &Options,
    colours: Colours,
    planned: &Planned,
) -> Result<String, Refused>
    ensures shown { IfOk result (λ text. string_bytes text ≡ shown_text options.now colours (plan_of planned.now)) }
    ensures refused { IfErr result (λ refused. refused ≡ NoMemory) }
{
    if options.diff {
        let text = diff_text(alloc, &planned.plan, colours)?;
        return Ok(text);
    }
    text_of(alloc, planned)
}

/// Prints a text on standard output or refusals on standard error, and returns the status.
fn print_answer<O: Write, E: Write>(
    answer: Result<(String, u8), Refused>,
    out: &mut O,
    err: &mut E,
) -> u8
    ensures { EndsPlan (plain_answer answer) result (O.contents out.old) (O.contents out.new) (E.contents err.old) (E.contents err.new) }
{
    match answer {
        Ok((text, status)) => {
            let _ = save(out, text.as_str());
            status
        }
        Err(refused) => {
            let _ = print_refused(&refused, err);
            1
        }
    }
}
