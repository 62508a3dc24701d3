//! What is reported of outputs, without taking memory.

ghost use Rattle.std.specs.Prelude.{◌≡◌, ◌+◌, ◌++◌, ◌≤◌, None, IfOk, length, map, option_map, string_bytes, vec_capacity};
ghost use Rattle.tf_walk_action.specs.Message.{evaluation_text};
ghost use Rattle.tf_expr_syntax.specs.ExprTree.{entries_view};
ghost use Rattle.tf_walk_report.specs.ActionReport.{listed};
ghost use Rattle.tf_walk_report.specs.Diagnostics.{diagnostic_of};
ghost use Rattle.tf_walk_report.specs.OutputsTold.{diagnostics_of_output, output_excuses, output_excuses_at, output_place};
ghost use Rattle.tf_walk_report.specs.OutputsBuffers.{places_in, places_of, told_of_texts};

use crate::additions::add;
use crate::diagnostic::Diagnostic;
use crate::texts::OutputTexts;
use std::alloc::{AllocError, Global};
use std::collections::BTreeMap;
use tf_config_refusal::Code;
use tf_expr_eval::EvalFault;
use tf_expr_syntax::Expr;
use tf_walk_action::Excuse;
use tf_walk_outputs::OutputResult;

/// Returns the texts for each output, in byte order of their names.
///
/// # Errors
///
/// Fails with `AllocError` if memory runs out.
pub fn texts_for(
    alloc: Global,
    outputs: &BTreeMap<String, Expr>,
) -> Result<Vec<OutputTexts>, AllocError>
    ensures { IfOk result (λ texts. places_in texts.items ≡ places_of (entries_view outputs.now.entries)) }
{
    let mut texts = Vec::new(alloc);
    for (name, _) in outputs.iter() {
        texts.push(texts_of(alloc, name)?)?;
    }
    Ok(texts)
}

fn texts_of(alloc: Global, name: &String) -> Result<OutputTexts, AllocError>
    ensures { IfOk result (λ texts. string_bytes texts.place ≡ output_place (string_bytes name.now)) }
{
    Ok(OutputTexts {
        place: format!(in alloc; "output.{name}")?,
        message: String::with_capacity(alloc, 21)?,
    })
}

/// Adds a diagnostic for each output that has a fault or for which memory ran out.
pub fn tell_outputs(
    texts: Vec<OutputTexts>,
    ends: Vec<OutputResult>,
    diagnostics: &mut Vec<Diagnostic>,
)
    requires paired { length texts.items ≡ length ends.items }
    requires room { length diagnostics.old.items + length ends.items ≤ vec_capacity diagnostics.old }
    ensures { map diagnostic_of diagnostics.new.items ≡ map diagnostic_of diagnostics.old.items ++ told_of_texts (places_in texts.items) ends.items }
{
    let mut left = ends.into_iter();
    for text in texts {
        let Some(end) = left.next() else {
            unreachable!()
        };
        add(diagnostics, tell_output(text, end));
    }
}

/// Returns the diagnostic of an output, if it has one.
fn tell_output(texts: OutputTexts, end: OutputResult) -> Option<Diagnostic>
    ensures { listed (option_map diagnostic_of result) ≡ diagnostics_of_output (string_bytes texts.place) end }
{
    let OutputTexts { place, mut message } = texts;
    match end {
        OutputResult::NotEvaluated | OutputResult::Valued => None,
        OutputResult::NoMemory => {
            message.push_str("no memory").unwrap();
            Some(diagnostic(Code::NoMemory, place, message))
        }
        OutputResult::Faulted(fault) => {
            message.push_str(evaluation_message(fault)).unwrap();
            Some(diagnostic(Code::ArgumentFault, place, message))
        }
    }
}

fn diagnostic(code: Code, place: String, message: String) -> Diagnostic
    ensures { diagnostic_of result ≡ record { code = code; place = string_bytes place; verb = None; message = string_bytes message } }
{
    Diagnostic {
        code,
        place,
        verb: None,
        message,
    }
}

/// Returns the message about a fault.
fn evaluation_message(fault: EvalFault) -> &'static str
    ensures text { result.now ≡ evaluation_text fault }
    ensures short { length result.now ≤ 21 }
{
    match fault {
        EvalFault::Overflow => "Evaluate(Overflow)",
        EvalFault::WrongKind => "Evaluate(WrongKind)",
        EvalFault::Missing => "Evaluate(Missing)",
        EvalFault::Arity => "Evaluate(Arity)",
        EvalFault::TooLarge => "Evaluate(TooLarge)",
        EvalFault::OutOfMemory => "Evaluate(OutOfMemory)",
    }
}

/// Adds the excuses of the outputs for which memory ran out, by name.
pub fn tell_output_excuses(excused: &mut Vec<Excuse>, ends: &[OutputResult])
    requires room { length excused.old.items + length ends.now ≤ vec_capacity excused.old }
    ensures { excused.new.items ≡ excused.old.items ++ output_excuses 0 ends.now }
{
    for (place, end) in ends.iter().enumerate() {
        if let Some(excuse) = excuse_of_output(place, end) {
            excused.push(excuse).unwrap();
        }
    }
}

fn excuse_of_output(place: usize, end: &OutputResult) -> Option<Excuse>
    ensures { listed result ≡ output_excuses_at place end.now }
{
    match end {
        OutputResult::NoMemory => Some(Excuse::Output(place)),
        _ => None,
    }
}
