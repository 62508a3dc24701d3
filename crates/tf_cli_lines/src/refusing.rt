//! Printing refusals.

ghost use Rattle.std.specs.Io.KnownBytes.{Appends};
ghost use Rattle.std.specs.List.{flat_map};
ghost use Rattle.std.specs.Prelude.{◌≡◌, ◌++◌, OnOk, codes, decimal, map, string_bytes};
ghost use Rattle.tf_cli_lines.specs.Saved.{AppendsStart};
ghost use Rattle.tf_cli_lines.specs.Lines.{fault_opening, refusal_line};
ghost use Rattle.tf_expr_syntax.specs.EvalFault.{eval_fault_name};
ghost use Rattle.tf_config_refusal.specs.Refusal.{detail_of, refusal_of};
ghost use Rattle.tf_config_refusal.specs.Text.{detail_text, names_text};

use crate::saving::{SaveFault, save, save_all};
use itoa::Buffer;
use std::io::Write;
use tf_config_refusal::{Detail, EvalFault, Refusal};

/// Prints each refusal on a line. If a write fails, a beginning of these lines was written.
pub fn print_refusals<E: Write>(refusals: &[Refusal], err: &mut E) -> Result<(), SaveFault>
    ensures whole { OnOk result (Appends (E.contents err.old) (E.contents err.new) (flat_map (λ r. refusal_line (refusal_of r)) refusals.now)) }
    ensures part { AppendsStart (E.contents err.old) (E.contents err.new) (flat_map (λ r. refusal_line (refusal_of r)) refusals.now) }
{
    for refusal in refusals {
        print_refusal(refusal, err)?;
    }
    Ok(())
}

/// Prints a refusal on a line. If a write fails, a beginning of this line was written.
pub fn print_refusal<E: Write>(refusal: &Refusal, err: &mut E) -> Result<(), SaveFault>
    ensures whole { OnOk result (Appends (E.contents err.old) (E.contents err.new) (refusal_line (refusal_of refusal.now))) }
    ensures part { AppendsStart (E.contents err.old) (E.contents err.new) (refusal_line (refusal_of refusal.now)) }
{
    match refusal {
        Refusal::OutOfMemory => save(err, "error 15 at memory: OutOfMemory\n"),
        Refusal::Workers => save(err, "error 14 at workers: Limit\n"),
        Refusal::Fault {
            code,
            place,
            detail,
        } => print_fault(code.number(), place.as_str(), code.name(), detail, err),
    }
}

fn print_fault<'a, E: Write>(
    code: u8,
    place: &'a str,
    name: &'a str,
    detail: &Detail,
    err: &mut E,
) -> Result<(), SaveFault>
    ensures whole { OnOk result (Appends (E.contents err.old) (E.contents err.new) (fault_opening code place.now name.now ++ (detail_text (detail_of detail.now) ++ codes "\n"))) }
    ensures part { AppendsStart (E.contents err.old) (E.contents err.new) (fault_opening code place.now name.now ++ (detail_text (detail_of detail.now) ++ codes "\n")) }
{
    print_opening(code, place, name, err)?;
    print_detail(detail, err)?;
    save(err, "\n")
}

/// Prints a refusal's line up to its detail.
fn print_opening<'a, E: Write>(
    code: u8,
    place: &'a str,
    name: &'a str,
    err: &mut E,
) -> Result<(), SaveFault>
    ensures whole { OnOk result (Appends (E.contents err.old) (E.contents err.new) (fault_opening code place.now name.now)) }
    ensures part { AppendsStart (E.contents err.old) (E.contents err.new) (fault_opening code place.now name.now) }
{
    let mut number = Buffer::new();
    let texts = ["error ", number.format(code), " at ", place, ": ", name];
    save_all(err, &texts)
}

/// Prints a refusal's detail, in parentheses.
fn print_detail<E: Write>(detail: &Detail, err: &mut E) -> Result<(), SaveFault>
    ensures whole { OnOk result (Appends (E.contents err.old) (E.contents err.new) (detail_text (detail_of detail.now))) }
    ensures part { AppendsStart (E.contents err.old) (E.contents err.new) (detail_text (detail_of detail.now)) }
{
    match detail {
        Detail::Bare => save(err, ""),
        Detail::At(offset) => print_offset(*offset, err),
        Detail::Names(names) => print_names(names, err),
        Detail::Kind(fault) => save_all(err, &["(", fault_name(*fault), ")"]),
    }
}

fn print_offset<E: Write>(offset: usize, err: &mut E) -> Result<(), SaveFault>
    ensures whole { OnOk result (Appends (E.contents err.old) (E.contents err.new) (codes "(" ++ decimal offset ++ codes ")")) }
    ensures part { AppendsStart (E.contents err.old) (E.contents err.new) (codes "(" ++ decimal offset ++ codes ")") }
{
    let mut number = Buffer::new();
    let texts = ["(", number.format(offset), ")"];
    save_all(err, &texts)
}

fn print_names<E: Write>(names: &[String], err: &mut E) -> Result<(), SaveFault>
    ensures whole { OnOk result (Appends (E.contents err.old) (E.contents err.new) (codes "(" ++ names_text (map string_bytes names.now) ++ codes ")")) }
    ensures part { AppendsStart (E.contents err.old) (E.contents err.new) (codes "(" ++ names_text (map string_bytes names.now) ++ codes ")") }
{
    match names.split_first() {
        None => save(err, "()"),
        Some((first, others)) => print_list(first.as_str(), others, err),
    }
}

/// Prints names in parentheses.
fn print_list<E: Write>(first: &str, others: &[String], err: &mut E) -> Result<(), SaveFault>
    ensures whole { OnOk result (Appends (E.contents err.old) (E.contents err.new) ((codes "(" ++ first.now) ++ (flat_map (λ name. codes ", " ++ string_bytes name) others.now ++ codes ")"))) }
    ensures part { AppendsStart (E.contents err.old) (E.contents err.new) ((codes "(" ++ first.now) ++ (flat_map (λ name. codes ", " ++ string_bytes name) others.now ++ codes ")")) }
{
    print_behind("(", first, err)?;
    print_others(others, err)?;
    save(err, ")")
}

/// Prints names, each after a comma.
fn print_others<E: Write>(names: &[String], err: &mut E) -> Result<(), SaveFault>
    ensures whole { OnOk result (Appends (E.contents err.old) (E.contents err.new) (flat_map (λ name. codes ", " ++ string_bytes name) names.now)) }
    ensures part { AppendsStart (E.contents err.old) (E.contents err.new) (flat_map (λ name. codes ", " ++ string_bytes name) names.now) }
{
    for name in names {
        print_behind(", ", name.as_str(), err)?;
    }
    Ok(())
}

/// Prints a text after another.
fn print_behind<'a, E: Write>(before: &'a str, text: &'a str, err: &mut E) -> Result<(), SaveFault>
    ensures whole { OnOk result (Appends (E.contents err.old) (E.contents err.new) (before.now ++ text.now)) }
    ensures part { AppendsStart (E.contents err.old) (E.contents err.new) (before.now ++ text.now) }
{
    let texts = [before, text];
    save_all(err, &texts)
}

/// Returns the name of a fault, as its `Display` prints it.
fn fault_name(fault: EvalFault) -> &'static str
    ensures { result.now ≡ eval_fault_name fault }
{
    match fault {
        EvalFault::Overflow => "Overflow",
        EvalFault::WrongKind => "WrongKind",
        EvalFault::Missing => "Missing",
        EvalFault::Arity => "Arity",
        EvalFault::TooLarge => "TooLarge",
        EvalFault::OutOfMemory => "OutOfMemory",
    }
}
