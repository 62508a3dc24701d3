//! Operands of a kind that an operator, a function, an index or an attribute doesn't take.

use crate::causes::evaluation::ReadText;
use crate::causes::evaluation_terms::what_is_taken;
use crate::causes::following::value_of;
use crate::causes::kinds::kind_of;
use crate::causes::scope::Scope;
use crate::causes::shown_operands::{explain_element, explain_operand};
use crate::causes::terms::part_count;
use crate::causes::used::Used;
use crate::causes::values::{LIST, MAP, NUMBER, SET, Shown, TEXT, TRUTH, show_value};
use crate::page::Page;
use std::alloc::AllocError;
use tf_expr_syntax::{Function, Operator, Prefix, Term};

/// The most operands that are explained.
const MOST_OPERANDS: usize = 5;

const NUMBERS: [&str; 1] = [NUMBER];

const TRUTHS: [&str; 1] = [TRUTH];

const MAPS: [&str; 1] = [MAP];

const LISTS: [&str; 1] = [LIST];

const TEXTS: [&str; 1] = [TEXT];

/// The kinds that have a length.
const COUNTED: [&str; 3] = [LIST, MAP, SET];

/// The kinds of which `toset` makes a set.
const LISTS_AND_SETS: [&str; 2] = [LIST, SET];

/// The kinds that can be part of a text.
const JOINED: [&str; 3] = [TEXT, NUMBER, TRUTH];

/// An operand of a kind that isn't taken.
#[derive(Clone, Copy, Drop)]
struct Operand<'t, 's> {
    used: Used<'t, 's>,
    /// The kind of the operand, or of its element.
    kind: &'static str,
    /// The element, if an element of the operand isn't taken.
    element: Option<Shown<'s>>,
}

/// Explains the operands of a wrong kind in the part of an expression that is evaluated first of those that have one, as far as the
/// expression or the files show the kind. Returns whether there is one.
///
/// # Errors
///
/// Fails only if memory runs out.
pub(crate) fn explain_operands(
    page: &mut Page,
    text: ReadText<'_, '_>,
) -> Result<bool, AllocError> {
    let length = text.scope.sources.config.bytes.len();
    let mut first = None;
    let mut end = text.terms.len();
    for (number, term) in text.terms.iter().enumerate() {
        let term = *term;
        let used = Used { text, number, term };
        if number >= end || !has_operands(term) || !page.may_read(length) {
            continue;
        }
        if is_mistaken(page, used)? {
            first = Some(used);
            end = number.saturating_add(part_count(page.alloc, term)?);
        }
    }
    match first {
        Some(used) => {
            explain_part(page, used)?;
            Ok(true)
        }
        None => Ok(false),
    }
}

/// Returns whether a part has operands that have to be of a kind.
fn has_operands(term: &Term) -> bool {
    matches!(
        term,
        Term::Binary(_, _, _)
            | Term::Unary(_, _)
            | Term::Conditional(_, _, _)
            | Term::Call(_, _)
            | Term::Attribute(_, _)
            | Term::Index(_, _)
    )
}

/// Returns whether a part has an operand of a wrong kind.
fn is_mistaken(page: &mut Page, used: Used<'_, '_>) -> Result<bool, AllocError> {
    match used.term {
        Term::Attribute(inner, _) | Term::Index(inner, _) => {
            Ok(wrong_base(page, used, &**inner)?.is_some())
        }
        _ => Ok(!wrong_operands(page, used)?.is_empty()),
    }
}

/// Explains operands of a part that are of a wrong kind.
fn explain_part(page: &mut Page, used: Used<'_, '_>) -> Result<(), AllocError> {
    match used.term {
        Term::Attribute(inner, _) | Term::Index(inner, _) => explain_step(page, used, &**inner),
        _ => {
            let mut has_text = false;
            for operand in &wrong_operands(page, used)? {
                has_text = has_text || operand.kind == TEXT;
                explain(page, *operand)?;
            }
            say_taken(page, used.term, has_text)
        }
    }
}

/// Explains an operand of a wrong kind.
fn explain(page: &mut Page, operand: Operand<'_, '_>) -> Result<(), AllocError> {
    match operand.element {
        Some(element) => explain_element(page, operand.used, operand.kind, element),
        None => explain_operand(page, operand.used, operand.kind),
    }
}

/// Says what a part takes.
fn say_taken(page: &mut Page, term: &Term, has_text: bool) -> Result<(), AllocError> {
    if let Term::Call(name, _) = term
        && name.as_str() == "length"
        && has_text
    {
        return page.say(&["`length` takes a list, a map or a set, and no text."]);
    }
    page.say(&[what_is_taken(term).unwrap_or("")])
}

/// Returns the operands of a part that are of a wrong kind.
fn wrong_operands<'t, 's>(
    page: &mut Page,
    used: Used<'t, 's>,
) -> Result<Vec<Operand<'t, 's>>, AllocError> {
    let mut found = Vec::new(page.alloc);
    match used.term {
        Term::Binary(operator, left, right) => {
            let wanted = taken_by(*operator);
            if !wanted.is_empty() {
                let right_at = add_wrong(page, &mut found, used, 1, &**left, wanted)?;
                add_wrong(page, &mut found, used, right_at, &**right, wanted)?;
            }
        }
        Term::Unary(Prefix::Negate, inner) => {
            add_wrong(page, &mut found, used, 1, &**inner, &NUMBERS)?;
        }
        Term::Unary(Prefix::Not, inner) | Term::Conditional(inner, _, _) => {
            add_wrong(page, &mut found, used, 1, &**inner, &TRUTHS)?;
        }
        Term::Call(name, arguments) => {
            if let Some(function) = Function::named(name.as_str()) {
                add_wrong_arguments(page, &mut found, used, function, arguments)?;
            }
        }
        _ => {}
    }
    Ok(found)
}

/// Returns whether a part may have an operand of a wrong kind, of which neither the expression nor the files show the kind.
///
/// # Errors
///
/// Fails only if memory runs out.
pub(crate) fn is_doubtful(
    page: &mut Page,
    term: &Term,
    scope: Scope<'_>,
) -> Result<bool, AllocError> {
    match term {
        Term::Binary(_, left, right) | Term::Index(left, right) => {
            Ok(kind_of(page, left, scope)?.is_none() || kind_of(page, right, scope)?.is_none())
        }
        Term::Unary(_, inner) | Term::Conditional(inner, _, _) | Term::Attribute(inner, _) => {
            Ok(kind_of(page, inner, scope)?.is_none())
        }
        Term::Call(_, arguments) => are_doubtful(page, arguments, scope),
        _ => Ok(false),
    }
}

/// Returns whether neither the expression nor the files show the kind of an argument. That of a list's elements may not be shown.
fn are_doubtful(page: &mut Page, arguments: &[Term], scope: Scope<'_>) -> Result<bool, AllocError> {
    for argument in arguments {
        match kind_of(page, argument, scope)? {
            Some(LIST) | None => return Ok(true),
            Some(_) => {}
        }
    }
    Ok(false)
}

/// Returns of which kinds the operands of an operator are, in words. If there are none, any value is taken.
fn taken_by(operator: Operator) -> &'static [&'static str] {
    match operator {
        Operator::And | Operator::Or => &TRUTHS,
        Operator::Equal | Operator::NotEqual => &[],
        _ => &NUMBERS,
    }
}

/// Returns of which kinds the argument of a function at a position is.
fn taken_at(function: Function, position: usize) -> &'static [&'static str] {
    match (function, position) {
        (Function::Length, _) => &COUNTED,
        (Function::Keys | Function::Values | Function::Merge, _) => &MAPS,
        (Function::ToSet, _) => &LISTS_AND_SETS,
        (Function::Join, 0) => &JOINED,
        (Function::Join | Function::Concat, _) => &LISTS,
    }
}

/// Returns of which kinds the elements of a function's argument are. If there are none, any element is taken.
fn elements_of(function: Function, position: usize) -> &'static [&'static str] {
    match (function, position) {
        (Function::ToSet, _) => &TEXTS,
        (Function::Join, 1) => &JOINED,
        _ => &[],
    }
}

/// Adds an operand if it isn't of a wanted kind. It is the given number of parts after the part that it belongs to. Returns the
/// number of parts after which the next operand is.
fn add_wrong<'t, 's>(
    page: &mut Page,
    found: &mut Vec<Operand<'t, 's>>,
    whole: Used<'t, 's>,
    later: usize,
    term: &'t Term,
    wanted: &[&'static str],
) -> Result<usize, AllocError> {
    match kind_of(page, term, whole.text.scope)? {
        Some(kind) if !wanted.contains(&kind) => {
            found.push(Operand {
                used: whole.part(later, term),
                kind,
                element: None,
            })?;
        }
        _ => {}
    }
    Ok(later.saturating_add(part_count(page.alloc, term)?))
}

/// Adds the arguments of a function that aren't of a kind that it takes, or else their first elements that aren't.
fn add_wrong_arguments<'t, 's>(
    page: &mut Page,
    found: &mut Vec<Operand<'t, 's>>,
    used: Used<'t, 's>,
    function: Function,
    arguments: &'t [Term],
) -> Result<(), AllocError> {
    let mut later = 1usize;
    for (position, argument) in arguments.iter().enumerate() {
        let count = found.len();
        if count >= MOST_OPERANDS {
            break;
        }
        let next = add_wrong(
            page,
            found,
            used,
            later,
            argument,
            taken_at(function, position),
        )?;
        let wanted = elements_of(function, position);
        if !wanted.is_empty() && found.len() == count {
            add_wrong_element(page, found, used.part(later, argument), wanted)?;
        }
        later = next;
    }
    Ok(())
}

/// Adds the first element of a list that isn't of a wanted kind.
fn add_wrong_element<'t, 's>(
    page: &mut Page,
    found: &mut Vec<Operand<'t, 's>>,
    list: Used<'t, 's>,
    wanted: &[&'static str],
) -> Result<(), AllocError> {
    if let Term::List(elements) = list.term {
        return add_wrong_item(page, found, list, elements, wanted);
    }
    let Some(shown) = value_of(page, list.term, list.text.scope)? else {
        return Ok(());
    };
    let Some(element) = shown.first_other(page.alloc, wanted)? else {
        return Ok(());
    };
    found.push(Operand {
        used: list,
        kind: element.kind().unwrap_or(""),
        element: Some(element),
    })?;
    Ok(())
}

/// Adds the first element of a list in the expression that isn't of a wanted kind.
fn add_wrong_item<'t, 's>(
    page: &mut Page,
    found: &mut Vec<Operand<'t, 's>>,
    list: Used<'t, 's>,
    elements: &'t [Term],
    wanted: &[&'static str],
) -> Result<(), AllocError> {
    let mut later = 1usize;
    for element in elements {
        let count = found.len();
        later = add_wrong(page, found, list, later, element, wanted)?;
        if found.len() > count {
            break;
        }
    }
    Ok(())
}

/// Returns the kind of a value of which a part isn't there, since it is of another kind than the part needs.
fn wrong_base(
    page: &mut Page,
    used: Used<'_, '_>,
    inner: &Term,
) -> Result<Option<&'static str>, AllocError> {
    let (_, wanted) = needed(page, used)?;
    match kind_of(page, inner, used.text.scope)? {
        Some(kind) if !wanted.is_empty() && !wanted.contains(&kind) => Ok(Some(kind)),
        _ => Ok(None),
    }
}

/// Returns what a part is, in words, and which kinds have such a part: none if that isn't known.
fn needed(
    page: &mut Page,
    used: Used<'_, '_>,
) -> Result<(&'static str, &'static [&'static str]), AllocError> {
    let Term::Index(_, place) = used.term else {
        return Ok(("A name after a dot", &MAPS));
    };
    match kind_of(page, place, used.text.scope)? {
        Some(TEXT) => Ok(("A text in brackets", &MAPS)),
        Some(NUMBER) => Ok(("A number in brackets", &LISTS)),
        _ => Ok(("", &[])),
    }
}

/// Explains an attribute, or an index of a kind, of a value that has no such part.
fn explain_step(page: &mut Page, used: Used<'_, '_>, inner: &Term) -> Result<(), AllocError> {
    let (part, wanted) = needed(page, used)?;
    let Some(kind) = wrong_base(page, used, inner)? else {
        return Ok(());
    };
    let wanted = wanted.first().copied().unwrap_or("");
    used.show_step(page)?;
    let value = value_of(page, inner, used.text.scope)?;
    let end = if value.is_some() { ":" } else { "." };
    page.say(&[
        part,
        " has to follow ",
        wanted,
        ". This one follows ",
        kind,
        end,
    ])?;
    match value {
        Some(shown) => show_value(page, shown),
        None => Ok(()),
    }
}
