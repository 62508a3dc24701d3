//! Operands of a wrong kind, shown.

use crate::causes::following::value_of;
use crate::causes::used::{Used, address_of};
use crate::causes::values::{Shown, Written, show_value};
use crate::page::Page;
use std::alloc::AllocError;
use tf_expr_syntax::Term;

/// Shows an operand, and says of which kind it is.
///
/// # Errors
///
/// Fails only if memory runs out.
pub(crate) fn explain_operand(
    page: &mut Page,
    used: Used<'_, '_>,
    kind: &'static str,
) -> Result<(), AllocError> {
    match value_of(page, used.term, used.text.scope)? {
        Some(shown) => {
            used.show_step(page)?;
            say_value(page, used.term, kind, shown)?;
            show_value(page, shown)
        }
        None if is_spelled(used.term) => {
            let found = used.literal(page)?;
            used.show(page, found)?;
            say_literal(page, used.term, kind)
        }
        None => {
            used.show_step(page)?;
            say_result(page, used.term, kind)
        }
    }
}

/// Shows a list that has an element of a wrong kind, and the element.
///
/// # Errors
///
/// Fails only if memory runs out.
pub(crate) fn explain_element(
    page: &mut Page,
    list: Used<'_, '_>,
    kind: &str,
    element: Shown<'_>,
) -> Result<(), AllocError> {
    list.show_step(page)?;
    page.say(&["An element of this list is ", kind, ":"])?;
    show_value(page, element)
}

/// Returns whether an operand is a literal or a list.
fn is_spelled(term: &Term) -> bool {
    match term {
        Term::Number(_) | Term::Truth(_) | Term::Null | Term::List(_) => true,
        Term::Quoted(template) => template.parts.is_empty(),
        _ => false,
    }
}

/// Says of which kind a literal operand is.
fn say_literal(page: &mut Page, term: &Term, kind: &str) -> Result<(), AllocError> {
    match term {
        Term::Quoted(template) => {
            page.say(&["This operand is the text `", template.last.as_str(), "`."])
        }
        _ => page.say(&["This operand is ", kind, "."]),
    }
}

/// Says of which kind the value of an operand is, whose place follows.
fn say_value(page: &mut Page, term: &Term, kind: &str, shown: Shown<'_>) -> Result<(), AllocError> {
    if shown.written == Written::LeftOut {
        return page.say(&["Its value is null, since this block leaves it out:"]);
    }
    let reason = if shown.is_made_a_text() {
        ", since its variable's type makes a text of it:"
    } else {
        ":"
    };
    match term {
        Term::Reference(reference) => {
            let address = address_of(page, reference)?;
            page.say(&["`", address.as_str(), "` is ", kind, reason])
        }
        _ => page.say(&["Its value is ", kind, reason]),
    }
}

/// Says of which kind the result of an operand is.
fn say_result<'a>(page: &mut Page, term: &'a Term, kind: &'a str) -> Result<(), AllocError> {
    match term {
        Term::Call(name, _) => { page.say(&["The result of `", name.as_str(), "` is ", kind, "."]) }
        Term::Reference(reference) => {
            let address = address_of(page, reference)?;
            page.say(&["`", address.as_str(), "` is ", kind, "."])
        }
        _ => page.say(&["An operand here is ", kind, "."]),
    }
}
