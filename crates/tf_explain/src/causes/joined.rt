//! Values that can't be part of a text.

use crate::causes::evaluation::{ReadText, is_alone};
use crate::causes::following::value_of;
use crate::causes::kinds::kind_of;
use crate::causes::scope::Scope;
use crate::causes::values::{LIST, MAP, NULL, SET, Written, show_value};
use crate::code::interpolation;
use crate::decoding::decoded;
use crate::page::Page;
use crate::span::bytes_in;
use std::alloc::AllocError;
use tf_expr_syntax::{Template, Term};

/// Explains each list, map, set or null that the files show to be part of a text. Returns whether it found one.
///
/// # Errors
///
/// Fails only if memory runs out.
pub(crate) fn explain_joined(
    page: &mut Page,
    text: ReadText<'_, '_>,
    template: &Template,
) -> Result<bool, AllocError> {
    if is_alone(template) {
        return Ok(false);
    }
    let mut is_shown = false;
    for (number, part) in template.parts.iter().enumerate() {
        if page.may_read(text.scope.sources.config.bytes.len()) {
            is_shown = show_joined(page, text, number, &part.1)? || is_shown;
        }
    }
    if is_shown {
        say_joined(page)?;
    }
    Ok(is_shown)
}

/// Shows the interpolations of a text that may be the fault: those of which the files don't show the kind. Says what can be part of a
/// text.
///
/// # Errors
///
/// Fails only if memory runs out.
pub(crate) fn show_doubtful(
    page: &mut Page,
    text: ReadText<'_, '_>,
    template: &Template,
) -> Result<(), AllocError> {
    let config = text.scope.sources.config;
    let mut is_shown = false;
    for (number, part) in template.parts.iter().enumerate() {
        if page.may_read(config.bytes.len()) && kind_of(page, &part.1, text.scope)?.is_none() {
            let span = interpolation(config.bytes, text.span, number).unwrap_or(text.span);
            page.show(config, span)?;
            say_branch(page, &part.1, text.scope)?;
            is_shown = true;
        }
    }
    if !is_shown {
        page.show(config, text.span)?;
    }
    say_joined(page)
}

/// Says what can be part of a text.
fn say_joined(page: &mut Page) -> Result<(), AllocError> {
    page.say(&[
        "A text joins texts, whole numbers and truth values. A list, a map, a set or null can't be part of it.",
    ])
}

/// Returns whether a value of a kind can't be part of a text.
fn is_apart(kind: &str) -> bool {
    matches!(kind, LIST | MAP | SET | NULL)
}

/// Says that a branch of a conditional can't be part of a text.
fn say_branch(page: &mut Page, term: &Term, scope: Scope<'_>) -> Result<(), AllocError> {
    let Term::Conditional(_, yes, no) = term else {
        return Ok(());
    };
    for (branch, name) in [(yes, "before"), (no, "after")] {
        match kind_of(page, branch, scope)? {
            Some(kind) if is_apart(kind) => {
                page.say(&["What is ", name, " `:` is ", kind, "."])?;
            }
            _ => {}
        }
    }
    Ok(())
}

/// Shows an interpolation of a text, and its value, if it can't be part of the text. Returns whether it did.
fn show_joined(
    page: &mut Page,
    text: ReadText<'_, '_>,
    number: usize,
    term: &Term,
) -> Result<bool, AllocError> {
    let kind = match kind_of(page, term, text.scope)? {
        Some(kind) if is_apart(kind) => kind,
        _ => return Ok(false),
    };
    let config = text.scope.sources.config;
    let span = interpolation(config.bytes, text.span, number).unwrap_or(text.span);
    page.show(config, span)?;
    let part = decoded(page.alloc, bytes_in(config.bytes, span))?;
    say_part(page, part.as_str().trim(), kind, term, text.scope)?;
    Ok(true)
}

/// Says of which kind a part of a text is, and shows its value.
fn say_part<'a>(
    page: &mut Page,
    part: &'a str,
    kind: &'a str,
    term: &Term,
    scope: Scope<'_>,
) -> Result<(), AllocError> {
    match value_of(page, term, scope)? {
        Some(shown) if shown.written == Written::LeftOut => {
            page.say(&["`", part, "` is null, since this block leaves it out:"])?;
            show_value(page, shown)
        }
        Some(shown) => {
            page.say(&["`", part, "` is ", kind, ":"])?;
            show_value(page, shown)
        }
        None => page.say(&["`", part, "` is ", kind, "."]),
    }
}
