//! Expressions without a value.

use crate::blocks::{block, declaration, read_address};
use crate::causes::arity::explain_arity;
use crate::causes::evaluation_terms::{explain_missing, explain_wrong_kind, say_what_is_taken};
use crate::causes::joined::{explain_joined, show_doubtful};
use crate::causes::scope::Scope;
use crate::causes::terms::add_template;
use crate::decoding::text_in;
use crate::page::Page;
use crate::positions::{Member, member_named, string_end};
use crate::sources::Sources;
use crate::span::{Span, byte_at, bytes_in};
use std::alloc::{AllocError, Global};
use tf_expr_syntax::{Names, Template, Term, names_of};
use tf_expr_template::read_template;

/// The most expressions that are looked through for one fault.
const MOST_EXPRESSIONS: usize = 20;

/// The most texts of one expression that are explained.
const MOST_TEXTS: usize = 10;

/// The most locals that are shown for a fault that may be in one of them.
const MOST_LOCALS: usize = 3;

/// A text of an expression, and what was read from it.
#[derive(Clone, Copy)]
pub(crate) struct ReadText<'t, 's> {
    /// Where the text is in the configuration.
    pub(crate) span: Span,
    /// The parts of its expressions.
    pub(crate) terms: &'t [&'t Term],
    pub(crate) scope: Scope<'s>,
}

/// How an expression is explained.
#[derive(Clone, Copy, PartialEq, Eq)]
enum Search {
    /// A part is shown if the expression or the files show that it is the fault.
    Certain,
    /// If they don't, what the parts take is said.
    General,
}

/// Explains why an expression has no value.
///
/// # Errors
///
/// Fails only if memory runs out.
pub(crate) fn explain_evaluation<'a>(
    page: &mut Page,
    place: &'a str,
    kind: Option<&str>,
    sources: Sources<'a>,
) -> Result<(), AllocError> {
    let Some(span) = expression_at(place, sources) else {
        return Ok(());
    };
    let kind = kind.unwrap_or("");
    let scope = Scope::at(page, place, sources)?;
    let mut spans: Vec<Span> = Vec::new(page.alloc);
    add_expressions(&mut page.part(), &mut spans, span, sources)?;
    let locals = spans.get(1..).unwrap_or(&[]);
    for search in [Search::Certain, Search::General] {
        let is_certain = search == Search::Certain;
        if (is_certain && explain_locals(page, span, locals, kind, sources, search)?)
            || explain_expression(page, span, kind, scope, search)?
            || (!is_certain && explain_locals(page, span, locals, kind, sources, search)?)
        {
            return Ok(());
        }
    }
    page.show(sources.config, span)?;
    show_locals(page, locals, sources)?;
    page.say(&[sentence(kind)])
}

/// Explains the faults in a local to which an expression leads: the last one that has some. Returns whether there is one.
fn explain_locals(
    page: &mut Page,
    span: Span,
    locals: &[Span],
    kind: &str,
    sources: Sources<'_>,
    search: Search,
) -> Result<bool, AllocError> {
    let scope = Scope::of(sources);
    let mut read = page.part();
    for local in locals.iter().rev() {
        let mut part = read.part();
        if explain_expression(&mut part, *local, kind, scope, search)? {
            page.show(sources.config, span)?;
            page.say(&["The fault may be in a local to which this refers:"])?;
            page.append(&part)?;
            return Ok(true);
        }
        read.count_read(&part);
    }
    Ok(false)
}

/// Shows the first locals to which an expression leads.
fn show_locals(page: &mut Page, locals: &[Span], sources: Sources<'_>) -> Result<(), AllocError> {
    if locals.is_empty() {
        return Ok(());
    }
    page.say(&["The fault may be in a local to which this refers:"])?;
    for local in locals.iter().take(MOST_LOCALS) {
        page.show(sources.config, *local)?;
    }
    Ok(())
}

/// Explains the faults in the texts of an expression. Returns whether it found one.
fn explain_expression(
    page: &mut Page,
    expression: Span,
    kind: &str,
    scope: Scope<'_>,
    search: Search,
) -> Result<bool, AllocError> {
    let mut explained = 0usize;
    let mut at = expression.start;
    for _ in expression.start..expression.end {
        let Some(text) = next_text(scope.sources.config.bytes, at, expression) else {
            break;
        };
        at = text.end;
        if explain_text(page, text, kind, scope, search)? {
            explained = explained.saturating_add(1);
        }
        if explained >= MOST_TEXTS {
            break;
        }
    }
    Ok(explained > 0)
}

/// Returns the sentence on a kind of fault.
fn sentence(kind: &str) -> &'static str {
    match kind {
        "Missing" => "An index, a key or an attribute in this expression doesn't exist.",
        "WrongKind" => "An operator, an index or a function doesn't take a value of this kind.",
        "Arity" => "A function has too few or too many arguments.",
        "Overflow" =>
            "A number is beyond 64 bits with a sign: -9223372036854775808 to 9223372036854775807.",
        "TooLarge" =>
            "A value is too large: its weight is beyond 1,000,000, or its depth beyond 32 (docs/LIMITS.md).",
        _ => "This expression has no value.",
    }
}

/// Finds the expression at a place: an argument, an output's value, `count` or `for_each`.
fn expression_at(place: &str, sources: Sources<'_>) -> Option<Span> {
    let config = sources.config.bytes;
    if let Some(name) = place.strip_prefix("output.") {
        let output = declaration(config, "output", name)?;
        return Some(value_in(config, output, ["value", ""]));
    }
    let address = read_address(place)?;
    let found = block(config, address.type_name, address.name)?;
    if address.attribute.is_empty() {
        return Some(value_in(config, found, ["count", "for_each"]));
    }
    Some(value_in(config, found, [address.attribute, ""]))
}

/// Returns where the value of the first of two properties of an object is, or else of the second, or the object's name.
fn value_in(config: &[u8], object: Member, names: [&str; 2]) -> Span {
    for name in names {
        if let Some(member) = member_named(config, object.value, name) {
            return member.value;
        }
    }
    object.name
}

/// Returns where the first text from a position on is in a range, with its quotes.
pub(crate) fn next_text(text: &[u8], from: usize, within: Span) -> Option<Span> {
    for start in from..within.end {
        if byte_at(text, start) == b'"' {
            let end = string_end(text, start);
            return Some(Span { start, end });
        }
    }
    None
}

/// Adds where an expression is, and the locals to which it leads.
///
/// # Errors
///
/// Fails only if memory runs out.
pub(crate) fn add_expressions(
    page: &mut Page,
    spans: &mut Vec<Span>,
    first: Span,
    sources: Sources<'_>,
) -> Result<(), AllocError> {
    spans.push(first)?;
    for number in 0..MOST_EXPRESSIONS {
        let Some(span) = spans.get(number).copied() else {
            break;
        };
        add_locals_in(page, spans, span, sources)?;
    }
    Ok(())
}

/// Adds where the locals are to which the texts of an expression refer, if they aren't there yet.
fn add_locals_in(
    page: &mut Page,
    spans: &mut Vec<Span>,
    expression: Span,
    sources: Sources<'_>,
) -> Result<(), AllocError> {
    let mut at = expression.start;
    for _ in expression.start..expression.end {
        let Some(text) = next_text(sources.config.bytes, at, expression) else {
            break;
        };
        at = text.end;
        add_locals(page, spans, text, sources)?;
    }
    Ok(())
}

/// Adds where the locals are to which a text refers, if they aren't there yet.
fn add_locals(
    page: &mut Page,
    spans: &mut Vec<Span>,
    text: Span,
    sources: Sources<'_>,
) -> Result<(), AllocError> {
    match template_at(page.alloc, text, sources.config.bytes)? {
        Some(template) => {
            let names = names_of(page.alloc, &template)?;
            add_references(page, spans, &names, sources.config.bytes)
        }
        None => Ok(()),
    }
}

/// Adds where the locals are to which references refer, if they aren't there yet.
fn add_references(
    page: &mut Page,
    spans: &mut Vec<Span>,
    names: &Names<'_>,
    config: &[u8],
) -> Result<(), AllocError> {
    for reference in &names.references {
        if reference.first.as_str() != "local" {
            continue;
        }
        if !page.may_read(config.len()) {
            break;
        }
        let Some(local) = declaration(config, "locals", reference.name.as_str()) else {
            continue;
        };
        if !spans.contains(&local.value) && spans.len() < MOST_EXPRESSIONS {
            spans.push(local.value)?;
        }
    }
    Ok(())
}

/// Returns the template of a text in the configuration, if it has an interpolation.
///
/// # Errors
///
/// Fails only if memory runs out.
pub(crate) fn template_at(
    alloc: Global,
    text: Span,
    config: &[u8],
) -> Result<Option<Template>, AllocError> {
    if !bytes_in(config, text).contains(&b'{') {
        return Ok(None);
    }
    let decoded = text_in(alloc, config, text)?;
    Ok(read_template(alloc, decoded.as_str()).ok())
}

/// Returns whether a template is only one interpolation, or only text.
pub(crate) fn is_alone(template: &Template) -> bool {
    match template.parts.first() {
        Some(part) => { template.parts.len() == 1 && part.0.is_empty() && template.last.is_empty() }
        None => true,
    }
}

/// Explains a fault in a text. Returns whether it found one.
fn explain_text(
    page: &mut Page,
    span: Span,
    kind: &str,
    scope: Scope<'_>,
    search: Search,
) -> Result<bool, AllocError> {
    match template_at(page.alloc, span, scope.sources.config.bytes)? {
        Some(template) => {
            let mut terms: Vec<&Term> = Vec::new(page.alloc);
            add_template(&template, &mut terms)?;
            let text = ReadText {
                span,
                terms: terms.as_slice(),
                scope,
            };
            explain_template(page, text, kind, &template, search)
        }
        None => Ok(false),
    }
}

/// Explains a fault in a template. Returns whether it found one.
fn explain_template(
    page: &mut Page,
    text: ReadText<'_, '_>,
    kind: &str,
    template: &Template,
    search: Search,
) -> Result<bool, AllocError> {
    match (kind, search) {
        ("Missing", Search::Certain) => explain_missing(page, text),
        ("Arity", Search::Certain) => explain_arity(page, text),
        ("WrongKind", Search::Certain) => {
            Ok(explain_wrong_kind(page, text)? || explain_joined(page, text, template)?)
        }
        ("WrongKind", Search::General) => explain_generally(page, text, template),
        _ => Ok(false),
    }
}

/// Says which values the parts of a template take. Returns whether it has such parts.
fn explain_generally(
    page: &mut Page,
    text: ReadText<'_, '_>,
    template: &Template,
) -> Result<bool, AllocError> {
    if is_alone(template) {
        return say_what_is_taken(page, text, true);
    }
    show_doubtful(page, text, template)?;
    say_what_is_taken(page, text, false)?;
    Ok(true)
}
