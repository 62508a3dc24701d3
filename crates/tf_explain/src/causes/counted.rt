//! Instances that can't be counted.

use crate::blocks::block_at;
use crate::causes::arguments::Given;
use crate::causes::evaluation::{ReadText, add_expressions, is_alone, next_text, template_at};
use crate::causes::following::{resource_of, value_of};
use crate::causes::kinds::kind_of;
use crate::causes::scope::Scope;
use crate::causes::terms::add_template;
use crate::causes::used::{Used, address_of};
use crate::causes::values::{LIST, TEXT, show_value};
use crate::decoding::text_in;
use crate::page::Page;
use crate::positions::{Member, member_named};
use crate::sources::Sources;
use crate::span::{Span, byte_at};
use std::alloc::AllocError;
use tf_expr_syntax::Term;

/// Returns a property of the block that an address names.
fn property_at(place: &str, property: &str, config: &[u8]) -> Option<Member> {
    let found = block_at(config, place)?;
    member_named(config, found.value, property)
}

/// Explains a `count` that is no number of instances.
///
/// # Errors
///
/// Fails only if memory runs out.
pub(crate) fn explain_count(
    page: &mut Page,
    place: &str,
    sources: Sources<'_>,
) -> Result<(), AllocError> {
    let config = sources.config;
    let Some(count) = property_at(place, "count", config.bytes) else {
        return Ok(());
    };
    page.show(config, count.value)?;
    page.say(&["`count` has to be a whole number of 0 or more."])?;
    match byte_at(config.bytes, count.value.start) {
        b'"' => {
            say_expression(page, count.value, sources)?;
            let text = text_in(page.alloc, config.bytes, count.value)?;
            say_unconverted(page, text.as_str())
        }
        b'-' | b'0'..=b'9' => Ok(()),
        _ => page.say(&[Given::of(config.bytes, count.value).text()]),
    }
}

/// Says that a text isn't converted to a number, if it is a number's.
fn say_unconverted(page: &mut Page, text: &str) -> Result<(), AllocError> {
    if text.parse::<u64>().is_err() {
        return Ok(());
    }
    page.say(&[
        "A text isn't converted to a number: write ",
        text,
        " without quotes.",
    ])
}

/// Explains a `for_each` that is neither a map nor a set of texts.
///
/// # Errors
///
/// Fails only if memory runs out.
pub(crate) fn explain_for_each(
    page: &mut Page,
    place: &str,
    sources: Sources<'_>,
) -> Result<(), AllocError> {
    let config = sources.config;
    let Some(for_each) = property_at(place, "for_each", config.bytes) else {
        return Ok(());
    };
    page.show(config, for_each.value)?;
    page.say(&["`for_each` has to be a map or a set of texts."])?;
    if byte_at(config.bytes, for_each.value.start) == b'[' {
        return page.say(&["Make a set of a list: \"${toset([\\\"a\\\", \\\"b\\\"])}\"."]);
    }
    match Given::of(config.bytes, for_each.value) {
        Given::Expression => match say_expression(page, for_each.value, sources)? {
            Some(LIST) | None => page.say(&["toset(..) makes a set of a list of texts."]),
            _ => Ok(()),
        },
        given => page.say(&[given.text()]),
    }
}

/// Says of which kind the value of a text is that is one interpolation, and shows it. Returns the kind, if the files show it.
fn say_expression(
    page: &mut Page,
    value: Span,
    sources: Sources<'_>,
) -> Result<Option<&'static str>, AllocError> {
    let Some(template) = template_at(page.alloc, value, sources.config.bytes)? else {
        return Ok(None);
    };
    match template.parts.first() {
        Some(part) if is_alone(&template) => say_result(page, &part.1, Scope::of(sources)),
        Some(_) => {
            page.say(&["A text is given."])?;
            Ok(Some(TEXT))
        }
        None => Ok(None),
    }
}

/// Says of which kind the value of an expression is, and shows it. Returns the kind, if the files show it.
fn say_result(
    page: &mut Page,
    term: &Term,
    scope: Scope<'_>,
) -> Result<Option<&'static str>, AllocError> {
    let Some(kind) = kind_of(page, term, scope)? else {
        return Ok(None);
    };
    match value_of(page, term, scope)? {
        Some(shown) => {
            page.say(&["The value of this expression is ", kind, ":"])?;
            show_value(page, shown)?;
        }
        None => page.say(&["The value of this expression is ", kind, "."])?,
    }
    Ok(Some(kind))
}

/// Explains a `count` or `for_each` that isn't known in the plan.
///
/// # Errors
///
/// Fails only if memory runs out.
pub(crate) fn explain_unknown_instances(
    page: &mut Page,
    place: &str,
    sources: Sources<'_>,
) -> Result<(), AllocError> {
    for property in ["count", "for_each"] {
        if let Some(member) = property_at(place, property, sources.config.bytes) {
            page.show(sources.config, member.value)?;
            page.say(&[
                "`",
                property,
                "` has to be known before anything is applied.",
            ])?;
            say_attributes(page, member.value, sources)?;
            if property == "for_each" {
                page.say(&[
                    "Use a map with literal keys, and read the attributes in its values: {\"KEY\": \"${TYPE.NAME.ATTRIBUTE}\"}.",
                ])?;
                return page.say(&[
                    "Or use a variable, or a local that reads no attribute of a resource.",
                ]);
            }
        }
    }
    page.say(&["Use a variable, or a local that reads no attribute of a resource."])
}

/// Names the attributes of resources that an expression, or a local to which it leads, reads.
fn say_attributes(
    page: &mut Page,
    expression: Span,
    sources: Sources<'_>,
) -> Result<(), AllocError> {
    let mut spans: Vec<Span> = Vec::new(page.alloc);
    add_expressions(page, &mut spans, expression, sources)?;
    for span in &spans {
        say_attributes_in(page, *span, sources)?;
    }
    Ok(())
}

/// Names the attributes of resources in the texts of an expression.
fn say_attributes_in(
    page: &mut Page,
    expression: Span,
    sources: Sources<'_>,
) -> Result<(), AllocError> {
    let config = sources.config.bytes;
    let mut at = expression.start;
    for _ in expression.start..expression.end {
        let Some(text) = next_text(config, at, expression) else {
            break;
        };
        at = text.end;
        if let Some(template) = template_at(page.alloc, text, config)? {
            let mut terms: Vec<&Term> = Vec::new(page.alloc);
            add_template(&template, &mut terms)?;
            let read = ReadText {
                span: text,
                terms: terms.as_slice(),
                scope: Scope::of(sources),
            };
            say_attributes_of(page, read)?;
        }
    }
    Ok(())
}

/// Names the attributes of resources in a text, and shows each.
fn say_attributes_of(page: &mut Page, text: ReadText<'_, '_>) -> Result<(), AllocError> {
    let config = text.scope.sources.config;
    for (number, term) in text.terms.iter().enumerate() {
        let term = *term;
        let Term::Attribute(inner, name) = term else {
            continue;
        };
        let Some(reference) = resource_of(inner) else {
            continue;
        };
        let first = reference.first.as_str();
        if matches!(first, "var" | "local" | "count" | "each")
            || !page.may_read(config.bytes.len())
        {
            continue;
        }
        let used = Used { text, number, term };
        let start = used.reference(page, reference)?;
        let end = used.step(page, term)?;
        used.show(page, joined(start, end))?;
        let address = address_of(page, reference)?;
        page.say(&[
            "`",
            address.as_str(),
            ".",
            name.as_str(),
            "` isn't known when instances are counted: no attribute of a resource is, not even a configured one.",
        ])?;
    }
    Ok(())
}

/// Returns the range from the beginning of one range to the end of another.
fn joined(start: Option<Span>, end: Option<Span>) -> Option<Span> {
    Some(Span {
        start: start?.start,
        end: end?.end,
    })
}
