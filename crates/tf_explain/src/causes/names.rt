//! Names that aren't declared.

use crate::blocks::{block, block_has, consider_addresses, consider_members, declaration, section};
use crate::decoding::text_in;
use crate::near::Nearest;
use crate::page::Page;
use crate::positions::{Found, Member, find};
use crate::sources::{SourceFile, Sources};
use crate::span::Span;
use std::alloc::AllocError;
use tf_expr_syntax::{Function, Names, Reference, names_of};
use tf_expr_template::read_template;

/// The functions of expressions.
const FUNCTIONS: [&str; 7] = [
    "length", "keys", "values", "merge", "concat", "join", "toset",
];

/// A text whose names are explained.
#[derive(Clone, Copy)]
struct Use<'p, 's> {
    /// The place of the text.
    place: &'p str,
    /// Where it is in the configuration.
    span: Span,
    config: SourceFile<'s>,
}

/// Explains each name in the text at a place that isn't known there.
///
/// # Errors
///
/// Fails only if memory runs out.
pub(crate) fn explain_names(
    page: &mut Page,
    place: &str,
    sources: Sources<'_>,
) -> Result<(), AllocError> {
    let config = sources.config;
    let found = find(page.alloc, config.bytes, place)?;
    if !found.rest.is_empty() {
        return Ok(());
    }
    let used = Use {
        place,
        span: found.value,
        config,
    };
    let text = text_in(page.alloc, config.bytes, found.value)?;
    if place.contains(".depends_on.") && place.starts_with("resource.") {
        explain_dependency(page, used, text.as_str())
    } else {
        explain_text(page, used, found, text.as_str())
    }
}

/// Explains an element of `depends_on`.
fn explain_dependency(page: &mut Page, used: Use<'_, '_>, address: &str) -> Result<(), AllocError> {
    page.show(used.config, used.span)?;
    say_address(page, address, used.config)
}

/// Explains each name in a text that isn't known there.
fn explain_text(
    page: &mut Page,
    used: Use<'_, '_>,
    found: Found<'_>,
    text: &str,
) -> Result<(), AllocError> {
    let Ok(template) = read_template(page.alloc, text) else {
        return page.show(used.config, used.span);
    };
    let names = names_of(page.alloc, &template)?;
    explain_all(page, used, found, &names)
}

/// Explains each reference and each function that isn't known, once.
fn explain_all(
    page: &mut Page,
    used: Use<'_, '_>,
    found: Found<'_>,
    names: &Names<'_>,
) -> Result<(), AllocError> {
    let length = used.config.bytes.len();
    for (number, reference) in names.references.iter().enumerate() {
        if !page.may_read(length) {
            break;
        }
        if !is_earlier(names, number, *reference) && !is_known(used, *reference) {
            explain_reference(page, used, *reference)?;
        }
    }
    for (number, function) in names.functions.iter().enumerate() {
        let name = function.as_str();
        if Function::named(name).is_some() {
            continue;
        }
        if !page.may_read(length) {
            break;
        }
        if !is_called_earlier(names, number, name) {
            explain_function(page, used, name)?;
        }
    }
    page.note_earlier(used.config, found)
}

/// Returns whether one of the given number of first references is the same as another.
fn is_earlier(names: &Names<'_>, number: usize, wanted: &Reference) -> bool {
    for reference in names.references.iter().take(number) {
        if reference.first == wanted.first && reference.name == wanted.name {
            return true;
        }
    }
    false
}

/// Returns whether one of the given number of first functions has a name.
fn is_called_earlier(names: &Names<'_>, number: usize, wanted: &str) -> bool {
    for function in names.functions.iter().take(number) {
        if function.as_str() == wanted {
            return true;
        }
    }
    false
}

/// Returns whether a reference is known at its place.
fn is_known(used: Use<'_, '_>, reference: &Reference) -> bool {
    let config = used.config.bytes;
    let name = reference.name.as_str();
    match reference.first.as_str() {
        "var" => declaration(config, "variable", name).is_some(),
        "local" => declaration(config, "locals", name).is_some(),
        "count" => is_of_count(name) && is_iterated(used, "count"),
        "each" => is_of_each(name) && is_iterated(used, "for_each"),
        "data" | "module" | "path" | "self" | "terraform" => false,
        first => block(config, first, name).is_some(),
    }
}

/// Returns whether a name may follow `count.`.
fn is_of_count(name: &str) -> bool {
    name == "index"
}

/// Returns whether a name may follow `each.`.
fn is_of_each(name: &str) -> bool {
    name == "key" || name == "value"
}

/// Explains a reference that isn't known.
fn explain_reference(
    page: &mut Page,
    used: Use<'_, '_>,
    reference: &Reference,
) -> Result<(), AllocError> {
    let first = reference.first.as_str();
    let name = reference.name.as_str();
    let text = format!(in page.alloc; "{first}.{name}")?;
    page.show_word(used.config, used.span, text.as_str())?;
    say_unknown(page, used.config, reference, text.as_str())
}

/// Says why a reference isn't known.
fn say_unknown<'a>(
    page: &mut Page,
    config: SourceFile<'_>,
    reference: &'a Reference,
    text: &'a str,
) -> Result<(), AllocError> {
    let name = reference.name.as_str();
    match reference.first.as_str() {
        "var" => say_undeclared(page, config, "variable", "var.", text),
        "local" => say_undeclared(page, config, "locals", "local.", text),
        "count" => say_iteration(page, text, "count", is_of_count(name)),
        "each" => say_iteration(page, text, "for_each", is_of_each(name)),
        "data" | "module" | "path" | "self" | "terraform" => {
            page.say(&["`", text, "` isn't supported here (docs/DIFFERENCES.md)."])
        }
        _ => say_address(page, text, config),
    }
}

/// Says that a variable or a local isn't declared, with the nearest one. The text is its name after a prefix.
fn say_undeclared<'a>(
    page: &mut Page,
    config: SourceFile<'_>,
    section_name: &'a str,
    prefix: &'a str,
    text: &'a str,
) -> Result<(), AllocError> {
    let mut nearest = Nearest::to(page.alloc, text);
    if let Some(declared) = section(config.bytes, section_name) {
        consider_members(&mut nearest, config.bytes, declared.value, prefix)?;
    }
    page.suggest(&["`", text, "` is not declared."], &nearest)?;
    if nearest.best().is_some() {
        return Ok(());
    }
    let name = text.strip_prefix(prefix).unwrap_or(text);
    page.say(&[
        "A declaration is \"",
        section_name,
        "\": {\"",
        name,
        "\": ..}.",
    ])
}

/// Says that no resource has an address, with the nearest one.
fn say_address(page: &mut Page, text: &str, config: SourceFile<'_>) -> Result<(), AllocError> {
    let mut nearest = Nearest::to(page.alloc, text);
    consider_addresses(&mut nearest, config.bytes)?;
    if let Some((_, name)) = text.split_once(".") {
        nearest.consider_after("var.", name)?;
        nearest.consider_after("local.", name)?;
    }
    page.suggest(&["`", text, "` is not declared."], &nearest)
}

/// Says why `count.index`, `each.key` or `each.value` isn't known at its place, or that there is no such name.
fn say_iteration<'a>(
    page: &mut Page,
    text: &'a str,
    property: &'a str,
    exists: bool,
) -> Result<(), AllocError> {
    if exists {
        return page.say(&[
            "`",
            text,
            "` is known only in the arguments of a block with `",
            property,
            "`.",
        ]);
    }
    page.say(&[
        "`",
        text,
        "` isn't known. There are count.index, each.key and each.value.",
    ])
}

/// Returns whether a place is in an argument of a block that has `count` or `for_each`.
fn is_iterated(used: Use<'_, '_>, property: &str) -> bool {
    match argument_at(used) {
        Some((_, "count" | "for_each" | "depends_on" | "lifecycle")) | None => false,
        Some((block, _)) => block_has(used.config.bytes, block, property),
    }
}

/// Returns the block in which a place is, and the name of the property.
fn argument_at<'p>(used: Use<'p, '_>) -> Option<(Member, &'p str)> {
    let rest = used.place.strip_prefix("resource.")?;
    let (type_name, rest) = rest.split_once(".")?;
    let (name, rest) = rest.split_once(".")?;
    let (argument, _) = rest.split_once(".").unwrap_or((rest, ""));
    let found = block(used.config.bytes, type_name, name)?;
    Some((found, argument))
}

/// Explains that a function doesn't exist.
fn explain_function(page: &mut Page, used: Use<'_, '_>, name: &str) -> Result<(), AllocError> {
    page.show_word(used.config, used.span, name)?;
    page.suggest_among(
        &["There is no function `", name, "` here."],
        name,
        &FUNCTIONS,
    )?;
    page.say(&["The functions are length, keys, values, merge, concat, join and toset."])
}
