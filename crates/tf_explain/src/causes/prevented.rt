//! Objects that may not be destroyed.

use crate::blocks::{block_at, key_in, lifecycle_setting, read_address};
use crate::causes::evaluation::{is_alone, template_at};
use crate::causes::following::{Resolved, is_reference, resolve, resolve_at};
use crate::causes::instances::{add_keys, is_among};
use crate::causes::recorded::{current_object, has_text};
use crate::causes::scope::Scope;
use crate::causes::values::{LIST, MAP, NULL, NUMBER, Shown, TEXT, TRUTH, number_at};
use crate::decoding::{decoded, is_text, text_in};
use crate::page::Page;
use crate::positions::{Member, items, member_named};
use crate::sources::{SourceFile, Sources};
use crate::span::{Span, bytes_in};
use std::alloc::AllocError;
use tf_expr_syntax::{Template, Term};
use tf_provider_protocol::{Attribute, Mode, schema_for};

/// An object that may not be destroyed.
#[derive(Clone, Copy)]
struct Protected<'s> {
    /// The address of the instance.
    place: &'s str,
    /// Its block.
    block: Member,
    sources: Sources<'s>,
}

/// Explains that an object may not be destroyed.
///
/// # Errors
///
/// Fails only if memory runs out.
pub(crate) fn explain_prevented<'a>(
    page: &mut Page,
    place: &'a str,
    sources: Sources<'a>,
) -> Result<(), AllocError> {
    let config = sources.config;
    let Some(block) = block_at(config.bytes, place) else {
        return Ok(());
    };
    let setting = lifecycle_setting(config.bytes, block, "prevent_destroy");
    page.show(config, setting.unwrap_or(block).name)?;
    page.say(&[
        "The plan would destroy or replace this object, and `prevent_destroy` forbids it.",
    ])?;
    let object = Protected {
        place,
        block,
        sources,
    };
    if explain_lost(page, object)? {
        return page.say(&["Keep the instance, or remove `prevent_destroy`."]);
    }
    explain_replaced(page, object)
}

/// Explains that the configuration doesn't have the instance any more. Returns whether it found that.
fn explain_lost(page: &mut Page, object: Protected<'_>) -> Result<bool, AllocError> {
    let config = object.sources.config.bytes;
    let count = member_named(config, object.block.value, "count");
    let for_each = member_named(config, object.block.value, "for_each");
    match (count, for_each, key_in(object.place)) {
        (None, None, None) => Ok(false),
        (Some(count), _, Some(key)) if !key.starts_with("\"") => {
            explain_count(page, object, count, key)
        }
        (_, Some(for_each), Some(key)) if key.starts_with("\"") => {
            explain_key(page, object, for_each, key)
        }
        (Some(count), _, _) => {
            say_other(
                page,
                object,
                count,
                "The block has `count` now, so its instances have numbers:",
            )
        }
        (_, Some(for_each), _) => {
            say_other(
                page,
                object,
                for_each,
                "The block has `for_each` now, so its instances have keys:",
            )
        }
        (None, None, Some(_)) => {
            page.say(&[
                "The block has neither `count` nor `for_each` now, so it has no instance `",
                object.place,
                "`.",
            ])?;
            Ok(true)
        }
    }
}

/// Explains that a block has instances of another kind now.
fn say_other(
    page: &mut Page,
    object: Protected<'_>,
    property: Member,
    sentence: &str,
) -> Result<bool, AllocError> {
    page.say(&[sentence])?;
    page.show(object.sources.config, property.name)?;
    page.say(&["So there is no instance `", object.place, "`."])?;
    Ok(true)
}

/// Explains that `count` is too low for an instance. Returns whether the files show that.
fn explain_count(
    page: &mut Page,
    object: Protected<'_>,
    count: Member,
    key: &str,
) -> Result<bool, AllocError> {
    let config = object.sources.config;
    let first = Shown::expression(config, count.value);
    let Resolved::Value(shown) = resolve_at(page, first, Scope::of(object.sources))? else {
        return Ok(false);
    };
    match (number_at(shown.file.bytes, shown.span), key.parse::<u64>()) {
        (Some(number), Ok(index)) if index >= number => {
            let sentence = format!(in page.alloc;
                "`count` is {number} now, so there is no instance `"
            )?;
            page.say(&[sentence.as_str(), object.place, "`:"])?;
            page.show(shown.file, shown.span)?;
            Ok(true)
        }
        _ => Ok(false),
    }
}

/// Explains that `for_each` lacks the key of an instance. Returns whether the files show that.
fn explain_key(
    page: &mut Page,
    object: Protected<'_>,
    for_each: Member,
    key: &str,
) -> Result<bool, AllocError> {
    let mut keys: Vec<String> = Vec::new(page.alloc);
    if !add_keys(page, &mut keys, for_each.value, object.sources)? {
        return Ok(false);
    }
    let raw = key.strip_prefix("\"").unwrap_or(key);
    let raw = raw.strip_suffix("\"").unwrap_or(raw);
    let name = decoded(page.alloc, raw.as_bytes())?;
    if is_among(&keys, name.as_str()) {
        return Ok(false);
    }
    page.say(&[
        "`for_each` has no key `",
        name.as_str(),
        "` now, so there is no instance `",
        object.place,
        "`:",
    ])?;
    page.show(object.sources.config, for_each.value)?;
    Ok(true)
}

/// Explains why an object would be replaced, as far as the files show it, and what to do.
fn explain_replaced(page: &mut Page, object: Protected<'_>) -> Result<(), AllocError> {
    if let Some(state) = object.sources.state
        && let Some(record) = current_object(page.alloc, object.place, state)?
    {
        if has_text(state.bytes, record, "status", "tainted") {
            page.say(&["The state says that this object is tainted, so the plan replaces it."])?;
            return page.say(&[
                "Remove the mark, as `terraform untaint` does, or remove `prevent_destroy`.",
            ]);
        }
        if let Some(attributes) = member_named(state.bytes, record, "attributes") {
            explain_changes(page, object, state, attributes.value)?;
        }
    }
    page.say(&["Undo the change that replaces it, or remove `prevent_destroy`."])
}

/// Explains which arguments that replace an object differ from the state.
fn explain_changes(
    page: &mut Page,
    object: Protected<'_>,
    state: SourceFile<'_>,
    attributes: Span,
) -> Result<(), AllocError> {
    let Some(address) = read_address(object.place) else {
        return Ok(());
    };
    let Some(schema) = schema_for(object.sources.providers, address.type_name) else {
        return Ok(());
    };
    let mut doubtful: Vec<Span> = Vec::new(page.alloc);
    let mut is_found = false;
    for attribute in schema.attributes() {
        if !replaces(page, object, attribute)? {
            continue;
        }
        let Some(old) = member_named(state.bytes, attributes, attribute.name.as_str()) else {
            continue;
        };
        let old = Prior {
            state,
            span: old.value,
        };
        is_found = explain_change(page, object, attribute, old, &mut doubtful)? || is_found;
    }
    if !is_found {
        say_doubtful(page, object.sources.config, &doubtful)?;
    }
    Ok(())
}

/// Says which arguments may be the ones that differ.
fn say_doubtful(
    page: &mut Page,
    config: SourceFile<'_>,
    doubtful: &[Span],
) -> Result<(), AllocError> {
    if doubtful.is_empty() {
        return Ok(());
    }
    page.say(&["A change of this argument replaces it:"])?;
    for span in doubtful {
        page.show(config, *span)?;
    }
    Ok(())
}

/// The value of an attribute in the state.
#[derive(Clone, Copy)]
struct Prior<'s> {
    state: SourceFile<'s>,
    span: Span,
}

/// Returns whether a change of an attribute replaces an object.
fn replaces(
    page: &mut Page,
    object: Protected<'_>,
    attribute: &Attribute,
) -> Result<bool, AllocError> {
    if !attribute.force_new || attribute.mode == Mode::Computed {
        return Ok(false);
    }
    let config = object.sources.config.bytes;
    let Some(ignored) = lifecycle_setting(config, object.block, "ignore_changes") else {
        return Ok(true);
    };
    for item in &items(page.alloc, config, ignored.value)? {
        if is_text(config, *item, attribute.name.as_str()) {
            return Ok(false);
        }
    }
    Ok(true)
}

/// Explains an argument that differs from the state, if the files show that. Returns whether it did. If they don't show its value,
/// adds the argument to those that may differ.
fn explain_change(
    page: &mut Page,
    object: Protected<'_>,
    attribute: &Attribute,
    old: Prior<'_>,
    doubtful: &mut Vec<Span>,
) -> Result<bool, AllocError> {
    let config = object.sources.config;
    let name = attribute.name.as_str();
    let Some(argument) = member_named(config.bytes, object.block.value, name) else {
        let is_removed = bytes_in(old.state.bytes, old.span) != b"null".as_slice();
        if is_removed {
            say_change(page, name, old, "null")?;
            page.show(config, object.block.name)?;
        }
        return Ok(is_removed);
    };
    match simple_value(page, object, argument.value)? {
        Some(new) if is_same(new.as_str(), old) => Ok(false),
        Some(new) => {
            say_change(page, name, old, new.as_str())?;
            page.show(config, argument.value)?;
            Ok(true)
        }
        None => {
            doubtful.push(argument.value)?;
            Ok(false)
        }
    }
}

/// Says how an attribute changes.
fn say_change<'a>(
    page: &mut Page,
    name: &'a str,
    old: Prior<'_>,
    new: &'a str,
) -> Result<(), AllocError> {
    let text = simple(page, Shown::literal(old.state, old.span))?;
    match &text {
        Some(before) => say_values(page, name, before.as_str(), new),
        None => say_values(page, name, "another value", new),
    }
}

/// Says which value an attribute has in the state, and which one in the configuration.
fn say_values<'a>(
    page: &mut Page,
    name: &'a str,
    before: &'a str,
    new: &'a str,
) -> Result<(), AllocError> {
    page.say(&[
        "`",
        name,
        "` is `",
        before,
        "` in the state and `",
        new,
        "` in the configuration, and a change of it replaces the object:",
    ])
}

/// Returns whether a text is how a value of the state is shown.
fn is_same(new: &str, old: Prior<'_>) -> bool {
    let bytes = old.state.bytes;
    is_text(bytes, old.span, new) || bytes_in(bytes, old.span) == new.as_bytes()
}

/// Returns the value of an argument as a text, if the files show it, and it isn't a list or a map.
fn simple_value(
    page: &mut Page,
    object: Protected<'_>,
    argument: Span,
) -> Result<Option<String>, AllocError> {
    let scope = Scope::at(page, object.place, object.sources)?;
    let config = object.sources.config;
    let first = Shown::expression(config, argument);
    if first.first() == b'"'
        && let Some(template) = template_at(page.alloc, argument, config.bytes)?
        && is_alone(&template)
        && !template.parts.is_empty()
    {
        return alone_value(page, &template, scope);
    }
    simple_text(page, first, scope)
}

/// Returns a value as a text, also that of a text with interpolations.
fn simple_text(
    page: &mut Page,
    shown: Shown<'_>,
    scope: Scope<'_>,
) -> Result<Option<String>, AllocError> {
    if shown.kind().is_some() {
        return simple(page, shown);
    }
    match template_at(page.alloc, shown.span, shown.file.bytes)? {
        Some(template) if !is_alone(&template) => joined_text(page, &template, scope),
        _ => Ok(None),
    }
}

/// Returns the text of a template, if the files show the values of all of its parts.
fn joined_text(
    page: &mut Page,
    template: &Template,
    scope: Scope<'_>,
) -> Result<Option<String>, AllocError> {
    let mut text = String::new(page.alloc);
    for part in &template.parts {
        text.push_str(part.0.as_str())?;
        match simple_part(page, &part.1, scope)? {
            Some(value) => text.push_str(value.as_str())?,
            None => return Ok(None),
        }
    }
    text.push_str(template.last.as_str())?;
    Ok(Some(text))
}

/// Returns the value of an interpolation as a text, if the files show it, and it isn't a list or a map.
fn simple_part(
    page: &mut Page,
    term: &Term,
    scope: Scope<'_>,
) -> Result<Option<String>, AllocError> {
    if let Term::Reference(reference) = term {
        if is_reference(reference, "count", "index")
            && let Some(index) = scope.index
        {
            return Ok(Some(format!(in page.alloc; "{index}")?));
        }
        if is_reference(reference, "each", "key")
            && let Some(raw) = scope.key
        {
            return Ok(Some(decoded(page.alloc, raw)?));
        }
    }
    match resolve(page, term, scope)? {
        Resolved::Value(shown) => simple(page, shown),
        _ => Ok(None),
    }
}

/// Returns the value of an argument that is one interpolation.
fn alone_value(
    page: &mut Page,
    template: &Template,
    scope: Scope<'_>,
) -> Result<Option<String>, AllocError> {
    match template.parts.first() {
        Some(part) => simple_part(page, &part.1, scope),
        None => Ok(None),
    }
}

/// Returns a text, a number, a truth value or null as a text.
fn simple(page: &Page, shown: Shown<'_>) -> Result<Option<String>, AllocError> {
    match shown.kind() {
        Some(TEXT) if shown.first() == b'"' => {
            Ok(Some(text_in(page.alloc, shown.file.bytes, shown.span)?))
        }
        Some(LIST | MAP) | None => Ok(None),
        Some(NULL) => Ok(Some(String::from_str(page.alloc, "null")?)),
        Some(NUMBER | TRUTH | TEXT) => {
            Ok(Some(decoded(page.alloc, bytes_in(shown.file.bytes, shown.span))?))
        }
        Some(_) => Ok(None),
    }
}
