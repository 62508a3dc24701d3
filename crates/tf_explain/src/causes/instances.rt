//! Instances that a resource doesn't have.

use crate::blocks::{add_names, block};
use crate::causes::evaluation::{is_alone, template_at};
use crate::causes::following::value_of;
use crate::causes::scope::Scope;
use crate::causes::used::{Used, address_of};
use crate::causes::values::{Shown, number_at};
use crate::decoding::text_in;
use crate::near::Nearest;
use crate::page::Page;
use crate::positions::{Member, items, member_named};
use crate::sources::Sources;
use crate::span::{Span, byte_at, is_literal};
use std::alloc::{AllocError, Global};
use tf_expr_syntax::{Template, Term};

/// Returns a property of the block to which an operand refers.
fn property_of(term: &Term, name: &str, config: &[u8]) -> Option<Member> {
    let Term::Reference(reference) = term else {
        return None;
    };
    let found = block(config, reference.first.as_str(), reference.name.as_str())?;
    member_named(config, found.value, name)
}

/// Returns the address of a resource to which an operand refers.
fn address(page: &Page, term: &Term) -> Result<String, AllocError> {
    match term {
        Term::Reference(reference) => address_of(page, reference),
        _ => Ok(String::new(page.alloc)),
    }
}

/// Explains an index beyond the instances that a literal `count` makes. Returns whether it did.
///
/// # Errors
///
/// Fails only if memory runs out.
pub(crate) fn missing_counted(
    page: &mut Page,
    used: Used<'_, '_>,
    inner: &Term,
    index: u64,
) -> Result<bool, AllocError> {
    let config = used.text.scope.sources.config;
    let Some(property) = property_of(inner, "count", config.bytes) else {
        return Ok(false);
    };
    match number_at(config.bytes, property.value) {
        Some(count) if index >= count => {
            used.show_step(page)?;
            let address = address(page, inner)?;
            say_counted(page, address.as_str(), count, index)?;
            page.show(config, property.value)?;
            Ok(true)
        }
        _ => Ok(false),
    }
}

/// Says that a resource has too few instances for an index.
fn say_counted(page: &mut Page, address: &str, count: u64, index: u64) -> Result<(), AllocError> {
    let last = count.saturating_sub(1);
    let rest = match count {
        0 => format!(in page.alloc; "no instances, so there is no [{index}]:")?,
        1 => format!(in page.alloc; "1 instance, [0], so there is no [{index}]:")?,
        _ => format!(in page.alloc;
            "{count} instances, [0] to [{last}], so there is no [{index}]:"
        )?,
    };
    page.say(&["`", address, "` has ", rest.as_str()])
}

/// Explains a key that isn't among those that `for_each` has, as far as the files show them. Returns whether it did.
///
/// # Errors
///
/// Fails only if memory runs out.
pub(crate) fn missing_keyed(
    page: &mut Page,
    used: Used<'_, '_>,
    inner: &Term,
    key: &str,
) -> Result<bool, AllocError> {
    let config = used.text.scope.sources.config;
    let Some(property) = property_of(inner, "for_each", config.bytes) else {
        return Ok(false);
    };
    let mut keys: Vec<String> = Vec::new(page.alloc);
    let is_known = add_keys(page, &mut keys, property.value, used.text.scope.sources)?;
    if !is_known || is_among(&keys, key) {
        return Ok(false);
    }
    used.show_key(page)?;
    let address = address(page, inner)?;
    say_keyed(page, address.as_str(), &keys, key)?;
    page.show(config, property.value)?;
    Ok(true)
}

/// Returns whether a text is among some.
pub(crate) fn is_among(texts: &[String], wanted: &str) -> bool {
    for text in texts {
        if text.as_str() == wanted {
            return true;
        }
    }
    false
}

/// Says that a resource has no instance of a key, with the nearest key, and which keys there are.
fn say_keyed(page: &mut Page, address: &str, keys: &[String], key: &str) -> Result<(), AllocError> {
    let mut nearest = Nearest::to(page.alloc, key);
    for other in keys {
        nearest.consider(other.as_str())?;
    }
    page.suggest(&["`", address, "` has no instance `", key, "`."], &nearest)?;
    match keys.len() {
        0 => page.say(&["Its `for_each` has no keys:"]),
        1 => page.say_names("Its `for_each` has the key", keys),
        _ => page.say_names("Its `for_each` has the keys", keys),
    }
}

/// Adds the keys that a `for_each` has. Returns whether the files show all of them.
///
/// # Errors
///
/// Fails only if memory runs out.
pub(crate) fn add_keys(
    page: &mut Page,
    keys: &mut Vec<String>,
    for_each: Span,
    sources: Sources<'_>,
) -> Result<bool, AllocError> {
    let config = sources.config.bytes;
    if byte_at(config, for_each.start) == b'{' {
        add_names(page.alloc, keys, config, for_each)?;
        return Ok(true);
    }
    match template_at(page.alloc, for_each, config)? {
        Some(template) => add_keys_of(page, keys, &template, Scope::of(sources)),
        None => Ok(false),
    }
}

/// Adds the keys of a template that is one expression: a map, or `toset` of a list. Returns whether the files show all of them.
fn add_keys_of(
    page: &mut Page,
    keys: &mut Vec<String>,
    template: &Template,
    scope: Scope<'_>,
) -> Result<bool, AllocError> {
    let Some(part) = template.parts.first() else {
        return Ok(false);
    };
    if !is_alone(template) {
        return Ok(false);
    }
    match &part.1 {
        Term::Call(name, arguments) if name.as_str() == "toset" => match arguments.first() {
            Some(Term::List(terms)) => add_texts(keys, terms),
            Some(term) => add_elements(page, keys, term, scope),
            None => Ok(false),
        },
        term => match value_of(page, term, scope)? {
            Some(map) if map.first() == b'{' => {
                add_names(page.alloc, keys, map.file.bytes, map.span)?;
                Ok(true)
            }
            _ => Ok(false),
        },
    }
}

/// Adds the literal texts among some operands. Returns whether all of them are literal texts.
fn add_texts(keys: &mut Vec<String>, terms: &[Term]) -> Result<bool, AllocError> {
    for term in terms {
        match term {
            Term::Quoted(template) if template.parts.is_empty() => {
                keys.push(template.last.clone()?)?;
            }
            _ => return Ok(false),
        }
    }
    Ok(true)
}

/// Adds the literal texts of a list that is the value of an operand. Returns whether the files show all of its elements.
fn add_elements(
    page: &mut Page,
    keys: &mut Vec<String>,
    term: &Term,
    scope: Scope<'_>,
) -> Result<bool, AllocError> {
    match value_of(page, term, scope)? {
        Some(list) if list.first() == b'[' => add_items(page.alloc, keys, list),
        _ => Ok(false),
    }
}

/// Adds the literal texts of a list. Returns whether all of its elements are literal texts.
fn add_items(alloc: Global, keys: &mut Vec<String>, list: Shown<'_>) -> Result<bool, AllocError> {
    let text = list.file.bytes;
    for item in &items(alloc, text, list.span)? {
        if !is_literal(text, *item) {
            return Ok(false);
        }
        keys.push(text_in(alloc, text, *item)?)?;
    }
    Ok(true)
}
