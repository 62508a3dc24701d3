//! Which part of an expression has no value.

use crate::blocks::{block, block_has, consider_members};
use crate::causes::evaluation::ReadText;
use crate::causes::following::{is_reference, resource_of, value_of};
use crate::causes::instances::{missing_counted, missing_keyed};
use crate::causes::operands::{explain_operands, is_doubtful};
use crate::causes::used::{Used, address_of};
use crate::causes::values::{NUMBER, Shown, TEXT, number_at, show_value};
use crate::decoding::{decoded, text_in};
use crate::near::Nearest;
use crate::page::Page;
use crate::positions::{Member, items};
use std::alloc::AllocError;
use tf_expr_syntax::{Function, Operator, Prefix, Reference, Term};
use tf_provider_protocol::{Schema, schema_for};

/// Explains an attribute, an index or a key that doesn't exist. Returns whether it found one.
///
/// # Errors
///
/// Fails only if memory runs out.
pub(crate) fn explain_missing(page: &mut Page, text: ReadText<'_, '_>) -> Result<bool, AllocError> {
    let mut is_found = false;
    let length = text.scope.sources.config.bytes.len();
    for (number, term) in text.terms.iter().enumerate() {
        let term = *term;
        if is_step(term) && page.may_read(length) {
            let used = Used { text, number, term };
            is_found = missing_step(page, used)? || is_found;
        }
    }
    Ok(is_found)
}

/// Returns whether a part is an attribute or an element.
fn is_step(term: &Term) -> bool {
    matches!(term, Term::Attribute(_, _) | Term::Index(_, _))
}

/// Explains an attribute or an element that doesn't exist. Returns whether it did.
fn missing_step(page: &mut Page, used: Used<'_, '_>) -> Result<bool, AllocError> {
    if instances_mistaken(page, used)? {
        return Ok(true);
    }
    match used.term {
        Term::Attribute(inner, name) => missing_attribute(page, used, &**inner, name.as_str()),
        Term::Index(inner, place) => missing_element(page, used, &**inner, &**place),
        _ => Ok(false),
    }
}

/// Explains an attribute that its object doesn't have.
fn missing_attribute<'a>(
    page: &mut Page,
    used: Used<'_, '_>,
    inner: &'a Term,
    name: &'a str,
) -> Result<bool, AllocError> {
    let type_name = resource_of(inner).map_or("", |reference| reference.first.as_str());
    match schema_for(used.text.scope.sources.providers, type_name) {
        Some(schema) if schema.attribute(name).is_none() => {
            used.show_step(page)?;
            say_attribute(page, type_name, name, schema)?;
            Ok(true)
        }
        Some(_) => Ok(false),
        None => missing_key(page, used, inner, name),
    }
}

/// Says that a type has no attribute, with the nearest one.
fn say_attribute<'a>(
    page: &mut Page,
    type_name: &'a str,
    name: &'a str,
    schema: &Schema,
) -> Result<(), AllocError> {
    let mut nearest = Nearest::to(page.alloc, name);
    for attribute in schema.attributes() {
        nearest.consider(attribute.name.as_str())?;
    }
    page.suggest(
        &["The type `", type_name, "` has no attribute `", name, "`."],
        &nearest,
    )
}

/// Explains an index beyond a list, or a key that a map doesn't have.
fn missing_element<'a>(
    page: &mut Page,
    used: Used<'_, '_>,
    inner: &'a Term,
    place: &'a Term,
) -> Result<bool, AllocError> {
    match place {
        Term::Number(index) => missing_index(page, used, inner, *index),
        Term::Quoted(template) if template.parts.is_empty() => {
            missing_key(page, used, inner, template.last.as_str())
        }
        Term::Unary(Prefix::Negate, number) => match &**number {
            Term::Number(number) if *number > 0 => explain_negative(page, used),
            _ => Ok(false),
        },
        _ => missing_referred(page, used, inner, place),
    }
}

/// Explains an index below 0.
fn explain_negative(page: &mut Page, used: Used<'_, '_>) -> Result<bool, AllocError> {
    used.show_step(page)?;
    page.say(&["An index is 0 or more: it isn't counted from the end of the list."])?;
    Ok(true)
}

/// Explains an index or a key that doesn't exist and is the value of a reference.
fn missing_referred(
    page: &mut Page,
    used: Used<'_, '_>,
    inner: &Term,
    place: &Term,
) -> Result<bool, AllocError> {
    if let Term::Reference(reference) = place
        && matches!(reference.first.as_str(), "count" | "each")
    {
        return missing_own(page, used, inner, reference);
    }
    let Some(shown) = value_of(page, place, used.text.scope)? else {
        return Ok(false);
    };
    let is_missing = missing_value(page, used, inner, shown)?;
    if is_missing {
        page.say(&["The value between the brackets is here:"])?;
        show_value(page, shown)?;
    }
    Ok(is_missing)
}

/// Explains an index or a key that doesn't exist and is `count.index` or `each.key`.
fn missing_own(
    page: &mut Page,
    used: Used<'_, '_>,
    inner: &Term,
    reference: &Reference,
) -> Result<bool, AllocError> {
    let scope = used.text.scope;
    if is_reference(reference, "count", "index")
        && let Some(index) = scope.index
    {
        let is_missing = missing_index(page, used, inner, index)?;
        if is_missing {
            let sentence = format!(in page.alloc; "`count.index` is {index} in this instance.")?;
            page.say(&[sentence.as_str()])?;
        }
        return Ok(is_missing);
    }
    let is_key = is_reference(reference, "each", "key");
    let Some(raw) = scope.key else {
        return Ok(false);
    };
    let key = decoded(page.alloc, raw)?;
    if !is_key || !missing_key(page, used, inner, key.as_str())? {
        return Ok(false);
    }
    page.say(&["`each.key` is `", key.as_str(), "` in this instance."])?;
    Ok(true)
}

/// Explains an index or a key that doesn't exist and that a file shows.
fn missing_value(
    page: &mut Page,
    used: Used<'_, '_>,
    inner: &Term,
    shown: Shown<'_>,
) -> Result<bool, AllocError> {
    match shown.kind() {
        Some(TEXT) => {
            let key = text_in(page.alloc, shown.file.bytes, shown.span)?;
            missing_key(page, used, inner, key.as_str())
        }
        Some(NUMBER) => match number_at(shown.file.bytes, shown.span) {
            Some(index) => missing_index(page, used, inner, index),
            None => explain_negative(page, used),
        },
        _ => Ok(false),
    }
}

/// Explains an index beyond a list that is written out.
fn missing_index(
    page: &mut Page,
    used: Used<'_, '_>,
    inner: &Term,
    index: u64,
) -> Result<bool, AllocError> {
    if let Term::List(elements) = inner {
        let count = elements.len() as u64;
        if index >= count {
            used.show_step(page)?;
            say_index(page, count, index, ".")?;
        }
        return Ok(index >= count);
    }
    let Some(shown) = value_of(page, inner, used.text.scope)? else {
        return missing_counted(page, used, inner, index);
    };
    if shown.first() != b'[' {
        return Ok(false);
    }
    let count = items(page.alloc, shown.file.bytes, shown.span)?.len() as u64;
    if index < count {
        return Ok(false);
    }
    used.show_step(page)?;
    say_index(page, count, index, ":")?;
    show_value(page, shown)?;
    Ok(true)
}

/// Says that a list has too few elements for an index.
fn say_index(page: &mut Page, count: u64, index: u64, end: &str) -> Result<(), AllocError> {
    let elements = if count == 1 { "element" } else { "elements" };
    let sentence = format!(in page.alloc;
        "The list has {count} {elements}, counted from 0, so there is no [{index}]{end}"
    )?;
    page.say(&[sentence.as_str()])
}

/// Explains a key that a map that is written out doesn't have.
fn missing_key(
    page: &mut Page,
    used: Used<'_, '_>,
    inner: &Term,
    key: &str,
) -> Result<bool, AllocError> {
    let Some(map) = value_of(page, inner, used.text.scope)? else {
        return missing_keyed(page, used, inner, key);
    };
    if map.first() != b'{' || map.at_key(key).is_some() {
        return Ok(false);
    }
    used.show_key(page)?;
    say_key(page, map, key)?;
    show_value(page, map)?;
    Ok(true)
}

/// Says that a map has no key, with the nearest one.
fn say_key(page: &mut Page, map: Shown<'_>, key: &str) -> Result<(), AllocError> {
    let mut nearest = Nearest::to(page.alloc, key);
    consider_members(&mut nearest, map.file.bytes, map.span, "")?;
    page.suggest(&["The map has no key `", key, "`."], &nearest)
}

/// Explains values of wrong kinds. Returns whether it found one.
///
/// # Errors
///
/// Fails only if memory runs out.
pub(crate) fn explain_wrong_kind(
    page: &mut Page,
    text: ReadText<'_, '_>,
) -> Result<bool, AllocError> {
    let mut is_found = false;
    let length = text.scope.sources.config.bytes.len();
    for (number, term) in text.terms.iter().enumerate() {
        let term = *term;
        if is_step(term) && page.may_read(length) {
            is_found = instances_mistaken(page, Used { text, number, term })? || is_found;
        }
    }
    Ok(is_found || explain_operands(page, text)?)
}

/// Says which values the parts of an expression take, each sentence once. Returns whether there are such parts. Before it, shows the
/// text, or the only call in it, if that is wanted.
///
/// # Errors
///
/// Fails only if memory runs out.
pub(crate) fn say_what_is_taken(
    page: &mut Page,
    text: ReadText<'_, '_>,
    is_shown: bool,
) -> Result<bool, AllocError> {
    let mut sentences: Vec<&'static str> = Vec::new(page.alloc);
    let mut only = None;
    for (number, term) in text.terms.iter().enumerate() {
        let term = *term;
        let Some(sentence) = what_may_be_wrong(term) else {
            continue;
        };
        if !is_doubtful(page, term, text.scope)? {
            continue;
        }
        only = if sentences.is_empty() {
            Some(Used { text, number, term })
        } else {
            None
        };
        if !sentences.contains(&sentence) {
            sentences.push(sentence)?;
        }
    }
    if sentences.is_empty() {
        return Ok(false);
    }
    if is_shown {
        match only {
            Some(used) => used.show_step(page)?,
            None => page.show(text.scope.sources.config, text.span)?,
        }
    }
    for sentence in &sentences {
        page.say(&[*sentence])?;
    }
    Ok(true)
}

/// Returns which values a part of an expression takes, if it may have another one. An attribute of a resource is one that there is.
fn what_may_be_wrong(term: &Term) -> Option<&'static str> {
    match term {
        Term::Attribute(inner, _) if is_resource(&**inner) => None,
        _ => what_is_taken(term),
    }
}

/// Returns whether an operand refers to a resource or one of its instances.
fn is_resource(term: &Term) -> bool {
    match resource_of(term) {
        Some(reference) => !matches!(reference.first.as_str(), "var" | "local" | "count" | "each"),
        None => false,
    }
}

/// Explains a resource with `count` or `for_each` that is used without an index, or one without them that is used with an index.
fn instances_mistaken(page: &mut Page, used: Used<'_, '_>) -> Result<bool, AllocError> {
    let (inner, place) = match used.term {
        Term::Attribute(inner, _) => (&**inner, None),
        Term::Index(inner, place) => (&**inner, Some(&**place)),
        _ => return Ok(false),
    };
    let Term::Reference(reference) = inner else {
        return Ok(false);
    };
    let config = used.text.scope.sources.config;
    let (first, name) = (reference.first.as_str(), reference.name.as_str());
    let Some(block) = block(config.bytes, first, name) else {
        return Ok(false);
    };
    let instances = Instances::of(config.bytes, block);
    if instances.take(place) {
        return Ok(false);
    }
    let found = used.reference(page, reference)?;
    used.show(page, found)?;
    let address = address_of(page, reference)?;
    say_instances(page, address.as_str(), instances)?;
    Ok(true)
}

/// How a block has instances.
#[derive(Clone, Copy)]
enum Instances {
    Count,
    ForEach,
    /// One instance, without an index.
    One,
}

impl Instances {
    /// Returns how a block has instances.
    fn of(config: &[u8], block: Member) -> Instances {
        if block_has(config, block, "count") {
            Instances::Count
        } else if block_has(config, block, "for_each") {
            Instances::ForEach
        } else {
            Instances::One
        }
    }

    /// Returns whether an index, or none, chooses an instance.
    fn take(self, place: Option<&Term>) -> bool {
        match (self, place) {
            (Instances::Count, Some(Term::Quoted(_))) => false,
            (Instances::ForEach, Some(Term::Number(_))) => false,
            (Instances::One, None) => true,
            (Instances::One, Some(_)) => false,
            (_, found) => found.is_some(),
        }
    }
}

/// Says how the instances of a resource are used.
fn say_instances(page: &mut Page, address: &str, instances: Instances) -> Result<(), AllocError> {
    match instances {
        Instances::Count => page.say(&[
            "`",
            address,
            "` has `count`, so it is a list of objects. Choose one, as in ",
            address,
            "[0].",
        ]),
        Instances::ForEach => page.say(&[
            "`",
            address,
            "` has `for_each`, so it is a map of objects. Choose one, as in ",
            address,
            "[\"KEY\"].",
        ]),
        Instances::One => page.say(&[
            "`",
            address,
            "` has neither `count` nor `for_each`, so it is one object: leave the index out.",
        ]),
    }
}

/// Returns which values a part of an expression takes.
pub(crate) fn what_is_taken(term: &Term) -> Option<&'static str> {
    match term {
        Term::Call(name, _) => match Function::named(name.as_str())? {
            Function::Length => Some("`length` takes a list, a map or a set."),
            Function::Keys => Some("`keys` takes a map."),
            Function::Values => Some("`values` takes a map."),
            Function::Merge => Some("`merge` takes maps."),
            Function::Concat => Some("`concat` takes lists."),
            Function::Join => Some(
                "`join` takes a separator and a list of texts, whole numbers or truth values.",
            ),
            Function::ToSet => Some("`toset` takes a list of texts."),
        },
        Term::Binary(operator, _, _) => of_operator(*operator),
        Term::Unary(_, _) => Some("`!` takes a truth value, and `-` a whole number."),
        Term::Index(_, _) => Some("An index takes a list and a number, or a map and a text."),
        Term::Attribute(_, _) => Some("A name after a dot takes a map or an object."),
        Term::Conditional(_, _, _) => Some("The condition before `?` has to be a truth value."),
        _ => None,
    }
}

/// Returns which values an operator takes.
fn of_operator(operator: Operator) -> Option<&'static str> {
    match operator {
        Operator::Add | Operator::Subtract | Operator::Multiply => {
            Some("`+`, `-` and `*` take whole numbers. Nothing is converted to one.")
        }
        Operator::Greater | Operator::GreaterOrEqual | Operator::Less | Operator::LessOrEqual =>
            Some("Comparisons take whole numbers. Nothing is converted to one."),
        Operator::And | Operator::Or => Some("`&&` and `||` take truth values."),
        Operator::Equal | Operator::NotEqual => None,
    }
}
