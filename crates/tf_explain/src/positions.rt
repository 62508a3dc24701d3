//! The places of values in a JSON text, also in one that isn't valid, as far as it goes.
//!
//! A place is a path of property names and positions in arrays. No function here recurses, and each goes through the
//! bytes of the text once.

ghost use Rattle.std.specs.Prelude.{◌≤◌, length, IfSome};
ghost use Rattle.tf_explain.specs.Spans.{IsIn};

use crate::decoding::{is_text, spelled_length, text_in};
use crate::span::{Span, between_quotes, byte_at, bytes_in};
use std::alloc::{AllocError, Global};

/// The most steps of a path that are followed.
const MOST_STEPS: usize = 128;

/// A property of an object.
#[derive(Clone, Copy)]
pub struct Member {
    /// Its name, with the quotes.
    pub name: Span,
    /// Its value.
    pub value: Span,
}

/// What was found at a path.
#[derive(Clone, Copy)]
pub struct Found<'a> {
    /// The value at the path, or that of the last step that could be followed.
    pub value: Span,
    /// The name of that property, with the quotes, if it is a property.
    pub name: Option<Span>,
    /// An earlier property of the same name in the same object.
    pub earlier: Option<Span>,
    /// The steps that could not be followed.
    pub rest: &'a str,
}

/// Returns whether a byte is space between the tokens of JSON.
pub(crate) fn is_space(byte: u8) -> bool {
    matches!(byte, b' ' | b'\t' | b'\n' | b'\r')
}

/// Returns the first position from this one on that isn't space.
pub(crate) fn skip_space(text: &[u8], from: usize) -> usize
    ensures within { result ≤ length text.now }
    ensures onward { from ≤ length text.now → from ≤ result }
{
    for at in from..text.len() {
        if !is_space(text[at]) {
            return at;
        }
    }
    text.len()
}

/// Returns the position after the text whose opening quote is at this position.
pub(crate) fn string_end(text: &[u8], quote: usize) -> usize
    ensures within { result ≤ length text.now }
    ensures onward { quote ≤ length text.now → quote ≤ result }
{
    let mut is_escaped = false;
    for at in quote.saturating_add(1)..text.len() {
        let byte = text[at];
        if !is_escaped && byte == b'"' {
            return at + 1;
        }
        is_escaped = !is_escaped && byte == b'\\';
    }
    text.len()
}

/// Returns the position after the value that begins at this position.
pub(crate) fn value_end(text: &[u8], from: usize) -> usize
    ensures within { result ≤ length text.now }
    ensures onward { from ≤ length text.now → from ≤ result }
{
    match byte_at(text, from) {
        b'"' => string_end(text, from),
        b'{' | b'[' => container_end(text, from),
        _ => word_end(text, from),
    }
}

/// Returns the position after the number or the word that begins at this position.
fn word_end(text: &[u8], from: usize) -> usize
    ensures within { result ≤ length text.now }
    ensures onward { from ≤ length text.now → from ≤ result }
{
    for at in from..text.len() {
        if matches!(text[at], b',' | b':' | b'"' | b'{' | b'}' | b'[' | b']')
            || is_space(text[at])
        {
            return at;
        }
    }
    text.len()
}

/// Returns the position after the object or the array that begins at this position. Texts in it may have brackets.
fn container_end(text: &[u8], from: usize) -> usize
    ensures within { result ≤ length text.now }
    ensures onward { from ≤ length text.now → from ≤ result }
{
    let mut depth = 0usize;
    let mut is_quoted = false;
    let mut is_escaped = false;
    for at in from..text.len() {
        let byte = text[at];
        if is_quoted {
            is_quoted = is_escaped || byte != b'"';
            is_escaped = !is_escaped && byte == b'\\';
        } else if byte == b'"' {
            is_quoted = true;
        } else if byte == b'{' || byte == b'[' {
            depth = depth.saturating_add(1);
        } else if byte == b'}' || byte == b']' {
            depth = depth.saturating_sub(1);
            if depth == 0 {
                return at + 1;
            }
        }
    }
    text.len()
}

/// Returns the whole value of a text.
pub fn top(text: &[u8]) -> Span
    ensures { IsIn text.now result }
{
    let start = skip_space(text, 0);
    Span {
        start,
        end: value_end(text, start),
    }
}

/// Returns the next property of an object, from a position in it on.
fn next_member(text: &[u8], from: usize) -> Option<Member>
    ensures name { IfSome result (λ m. IsIn text.now m.name) }
    ensures value { IfSome result (λ m. IsIn text.now m.value) }
{
    let start = after_comma(text, from);
    if byte_at(text, start) != b'"' {
        return None;
    }
    let end = string_end(text, start);
    let colon = skip_space(text, end);
    if byte_at(text, colon) != b':' {
        return None;
    }
    let value = skip_space(text, colon.saturating_add(1));
    Some(Member {
        name: Span { start, end },
        value: Span {
            start: value,
            end: value_end(text, value),
        },
    })
}

/// Returns the position of what comes next, after space and a comma if there is one.
fn after_comma(text: &[u8], from: usize) -> usize
    ensures { result ≤ length text.now }
{
    let at = skip_space(text, from);
    if byte_at(text, at) == b',' {
        skip_space(text, at.saturating_add(1))
    } else {
        at
    }
}

/// Returns the position from which the properties of the object in a range are read: the end of the text if it is no object.
fn members_start(text: &[u8], object: Span) -> usize {
    if byte_at(text, object.start) == b'{' {
        object.start.saturating_add(1)
    } else {
        text.len()
    }
}

/// Returns the properties of the object in a range, in their order. It has none if it is no object.
///
/// # Errors
///
/// Fails only if memory runs out.
pub fn members(alloc: Global, text: &[u8], object: Span) -> Result<Vec<Member>, AllocError> {
    let mut found = Vec::new(alloc);
    let mut at = members_start(text, object);
    for _ in 0..text.len() {
        let Some(member) = next_member(text, at) else {
            break;
        };
        at = member.value.end;
        found.push(member)?;
    }
    Ok(found)
}

/// Returns the elements of the array in a range, in their order. It has none if it is no array.
///
/// # Errors
///
/// Fails only if memory runs out.
pub fn items(alloc: Global, text: &[u8], array: Span) -> Result<Vec<Span>, AllocError> {
    let mut found = Vec::new(alloc);
    if byte_at(text, array.start) != b'[' {
        return Ok(found);
    }
    let mut at = array.start.saturating_add(1);
    for _ in 0..text.len() {
        let start = after_comma(text, at);
        let end = value_end(text, start);
        if end <= start {
            break;
        }
        at = end;
        found.push(Span { start, end })?;
    }
    Ok(found)
}

/// Returns the last property of a name in an object.
pub fn member_named(text: &[u8], object: Span, name: &str) -> Option<Member> {
    let mut last = None;
    let mut at = members_start(text, object);
    for _ in 0..text.len() {
        let Some(member) = next_member(text, at) else {
            break;
        };
        at = member.value.end;
        if is_text(text, member.name, name) {
            last = Some(member);
        }
    }
    last
}

/// Returns whether a property is a comment.
pub(crate) fn is_comment(text: &[u8], member: Member) -> bool {
    is_text(text, member.name, "//")
}

/// Returns how many properties an object has, but for comments.
pub(crate) fn member_count(text: &[u8], object: Span) -> usize {
    let mut count = 0usize;
    let mut at = members_start(text, object);
    for _ in 0..text.len() {
        let Some(member) = next_member(text, at) else {
            break;
        };
        at = member.value.end;
        if !is_comment(text, member) {
            count = count.saturating_add(1);
        }
    }
    count
}

/// Returns the name of a property, decoded.
///
/// # Errors
///
/// Fails only if memory runs out.
pub fn name_of(alloc: Global, text: &[u8], member: &Member) -> Result<String, AllocError> {
    text_in(alloc, text, member.name)
}

/// Follows a path of property names and array positions, joined by dots, from the top of a text. If the path can be read in
/// several ways, it follows the longest names. If a property occurs twice, it follows the last one.
///
/// # Errors
///
/// Fails only if memory runs out.
pub fn find<'a>(alloc: Global, text: &[u8], path: &'a str) -> Result<Found<'a>, AllocError> {
    let mut found = Found {
        value: top(text),
        name: None,
        earlier: None,
        rest: path,
    };
    for _ in 0..MOST_STEPS {
        match step(alloc, text, found)? {
            Some(next) => found = next,
            None => break,
        }
    }
    Ok(found)
}

/// Follows one step of a path.
fn step<'a>(alloc: Global, text: &[u8], from: Found<'a>) -> Result<Option<Found<'a>>, AllocError> {
    if from.rest.is_empty() {
        return Ok(None);
    }
    match byte_at(text, from.value.start) {
        b'{' => member_step(alloc, text, from),
        b'[' => item_step(alloc, text, from),
        _ => Ok(None),
    }
}

/// Follows a step to a property: the one with the longest name with which the path begins.
fn member_step<'a>(
    alloc: Global,
    text: &[u8],
    from: Found<'a>,
) -> Result<Option<Found<'a>>, AllocError> {
    let mut best: Option<Found<'a>> = None;
    let mut longest = 0usize;
    for member in &members(alloc, text, from.value)? {
        let Some((length, rest)) = rest_after(text, *member, from.rest) else {
            continue;
        };
        if length >= longest {
            let earlier = match best {
                Some(other) if length == longest => other.name,
                _ => None,
            };
            longest = length;
            best = Some(Found {
                value: member.value,
                name: Some(member.name),
                earlier,
                rest,
            });
        }
    }
    Ok(best)
}

/// Splits a path in an object after the name of the property with which it begins: the longest one. If the object has no such
/// property, splits it at the first dot.
///
/// # Errors
///
/// Fails only if memory runs out.
pub(crate) fn split_name<'a>(
    alloc: Global,
    text: &[u8],
    object: Span,
    path: &'a str,
) -> Result<(&'a str, &'a str), AllocError> {
    let from = Found {
        value: object,
        name: None,
        earlier: None,
        rest: path,
    };
    let Some(found) = member_step(alloc, text, from)? else {
        return Ok(path.split_once(".").unwrap_or((path, "")));
    };
    let length = path.len().saturating_sub(found.rest.len());
    let first = path.get(..length).unwrap_or(path);
    let name = if found.rest.is_empty() {
        first
    } else {
        first.strip_suffix(".").unwrap_or(first)
    };
    Ok((name, found.rest))
}

/// Follows a step to an element of an array.
fn item_step<'a>(
    alloc: Global,
    text: &[u8],
    from: Found<'a>,
) -> Result<Option<Found<'a>>, AllocError> {
    let (first, rest) = from.rest.split_once(".").unwrap_or((from.rest, ""));
    let Ok(position) = first.parse::<usize>() else {
        return Ok(None);
    };
    let item = items(alloc, text, from.value)?.get(position).copied();
    Ok(item.map(|value| Found {
        value,
        name: None,
        earlier: None,
        rest,
    }))
}

/// Returns the steps after the name of a property, if a path begins with it, and the length of the name and a dot.
fn rest_after<'a>(text: &[u8], member: Member, path: &'a str) -> Option<(usize, &'a str)> {
    let raw = bytes_in(text, between_quotes(text, member.name));
    let length = spelled_length(raw, path)?;
    let rest = path.get(length..)?;
    let next = length.saturating_add(1);
    if rest.is_empty() {
        Some((next, rest))
    } else {
        Some((next, rest.strip_prefix(".")?))
    }
}
