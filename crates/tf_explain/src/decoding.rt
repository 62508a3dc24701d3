//! The texts of a JSON file, decoded.

ghost use Rattle.std.specs.Prelude.{◌<◌, IfSome};

use crate::span::{Span, between_quotes, byte_at, bytes_in};
use bstr::decode_lossy;
use std::alloc::{AllocError, Global};

/// Returns the text that is spelled between the quotes of a JSON text. What isn't valid is U+FFFD.
///
/// # Errors
///
/// Fails only if memory runs out.
pub(crate) fn decoded(alloc: Global, raw: &[u8]) -> Result<String, AllocError> {
    let mut text = String::new(alloc);
    let mut at = 0usize;
    for _ in 0..raw.len() {
        let rest = raw.get(at..).unwrap_or(b"");
        if rest.is_empty() {
            break;
        }
        let (character, size) = next_char(rest);
        text.push(character)?;
        at = at.saturating_add(size);
    }
    Ok(text)
}

/// Returns the text of the JSON text in a range, whose quotes are in the range.
///
/// # Errors
///
/// Fails only if memory runs out.
pub(crate) fn text_in(alloc: Global, text: &[u8], span: Span) -> Result<String, AllocError> {
    decoded(alloc, bytes_in(text, between_quotes(text, span)))
}

/// Returns whether the JSON text in a range, whose quotes are in the range, spells a text.
pub(crate) fn is_text(text: &[u8], span: Span, wanted: &str) -> bool {
    spelled_length(bytes_in(text, between_quotes(text, span)), wanted) == Some(wanted.len())
}

/// Returns the length of the text that is spelled between quotes, if another text begins with it.
pub(crate) fn spelled_length(raw: &[u8], text: &str) -> Option<usize> {
    let mut at = 0usize;
    let mut length = 0usize;
    for character in text.chars() {
        let rest = raw.get(at..).unwrap_or(b"");
        if rest.is_empty() {
            return Some(length);
        }
        let (spelled, size) = next_char(rest);
        if spelled != character {
            return None;
        }
        length = length.saturating_add(character.len_utf8());
        at = at.saturating_add(size);
    }
    if at < raw.len() { None } else { Some(length) }
}

/// Returns the position, in the spelling of a text, of the character at a byte offset of the decoded text.
pub(crate) fn spelled_at(raw: &[u8], offset: usize) -> usize {
    let mut at = 0usize;
    let mut passed = 0usize;
    for _ in 0..raw.len() {
        let rest = raw.get(at..).unwrap_or(b"");
        if passed >= offset || rest.is_empty() {
            break;
        }
        let (character, size) = next_char(rest);
        passed = passed.saturating_add(character.len_utf8());
        at = at.saturating_add(size);
    }
    at
}

/// Returns the first character that is spelled, and how many bytes spell it.
fn next_char(raw: &[u8]) -> (char, usize) {
    if byte_at(raw, 0) != b'\\' {
        let (character, size) = decode_lossy(raw);
        return (character, size.max(1));
    }
    match byte_at(raw, 1) {
        b'n' => ('\n', 2),
        b'r' => ('\r', 2),
        b't' => ('\t', 2),
        b'b' => ('\u{8}', 2),
        b'f' => ('\u{c}', 2),
        b'"' => ('"', 2),
        b'\\' => ('\\', 2),
        b'/' => ('/', 2),
        b'u' => unicode_escape(raw),
        _ => ('\u{FFFD}', 1),
    }
}

/// Returns the character of an escape `\uXXXX`, or of two of them that spell one character.
fn unicode_escape(raw: &[u8]) -> (char, usize) {
    let Some(first) = four_digits(raw, 2) else {
        return ('\u{FFFD}', 2);
    };
    if first < 0xD800 || first > 0xDFFF {
        return (char::from_u32(first).unwrap_or('\u{FFFD}'), 6);
    }
    if byte_at(raw, 6) != b'\\' || byte_at(raw, 7) != b'u' {
        return ('\u{FFFD}', 6);
    }
    match four_digits(raw, 8) {
        Some(second) if first < 0xDC00 && second >= 0xDC00 && second <= 0xDFFF => {
            let code = 0x10000 + (first - 0xD800) * 0x400 + (second - 0xDC00);
            (char::from_u32(code).unwrap_or('\u{FFFD}'), 12)
        }
        _ => ('\u{FFFD}', 6),
    }
}

/// Returns the number that four hexadecimal digits spell.
pub(crate) fn four_digits(raw: &[u8], from: usize) -> Option<u32>
    ensures { IfSome result (λ n. n < 65536) }
{
    let first = digit_at(raw, from)?;
    let second = digit_at(raw, from.saturating_add(1))?;
    let third = digit_at(raw, from.saturating_add(2))?;
    let fourth = digit_at(raw, from.saturating_add(3))?;
    Some(((first * 16 + second) * 16 + third) * 16 + fourth)
}

/// Returns the value of a hexadecimal digit.
fn digit_at(raw: &[u8], at: usize) -> Option<u32>
    ensures { IfSome result (λ n. n < 16) }
{
    let byte = byte_at(raw, at);
    match byte {
        b'0'..=b'9' => Some((byte - b'0') as u32),
        b'a'..=b'f' => Some((byte - b'a') as u32 + 10),
        b'A'..=b'F' => Some((byte - b'A') as u32 + 10),
        _ => None,
    }
}
