//! The lines that programs print for refusals and diagnostics.

use crate::span::byte_at;

/// The first code of a diagnostic.
const FIRST_DIAGNOSTIC: u8 = 21;

/// A line of a refusal or a diagnostic.
#[derive(Clone, Copy)]
pub struct ErrorLine<'a> {
    /// The number after `error`.
    pub code: u8,
    /// The place of a refusal, or the address or output of a diagnostic.
    pub place: &'a str,
    /// The name and the detail of a refusal, or the message of a diagnostic.
    pub message: &'a str,
}

/// Reads a line without its end, if it is `error CODE at PLACE: NAME(DETAIL)`, `error CODE at ADDRESS VERB: MESSAGE` or
/// `error CODE at output.NAME: MESSAGE`.
pub fn read_line(line: &str) -> Option<ErrorLine<'_>> {
    let rest = line.strip_prefix("error ")?;
    let (number, rest) = rest.split_once(" at ")?;
    let Ok(code) = number.parse::<u8>() else {
        return None;
    };
    if code < FIRST_DIAGNOSTIC {
        let (place, message) = rest.rsplit_once(": ")?;
        return Some(ErrorLine {
            code,
            place,
            message,
        });
    }
    let (place, message) = split_outside_quotes(rest)?;
    Some(ErrorLine {
        code,
        place: without_verb(place),
        message,
    })
}

/// Splits a text at the first colon and space that are not within quotes. An address has a key in quotes.
fn split_outside_quotes(text: &str) -> Option<(&str, &str)> {
    let bytes = text.as_bytes();
    let mut is_quoted = false;
    let mut is_escaped = false;
    for (at, byte) in bytes.iter().enumerate() {
        if !is_quoted && *byte == b':' && byte_at(bytes, at.saturating_add(1)) == b' ' {
            let before = text.get(..at)?;
            let after = text.get(at.saturating_add(2)..)?;
            return Some((before, after));
        }
        if *byte == b'"' && !is_escaped {
            is_quoted = !is_quoted;
        }
        is_escaped = is_quoted && !is_escaped && *byte == b'\\';
    }
    None
}

/// Returns an address without the verb after it.
fn without_verb(place: &str) -> &str {
    for verb in [" create", " update", " destroy"] {
        if let Some(address) = place.strip_suffix(verb) {
            return address;
        }
    }
    place
}

/// Returns the detail of a refusal: what is in the parentheses after its name.
pub fn detail_of(message: &str) -> Option<&str> {
    let (_, rest) = message.split_once("(")?;
    rest.strip_suffix(")")
}
