//! The texts and numbers of JSON, token by token.

use crate::decoding::four_digits;
use crate::json_fault::{JsonFaultKind, ends_word};
use crate::positions::string_end;
use crate::span::{Span, byte_at};

/// Returns the range of the word that begins at a position: at least one byte.
pub(crate) fn word_span(text: &[u8], start: usize) -> Span {
    let first = start.saturating_add(1);
    for at in first..text.len() {
        if ends_word(text[at]) {
            return Span { start, end: at };
        }
    }
    Span {
        start,
        end: text.len().max(first),
    }
}

/// Returns the position after the text whose opening quote is at a position, or why it is no text.
pub(crate) fn text_fault(text: &[u8], quote: usize) -> Result<usize, (JsonFaultKind, Span)> {
    let end = string_end(text, quote);
    let mut is_escaped = false;
    for at in quote.saturating_add(1)..end {
        let byte = byte_at(text, at);
        if byte < 32 {
            let span = Span {
                start: quote,
                end: at,
            };
            return Err((JsonFaultKind::Control, span));
        }
        if is_escaped && !is_escape(text, at) {
            let start = at.saturating_sub(1);
            let end = at.saturating_add(1);
            return Err((JsonFaultKind::Escape, Span { start, end }));
        }
        is_escaped = !is_escaped && byte == b'\\';
    }
    if is_escaped || end < quote.saturating_add(2) || byte_at(text, end.saturating_sub(1)) != b'"' {
        return Err((JsonFaultKind::OpenText, Span { start: quote, end }));
    }
    Ok(end)
}

/// Returns whether an escape is complete, from the byte after its backslash.
fn is_escape(text: &[u8], at: usize) -> bool {
    match byte_at(text, at) {
        b'"' | b'\\' | b'/' | b'b' | b'f' | b'n' | b'r' | b't' => true,
        b'u' => is_unicode_escape(text, at),
        _ => false,
    }
}

/// Returns whether an escape `\uXXXX` is complete, from its `u` on. A surrogate needs the other half of its pair.
fn is_unicode_escape(text: &[u8], at: usize) -> bool {
    match four_digits(text, at.saturating_add(1)) {
        None => false,
        Some(0xD800..=0xDBFF) => is_surrogate(text, at.saturating_add(5), 0xDC00),
        Some(0xDC00..=0xDFFF) => at >= 7 && is_surrogate(text, at.saturating_sub(7), 0xD800),
        Some(_) => true,
    }
}

/// Returns whether an escape of a surrogate begins at a position: one of the 1,024 from the first one on.
fn is_surrogate(text: &[u8], from: usize, first: u32) -> bool {
    if byte_at(text, from) != b'\\' || byte_at(text, from.saturating_add(1)) != b'u' {
        return false;
    }
    match four_digits(text, from.saturating_add(2)) {
        Some(code) => code >= first && code.saturating_sub(first) < 0x400,
        None => false,
    }
}

/// Returns whether a word isn't a number of JSON.
pub(crate) fn number_fault(word: &[u8]) -> bool {
    let start = if byte_at(word, 0) == b'-' { 1 } else { 0 };
    let whole = digits_end(word, start);
    if whole == start || (byte_at(word, start) == b'0' && whole > start.saturating_add(1)) {
        return true;
    }
    let mut end = whole;
    if byte_at(word, end) == b'.' {
        let first = end.saturating_add(1);
        end = digits_end(word, first);
        if end == first {
            return true;
        }
    }
    exponent_fault(word, end)
}

/// Returns whether what follows the digits of a number is neither nothing nor an exponent.
fn exponent_fault(word: &[u8], from: usize) -> bool {
    if !matches!(byte_at(word, from), b'e' | b'E') {
        return from < word.len();
    }
    let mut first = from.saturating_add(1);
    if matches!(byte_at(word, first), b'+' | b'-') {
        first = first.saturating_add(1);
    }
    let end = digits_end(word, first);
    end == first || end < word.len()
}

/// Returns the position after the digits from a position on.
fn digits_end(word: &[u8], from: usize) -> usize {
    for at in from..word.len() {
        if !word[at].is_ascii_digit() {
            return at;
        }
    }
    from.max(word.len())
}
