//! Ranges of bytes of a text.

/// A range of bytes of a text.
#[derive(Clone, Copy, Debug, PartialEq, Eq)]
pub struct Span {
    /// The first byte.
    pub start: usize,
    /// The byte after the last one.
    pub end: usize,
}

/// Returns the bytes of a text in a range, or nothing if the range isn't in the text.
pub(crate) fn bytes_in(text: &[u8], span: Span) -> &[u8] {
    text.get(span.start..span.end).unwrap_or(b"")
}

/// Returns the bytes between the quotes of a JSON text, whose range includes the quotes. The last quote may be missing.
pub(crate) fn between_quotes(text: &[u8], span: Span) -> Span {
    let start = span.start.saturating_add(1).min(span.end);
    let last = span.end.saturating_sub(1);
    let is_closed = last >= start && byte_at(text, last) == b'"';
    Span {
        start,
        end: if is_closed { last } else { span.end },
    }
}

/// Returns the first byte of a range.
pub(crate) fn first_byte(span: Span) -> Span {
    byte_span(span.start)
}

/// Returns the range of the byte at a position.
pub(crate) fn byte_span(at: usize) -> Span {
    Span {
        start: at,
        end: at.saturating_add(1),
    }
}

/// Returns the byte at a position, or 0 after the end of the text.
pub(crate) fn byte_at(text: &[u8], at: usize) -> u8 {
    text.get(at).copied().unwrap_or(0)
}

/// Returns whether a byte may be in a name.
pub(crate) fn is_name_byte(byte: u8) -> bool {
    byte.is_ascii_alphanumeric() || byte == b'_' || byte == b'-'
}

/// Returns the first place, within a range of a text, at which a word is and no longer name is.
pub(crate) fn find_word(text: &[u8], within: Span, word: &str) -> Option<Span> {
    for start in within.start..within.end {
        let end = start.saturating_add(word.len());
        let found = Span { start, end };
        if end <= within.end && bytes_in(text, found) == word.as_bytes() && is_alone(text, found) {
            return Some(found);
        }
    }
    None
}

/// Returns whether no name continues before or after a range.
fn is_alone(text: &[u8], span: Span) -> bool {
    let before = if span.start == 0 {
        0
    } else {
        byte_at(text, span.start.saturating_sub(1))
    };
    !is_name_byte(before) && before != b'.' && !is_name_byte(byte_at(text, span.end))
}

/// Returns the first place, within a range of a text, at which these bytes are.
pub(crate) fn find_bytes(text: &[u8], within: Span, wanted: &str) -> Option<Span> {
    for start in within.start..within.end {
        let end = start.saturating_add(wanted.len());
        let found = Span { start, end };
        if end <= within.end && bytes_in(text, found) == wanted.as_bytes() {
            return Some(found);
        }
    }
    None
}

/// Returns whether a text of JSON is in a range, and begins no interpolation and no directive.
pub(crate) fn is_literal(text: &[u8], span: Span) -> bool {
    byte_at(text, span.start) == b'"'
        && find_bytes(text, span, "${").is_none()
        && find_bytes(text, span, "%{").is_none()
}
