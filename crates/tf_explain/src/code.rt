//! Places in the expressions of a template, as JSON spells it.

use crate::positions::{is_space, skip_space};
use crate::span::{Span, byte_at, bytes_in, is_name_byte};

/// Returns where a part of an expression is, such as a name, in the expressions of a template. The template is a JSON text, whose
/// quotes are in the range. Only parts at a position or after it count, and of these the given number of first ones is skipped.
pub(crate) fn find_in_code(
    text: &[u8],
    template: Span,
    from: usize,
    part: &str,
    skipped: usize,
) -> Option<Span> {
    let mut left = skipped;
    let mut reader = Reader::new(template);
    for _ in template.start..template.end {
        let span = reader.span(part.len());
        if span.end > template.end {
            return None;
        }
        if reader.is_in_code() && span.start >= from && is_whole(text, span, part) {
            if left == 0 {
                return Some(span);
            }
            left -= 1;
        }
        reader = reader.next(text);
    }
    None
}

/// Returns where a list is in the expressions of a template, behind the given number of earlier ones.
pub(crate) fn list_in_code(text: &[u8], template: Span, skipped: usize) -> Option<Span> {
    let mut left = skipped;
    let mut before = 0u8;
    let mut reader = Reader::new(template);
    for _ in template.start..template.end {
        let byte = byte_at(text, reader.at);
        let may_be_index = is_name_byte(before) || before == b')' || before == b']';
        if reader.is_in_code() && byte == b'[' && !may_be_index {
            if left == 0 {
                return Some(Span {
                    start: reader.at,
                    end: bracket_end(text, template, reader),
                });
            }
            left = left.saturating_sub(1);
        }
        if !is_space(byte) {
            before = byte;
        }
        reader = reader.next(text);
    }
    None
}

/// Returns where the expression of an interpolation is, behind the given number of earlier ones in a template.
pub(crate) fn interpolation(text: &[u8], template: Span, skipped: usize) -> Option<Span> {
    let mut left = skipped;
    let mut start = None;
    let mut reader = Reader::new(template);
    for _ in template.start..template.end {
        let next = reader.next(text);
        if next.at > template.end {
            return None;
        }
        if reader.open == 0 && next.open == 1 {
            start = Some(next.at);
        }
        if reader.open == 1 && next.open == 0 {
            if left == 0 {
                return Some(trimmed(
                    text,
                    Span {
                        start: start?,
                        end: reader.at,
                    },
                ));
            }
            left = left.saturating_sub(1);
        }
        reader = next;
    }
    None
}

/// Returns a range without the space at its ends.
fn trimmed(text: &[u8], span: Span) -> Span {
    let mut end = span.start;
    for at in span.start..span.end {
        if !is_space(byte_at(text, at)) {
            end = at.saturating_add(1);
        }
    }
    let start = skip_space(text, span.start).min(end);
    Span { start, end }
}

/// Returns the position after the parenthesis that closes the first one from a position in the expressions of a template on.
pub(crate) fn closing(text: &[u8], template: Span, from: usize) -> usize {
    let mut depth = 0usize;
    let mut level = 0usize;
    let mut reader = Reader::new(template);
    for _ in template.start..template.end {
        let byte = byte_at(text, reader.at);
        let is_counted = reader.at >= from && (depth == 0 || reader.open == level);
        if is_counted && reader.is_in_code() && byte == b'(' {
            level = reader.open;
            depth = depth.saturating_add(1);
        }
        if is_counted && reader.is_in_code() && byte == b')' {
            depth = depth.saturating_sub(1);
            if depth == 0 {
                return reader.at.saturating_add(1).min(template.end);
            }
        }
        reader = reader.next(text);
    }
    from
}

/// Returns the position after the bracket that closes the one at a position.
fn bracket_end(text: &[u8], template: Span, first: Reader) -> usize {
    let mut depth = 0usize;
    let mut reader = first;
    for _ in first.at..template.end {
        if reader.open == first.open && byte_at(text, reader.at) == b'[' {
            depth = depth.saturating_add(1);
        }
        if reader.open == first.open && byte_at(text, reader.at) == b']' {
            depth = depth.saturating_sub(1);
            if depth == 0 {
                return reader.at.saturating_add(1);
            }
        }
        reader = reader.next(text);
    }
    template.end
}

/// Returns where the quote is that opens the last text in the expressions of a template, if that text isn't closed.
pub(crate) fn open_quote(text: &[u8], template: Span) -> Option<Span> {
    let mut end = Reader::new(template);
    for _ in template.start..template.end {
        if end.at < template.end {
            end = end.next(text);
        }
    }
    if end.is_in_code() {
        return None;
    }
    let mut quote = None;
    let mut reader = Reader::new(template);
    for _ in template.start..template.end {
        let next = reader.next(text);
        if next.at <= template.end && next.open == end.open && reader.open < next.open {
            quote = Some(Span {
                start: reader.at,
                end: next.at,
            });
        }
        reader = next;
    }
    quote
}

/// Returns whether these bytes are in a range, and no name continues before or after them.
fn is_whole(text: &[u8], span: Span, part: &str) -> bool {
    if bytes_in(text, span) != part.as_bytes() {
        return false;
    }
    let before = byte_at(text, span.start.saturating_sub(1));
    let last = byte_at(text, span.end.saturating_sub(1));
    let is_begun = is_name_byte(before) || before == b'.';
    let begins = !is_name_byte(byte_at(text, span.start)) || !is_begun;
    let ends = !is_name_byte(last) || !is_name_byte(byte_at(text, span.end));
    begins && ends
}

/// A position in a template, and how many `${` and quotes are open there: an odd number in an expression.
#[derive(Clone, Copy)]
struct Reader {
    at: usize,
    open: usize,
}

impl Reader {
    /// Returns the beginning of a template.
    fn new(template: Span) -> Reader {
        Reader {
            at: template.start,
            open: 0,
        }
    }

    /// Returns whether the position is in an expression.
    fn is_in_code(self) -> bool {
        self.open % 2 == 1
    }

    /// Returns the range of this length that begins at the position.
    fn span(self, length: usize) -> Span {
        Span {
            start: self.at,
            end: self.at.saturating_add(length),
        }
    }

    /// Returns the next position.
    fn next(self, text: &[u8]) -> Reader {
        let pair = (
            byte_at(text, self.at),
            byte_at(text, self.at.saturating_add(1)),
        );
        if self.is_in_code() {
            return match pair {
                (b'}', _) => self.close(1),
                (b'\\', b'"') => self.open(),
                _ => self.pass(1),
            };
        }
        match pair {
            (b'$', b'$') | (b'%', b'%') => self.pass_escape(text),
            (b'$', b'{') | (b'%', b'{') => self.open(),
            (b'\\', b'"') if self.open > 0 => self.close(2),
            (b'\\', b'\\') if self.open > 0 => self.pass_spelled(text),
            (b'\\', _) => self.pass(2),
            _ => self.pass(1),
        }
    }

    /// Passes the two bytes that open an expression or a text in it.
    fn open(self) -> Reader {
        Reader {
            at: self.at.saturating_add(2),
            open: self.open.saturating_add(1),
        }
    }

    /// Passes the bytes that close an expression or a text in it.
    fn close(self, length: usize) -> Reader {
        Reader {
            at: self.at.saturating_add(length),
            open: self.open.saturating_sub(1),
        }
    }

    /// Passes a number of bytes.
    fn pass(self, length: usize) -> Reader {
        Reader {
            at: self.at.saturating_add(length),
            open: self.open,
        }
    }

    /// Passes `$${` or `%%{`, which open nothing, or else one byte.
    fn pass_escape(self, text: &[u8]) -> Reader {
        let third = byte_at(text, self.at.saturating_add(2));
        self.pass(if third == b'{' { 3 } else { 1 })
    }

    /// Passes a backslash in a text of an expression, and the character that it escapes.
    fn pass_spelled(self, text: &[u8]) -> Reader {
        let third = byte_at(text, self.at.saturating_add(2));
        self.pass(if third == b'\\' { 4 } else { 3 })
    }
}
