//! Why a text isn't JSON, and where.

use crate::positions::{is_space, skip_space};
use crate::span::{Span, byte_at, byte_span, bytes_in};
use crate::tokens::{number_fault, text_fault, word_span};
use std::alloc::{AllocError, Global};

/// How deep arrays and objects may be nested.
const MOST_OPEN: usize = 127;

/// Why a text isn't JSON.
#[derive(Clone, Copy, Debug, PartialEq, Eq)]
pub enum JsonFaultKind {
    /// The text ends too early.
    Ends,
    /// A comma before a closing bracket.
    TrailingComma,
    /// No comma between two parts.
    MissingComma,
    /// No colon after a property's name.
    MissingColon,
    /// No value where one is needed.
    MissingValue,
    /// A property's name without quotes.
    BareName,
    /// A comment.
    Comment,
    /// A text in single quotes.
    SingleQuotes,
    /// A word that is no value.
    Word,
    /// A number that JSON doesn't have.
    Number,
    /// A line break, or another control character, within a text.
    Control,
    /// A backslash that begins no escape.
    Escape,
    /// A text without its closing quote.
    OpenText,
    /// More after the end.
    AfterEnd,
    /// A bracket that closes another kind.
    WrongBracket,
    /// Too many brackets within one another.
    TooDeep,
    /// Bytes that aren't UTF-8.
    NotUtf8,
    /// A byte order mark.
    ByteOrderMark,
    /// The native syntax.
    NativeSyntax,
    /// Anything else.
    Other,
}

/// Where and why a text isn't JSON.
#[derive(Clone, Copy, Debug)]
pub struct JsonFault {
    /// Why.
    pub kind: JsonFaultKind,
    /// Where.
    pub span: Span,
    /// The innermost bracket that isn't closed there.
    pub open: Option<Span>,
}

/// What may come next in a text.
#[derive(Clone, Copy)]
enum Wanted {
    Value,
    FirstItem,
    FirstName,
    Name,
    Colon,
    Next,
}

/// What a step came to.
enum Step {
    On,
    Done,
    Fault(JsonFaultKind, Span),
}

/// A text while it is read.
#[derive(Drop)]
struct Scan<'a> {
    text: &'a [u8],
    at: usize,
    wanted: Wanted,
    /// The positions of the brackets that are open.
    open: Vec<usize>,
    /// The position of the last comma.
    comma: usize,
}

/// Finds where and why a text isn't JSON. Returns nothing if it finds nothing; a number may still be too large.
///
/// # Errors
///
/// Fails only if memory runs out.
pub fn json_fault(alloc: Global, text: &[u8]) -> Result<Option<JsonFault>, AllocError> {
    if text.starts_with(b"\xEF\xBB\xBF") {
        return Ok(Some(alone(JsonFaultKind::ByteOrderMark, 0, 3)));
    }
    if let Err(error) = str::from_utf8(text) {
        let at = error.valid_up_to();
        return Ok(Some(alone(JsonFaultKind::NotUtf8, at, at.saturating_add(1))));
    }
    let mut scan = Scan {
        text,
        at: 0,
        wanted: Wanted::Value,
        open: Vec::new(alloc),
        comma: 0,
    };
    scan.fault_in()
}

/// Returns a fault outside all brackets.
fn alone(kind: JsonFaultKind, start: usize, end: usize) -> JsonFault {
    JsonFault {
        kind,
        span: Span { start, end },
        open: None,
    }
}

impl Scan<'_> {
    /// Reads the text up to its first fault.
    fn fault_in(&mut self) -> Result<Option<JsonFault>, AllocError> {
        for _ in 0..self.text.len().saturating_add(1) {
            match self.step()? {
                Step::On => {}
                Step::Done => return Ok(None),
                Step::Fault(kind, span) => {
                    let open = self.innermost();
                    return Ok(Some(JsonFault { kind, span, open }));
                }
            }
        }
        Ok(None)
    }

    /// Returns the innermost bracket that is open.
    fn innermost(&self) -> Option<Span> {
        let start = self.open.last().copied()?;
        Some(byte_span(start))
    }

    /// Returns whether the innermost bracket is an object's.
    fn is_in_object(&self) -> bool {
        match self.open.last() {
            Some(at) => byte_at(self.text, *at) == b'{',
            None => false,
        }
    }

    /// Returns a fault at the byte at which the scan is.
    fn fault(&self, kind: JsonFaultKind) -> Step {
        Step::Fault(kind, byte_span(self.at))
    }

    /// Returns the fault of the last comma.
    fn trailing_comma(&self) -> Step {
        Step::Fault(JsonFaultKind::TrailingComma, byte_span(self.comma))
    }

    /// Goes to a position, after which something is wanted.
    fn go(&mut self, at: usize, wanted: Wanted) -> Step {
        self.at = at;
        self.wanted = wanted;
        Step::On
    }

    /// Reads the next token.
    fn step(&mut self) -> Result<Step, AllocError> {
        self.at = skip_space(self.text, self.at);
        if self.at >= self.text.len() {
            return Ok(self.end());
        }
        let byte = byte_at(self.text, self.at);
        match self.wanted {
            Wanted::Value => self.value(byte),
            Wanted::FirstItem if byte == b']' => Ok(self.close()),
            Wanted::FirstItem => self.value(byte),
            Wanted::FirstName if byte == b'}' => Ok(self.close()),
            Wanted::FirstName | Wanted::Name => Ok(self.name(byte)),
            Wanted::Colon => Ok(self.colon(byte)),
            Wanted::Next => Ok(self.next(byte)),
        }
    }

    /// Ends at the end of the text.
    fn end(&self) -> Step {
        match self.wanted {
            Wanted::Next if self.open.is_empty() => Step::Done,
            _ => self.fault(JsonFaultKind::Ends),
        }
    }

    /// Reads a value, or the bracket that begins one.
    fn value(&mut self, byte: u8) -> Result<Step, AllocError> {
        match byte {
            b'{' | b'[' if self.open.len() >= MOST_OPEN => {
                Ok(self.fault(JsonFaultKind::TooDeep))
            }
            b'{' => self.begin(Wanted::FirstName),
            b'[' => self.begin(Wanted::FirstItem),
            b'"' => Ok(self.quoted(Wanted::Next)),
            b'-' | b'0'..=b'9' | b'+' | b'.' => Ok(self.number()),
            b']' | b'}' if byte_at(self.text, self.comma) == b',' && self.is_after_comma() => {
                Ok(self.trailing_comma())
            }
            b']' | b'}' | b',' | b':' => Ok(self.fault(JsonFaultKind::MissingValue)),
            _ => Ok(self.word(byte)),
        }
    }

    /// Returns whether nothing but space is between the last comma and this position.
    fn is_after_comma(&self) -> bool {
        skip_space(self.text, self.comma.saturating_add(1)) == self.at
    }

    /// Begins an object or an array.
    fn begin(&mut self, wanted: Wanted) -> Result<Step, AllocError> {
        self.open.push(self.at)?;
        let next = self.at.saturating_add(1);
        Ok(self.go(next, wanted))
    }

    /// Ends an object or an array.
    fn close(&mut self) -> Step {
        self.open.pop();
        let next = self.at.saturating_add(1);
        self.go(next, Wanted::Next)
    }

    /// Reads a text.
    fn quoted(&mut self, wanted: Wanted) -> Step {
        match text_fault(self.text, self.at) {
            Ok(end) => self.go(end, wanted),
            Err((kind, span)) => Step::Fault(kind, span),
        }
    }

    /// Reads a number.
    fn number(&mut self) -> Step {
        let span = word_span(self.text, self.at);
        if number_fault(bytes_in(self.text, span)) {
            return Step::Fault(JsonFaultKind::Number, span);
        }
        self.go(span.end, Wanted::Next)
    }

    /// Reads a word.
    fn word(&mut self, byte: u8) -> Step {
        let span = word_span(self.text, self.at);
        match bytes_in(self.text, span) {
            b"true" | b"false" | b"null" => self.go(span.end, Wanted::Next),
            _ => {
                let is_first = self.open.is_empty();
                Step::Fault(word_kind(byte, is_first), span)
            }
        }
    }

    /// Reads a property's name.
    fn name(&mut self, byte: u8) -> Step {
        match byte {
            b'"' => self.quoted(Wanted::Colon),
            b'}' => self.trailing_comma(),
            b',' | b':' | b'{' | b'[' | b']' => self.fault(JsonFaultKind::Other),
            _ => {
                let span = word_span(self.text, self.at);
                Step::Fault(name_kind(byte), span)
            }
        }
    }

    /// Reads the colon after a name.
    fn colon(&mut self, byte: u8) -> Step {
        if byte != b':' {
            return self.fault(JsonFaultKind::MissingColon);
        }
        let next = self.at.saturating_add(1);
        self.go(next, Wanted::Value)
    }

    /// Reads what follows a value.
    fn next(&mut self, byte: u8) -> Step {
        if self.open.is_empty() {
            return self.fault(JsonFaultKind::AfterEnd);
        }
        let is_in_object = self.is_in_object();
        match byte {
            b',' => {
                self.comma = self.at;
                let next = self.at.saturating_add(1);
                self.go(
                    next,
                    if is_in_object {
                        Wanted::Name
                    } else {
                        Wanted::Value
                    },
                )
            }
            b'}' if is_in_object => self.close(),
            b']' if !is_in_object => self.close(),
            b'}' | b']' => self.fault(JsonFaultKind::WrongBracket),
            b'/' | b'#' => self.fault(JsonFaultKind::Comment),
            b'=' | b':' => self.fault(JsonFaultKind::Other),
            _ => self.fault(JsonFaultKind::MissingComma),
        }
    }
}

/// Returns why a word that begins with a byte is no value.
fn word_kind(byte: u8, is_first: bool) -> JsonFaultKind {
    match byte {
        b'\'' => JsonFaultKind::SingleQuotes,
        b'/' => JsonFaultKind::Comment,
        b'#' if !is_first => JsonFaultKind::Comment,
        _ if is_first => JsonFaultKind::NativeSyntax,
        _ => JsonFaultKind::Word,
    }
}

/// Returns why a word that begins with a byte is no property's name.
fn name_kind(byte: u8) -> JsonFaultKind {
    match byte {
        b'\'' => JsonFaultKind::SingleQuotes,
        b'/' | b'#' => JsonFaultKind::Comment,
        _ => JsonFaultKind::BareName,
    }
}

/// Returns whether a byte ends a word.
pub(crate) fn ends_word(byte: u8) -> bool {
    is_space(byte) || matches!(byte, b',' | b':' | b'"' | b'{' | b'}' | b'[' | b']')
}
