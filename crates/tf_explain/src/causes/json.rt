//! Why a file isn't JSON.

use crate::json_fault::{JsonFault, JsonFaultKind, json_fault};
use crate::page::Page;
use crate::positions::is_space;
use crate::sources::SourceFile;
use crate::span::{byte_at, byte_span};
use serde_json::Value;
use std::alloc::{AllocError, Global};

/// What is said of a file that isn't JSON.
#[derive(Clone, Copy)]
pub(crate) struct Expected {
    /// What is said of a file in another syntax.
    pub(crate) native: &'static str,
    /// What is said of an empty file.
    pub(crate) empty: &'static str,
}

/// Explains why a file isn't JSON. Explains nothing if it is.
///
/// # Errors
///
/// Fails only if memory runs out.
pub(crate) fn explain_json(
    page: &mut Page,
    file: SourceFile<'_>,
    expected: Expected,
) -> Result<(), AllocError> {
    match json_fault(page.alloc, file.bytes)? {
        Some(fault) if fault.kind == JsonFaultKind::Ends => {
            explain_end(page, file, fault, expected)
        }
        Some(fault) => {
            page.show(file, fault.span)?;
            page.say(&[sentence(fault.kind)])?;
            if fault.kind == JsonFaultKind::NativeSyntax {
                return page.say(&[expected.native]);
            }
            Ok(())
        }
        None => explain_number(page, file),
    }
}

/// Explains that a file ends too early.
fn explain_end(
    page: &mut Page,
    file: SourceFile<'_>,
    fault: JsonFault,
    expected: Expected,
) -> Result<(), AllocError> {
    let end = end_of(file.bytes);
    if end == 0 {
        page.say(&["The file ", file.name, " is empty."])?;
        return page.say(&[expected.empty]);
    }
    page.show(file, byte_span(end))?;
    page.say(&[sentence(JsonFaultKind::Ends)])?;
    match fault.open {
        Some(open) => {
            page.show(file, open)?;
            page.say(&["This bracket isn't closed."])
        }
        None => Ok(()),
    }
}

/// Returns the position after the last byte that isn't space.
fn end_of(text: &[u8]) -> usize {
    let mut end = 0usize;
    for (at, byte) in text.iter().enumerate() {
        if !is_space(*byte) {
            end = at.saturating_add(1);
        }
    }
    end
}

/// Explains what `serde_json` refuses in a file whose tokens are JSON: a number that is too large.
fn explain_number(page: &mut Page, file: SourceFile<'_>) -> Result<(), AllocError> {
    let Some(at) = refused_at(page.alloc, file.bytes)? else {
        return Ok(());
    };
    page.show(file, byte_span(at))?;
    let is_number = byte_at(file.bytes, at).is_ascii_digit();
    page.say(&[if is_number {
        "A number that ends here is too large."
    } else {
        sentence(JsonFaultKind::Other)
    }])
}

/// Returns where `serde_json` refuses a text, if it does.
fn refused_at(alloc: Global, text: &[u8]) -> Result<Option<usize>, AllocError> {
    match Value::from_slice(alloc, text) {
        Ok(_) => Ok(None),
        Err(error) if error.is_memory() => Err(AllocError),
        Err(error) => Ok(Some(position_of(text, error.line(), error.column()))),
    }
}

/// Returns the position of a line and a column, which are counted from 1. Columns count bytes.
fn position_of(text: &[u8], line: usize, column: usize) -> usize {
    let mut number = 1usize;
    let mut start = 0usize;
    for (at, byte) in text.iter().enumerate() {
        if number >= line {
            break;
        }
        if *byte == b'\n' {
            number = number.saturating_add(1);
            start = at.saturating_add(1);
        }
    }
    start.saturating_add(column.saturating_sub(2))
}

/// Returns the sentence on a fault.
fn sentence(kind: JsonFaultKind) -> &'static str {
    match kind {
        JsonFaultKind::Ends => "The file ends here, before its JSON is complete.",
        JsonFaultKind::TrailingComma =>
            "This comma has nothing after it. JSON allows no comma after the last part: remove it.",
        JsonFaultKind::MissingComma => "A comma is missing before this.",
        JsonFaultKind::MissingColon => "A colon is missing before this, after the name.",
        JsonFaultKind::MissingValue => "A value is missing here.",
        JsonFaultKind::BareName => "The name of a property is written in double quotes.",
        JsonFaultKind::Comment =>
            "JSON has no comments. Write a property \"//\" with a text instead.",
        JsonFaultKind::SingleQuotes => "JSON writes texts in double quotes.",
        JsonFaultKind::Word =>
            "This isn't a value of JSON: a text in double quotes, a number, true, false, null, an array or an object.",
        JsonFaultKind::Number => "JSON has no number of this form.",
        JsonFaultKind::Control =>
            "This text isn't closed on its line. A closing quote is missing, or a line break or tab is to be written \\n or \\t.",
        JsonFaultKind::Escape =>
            "A backslash begins no escape of JSON here. Write \\\\ for a backslash.",
        JsonFaultKind::OpenText => "The closing quote of this text is missing.",
        JsonFaultKind::AfterEnd => "The JSON text has ended before this. Remove what follows it.",
        JsonFaultKind::WrongBracket =>
            "This bracket closes another kind than the one that is open.",
        JsonFaultKind::TooDeep =>
            "Arrays and objects may be nested 127 deep, and this is one more.",
        JsonFaultKind::NotUtf8 => "These bytes aren't UTF-8. Save the file as UTF-8.",
        JsonFaultKind::ByteOrderMark =>
            "The file begins with a byte order mark. Save it as UTF-8 without one.",
        JsonFaultKind::NativeSyntax => "This isn't JSON.",
        JsonFaultKind::Other => "JSON doesn't allow this here.",
    }
}
