//! Excerpts of files: the line of a place, and a mark under the place.

use crate::shown::{push_char, push_shown};
use crate::sources::SourceFile;
use crate::span::{Span, bytes_in};
use bstr::decode_lossy;
use std::alloc::{AllocError, Global};

/// The most characters of a line that are shown.
const MOST_SHOWN: usize = 160;

/// How many characters before a place are shown of a longer line.
const SHOWN_BEFORE: usize = 60;

/// A line of a file.
#[derive(Clone, Copy)]
struct Line {
    /// Its number, from 1.
    number: usize,
    /// Its bytes, without the end of the line.
    span: Span,
}

/// A line as it is shown, and the marks under it.
#[derive(Drop)]
struct Window {
    shown: String,
    marks: String,
}

/// Appends where a place is, its line, and marks under the place.
///
/// # Errors
///
/// Fails only if memory runs out.
pub(crate) fn push_excerpt(
    alloc: Global,
    out: &mut String,
    file: SourceFile<'_>,
    span: Span,
) -> Result<(), AllocError> {
    let line = line_at(file.bytes, span.start);
    let before = char_count(file.bytes, line.span.start, span.start);
    push_place(out, file.name, line.number, before.saturating_add(1))?;
    let mut window = Window {
        shown: String::new(alloc),
        marks: String::new(alloc),
    };
    push_line(out, &mut window, file.bytes, line, span, before)
}

/// Appends the file, the line and the column of a place.
fn push_place(
    out: &mut String,
    name: &str,
    number: usize,
    column: usize,
) -> Result<(), AllocError> {
    out.push_str("  on ")?;
    push_shown(out, name)?;
    write!(out, " line {number}, column {column}:\n")
}

/// Appends a line, and marks under a place in it. Before the place there is the given number of characters.
fn push_line(
    out: &mut String,
    window: &mut Window,
    text: &[u8],
    line: Line,
    place: Span,
    before: usize,
) -> Result<(), AllocError> {
    fill(window, text, line.span, place, before)?;
    let number = line.number;
    let shown = window.shown.as_str();
    let marks = window.marks.as_str();
    write!(out, "{number:>6}: {shown}\n        {marks}\n")
}

/// Returns the line of a position.
fn line_at(text: &[u8], at: usize) -> Line {
    let mut number = 1usize;
    let mut start = 0usize;
    for position in 0..at.min(text.len()) {
        if text[position] == b'\n' {
            number = number.saturating_add(1);
            start = position + 1;
        }
    }
    Line {
        number,
        span: Span {
            start,
            end: line_end(text, start),
        },
    }
}

/// Returns the end of the line that begins at a position.
fn line_end(text: &[u8], start: usize) -> usize {
    for at in start..text.len() {
        if text[at] == b'\n' {
            return without_return(text, start, at);
        }
    }
    without_return(text, start, text.len())
}

/// Returns the end of a line without a carriage return there.
fn without_return(text: &[u8], start: usize, end: usize) -> usize {
    if end > start && text.get(end - 1).copied() == Some(b'\r') {
        end - 1
    } else {
        end
    }
}

/// Returns how many characters there are from one position to another.
fn char_count(text: &[u8], start: usize, end: usize) -> usize {
    let mut count = 0usize;
    for byte in bytes_in(text, Span { start, end }) {
        if *byte & 0xC0 != 0x80 {
            count = count.saturating_add(1);
        }
    }
    count
}

/// Fills a window with what is shown of a line: all of it, or of a long line the part around a place.
fn fill(
    window: &mut Window,
    text: &[u8],
    line: Span,
    place: Span,
    before: usize,
) -> Result<(), AllocError> {
    let is_long = char_count(text, line.start, line.end) > MOST_SHOWN;
    let skipped = if is_long {
        before.saturating_sub(SHOWN_BEFORE)
    } else {
        0
    };
    if skipped > 0 {
        window.shown.push_str("...")?;
        window.marks.push_str("   ")?;
    }
    if !add_line(window, text, line, place, skipped)? {
        window.shown.push_str("...")?;
    }
    if !window.marks.contains("^") {
        window.marks.push('^')?;
    }
    Ok(())
}

/// Adds the characters of a line after the skipped ones. Returns whether all of them are shown.
fn add_line(
    window: &mut Window,
    text: &[u8],
    line: Span,
    place: Span,
    skipped: usize,
) -> Result<bool, AllocError> {
    let last = skipped.saturating_add(MOST_SHOWN);
    let mut at = line.start;
    for number in 0..last {
        let rest = bytes_in(
            text,
            Span {
                start: at,
                end: line.end,
            },
        );
        if rest.is_empty() {
            return Ok(true);
        }
        let (character, size) = decode_lossy(rest);
        if number >= skipped {
            let mark = mark_at(at, place);
            add(window, character, mark)?;
        }
        at = at.saturating_add(size.max(1));
    }
    Ok(at >= line.end)
}

/// Returns the mark under a position: a caret in the place, a space before it, and nothing after it.
fn mark_at(at: usize, place: Span) -> &'static str {
    if at < place.start {
        " "
    } else if at < place.end {
        "^"
    } else {
        ""
    }
}

/// Adds a character, with a mark under each of its columns.
fn add(window: &mut Window, character: char, mark: &str) -> Result<(), AllocError> {
    let width = push_char(&mut window.shown, character)?;
    for _ in 0..width {
        window.marks.push_str(mark)?;
    }
    Ok(())
}
