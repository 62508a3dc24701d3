//! Text as a terminal may show it.

use std::alloc::AllocError;
use unicode_width::UnicodeWidthChar;

/// The most characters of a name that are shown.
const MOST_OF_NAME: usize = 120;

/// Appends a text, with what a terminal could obey escaped. Of a long text, appends the beginning and three dots.
///
/// # Errors
///
/// Fails only if memory runs out.
pub(crate) fn push_shown(out: &mut String, text: &str) -> Result<(), AllocError> {
    for (number, character) in text.chars().enumerate() {
        if number >= MOST_OF_NAME {
            return out.push_str("...");
        }
        push_char(out, character)?;
    }
    Ok(())
}

/// Appends a character as a terminal may show it, and returns how many columns it takes. A tab is a space. Control characters and
/// marks that change the direction of text are escaped.
///
/// # Errors
///
/// Fails only if memory runs out.
pub(crate) fn push_char(out: &mut String, character: char) -> Result<usize, AllocError> {
    if character == '\t' {
        out.push(' ')?;
        return Ok(1);
    }
    if is_escaped(character) {
        let code = character as u32;
        write!(out, "\\u{code:04x}")?;
        return Ok(if code > 0xFFFF { 7 } else { 6 });
    }
    out.push(character)?;
    Ok(character.width().unwrap_or(0))
}

/// Returns whether a character is escaped: a control character, a mark of direction, or a tag.
fn is_escaped(character: char) -> bool {
    matches!(
        character,
        '\u{0}'..='\u{1f}'
            | '\u{7f}'..='\u{9f}'
            | '\u{61c}'
            | '\u{200b}'..='\u{200f}'
            | '\u{2028}'..='\u{202e}'
            | '\u{2060}'..='\u{206f}'
            | '\u{feff}'
            | '\u{e0000}'..='\u{e007f}'
    )
}
