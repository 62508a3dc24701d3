//! Text as a terminal may show it.

use std::alloc::AllocError;

/// Appends the beginning of a text, so that it is shown by at most the given number of characters. Control characters but
/// line breaks, and marks that change the direction of text, are escaped.
pub(crate) fn push_clean(out: &mut String, text: &str, most: usize) -> Result<(), AllocError> {
    let mut shown = 0usize;
    for character in text.chars() {
        shown = shown.saturating_add(shown_by(character));
        if shown > most {
            break;
        }
        if is_escaped(character) {
            let code = character as u32;
            write!(out, "\\u{code:04x}")?;
        } else {
            out.push(character)?;
        }
    }
    Ok(())
}

/// Returns by how many characters a character is shown.
fn shown_by(character: char) -> usize {
    if !is_escaped(character) {
        1
    } else if character as u32 > 0xFFFF {
        7
    } else {
        6
    }
}

/// Returns whether a character is escaped: a control character, a mark of direction, or a tag.
fn is_escaped(character: char) -> bool {
    matches!(
        character,
        '\u{0}'..='\u{9}'
            | '\u{b}'..='\u{1f}'
            | '\u{7f}'..='\u{9f}'
            | '\u{61c}'
            | '\u{200b}'..='\u{200f}'
            | '\u{2028}'..='\u{202e}'
            | '\u{2060}'..='\u{206f}'
            | '\u{feff}'
            | '\u{e0000}'..='\u{e007f}'
    )
}
