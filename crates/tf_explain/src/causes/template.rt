//! Texts that are no templates.

use crate::code::open_quote;
use crate::decoding::{spelled_at, text_in};
use crate::page::Page;
use crate::positions::{Found, find};
use crate::sources::{SourceFile, Sources};
use crate::span::{Span, between_quotes, bytes_in, is_name_byte};
use std::alloc::AllocError;

/// Explains why no template goes on at an offset of the text at a place.
///
/// # Errors
///
/// Fails only if memory runs out.
pub(crate) fn explain_template(
    page: &mut Page,
    place: &str,
    detail: Option<&str>,
    sources: Sources<'_>,
) -> Result<(), AllocError> {
    let config = sources.config;
    let Some(Ok(offset)) = detail.map(|detail| detail.parse::<usize>()) else {
        return Ok(());
    };
    let found = find(page.alloc, config.bytes, place)?;
    if !found.rest.is_empty() {
        return Ok(());
    }
    let text = text_in(page.alloc, config.bytes, found.value)?;
    explain_offset(page, config, found, text.as_str(), offset)
}

/// Explains why no template goes on at an offset of a text.
fn explain_offset(
    page: &mut Page,
    config: SourceFile<'_>,
    found: Found<'_>,
    text: &str,
    offset: usize,
) -> Result<(), AllocError> {
    let token = token_at(text, offset);
    let raw = between_quotes(config.bytes, found.value);
    match open_quote(config.bytes, raw) {
        Some(quote) if token.is_empty() => {
            page.show(config, quote)?;
            page.say(&["The text that begins here isn't closed: its second quote is missing."])?;
        }
        _ => {
            page.show(config, spelled_span(config.bytes, raw, offset, token.len()))?;
            explain_token(page, text.get(..offset).unwrap_or(""), token)?;
        }
    }
    page.note_earlier(config, found)
}

/// Returns the range in which a part of a decoded text is spelled.
fn spelled_span(text: &[u8], raw: Span, offset: usize, length: usize) -> Span {
    let spelling = bytes_in(text, raw);
    let last = offset.saturating_add(length.max(1));
    Span {
        start: raw.start.saturating_add(spelled_at(spelling, offset)),
        end: raw.start.saturating_add(spelled_at(spelling, last)),
    }
}

/// Returns the token at an offset of a text: a name, a number or one character.
fn token_at(text: &str, offset: usize) -> &str {
    let rest = text.get(offset..).unwrap_or("");
    let mut length = 0usize;
    for byte in rest.as_bytes() {
        if !is_name_byte(*byte) {
            break;
        }
        length = length.saturating_add(1);
    }
    if length > 0 {
        return rest.get(..length).unwrap_or("");
    }
    let first = rest
        .chars()
        .next()
        .map_or(0, |character| character.len_utf8());
    rest.get(..first).unwrap_or("")
}

/// Explains why a token can't follow the text before it.
fn explain_token<'a>(page: &mut Page, before: &'a str, token: &'a str) -> Result<(), AllocError> {
    let written = before.trim_end();
    if token.is_empty() {
        return explain_end(page, written);
    }
    if let Some(sentence) = unsupported(written, token) {
        return page.say(&[sentence, " (docs/DIFFERENCES.md)."]);
    }
    if token == "'" {
        return page.say(&[
            "Within ${ }, a text is written in double quotes, as \\\"x\\\" in JSON.",
        ]);
    }
    if let Some(name) = bare_name(written) {
        return explain_bare_name(page, name);
    }
    if written.ends_with(".") {
        return page.say(&["A name has to follow the dot."]);
    }
    if token == "}" {
        return page.say(&["Something is missing before this brace."]);
    }
    page.say(&["`", token, "` can't follow here (docs/TEMPLATES.md)."])
}

/// Explains why a text can't end after what is written.
fn explain_end(page: &mut Page, written: &str) -> Result<(), AllocError> {
    if written.ends_with("${") {
        return page.say(&["An expression and `}` have to follow `${`. Write $${ for the text ${."]);
    }
    page.say(&[
        "The text ends here, before a `}` closes the interpolation. Write $${ for the text ${.",
    ])
}

/// Returns the sentence on a part of Terraform's language that isn't here, if a token belongs to one.
fn unsupported(written: &str, token: &str) -> Option<&'static str> {
    match token {
        "/" => return Some("Division `/` isn't supported here"),
        "%" => return Some("Directives `%{ }` and the operator `%` aren't supported here"),
        "*" if written.ends_with("[") || written.ends_with(".") => {
            return Some("Splats `[*]` aren't supported here");
        }
        "{" => return Some("Objects `{ }` aren't supported within ${ } here: write a JSON object"),
        "<" if written.ends_with("<") => return Some("Heredocs `<<` aren't supported here"),
        _ => {}
    }
    let ends_in_for = last_word(written) == "for";
    if ends_in_for || token == "for" {
        return Some("`for` expressions aren't supported here");
    }
    let is_digit = |byte: Option<&u8>| byte.is_some_and(|byte| byte.is_ascii_digit());
    if token == "." && is_digit(written.as_bytes().last()) {
        return Some("Numbers with a fraction aren't supported here");
    }
    if written.ends_with(".") && is_digit(token.as_bytes().first()) {
        return Some("An index after a dot isn't supported here: write [0]");
    }
    if written.ends_with("%") {
        return Some("Directives `%{ }` aren't supported here");
    }
    None
}

/// Returns the word at the end of a text.
fn last_word(text: &str) -> &str {
    let mut start = 0usize;
    for (at, byte) in text.as_bytes().iter().enumerate() {
        if !is_name_byte(*byte) {
            start = at.saturating_add(1);
        }
    }
    text.get(start..).unwrap_or("")
}

/// Returns the name at the end of a text, if no dot is before it and it begins with a letter.
fn bare_name(written: &str) -> Option<&str> {
    let word = last_word(written);
    let before = written.strip_suffix(word)?;
    let begins = word
        .as_bytes()
        .first()
        .is_some_and(|byte| byte.is_ascii_alphabetic());
    if !begins || before.trim_end().ends_with(".") || before.ends_with("\"") {
        return None;
    }
    Some(word)
}

/// Explains that a name alone is no reference.
fn explain_bare_name(page: &mut Page, name: &str) -> Result<(), AllocError> {
    match name {
        "true" | "false" | "null" => {
            page.say(&[
                "An operator or the end of the expression has to follow `",
                name,
                "`.",
            ])
        }
        _ => page.say(&[
            "`",
            name,
            "` alone is no reference. Write var.",
            name,
            ", local.",
            name,
            " or TYPE.NAME, or a text in quotes.",
        ]),
    }
}
