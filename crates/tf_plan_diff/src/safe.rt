//! Texts without characters that change how a terminal shows other text.

ghost use Rattle.std.specs.Prelude.{◌≡◌, ◌<◌, ◌++◌, ◌∷◌, [], OnOk, chars, string_bytes};
ghost use Rattle.std.specs.Str.{encode_utf8_all};
ghost use Rattle.tf_plan_diff.specs.Safe.{escape_of, hex_digit, is_between, is_control, is_mark, is_unsafe, line, safe, safe_chars};

use std::alloc::AllocError;

/// Adds a line: a text, in which `\u` and four hexadecimal digits stand for each control character and each mark that
/// sets the direction of text.
pub(crate) fn push_line(out: &mut String, text: &str) -> Result<(), AllocError>
    ensures { OnOk result (string_bytes out.new ≡ string_bytes out.old ++ line text.now) }
{
    push_safe(out, text)?;
    out.push('\n')
}

/// Adds a text, escaped character by character.
fn push_safe(out: &mut String, text: &str) -> Result<(), AllocError>
    ensures { OnOk result (string_bytes out.new ≡ string_bytes out.old ++ safe text.now) }
{
    for c in text.chars() {
        push_char(out, c)?;
    }
    Ok(())
}

fn push_char(out: &mut String, c: char) -> Result<(), AllocError>
    ensures { OnOk result (string_bytes out.new ≡ string_bytes out.old ++ encode_utf8_all (safe_chars (c ∷ []))) }
{
    if is_unsafe(c) {
        push_escape(out, u32::from(c))
    } else {
        out.push(c)
    }
}

/// Checks whether a character is a control character or sets the direction of text.
fn is_unsafe(c: char) -> bool
    ensures { result ≡ is_unsafe c }
{
    let code = u32::from(c);
    is_control(code) || is_mark(code)
}

fn is_control(code: u32) -> bool
    ensures { result ≡ is_control code }
{
    code <= 0x1f || is_between(0x7f, 0x9f, code)
}

fn is_mark(code: u32) -> bool
    ensures { result ≡ is_mark code }
{
    code == 0x61c
        || is_between(0x200e, 0x200f, code)
        || is_between(0x202a, 0x202e, code)
        || is_between(0x2066, 0x2069, code)
}

fn is_between(low: u32, high: u32, code: u32) -> bool
    ensures { result ≡ is_between low high code }
{
    low <= code && code <= high
}

fn push_escape(out: &mut String, code: u32) -> Result<(), AllocError>
    ensures { OnOk result (string_bytes out.new ≡ string_bytes out.old ++ encode_utf8_all (escape_of code)) }
{
    out.push('\\')?;
    out.push('u')?;
    out.push(hex_digit(code / 4096 % 16))?;
    out.push(hex_digit(code / 256 % 16))?;
    out.push(hex_digit(code / 16 % 16))?;
    out.push(hex_digit(code % 16))
}

fn hex_digit(digit: u32) -> char
    requires { digit < 16 }
    ensures { result ≡ hex_digit digit }
{
    let byte = if digit < 10 {
        b'0' + digit as u8
    } else {
        b'a' + (digit as u8 - 10)
    };
    char::from(byte)
}
