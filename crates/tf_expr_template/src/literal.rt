//! Literal text of templates.

ghost use Rattle.std.specs.Prelude.{◌≡◌, ◌<◌, ◌+◌, Bool, false, length, drop, slice_index, IfOk};
ghost use Rattle.tf_expr_template.specs.Bytes.{is_plain};
ghost use Rattle.tf_expr_template.specs.Literal.{piece, begun, escape};
ghost use Rattle.tf_expr_template.specs.Steps.{EndsWithin, IsShorter, IsStretch, step_of};

use crate::scan::{Remainder, after, byte_at, cut, plain_len};
use std::alloc::{AllocError, Global};

/// The end of a stretch of literal text, and what follows it.
#[derive(Clone, Copy)]
pub(crate) enum LiteralEnd<'a> {
    /// The beginning of an interpolation.
    Opens(&'a str),
    /// The end of the template.
    Closes(&'a str),
    /// Text that is not allowed here.
    Wrong,
}

#[derive(Clone, Copy)]
enum LiteralStep<'a> {
    // Literal text, and what follows it.
    Stands(&'a str, &'a str),
    Ends(LiteralEnd<'a>),
}

/// A stretch of literal text with its escapes resolved.
#[derive(Drop)]
pub(crate) struct Stretch<'a> {
    pub(crate) text: String,
    pub(crate) end: LiteralEnd<'a>,
    /// How many bytes are left from there on, and 0 if the text ends within an escape.
    pub(crate) left: usize,
}

/// Reads literal text up to the next interpolation, the end of the template or text that is not allowed.
pub(crate) fn read_literal<'a>(
    alloc: Global,
    text: &'a str,
    quoted: bool,
) -> Result<Stretch<'a>, AllocError>
    ensures spelled { IfOk result (λ r. IsStretch quoted text.now r) }
    ensures shorter { IfOk result (λ r. EndsWithin (length text.now) r.end) }
{
    let mut read = String::new(alloc);
    let mut rest = Remainder { text };
    loop {
        let (plain, others) = cut(rest.text, plain_len(rest.text));
        read.push_str(plain)?;
        match step_at(others, quoted) {
            LiteralStep::Stands(bytes, next) => {
                read.push_str(bytes)?;
                rest = Remainder { text: next };
            }
            LiteralStep::Ends(end) => {
                let left = if others == "\\" { 0 } else { others.len() };
                return Ok(Stretch {
                    text: read,
                    end,
                    left,
                });
            }
        }
    }
}

#[tactic(auto, unfolding(crate::specs::Literal::begun, crate::specs::Literal::piece))]
fn step_at(text: &str, quoted: bool) -> LiteralStep<'_>
    requires { 0 < length text.now → is_plain (slice_index text.now 0) ≡ false }
    ensures value { step_of result ≡ piece quoted text.now }
    ensures shorter { IsShorter (length text.now) result }
{
    if text.is_empty() {
        return LiteralStep::Ends(if quoted {
            LiteralEnd::Wrong
        } else {
            LiteralEnd::Closes(text)
        });
    }
    let first = byte_at(text, 0);
    let rest = after(text, 0);
    match first {
        b'$' => dollar(rest),
        b'%' => percent(rest),
        b'"' => if quoted {
            LiteralStep::Ends(LiteralEnd::Closes(rest))
        } else {
            LiteralStep::Stands("\"", rest)
        },
        b'\\' => if quoted {
            escape(rest)
        } else {
            LiteralStep::Stands("\\", rest)
        },
        _ => if quoted {
            LiteralStep::Ends(LiteralEnd::Wrong)
        } else {
            LiteralStep::Stands("\n", rest)
        },
    }
}

// Returns what a `$` before this text begins.
#[tactic(auto, unfolding(crate::specs::Literal::begun))]
fn dollar(rest: &str) -> LiteralStep<'_>
    ensures value { (quoted : Bool) → step_of result ≡ begun quoted 36 rest.now }
    ensures shorter { IsShorter (length rest.now + 1) result }
{
    if byte_at(rest, 0) == b'{' {
        LiteralStep::Ends(LiteralEnd::Opens(after(rest, 0)))
    } else if byte_at(rest, 0) == b'$' && byte_at(rest, 1) == b'{' {
        LiteralStep::Stands("${", after(rest, 1))
    } else {
        LiteralStep::Stands("$", rest)
    }
}

// Returns what a `%` before this text begins.
#[tactic(auto, unfolding(crate::specs::Literal::begun))]
fn percent(rest: &str) -> LiteralStep<'_>
    ensures value { (quoted : Bool) → step_of result ≡ begun quoted 37 rest.now }
    ensures shorter { IsShorter (length rest.now + 1) result }
{
    if byte_at(rest, 0) == b'{' {
        LiteralStep::Ends(LiteralEnd::Wrong)
    } else if byte_at(rest, 0) == b'%' && byte_at(rest, 1) == b'{' {
        LiteralStep::Stands("%{", after(rest, 1))
    } else {
        LiteralStep::Stands("%", rest)
    }
}

// Returns what a backslash within quotes before this text begins.
#[tactic(auto, unfolding(crate::specs::Literal::escape))]
fn escape(rest: &str) -> LiteralStep<'_>
    ensures value { step_of result ≡ escape (slice_index rest.now 0) (drop 1 rest.now) }
    ensures shorter { IsShorter (length rest.now + 1) result }
{
    match byte_at(rest, 0) {
        b'"' => LiteralStep::Stands("\"", after(rest, 0)),
        b'\\' => LiteralStep::Stands("\\", after(rest, 0)),
        b'n' => LiteralStep::Stands("\n", after(rest, 0)),
        b'r' => LiteralStep::Stands("\r", after(rest, 0)),
        b't' => LiteralStep::Stands("\t", after(rest, 0)),
        _ => LiteralStep::Ends(LiteralEnd::Wrong),
    }
}
