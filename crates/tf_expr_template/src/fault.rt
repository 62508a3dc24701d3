//! Why a text isn't read.

ghost use Rattle.std.specs.Prelude.{◌≡◌, ◌<◌, ◌^◌, true, length, IfOk};
ghost use Rattle.tf_expr_template.specs.Reads.{IsRefusal, Passes, begins};
ghost use Rattle.tf_expr_template.specs.Word.{decimal};
ghost use Rattle.tf_expr_template.specs.declared.fault.TemplateFault.TheVariants.{OutOfMemory, TooDeep};
ghost use Rattle.tf_expr_template.specs.declared.token.TokenKind.TheVariants.{CloseBrace, Colon, Number};

use crate::token::{Token, TokenKind, next_token};
use crate::word::number_of;
use std::alloc::AllocError;

/// Why a text isn't read.
#[derive(Clone, Copy, Debug, PartialEq, Eq)]
pub(crate) enum TemplateFault {
    /// A token can't follow the text before it in any template. Holds the number of bytes from that token to the end.
    At(usize),
    /// It is deeper than allowed.
    TooDeep,
    /// Memory ran out.
    OutOfMemory,
}

impl<E: Into<AllocError>> From<E> for TemplateFault {
    ghost from_gives = { λ _ fault. fault ≡ OutOfMemory };

    fn from(error: E) -> TemplateFault {
        let _: AllocError = error.into();
        TemplateFault::OutOfMemory
    }
}

/// Returns the refusal of a token.
pub(crate) fn refusal(token: Token<'_>) -> TemplateFault
    ensures { IsRefusal result }
{
    TemplateFault::At(token.word.len().saturating_add(token.rest.len()))
}

/// Returns the refusal of a token after an expression. A text that ends within an operator is refused at its end.
pub(crate) fn refusal_behind(token: Token<'_>) -> TemplateFault
    ensures { IsRefusal result }
{
    match (token.word.as_bytes(), token.rest.as_bytes()) {
        (b"", b"=" | b"&" | b"|") | (b"!", b"") => TemplateFault::At(0),
        _ => refusal(token),
    }
}

/// Returns the refusal of a token at the greatest depth, where only the end of a list is allowed. If the token begins an expression,
/// the expression is too deep.
pub(crate) fn last_level(token: Token<'_>) -> TemplateFault
    ensures { begins token.entry.kind ≡ true
        → (token.entry.kind ≡ Number → decimal token.entry.word.now < 2 ^ 63) → result ≡ TooDeep }
{
    let is_too_large = matches!(token.kind, TokenKind::Number) && number_of(token.word).is_none();
    if token.kind.begins() && !is_too_large {
        TemplateFault::TooDeep
    } else {
        refusal(token)
    }
}

/// Returns the text after a colon, which must be the next token.
pub(crate) fn pass_colon(text: &str) -> Result<&str, TemplateFault>
    ensures value { Passes Colon text.now result }
    ensures shorter { IfOk result (λ rest. length rest.now < length text.now) }
{
    let token = next_token(text);
    let TokenKind::Colon = token.kind else {
        return Err(refusal_behind(token));
    };
    Ok(token.rest)
}

/// Returns the text after a closing brace, which must be the next token.
pub(crate) fn pass_brace(text: &str) -> Result<&str, TemplateFault>
    ensures value { Passes CloseBrace text.now result }
    ensures shorter { IfOk result (λ rest. length rest.now < length text.now) }
{
    let token = next_token(text);
    let TokenKind::CloseBrace = token.kind else {
        return Err(refusal_behind(token));
    };
    Ok(token.rest)
}
