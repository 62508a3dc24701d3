//! Tokens of expressions, by longest match.

ghost use Rattle.std.specs.Prelude.{◌≡◌, ◌≢◌, ◌<◌, ◌≤◌, length, slice_index};
ghost use Rattle.std.specs.Str.{IsCharBoundary};
ghost use Rattle.tf_expr_template.specs.Token.{sign, front, token_kind, token_word, after_token};
ghost use Rattle.std.specs.Prelude.{if◌then◌else◌};
ghost use Rattle.tf_expr_template.specs.declared.token.TokenKind.TheVariants.{Wrong};

use crate::scan::{byte_at, cut, digit_len, is_digit, name_len, space_len, starts_name};
use tf_expr_syntax::Operator;

/// The kind of a token.
#[derive(Clone, Copy)]
pub(crate) enum TokenKind {
    Name,
    Number,
    Quote,
    Bang,
    Binary(Operator),
    Question,
    Colon,
    OpenParen,
    CloseParen,
    OpenBracket,
    CloseBracket,
    CloseBrace,
    Comma,
    Dot,
    /// The end of the text, or a byte that begins no token.
    Wrong,
}

/// The brackets of a list.
#[derive(Clone, Copy)]
pub(crate) enum Bracket {
    Round,
    Square,
}

impl TokenKind {
    ghost use Rattle.std.specs.Prelude.{◌≡◌, ◌≢◌, true, false};
    ghost use Rattle.tf_expr_template.specs.Reads.{begins, binding, closing, needs};

    /// Returns the level of the tree that the token makes of the one before it, and 0 if it makes none.
    pub(crate) fn binding(self) -> usize
        ensures { result ≡ binding self }
    {
        match self {
            TokenKind::Binary(operator) => operator.level(),
            TokenKind::Question => 1,
            TokenKind::OpenBracket | TokenKind::Dot => 10,
            _ => 0,
        }
    }

    /// Returns the least level of the tree before such a token.
    pub(crate) fn needs(self) -> usize
        ensures { result ≡ needs self }
    {
        match self {
            TokenKind::Question => 2,
            _ => self.binding(),
        }
    }

    /// Returns whether an expression may begin with the token.
    pub(crate) fn begins(self) -> bool
        ensures { result ≡ begins self }
    {
        match self {
            TokenKind::Name
            | TokenKind::Number
            | TokenKind::Quote
            | TokenKind::Bang
            | TokenKind::OpenParen
            | TokenKind::OpenBracket => true,
            TokenKind::Binary(operator) => matches!(operator, Operator::Subtract),
            _ => false,
        }
    }

    /// Returns whether the token closes a list in the given brackets.
    pub(crate) fn closes(self, bracket: Bracket) -> bool
        ensures yes { result ≡ true → self ≡ closing bracket }
        ensures no { result ≡ false → self ≢ closing bracket }
    {
        match bracket {
            Bracket::Round => matches!(self, TokenKind::CloseParen),
            Bracket::Square => matches!(self, TokenKind::CloseBracket),
        }
    }
}

/// The first token of a text, its bytes, and what follows it.
#[derive(Clone, Copy)]
pub(crate) struct Token<'a> {
    pub(crate) kind: TokenKind,
    pub(crate) word: &'a str,
    pub(crate) rest: &'a str,
}

/// Reads the first token of a text, and skips space before it.
#[tactic(auto, unfolding(crate::specs::Token::token_kind, crate::specs::Token::token_word, crate::specs::Token::after_token, crate::specs::Token::trimmed))]
pub(crate) fn next_token(text: &str) -> Token<'_>
    ensures kind { result.kind ≡ token_kind text.now }
    ensures word { result.word.now ≡ token_word text.now }
    ensures rest { result.rest.now ≡ after_token text.now }
    ensures shorter { length result.rest.now ≤ length text.now }
    ensures taken { result.kind ≢ Wrong → length result.rest.now < length text.now }
{
    let (_, text) = cut(text, space_len(text));
    let (kind, len) = front(text);
    let (word, rest) = cut(text, len);
    Token { kind, word, rest }
}

#[tactic(auto, unfolding(crate::specs::Token::front))]
fn front(text: &str) -> (TokenKind, usize)
    ensures value { result ≡ front text.now }
    ensures boundary { IsCharBoundary text.now result.1 }
    ensures taken { result.0 ≢ Wrong → 0 < result.1 }
{
    let first = byte_at(text, 0);
    if starts_name(first) {
        (TokenKind::Name, name_len(text))
    } else if is_digit(first) {
        (TokenKind::Number, digit_len(text))
    } else {
        sign(first, byte_at(text, 1))
    }
}

#[tactic(auto, unfolding(crate::specs::Token::sign))]
fn sign(first: u8, second: u8) -> (TokenKind, usize)
    ensures value { result ≡ sign first second }
    ensures one { 0 < result.1 → (0 < first) × (first < 128) }
    ensures two { 1 < result.1 → (0 < second) × (second < 128) }
    ensures most { result.1 ≤ 2 }
    ensures taken { result.0 ≢ Wrong → 0 < result.1 }
{
    match first {
        b'"' => (TokenKind::Quote, 1),
        b'!' => pair(second == b'=', Operator::NotEqual, (TokenKind::Bang, 1)),
        b'=' => pair(second == b'=', Operator::Equal, (TokenKind::Wrong, 0)),
        b'<' => pair(
            second == b'=',
            Operator::LessOrEqual,
            (TokenKind::Binary(Operator::Less), 1),
        ),
        b'>' => pair(
            second == b'=',
            Operator::GreaterOrEqual,
            (TokenKind::Binary(Operator::Greater), 1),
        ),
        b'&' => pair(second == b'&', Operator::And, (TokenKind::Wrong, 0)),
        b'|' => pair(second == b'|', Operator::Or, (TokenKind::Wrong, 0)),
        b'+' => (TokenKind::Binary(Operator::Add), 1),
        b'-' => (TokenKind::Binary(Operator::Subtract), 1),
        b'*' => (TokenKind::Binary(Operator::Multiply), 1),
        b'?' => (TokenKind::Question, 1),
        b':' => (TokenKind::Colon, 1),
        b'(' => (TokenKind::OpenParen, 1),
        b')' => (TokenKind::CloseParen, 1),
        b'[' => (TokenKind::OpenBracket, 1),
        b']' => (TokenKind::CloseBracket, 1),
        b'}' => (TokenKind::CloseBrace, 1),
        b',' => (TokenKind::Comma, 1),
        b'.' => (TokenKind::Dot, 1),
        _ => (TokenKind::Wrong, 0),
    }
}

// Returns the operator of two bytes if the second byte matches, otherwise the other token.
fn pair(whole: bool, operator: Operator, other: (TokenKind, usize)) -> (TokenKind, usize)
    ensures { result ≡ (if whole then (TokenKind.Binary operator, 2) else other) }
{
    if whole {
        (TokenKind::Binary(operator), 2)
    } else {
        other
    }
}
