//! Construction of trees from parts that were read.

ghost use Rattle.std.specs.Prelude.{◌≡◌, ◌<◌, ◌^◌, ◌+◌, max, suc, length, IfOk, MatchResult, string_bytes};
ghost use Rattle.tf_expr_template.specs.Reads.{Makes, constant_tree};
ghost use Rattle.tf_expr_template.specs.Token.{token_kind, token_word, after_token};
ghost use Rattle.tf_expr_syntax.specs.TemplateTree.{attribute, binary, call, conditional, group, index, listed, number, quoted, reference, terms_view, template_view, unary, view};
ghost use Rattle.tf_expr_template.specs.Word.{decimal};
ghost use Rattle.tf_expr_template.specs.declared.token.TokenKind.TheVariants.{CloseBracket, CloseParen, Name};

use crate::fault::{TemplateFault, refusal, refusal_behind};
use crate::token::{Token, TokenKind, next_token};
use crate::word::{Keyword, number_of};
use std::alloc::Global;
use tf_expr_syntax::{Operator, Prefix, Reference, Template, Term};

/// An expression that was read, its depth, and what follows it.
#[derive(Drop)]
pub(crate) struct ReadTerm<'a> {
    pub(crate) term: Term,
    pub(crate) depth: usize,
    pub(crate) rest: &'a str,
}

impl<'a> ReadTerm<'a> {
    /// Wraps a tree whose deepest part has the given depth, and what follows it.
    fn above(depth: usize, term: Term, rest: &'a str) -> ReadTerm<'a>
        requires { depth < 64 }
        ensures term { view result.term ≡ view term }
        ensures depth { result.depth ≡ suc depth }
        ensures rest { result.rest.now ≡ rest.now }
    {
        ReadTerm {
            term,
            depth: depth + 1,
            rest,
        }
    }
}

/// A sequence of expressions, the depth of the deepest, and what follows them.
#[derive(Drop)]
pub(crate) struct Items<'a> {
    pub(crate) terms: Vec<Term>,
    pub(crate) depth: usize,
    pub(crate) rest: &'a str,
}

/// A template, the depth of the deepest interpolation, and what follows it.
#[derive(Drop)]
pub(crate) struct Read<'a> {
    pub(crate) template: Template,
    pub(crate) depth: usize,
    pub(crate) rest: &'a str,
}

/// Makes the number that a token spells.
pub(crate) fn number(token: Token<'_>) -> Result<ReadTerm<'_>, TemplateFault>
    ensures { Makes (decimal token.entry.word.now < 2 ^ 63) (number (decimal token.entry.word.now)) token.entry.rest.now 1 result }
{
    let Some(value) = number_of(token.word) else {
        return Err(refusal(token));
    };
    Ok(ReadTerm::above(0, Term::Number(value), token.rest))
}

/// Makes the value that a keyword names.
pub(crate) fn constant<'a>(keyword: Keyword, rest: &'a str) -> ReadTerm<'a>
    ensures term { view result.term ≡ constant_tree keyword }
    ensures depth { result.depth ≡ 1 }
    ensures rest { result.rest.now ≡ rest.now }
{
    let term = match keyword {
        Keyword::True => Term::Truth(true),
        Keyword::False => Term::Truth(false),
        Keyword::Null | Keyword::Free => Term::Null,
    };
    ReadTerm::above(0, term, rest)
}

/// Makes a reference of a first name and the name that comes next.
pub(crate) fn reference<'a>(
    alloc: Global,
    first: &str,
    text: &'a str,
) -> Result<ReadTerm<'a>, TemplateFault>
    ensures value { Makes (token_kind text.now ≡ Name) (reference first.now (token_word text.now)) (after_token text.now) 1 result }
    ensures shorter { IfOk result (λ f. length f.rest.now < length text.now) }
{
    let token = next_token(text);
    let TokenKind::Name = token.kind else {
        return Err(refusal(token));
    };
    let first = String::from_str(alloc, first)?;
    let name = String::from_str(alloc, token.word)?;
    let term = Term::Reference(Reference { first, name });
    Ok(ReadTerm::above(0, term, token.rest))
}

/// Makes a call of a function.
pub(crate) fn call<'a>(
    alloc: Global,
    function: &str,
    arguments: Items<'a>,
) -> Result<ReadTerm<'a>, TemplateFault>
    requires { arguments.depth < 64 }
    ensures { Makes (Unit {0}) (call function.now (terms_view arguments.entry.terms.items)) arguments.entry.rest.now (suc arguments.entry.depth) result }
{
    let term = Term::Call(String::from_str(alloc, function)?, arguments.terms);
    Ok(ReadTerm::above(arguments.depth, term, arguments.rest))
}

/// Makes a list of the expressions that were read.
pub(crate) fn listed<'a>(parts: Items<'a>) -> ReadTerm<'a>
    requires { parts.depth < 64 }
    ensures term { view result.term ≡ listed (terms_view parts.entry.terms.items) }
    ensures depth { result.depth ≡ suc parts.entry.depth }
    ensures rest { result.rest.now ≡ parts.entry.rest.now }
{
    ReadTerm::above(parts.depth, Term::List(parts.terms), parts.rest)
}

/// Makes a template between quotes.
pub(crate) fn quoted<'a>(read: Read<'a>) -> ReadTerm<'a>
    requires { read.depth < 64 }
    ensures term { view result.term ≡ quoted (template_view read.entry.template).0 (template_view read.entry.template).1 }
    ensures depth { result.depth ≡ suc read.entry.depth }
    ensures rest { result.rest.now ≡ read.entry.rest.now }
{
    ReadTerm::above(read.depth, Term::Quoted(read.template), read.rest)
}

/// Makes an expression in parentheses. The closing one is still to be read.
pub(crate) fn group<'a>(alloc: Global, inner: ReadTerm<'a>) -> Result<ReadTerm<'a>, TemplateFault>
    requires { inner.depth < 64 }
    ensures value { Makes (token_kind inner.entry.rest.now ≡ CloseParen) (group (view inner.entry.term)) (after_token inner.entry.rest.now) (suc inner.entry.depth) result }
    ensures shorter { IfOk result (λ f. length f.rest.now < length inner.entry.rest.now) }
{
    let token = next_token(inner.rest);
    let TokenKind::CloseParen = token.kind else {
        return Err(refusal_behind(token));
    };
    let term = Term::Group(Box::new(alloc, inner.term)?);
    Ok(ReadTerm::above(inner.depth, term, token.rest))
}

/// Makes an attribute of a value, by the name that comes next.
pub(crate) fn attribute<'a>(
    alloc: Global,
    value: ReadTerm<'_>,
    text: &'a str,
) -> Result<ReadTerm<'a>, TemplateFault>
    requires { value.depth < 64 }
    ensures value { Makes (token_kind text.now ≡ Name) (attribute (view value.entry.term) (token_word text.now)) (after_token text.now) (suc value.entry.depth) result }
    ensures shorter { IfOk result (λ f. length f.rest.now < length text.now) }
{
    let token = next_token(text);
    let TokenKind::Name = token.kind else {
        return Err(refusal(token));
    };
    let term = Term::Attribute(
        Box::new(alloc, value.term)?,
        String::from_str(alloc, token.word)?,
    );
    Ok(ReadTerm::above(value.depth, term, token.rest))
}

/// Makes an element of a value, by an index whose closing bracket is still to be read.
pub(crate) fn index<'a>(
    alloc: Global,
    value: ReadTerm<'_>,
    place: ReadTerm<'a>,
) -> Result<ReadTerm<'a>, TemplateFault>
    requires small { value.depth < 64 }
    requires small_place { place.depth < 64 }
    ensures value { Makes (token_kind place.entry.rest.now ≡ CloseBracket) (index (view value.entry.term) (view place.entry.term)) (after_token place.entry.rest.now) (suc (max value.entry.depth place.entry.depth)) result }
    ensures shorter { IfOk result (λ f. length f.rest.now < length place.entry.rest.now) }
{
    let token = next_token(place.rest);
    let TokenKind::CloseBracket = token.kind else {
        return Err(refusal_behind(token));
    };
    let depth = value.depth.max(place.depth);
    let term = Term::Index(Box::new(alloc, value.term)?, Box::new(alloc, place.term)?);
    Ok(ReadTerm::above(depth, term, token.rest))
}

/// Makes a prefix operator with its operand.
pub(crate) fn unary<'a>(
    alloc: Global,
    operator: Prefix,
    operand: ReadTerm<'a>,
) -> Result<ReadTerm<'a>, TemplateFault>
    requires { operand.depth < 64 }
    ensures { Makes (Unit {0}) (unary operator (view operand.entry.term)) operand.entry.rest.now (suc operand.entry.depth) result }
{
    let term = Term::Unary(operator, Box::new(alloc, operand.term)?);
    Ok(ReadTerm::above(operand.depth, term, operand.rest))
}

/// Makes a binary operator with its two sides.
pub(crate) fn binary<'a>(
    alloc: Global,
    operator: Operator,
    left: ReadTerm<'_>,
    right: ReadTerm<'a>,
) -> Result<ReadTerm<'a>, TemplateFault>
    requires small_left { left.depth < 64 }
    requires small_right { right.depth < 64 }
    ensures { Makes (Unit {0}) (binary operator (view left.entry.term) (view right.entry.term)) right.entry.rest.now (suc (max left.entry.depth right.entry.depth)) result }
{
    let depth = left.depth.max(right.depth);
    let term = Term::Binary(
        operator,
        Box::new(alloc, left.term)?,
        Box::new(alloc, right.term)?,
    );
    Ok(ReadTerm::above(depth, term, right.rest))
}

/// Makes a conditional.
pub(crate) fn conditional<'a>(
    alloc: Global,
    condition: ReadTerm<'_>,
    yes: ReadTerm<'_>,
    no: ReadTerm<'a>,
) -> Result<ReadTerm<'a>, TemplateFault>
    requires small_condition { condition.depth < 64 }
    requires small_yes { yes.depth < 64 }
    requires small_no { no.depth < 64 }
    ensures { Makes (Unit {0}) (conditional (view condition.entry.term) (view yes.entry.term) (view no.entry.term)) no.entry.rest.now (suc (max condition.entry.depth (max yes.entry.depth no.entry.depth))) result }
{
    let depth = condition.depth.max(yes.depth.max(no.depth));
    let condition = Box::new(alloc, condition.term)?;
    let term = Term::Conditional(
        condition,
        Box::new(alloc, yes.term)?,
        Box::new(alloc, no.term)?,
    );
    Ok(ReadTerm::above(depth, term, no.rest))
}
