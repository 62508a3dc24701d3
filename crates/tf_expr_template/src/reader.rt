//! The reader of templates.

ghost use Rattle.std.specs.Prelude.{◌≡◌, ◌<◌, ◌≤◌, ℕ, List, Bool, length, IfOk};
ghost use Rattle.tf_expr_template.specs.Reads.{Answers, AnswersList, AnswersParts, Holds, IsFound, IsListed, IsOperand, IsRead, Stops, Turns, closing};
ghost use Rattle.tf_expr_template.specs.Spelling.{Spells, SpellsList, SpellsParts};
ghost use Rattle.tf_expr_template.specs.Token.{token_kind};
ghost use Rattle.tf_expr_syntax.specs.TemplateTree.{Tree, Trees, Woven, level, tree_depth, view};
ghost use Rattle.tf_expr_template.specs.declared.token.TokenKind.TheVariants.{Name};

use crate::fault::{TemplateFault, last_level, pass_brace, pass_colon, refusal, refusal_behind};
use crate::literal::{LiteralEnd, Stretch, read_literal};
use crate::make::{
    Items, Read, ReadTerm, attribute, binary, call, conditional, constant, group, index, listed,
    number, quoted, reference, unary,
};
use crate::scan::Remainder;
use crate::token::{Bracket, TokenKind, next_token};
use crate::word::{Keyword, keyword_of};
use std::alloc::Global;
use tf_expr_syntax::{Operator, Prefix, Template};

// Reads an expression of operators that bind at least as tightly as `least`. Fails with `TooDeep` if no level is
// left, because any expression there is too deep.
#[cycle(reader)]
pub(crate) fn expression<'a>(
    alloc: Global,
    text: &'a str,
    least: usize,
    budget: usize,
) -> Result<ReadTerm<'a>, TemplateFault>
    requires room { budget ≤ 64 }
    requires some { 0 < least }
    requires most { least ≤ 8 }
    ensures sound { IfOk result (λ f. IsFound budget text.now f × (least ≤ level (view f.term))) }
    ensures shorter { IfOk result (λ f. length f.rest.now < length text.now) }
    ensures complete { (t : Tree) (rest : List ℕ) → Spells t text.now rest → least ≤ level t → Stops least rest → Answers budget t rest result }
{
    if budget == 0 {
        return Err(TemplateFault::TooDeep);
    }
    let mut left = operand(alloc, text, budget)?;
    while next_token(left.rest).kind.binding() >= least {
        left = operator(alloc, left, budget)?;
    }
    Ok(left)
}

// Reads one more operator after its left side.
#[cycle(reader)]
fn operator<'a>(
    alloc: Global,
    left: ReadTerm<'a>,
    budget: usize,
) -> Result<ReadTerm<'a>, TemplateFault>
    requires room { budget ≤ 64 }
    requires depth { left.depth ≡ tree_depth (view left.term) }
    ensures sound { IfOk result (λ f. Turns (view left.entry.term) left.entry.rest.now (view f.term) f.rest.now
        × (f.depth ≡ tree_depth (view f.term)) × (f.depth ≤ budget)) }
    ensures deeper { IfOk result (λ f. left.entry.depth < f.depth) }
    ensures shorter { IfOk result (λ f. length f.rest.now < length left.entry.rest.now) }
    ensures complete { (t : Tree) (rest : List ℕ) → Turns (view left.entry.term) left.entry.rest.now t rest → Holds t rest → Answers budget t rest result }
{
    let token = next_token(left.rest);
    if left.term.level() < token.kind.needs() {
        return Err(refusal(token));
    }
    if left.depth >= budget {
        return Err(TemplateFault::TooDeep);
    }
    match token.kind {
        TokenKind::Binary(operator) => {
            let right = expression(alloc, token.rest, operator.level() + 1, budget - 1)?;
            binary(alloc, operator, left, right)
        }
        TokenKind::Question => {
            let yes = expression(alloc, token.rest, 1, budget - 1)?;
            let no = expression(alloc, pass_colon(yes.rest)?, 1, budget - 1)?;
            conditional(alloc, left, yes, no)
        }
        TokenKind::OpenBracket => {
            let place = expression(alloc, token.rest, 1, budget - 1)?;
            index(alloc, left, place)
        }
        TokenKind::Dot => attribute(alloc, left, token.rest),
        _ => Err(refusal(token)),
    }
}

// Reads an operand: what comes before, between and after operators.
#[cycle(reader)]
fn operand<'a>(alloc: Global, text: &'a str, budget: usize) -> Result<ReadTerm<'a>, TemplateFault>
    requires room { budget ≤ 64 }
    requires some { 0 < budget }
    ensures sound { IfOk result (λ f. IsFound budget text.now f × (8 ≤ level (view f.term))) }
    ensures shorter { IfOk result (λ f. length f.rest.now < length text.now) }
    ensures complete { (t : Tree) (rest : List ℕ) → IsOperand t → Spells t text.now rest → Holds t rest → Answers budget t rest result }
{
    let token = next_token(text);
    match token.kind {
        TokenKind::Number => number(token),
        TokenKind::Name => name(alloc, text, budget),
        TokenKind::Quote => {
            let read = template(alloc, token.rest, true, budget - 1)?;
            Ok(quoted(read))
        }
        TokenKind::Bang => {
            let operand = expression(alloc, token.rest, 8, budget - 1)?;
            unary(alloc, Prefix::Not, operand)
        }
        TokenKind::Binary(Operator::Subtract) => {
            let operand = expression(alloc, token.rest, 8, budget - 1)?;
            unary(alloc, Prefix::Negate, operand)
        }
        TokenKind::OpenParen => {
            let inner = expression(alloc, token.rest, 1, budget - 1)?;
            group(alloc, inner)
        }
        TokenKind::OpenBracket => {
            let parts = list(alloc, token.rest, Bracket::Square, budget - 1)?;
            Ok(listed(parts))
        }
        _ => Err(refusal(token)),
    }
}

// Reads an expression that begins with a name.
#[cycle(reader)]
fn name<'a>(alloc: Global, text: &'a str, budget: usize) -> Result<ReadTerm<'a>, TemplateFault>
    requires room { budget ≤ 64 }
    requires some { 0 < budget }
    requires kind { token_kind text.now ≡ Name }
    ensures sound { IfOk result (λ f. IsFound budget text.now f × (8 ≤ level (view f.term))) }
    ensures shorter { IfOk result (λ f. length f.rest.now < length text.now) }
    ensures complete { (t : Tree) (rest : List ℕ) → IsOperand t → Spells t text.now rest → Holds t rest → Answers budget t rest result }
{
    let token = next_token(text);
    let keyword = keyword_of(token.word);
    let Keyword::Free = keyword else {
        return Ok(constant(keyword, token.rest));
    };
    let next = next_token(token.rest);
    match next.kind {
        TokenKind::Dot => reference(alloc, token.word, next.rest),
        TokenKind::OpenParen => {
            let arguments = list(alloc, next.rest, Bracket::Round, budget - 1)?;
            call(alloc, token.word, arguments)
        }
        _ => Err(refusal(next)),
    }
}

// Reads expressions up to a closing bracket. On the last level the list must be empty.
#[cycle(reader)]
fn list<'a>(
    alloc: Global,
    text: &'a str,
    bracket: Bracket,
    budget: usize,
) -> Result<Items<'a>, TemplateFault>
    requires { budget ≤ 64 }
    ensures sound { IfOk result (λ f. IsListed (closing bracket) budget text.now f) }
    ensures shorter { IfOk result (λ f. length f.rest.now < length text.now) }
    ensures complete { (ts : Trees) (rest : List ℕ) → SpellsList (closing bracket) ts text.now rest → AnswersList budget ts rest result }
{
    let mut terms = Vec::new(alloc);
    let mut depth = 0;
    let mut rest = Remainder { text };
    loop {
        let token = next_token(rest.text);
        if token.kind.closes(bracket) {
            return Ok(Items {
                terms,
                depth,
                rest: token.rest,
            });
        }
        if budget == 0 {
            return Err(last_level(token));
        }
        let found = expression(alloc, rest.text, 1, budget)?;
        terms.push(found.term)?;
        depth = depth.max(found.depth);
        let token = next_token(found.rest);
        if token.kind.closes(bracket) {
            return Ok(Items {
                terms,
                depth,
                rest: token.rest,
            });
        }
        let TokenKind::Comma = token.kind else {
            return Err(refusal_behind(token));
        };
        rest = Remainder { text: token.rest };
    }
}

/// Reads a template up to its end, within quotes or not.
#[cycle(reader)]
pub(crate) fn template<'a>(
    alloc: Global,
    text: &'a str,
    within: bool,
    budget: usize,
) -> Result<Read<'a>, TemplateFault>
    requires { budget ≤ 64 }
    ensures sound { IfOk result (λ f. IsRead within budget text.now f) }
    ensures shorter { IfOk result (λ f. length f.rest.now ≤ length text.now) }
    ensures complete { (w : Woven) (rest : List ℕ) → SpellsParts within w.0 w.1 text.now rest → AnswersParts budget w rest result }
{
    let mut parts = Vec::new(alloc);
    let mut depth = 0;
    let mut rest = Remainder { text };
    loop {
        let Stretch { text, end, left } = read_literal(alloc, rest.text, within)?;
        match end {
            LiteralEnd::Closes(rest) => {
                let template = Template { parts, last: text };
                return Ok(Read {
                    template,
                    depth,
                    rest,
                });
            }
            LiteralEnd::Wrong => return Err(TemplateFault::At(left)),
            LiteralEnd::Opens(inside) => {
                let found = expression(alloc, inside, 1, budget)?;
                let after = pass_brace(found.rest)?;
                parts.push((text, found.term))?;
                depth = depth.max(found.depth);
                rest = Remainder { text: after };
            }
        }
    }
}
