//! Where the parts of an expression are.

use crate::causes::evaluation::ReadText;
use crate::code::{closing, find_in_code, list_in_code};
use crate::page::Page;
use crate::sources::SourceFile;
use crate::span::Span;
use std::alloc::AllocError;
use tf_expr_syntax::{Prefix, Reference, Term};

/// A part of an expression, and the text in which it is.
#[derive(Clone, Copy)]
pub(crate) struct Used<'t, 's> {
    pub(crate) text: ReadText<'t, 's>,
    /// The number of the part among those of the text.
    pub(crate) number: usize,
    /// The part.
    pub(crate) term: &'t Term,
}

impl<'t, 's> Used<'t, 's> {
    /// Returns a later part of the same text.
    pub(crate) fn part(&self, later: usize, term: &'t Term) -> Used<'t, 's> {
        Used {
            text: self.text,
            number: self.number.saturating_add(later),
            term,
        }
    }
}

impl Used<'_, '_> {
    /// Returns the configuration.
    fn config(&self) -> SourceFile<'_> {
        self.text.scope.sources.config
    }

    /// Returns where a word of an expression is, behind a given number of earlier ones.
    pub(crate) fn word(&self, word: &str, earlier: usize) -> Option<Span> {
        let template = self.text.span;
        find_in_code(self.config().bytes, template, template.start, word, earlier)
    }

    /// Returns where a reference is of which this is a part.
    pub(crate) fn reference(
        &self,
        page: &Page,
        reference: &Reference,
    ) -> Result<Option<Span>, AllocError> {
        let address = address_of(page, reference)?;
        let mut earlier = 0usize;
        for term in self.text.terms.iter().take(self.number) {
            if let Term::Reference(other) = *term
                && other.first == reference.first
                && other.name == reference.name
            {
                earlier = earlier.saturating_add(1);
            }
        }
        Ok(self.word(address.as_str(), earlier))
    }

    /// Returns where a call is, with its arguments.
    fn call(&self, name: &str) -> Option<Span> {
        let mut earlier = 0usize;
        for term in self.text.terms.iter().take(self.number) {
            if let Term::Call(other, _) = *term
                && other.as_str() == name
            {
                earlier = earlier.saturating_add(1);
            }
        }
        let found = self.word(name, earlier)?;
        Some(Span {
            start: found.start,
            end: closing(self.config().bytes, self.text.span, found.end),
        })
    }

    /// Returns where the last part of an operand is, such as `.b` in `var.m.a.b`. Of a reference or a call, it returns where that is.
    #[cycle(steps)]
    pub(crate) fn step(&self, page: &Page, term: &Term) -> Result<Option<Span>, AllocError> {
        match term {
            Term::Reference(reference) => self.reference(page, reference),
            Term::Call(name, _) => Ok(self.call(name.as_str())),
            Term::Group(inner) => {
                let found = self.step(page, inner)?;
                Ok(self.after(found, ")"))
            }
            Term::Attribute(inner, name) => {
                let found = self.step(page, inner)?;
                let name = name.as_str();
                let part = format!(in page.alloc; ".{name}")?;
                Ok(self.after(found, part.as_str()))
            }
            Term::Index(inner, place) => {
                let found = self.step(page, inner)?;
                let part = spelled_index(page, place)?;
                Ok(self.after(found, part.as_str()))
            }
            _ => Ok(None),
        }
    }

    /// Returns where a part is that follows another one.
    fn after(&self, before: Option<Span>, part: &str) -> Option<Span> {
        let start = before?.end;
        find_in_code(self.config().bytes, self.text.span, start, part, 0)
    }

    /// Returns where the literal operand that this is is spelled.
    pub(crate) fn literal(&self, page: &Page) -> Result<Option<Span>, AllocError> {
        let mut earlier = 0usize;
        for term in self.text.terms.iter().take(self.number) {
            if is_same_literal(*term, self.term) {
                earlier = earlier.saturating_add(1);
            }
        }
        if let Term::List(_) = self.term {
            return Ok(list_in_code(self.config().bytes, self.text.span, earlier));
        }
        let word = spelled_literal(page, self.term)?;
        Ok(self.word(word.as_str(), earlier))
    }

    /// Shows the last part of the operand that this is, or all of the text.
    pub(crate) fn show_step(&self, page: &mut Page) -> Result<(), AllocError> {
        let found = self.step(page, self.term)?;
        self.show(page, found)
    }

    /// Shows the last part of the operand that this is, without a dot, or without brackets and quotes.
    pub(crate) fn show_key(&self, page: &mut Page) -> Result<(), AllocError> {
        match (self.step(page, self.term)?, self.term) {
            (Some(span), Term::Attribute(_, _)) => self.show(page, Some(after_first_byte(span))),
            (Some(span), term) if has_quoted_index(term) => self.show(page, Some(shrunk(span, 3))),
            (found, _) => self.show(page, found),
        }
    }

    /// Shows a part, or all of the text.
    pub(crate) fn show(&self, page: &mut Page, part: Option<Span>) -> Result<(), AllocError> {
        page.show(self.config(), part.unwrap_or(self.text.span))
    }
}

/// Returns whether two parts are literals that are alike, or lists.
fn is_same_literal(one: &Term, other: &Term) -> bool {
    match (one, other) {
        (Term::Number(one), Term::Number(other)) => one == other,
        (Term::Truth(one), Term::Truth(other)) => one == other,
        (Term::Null, Term::Null) | (Term::List(_), Term::List(_)) => true,
        (Term::Quoted(one), Term::Quoted(other)) => {
            one.parts.is_empty() && other.parts.is_empty() && one.last == other.last
        }
        _ => false,
    }
}

/// Returns how a literal is spelled in JSON, if it has no escapes.
fn spelled_literal(page: &Page, term: &Term) -> Result<String, AllocError> {
    match term {
        Term::Number(number) => format!(in page.alloc; "{number}"),
        Term::Truth(truth) => format!(in page.alloc; "{truth}"),
        Term::Quoted(template) => {
            let text = template.last.as_str();
            format!(in page.alloc; "\\\"{text}\\\"")
        }
        _ => format!(in page.alloc; "null"),
    }
}

/// Returns whether a part is an element whose index is a text in quotes.
fn has_quoted_index(term: &Term) -> bool {
    match term {
        Term::Index(_, place) => matches!(**place, Term::Quoted(_)),
        _ => false,
    }
}

/// Returns how an index is spelled, or else its first bracket.
fn spelled_index(page: &Page, place: &Term) -> Result<String, AllocError> {
    match place {
        Term::Number(index) => format!(in page.alloc; "[{index}]"),
        Term::Quoted(template) if template.parts.is_empty() => {
            let key = template.last.as_str();
            format!(in page.alloc; "[\\\"{key}\\\"]")
        }
        Term::Reference(reference) => {
            let (first, name) = (reference.first.as_str(), reference.name.as_str());
            format!(in page.alloc; "[{first}.{name}]")
        }
        Term::Unary(Prefix::Negate, number) => match &**number {
            Term::Number(index) => format!(in page.alloc; "[-{index}]"),
            _ => format!(in page.alloc; "["),
        },
        _ => format!(in page.alloc; "["),
    }
}

/// Returns the text of a reference.
pub(crate) fn address_of(page: &Page, reference: &Reference) -> Result<String, AllocError> {
    let (first, name) = (reference.first.as_str(), reference.name.as_str());
    format!(in page.alloc; "{first}.{name}")
}

/// Returns a range without this number of bytes at both ends.
fn shrunk(span: Span, by: usize) -> Span {
    Span {
        start: span.start.saturating_add(by),
        end: span.end.saturating_sub(by),
    }
}

/// Returns a range without its first byte.
fn after_first_byte(span: Span) -> Span {
    Span {
        start: span.start.saturating_add(1),
        end: span.end,
    }
}
