//! Kinds of operands.

use crate::causes::following::{Resolved, is_reference, resolve, value_of};
use crate::causes::scope::Scope;
use crate::causes::values::{LIST, MAP, NULL, NUMBER, SET, TEXT, TRUTH};
use crate::page::Page;
use std::alloc::AllocError;
use tf_expr_syntax::{Function, Operator, Prefix, Term};

/// Returns of which kind an operand is if it has a value, in words, if the expression or the files show it.
///
/// # Errors
///
/// Fails only if memory runs out.
#[cycle(kinds)]
pub(crate) fn kind_of(
    page: &mut Page,
    term: &Term,
    scope: Scope<'_>,
) -> Result<Option<&'static str>, AllocError> {
    match term {
        Term::Group(inner) => kind_of(page, inner, scope),
        Term::Conditional(condition, yes, no) => match truth_of(page, condition, scope)? {
            Some(true) => kind_of(page, yes, scope),
            Some(false) => kind_of(page, no, scope),
            None => {
                let one = kind_of(page, yes, scope)?;
                let other = kind_of(page, no, scope)?;
                Ok(if one == other { one } else { None })
            }
        },
        Term::Reference(_) | Term::Attribute(_, _) | Term::Index(_, _) => {
            kind_of_path(page, term, scope)
        }
        _ => Ok(kind_of_operation(term)),
    }
}

/// Returns of which kind a literal, or what an operator or a function gives, is.
pub(crate) fn kind_of_operation(term: &Term) -> Option<&'static str> {
    match term {
        Term::Number(_) | Term::Unary(Prefix::Negate, _) => Some(NUMBER),
        Term::Truth(_) | Term::Unary(Prefix::Not, _) => Some(TRUTH),
        Term::Null => Some(NULL),
        Term::List(_) => Some(LIST),
        Term::Quoted(template) if template.parts.is_empty() => Some(TEXT),
        Term::Binary(Operator::Add | Operator::Subtract | Operator::Multiply, _, _) => Some(NUMBER),
        Term::Binary(_, _, _) => Some(TRUTH),
        Term::Call(name, _) => Some(given_by(Function::named(name.as_str())?)),
        _ => None,
    }
}

/// Returns of which kind the value of a function is.
fn given_by(function: Function) -> &'static str {
    match function {
        Function::Length => NUMBER,
        Function::Keys | Function::Values | Function::Concat => LIST,
        Function::Merge => MAP,
        Function::Join => TEXT,
        Function::ToSet => SET,
    }
}

/// Returns of which kind a reference, or a part of its value, is.
fn kind_of_path(
    page: &mut Page,
    term: &Term,
    scope: Scope<'_>,
) -> Result<Option<&'static str>, AllocError> {
    if let Term::Reference(reference) = term {
        if is_reference(reference, "count", "index") {
            return Ok(Some(NUMBER));
        }
        let is_value = is_reference(reference, "each", "value") && scope.is_set;
        if is_value || is_reference(reference, "each", "key") {
            return Ok(Some(TEXT));
        }
    }
    match resolve(page, term, scope)? {
        Resolved::Value(shown) => Ok(shown.kind()),
        Resolved::Kind(kind) => Ok(Some(kind)),
        Resolved::Unknown => Ok(None),
    }
}

/// Returns whether a condition is true, if the expression or the files show it.
fn truth_of(page: &mut Page, term: &Term, scope: Scope<'_>) -> Result<Option<bool>, AllocError> {
    match term {
        Term::Truth(truth) => Ok(Some(*truth)),
        _ => match value_of(page, term, scope)? {
            Some(shown) => match shown.first() {
                b't' => Ok(Some(true)),
                b'f' => Ok(Some(false)),
                _ => Ok(None),
            },
            None => Ok(None),
        },
    }
}
