//! The parts of an expression, collected.

use std::alloc::{AllocError, Global};
use tf_expr_syntax::{Template, Term};

/// Adds each part of a template's expressions, a whole before its parts.
///
/// # Errors
///
/// Fails only if memory runs out.
#[cycle(terms)]
pub(crate) fn add_template<'a>(
    template: &'a Template,
    found: &mut Vec<&'a Term>,
) -> Result<(), AllocError> {
    for part in &template.parts {
        add_term(&part.1, found)?;
    }
    Ok(())
}

/// Returns how many parts an expression has, with itself.
///
/// # Errors
///
/// Fails only if memory runs out.
pub(crate) fn part_count(alloc: Global, term: &Term) -> Result<usize, AllocError> {
    let mut parts: Vec<&Term> = Vec::new(alloc);
    add_term(term, &mut parts)?;
    Ok(parts.len())
}

#[cycle(terms)]
fn add_term<'a>(term: &'a Term, found: &mut Vec<&'a Term>) -> Result<(), AllocError> {
    found.push(term)?;
    match term {
        Term::Number(_) | Term::Truth(_) | Term::Null | Term::Reference(_) => Ok(()),
        Term::Quoted(template) => add_template(template, found),
        Term::Call(_, terms) | Term::List(terms) => add_terms(terms, found),
        Term::Group(inner) | Term::Attribute(inner, _) | Term::Unary(_, inner) => {
            add_term(inner, found)
        }
        Term::Index(left, right) | Term::Binary(_, left, right) => {
            add_term(left, found)?;
            add_term(right, found)
        }
        Term::Conditional(condition, yes, no) => {
            add_term(condition, found)?;
            add_term(yes, found)?;
            add_term(no, found)
        }
    }
}

#[cycle(terms)]
fn add_terms<'a>(terms: &'a Vec<Term>, found: &mut Vec<&'a Term>) -> Result<(), AllocError> {
    for term in terms {
        add_term(term, found)?;
    }
    Ok(())
}
