//! Copies, written out since a derived one says nothing of a type that holds itself.

ghost use Rattle.std.specs.Prelude.{◌≡◌, IfOk};
ghost use Rattle.tf_expr_syntax.specs.TemplateNames.{reference_of};
ghost use Rattle.tf_expr_syntax.specs.TemplateTree.{parts_view, template_view, terms_view, view};

use crate::tree::{Reference, Template, Term};
use std::alloc::AllocError;

impl Clone for Template {
    ghost is_clone = { λ v w. template_view w ≡ template_view v };

    fn clone(&self) -> Result<Template, AllocError> {
        copy(self)
    }
}

impl Clone for Term {
    ghost is_clone = { λ v w. view w ≡ view v };

    fn clone(&self) -> Result<Term, AllocError> {
        copy_term(self)
    }
}

impl Clone for Reference {
    ghost is_clone = { λ v w. reference_of w ≡ reference_of v };

    fn clone(&self) -> Result<Reference, AllocError> {
        let first = self.first.clone()?;
        let name = self.name.clone()?;
        Ok(Reference { first, name })
    }
}

/// Returns an equal template.
///
/// # Errors
///
/// Fails only if memory runs out.
#[cycle(copy)]
pub fn copy(template: &Template) -> Result<Template, AllocError>
    ensures { IfOk result (λ t. template_view t ≡ template_view template.now) }
{
    let parts = copy_parts(&template.parts)?;
    let last = template.last.clone()?;
    Ok(Template { parts, last })
}

#[cycle(copy)]
fn copy_term(term: &Term) -> Result<Term, AllocError>
    ensures { IfOk result (λ t. view t ≡ view term.now) }
{
    match term {
        Term::Number(number) => Ok(Term::Number(*number)),
        Term::Truth(truth) => Ok(Term::Truth(*truth)),
        Term::Null => Ok(Term::Null),
        Term::Quoted(template) => Ok(Term::Quoted(copy(template)?)),
        Term::Reference(reference) => Ok(Term::Reference(reference.clone()?)),
        Term::Call(name, terms) => {
            let name = name.clone()?;
            Ok(Term::Call(name, copy_terms(terms)?))
        }
        Term::Group(inner) => Ok(Term::Group(copy_box(inner)?)),
        Term::List(terms) => Ok(Term::List(copy_terms(terms)?)),
        Term::Attribute(inner, name) => {
            let inner = copy_box(inner)?;
            Ok(Term::Attribute(inner, name.clone()?))
        }
        Term::Index(left, right) => {
            let left = copy_box(left)?;
            Ok(Term::Index(left, copy_box(right)?))
        }
        Term::Unary(operator, inner) => Ok(Term::Unary(*operator, copy_box(inner)?)),
        Term::Binary(operator, left, right) => {
            let left = copy_box(left)?;
            Ok(Term::Binary(*operator, left, copy_box(right)?))
        }
        Term::Conditional(condition, yes, no) => {
            let condition = copy_box(condition)?;
            let yes = copy_box(yes)?;
            Ok(Term::Conditional(condition, yes, copy_box(no)?))
        }
    }
}

#[cycle(copy)]
fn copy_box(term: &Box<Term>) -> Result<Box<Term>, AllocError>
    ensures { IfOk result (λ t. view t.value ≡ view term.now.value) }
{
    let copied = copy_term(term)?;
    Ok(Box::new(*Box::allocator(term), copied)?)
}

#[cycle(copy)]
fn copy_terms(terms: &Vec<Term>) -> Result<Vec<Term>, AllocError>
    ensures { IfOk result (λ v. terms_view v.items ≡ terms_view terms.now.items) }
{
    let mut copies = Vec::with_capacity(*terms.allocator(), terms.len())?;
    for term in terms {
        copies.push(copy_term(term)?)?;
    }
    Ok(copies)
}

#[cycle(copy)]
fn copy_parts(parts: &Vec<(String, Term)>) -> Result<Vec<(String, Term)>, AllocError>
    ensures { IfOk result (λ v. parts_view v.items ≡ parts_view parts.now.items) }
{
    let mut copies = Vec::with_capacity(*parts.allocator(), parts.len())?;
    for part in parts {
        let text = part.0.clone()?;
        copies.push((text, copy_term(&part.1)?))?;
    }
    Ok(copies)
}
