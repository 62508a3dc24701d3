//! The names and calls in a template.

ghost use Rattle.std.specs.Prelude.{◌≡◌, [], ◌∷◌, ◌++◌, IfOk, OnOk, map, string_bytes};
ghost use Rattle.tf_expr_syntax.specs.Adding.{Adds};
ghost use Rattle.tf_expr_syntax.specs.TemplateNames.{called, called_among, called_between, called_by, named, named_among, named_between, named_by, reference_of};
ghost use Rattle.tf_expr_syntax.specs.TemplateTree.{parts_view, template_view, terms_view, view};

use crate::tree::{Reference, Template, Term};
use std::alloc::{AllocError, Global};

/// What a template names and calls, by reference: no text of it is copied.
#[derive(Drop)]
pub struct Names<'a> {
    /// Each reference, from left to right, with repetition.
    pub references: Vec<&'a Reference>,
    /// The name of each function that is called, from left to right, with repetition. A call comes before the calls
    /// among its arguments.
    pub functions: Vec<&'a String>,
}

impl<'a> Names<'a> {
    ghost use Rattle.std.specs.Prelude.{◌≡◌, []};

    /// Returns the empty collection.
    pub(crate) fn new(alloc: Global) -> Names<'a>
        ensures named { result.references.items ≡ [] }
        ensures called { result.functions.items ≡ [] }
    {
        Names {
            references: Vec::new(alloc),
            functions: Vec::new(alloc),
        }
    }
}

/// Returns what a template names and calls.
///
/// # Errors
///
/// Fails only if memory runs out.
pub fn names_of<'a>(alloc: Global, template: &'a Template) -> Result<Names<'a>, AllocError>
    ensures named { IfOk result (λ n. map (λ r. reference_of r.now) n.references.items ≡ named (template_view template.now)) }
    ensures called { IfOk result (λ n. map (λ f. string_bytes f.now) n.functions.items ≡ called (template_view template.now)) }
{
    let mut found = Names::new(alloc);
    add_parts(&template.parts, &mut found)?;
    Ok(found)
}

/// Returns copies of the references of a template, from left to right, with repetition.
///
/// # Errors
///
/// Fails only if memory runs out.
pub fn references(alloc: Global, template: &Template) -> Result<Vec<Reference>, AllocError>
    ensures { IfOk result (λ v. map reference_of v.items ≡ named (template_view template.now)) }
{
    let names = names_of(alloc, template)?;
    copied_references(alloc, names.references.as_slice())
}

/// Returns copies of the names of the functions that a template calls, from left to right, with repetition. A call
/// comes before the calls among its arguments.
///
/// # Errors
///
/// Fails only if memory runs out.
pub fn functions(alloc: Global, template: &Template) -> Result<Vec<String>, AllocError>
    ensures { IfOk result (λ v. map string_bytes v.items ≡ called (template_view template.now)) }
{
    let names = names_of(alloc, template)?;
    copied_texts(alloc, names.functions.as_slice())
}

/// Copies references.
pub(crate) fn copied_references(
    alloc: Global,
    references: &[&Reference],
) -> Result<Vec<Reference>, AllocError>
    ensures { IfOk result (λ v. map reference_of v.items ≡ map (λ r. reference_of r.now) references.now) }
{
    let mut copies = Vec::with_capacity(alloc, references.len())?;
    for &reference in references {
        copies.push(reference.clone()?)?;
    }
    Ok(copies)
}

/// Copies texts.
pub(crate) fn copied_texts(alloc: Global, texts: &[&String]) -> Result<Vec<String>, AllocError>
    ensures { IfOk result (λ v. map string_bytes v.items ≡ map (λ t. string_bytes t.now) texts.now) }
{
    let mut copies = Vec::with_capacity(alloc, texts.len())?;
    for &text in texts {
        copies.push(text.clone()?)?;
    }
    Ok(copies)
}

#[cycle(names)]
fn add<'a>(term: &'a Term, found: &mut Names<'a>) -> Result<(), AllocError>
    ensures { OnOk result (Adds found.old found.new (named_by (view term.now)) (called_by (view term.now))) }
{
    match term {
        Term::Number(_) | Term::Truth(_) | Term::Null => Ok(()),
        Term::Quoted(template) => add_parts(&template.parts, found),
        Term::Reference(reference) => add_reference(reference, found),
        Term::Call(name, terms) => {
            add_function(name, found)?;
            add_terms(terms, found)
        }
        Term::List(terms) => add_terms(terms, found),
        Term::Group(inner) | Term::Attribute(inner, _) | Term::Unary(_, inner) => add(inner, found),
        Term::Index(left, right) | Term::Binary(_, left, right) => {
            add(left, found)?;
            add(right, found)
        }
        Term::Conditional(condition, yes, no) => {
            add(condition, found)?;
            add(yes, found)?;
            add(no, found)
        }
    }
}

#[cycle(names)]
fn add_terms<'a>(terms: &'a Vec<Term>, found: &mut Names<'a>) -> Result<(), AllocError>
    ensures { OnOk result (Adds found.old found.new (named_among (terms_view terms.now.items)) (called_among (terms_view terms.now.items))) }
{
    for term in terms {
        add(term, found)?;
    }
    Ok(())
}

/// Adds the names and calls in interpolations.
#[cycle(names)]
pub(crate) fn add_parts<'a>(
    parts: &'a Vec<(String, Term)>,
    found: &mut Names<'a>,
) -> Result<(), AllocError>
    ensures { OnOk result (Adds found.old found.new (named_between (parts_view parts.now.items)) (called_between (parts_view parts.now.items))) }
{
    for part in parts {
        add(&part.1, found)?;
    }
    Ok(())
}

fn add_reference<'a>(reference: &'a Reference, found: &mut Names<'a>) -> Result<(), AllocError>
    ensures named { OnOk result (map (λ r. reference_of r.now) found.new.references.items
        ≡ map (λ r. reference_of r.now) found.old.references.items ++ reference_of reference.now ∷ []) }
    ensures called { found.new.functions ≡ found.old.functions }
{
    found.references.push(reference)?;
    Ok(())
}

fn add_function<'a>(name: &'a String, found: &mut Names<'a>) -> Result<(), AllocError>
    ensures named { found.new.references ≡ found.old.references }
    ensures called { OnOk result (map (λ f. string_bytes f.now) found.new.functions.items
        ≡ map (λ f. string_bytes f.now) found.old.functions.items ++ string_bytes name.now ∷ []) }
{
    found.functions.push(name)?;
    Ok(())
}
