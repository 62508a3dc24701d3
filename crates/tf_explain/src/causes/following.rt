//! The values to which operands lead: through variables, locals and configured arguments.

use crate::blocks::{block, declaration, lifecycle_setting};
use crate::causes::evaluation::{is_alone, template_at};
use crate::causes::kinds::kind_of_operation;
use crate::causes::scope::Scope;
use crate::causes::values::{NUMBER, Shown, TEXT, Written, number_at, value_of_variable};
use crate::decoding::{decoded, text_in};
use crate::page::Page;
use crate::positions::{Member, member_named};
use crate::sources::SourceFile;
use std::alloc::AllocError;
use tf_expr_syntax::{Reference, Template, Term};
use tf_provider_protocol::{Mode, schema_for};

/// The most steps that are taken to a value.
const MOST_STEPS: usize = 64;

/// A step from a value to a part of it.
#[derive(Drop)]
enum Step {
    Key(String),
    Index(u64),
}

/// What an operand leads to.
#[derive(Clone, Copy)]
pub(crate) enum Resolved<'s> {
    /// A value that a file shows.
    Value(Shown<'s>),
    /// What an operation gives that is the whole value of a local or an argument: its kind, in words.
    Kind(&'static str),
    /// Something that the files don't show.
    Unknown,
}

/// Returns the value that an operand has, if the files show it. The operand is a variable, a local or an argument of a resource, or
/// a part of one. If that is a text with one interpolation, its value is that of the interpolation.
///
/// # Errors
///
/// Fails only if memory runs out.
pub(crate) fn value_of<'s>(
    page: &mut Page,
    term: &Term,
    scope: Scope<'s>,
) -> Result<Option<Shown<'s>>, AllocError> {
    match resolve(page, term, scope)? {
        Resolved::Value(shown) => Ok(Some(shown)),
        _ => Ok(None),
    }
}

/// Returns what an operand leads to.
///
/// # Errors
///
/// Fails only if memory runs out.
pub(crate) fn resolve<'s>(
    page: &mut Page,
    term: &Term,
    scope: Scope<'s>,
) -> Result<Resolved<'s>, AllocError> {
    let mut steps: Vec<Step> = Vec::new(page.alloc);
    match begin(page, &mut steps, term, scope)? {
        Some(first) => walk(page, &mut steps, first, scope),
        None => Ok(Resolved::Unknown),
    }
}

/// Returns what the value of a text of the configuration, or a part of it, leads to.
///
/// # Errors
///
/// Fails only if memory runs out.
pub(crate) fn resolve_at<'s>(
    page: &mut Page,
    first: Shown<'s>,
    scope: Scope<'s>,
) -> Result<Resolved<'s>, AllocError> {
    let mut steps: Vec<Step> = Vec::new(page.alloc);
    walk(page, &mut steps, first, scope)
}

/// Follows a value and the steps that are left, the last one first.
fn walk<'s>(
    page: &mut Page,
    steps: &mut Vec<Step>,
    first: Shown<'s>,
    scope: Scope<'s>,
) -> Result<Resolved<'s>, AllocError> {
    let mut at = first;
    for _ in 0..MOST_STEPS {
        match next(page, steps, at, scope)? {
            Ok(next) => at = next,
            Err(end) => return Ok(end),
        }
    }
    Ok(Resolved::Unknown)
}

/// Returns the next value on the way, or else what the way leads to.
fn next<'s>(
    page: &mut Page,
    steps: &mut Vec<Step>,
    at: Shown<'s>,
    scope: Scope<'s>,
) -> Result<Result<Shown<'s>, Resolved<'s>>, AllocError> {
    if let Some(template) = followed(page, at)? {
        return within(page, steps, &template, inner_scope(at, scope));
    }
    let Some(step) = steps.pop() else {
        return Ok(Err(Resolved::Value(at)));
    };
    let part = match &step {
        Step::Key(key) => at.at_key(key.as_str()),
        Step::Index(index) => at.at_index(page.alloc, *index)?,
    };
    Ok(part.ok_or(Resolved::Unknown))
}

/// Returns what is known in the text of a value. `count.index` and the like are of another instance in an argument.
fn inner_scope<'s>(at: Shown<'s>, scope: Scope<'s>) -> Scope<'s> {
    match at.written {
        Written::AsArgument => Scope::of(scope.sources),
        _ => scope,
    }
}

/// Returns the template of a value that is a text with one interpolation.
fn followed(page: &Page, at: Shown<'_>) -> Result<Option<Template>, AllocError> {
    let is_template = matches!(at.written, Written::AsExpression | Written::AsArgument);
    if !is_template || at.first() != b'"' {
        return Ok(None);
    }
    match template_at(page.alloc, at.span, at.file.bytes)? {
        Some(template) if is_alone(&template) && !template.parts.is_empty() => Ok(Some(template)),
        _ => Ok(None),
    }
}

/// Follows the interpolation of a template.
fn within<'s>(
    page: &mut Page,
    steps: &mut Vec<Step>,
    template: &Template,
    scope: Scope<'s>,
) -> Result<Result<Shown<'s>, Resolved<'s>>, AllocError> {
    let Some(part) = template.parts.first() else {
        return Ok(Err(Resolved::Unknown));
    };
    let is_last = steps.is_empty();
    if let Some(next) = begin(page, steps, &part.1, scope)? {
        return Ok(Ok(next));
    }
    match kind_of_operation(&part.1) {
        Some(kind) if is_last => Ok(Err(Resolved::Kind(kind))),
        _ => Ok(Err(Resolved::Unknown)),
    }
}

/// Returns the value of the reference at which an operand begins, and adds the steps after it, the last one first.
#[cycle(begin)]
fn begin<'s>(
    page: &mut Page,
    steps: &mut Vec<Step>,
    term: &Term,
    scope: Scope<'s>,
) -> Result<Option<Shown<'s>>, AllocError> {
    match term {
        Term::Reference(reference) => Ok(value_of_reference(page, reference, scope)),
        Term::Group(inner) => begin(page, steps, inner, scope),
        Term::Attribute(inner, name) => match resource_of(inner) {
            Some(reference) if is_of_resource(reference) => {
                Ok(argument_of(page, reference, name.as_str(), scope))
            }
            _ => {
                steps.push(Step::Key(name.clone()?))?;
                begin(page, steps, inner, scope)
            }
        },
        Term::Index(inner, place) => match step_of(page, place, scope)? {
            Some(step) => {
                steps.push(step)?;
                begin(page, steps, inner, scope)
            }
            None => Ok(None),
        },
        _ => Ok(None),
    }
}

/// Returns the step of an index.
fn step_of(page: &mut Page, place: &Term, scope: Scope<'_>) -> Result<Option<Step>, AllocError> {
    match place {
        Term::Number(index) => Ok(Some(Step::Index(*index))),
        Term::Quoted(template) if template.parts.is_empty() => {
            Ok(Some(Step::Key(template.last.clone()?)))
        }
        Term::Reference(reference) => step_of_reference(page, reference, scope),
        _ => Ok(None),
    }
}

/// Returns the step of an index that is a reference.
fn step_of_reference(
    page: &mut Page,
    reference: &Reference,
    scope: Scope<'_>,
) -> Result<Option<Step>, AllocError> {
    if is_reference(reference, "count", "index") {
        return Ok(scope.index.map(|index| Step::Index(index)));
    }
    if is_reference(reference, "each", "key") {
        return match scope.key {
            Some(raw) => Ok(Some(Step::Key(decoded(page.alloc, raw)?))),
            None => Ok(None),
        };
    }
    let Some(shown) = value_of_reference(page, reference, scope) else {
        return Ok(None);
    };
    match shown.kind() {
        Some(TEXT) if shown.first() == b'"' => {
            Ok(Some(Step::Key(text_in(page.alloc, shown.file.bytes, shown.span)?)))
        }
        Some(NUMBER) => Ok(number_at(shown.file.bytes, shown.span).map(|index| Step::Index(index))),
        _ => Ok(None),
    }
}

/// Returns whether a reference has these names.
pub(crate) fn is_reference(reference: &Reference, first: &str, name: &str) -> bool {
    reference.first.as_str() == first && reference.name.as_str() == name
}

/// Returns the value of a variable, of a local or of `each.value`.
fn value_of_reference<'s>(
    page: &mut Page,
    reference: &Reference,
    scope: Scope<'s>,
) -> Option<Shown<'s>> {
    let config = scope.sources.config;
    let name = reference.name.as_str();
    match reference.first.as_str() {
        "local" if page.may_read(config.bytes.len()) => {
            let local = declaration(config.bytes, "locals", name)?;
            Some(Shown::expression(config, local.value))
        }
        "var" if page.may_read(config.bytes.len()) => value_of_variable(name, scope.sources),
        "each" if name == "value" => scope.each,
        _ => None,
    }
}

/// Returns the resource of which an operand is an instance.
pub(crate) fn resource_of(term: &Term) -> Option<&Reference> {
    match term {
        Term::Reference(reference) => Some(reference),
        Term::Index(inner, _) => match &**inner {
            Term::Reference(reference) => Some(reference),
            _ => None,
        },
        _ => None,
    }
}

/// Returns whether a reference can be to a resource.
fn is_of_resource(reference: &Reference) -> bool {
    !matches!(reference.first.as_str(), "var" | "local" | "count" | "each")
}

/// Returns the value of an attribute of a resource that is an argument: what is configured, or null if nothing is.
fn argument_of<'s>(
    page: &mut Page,
    reference: &Reference,
    name: &str,
    scope: Scope<'s>,
) -> Option<Shown<'s>> {
    let config = scope.sources.config;
    if !page.may_read(config.bytes.len()) {
        return None;
    }
    let type_name = reference.first.as_str();
    let found = block(config.bytes, type_name, reference.name.as_str())?;
    let attribute = schema_for(scope.sources.providers, type_name)?.attribute(name)?;
    if lifecycle_setting(config.bytes, found, "ignore_changes").is_some() {
        return None;
    }
    match attribute.mode {
        Mode::Computed => None,
        Mode::Required | Mode::Optional => argument_in(config, found, name, attribute.mode),
    }
}

/// Returns the value of an argument in a block, or null if it is optional and the block leaves it out.
fn argument_in<'s>(
    config: SourceFile<'s>,
    block: Member,
    name: &str,
    mode: Mode,
) -> Option<Shown<'s>> {
    let (span, written) = match member_named(config.bytes, block.value, name) {
        Some(argument) => (argument.value, Written::AsArgument),
        None => (block.name, Written::LeftOut),
    };
    if written == Written::LeftOut && mode == Mode::Required {
        return None;
    }
    Some(Shown {
        file: config,
        span,
        written,
    })
}
