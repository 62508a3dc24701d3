//! Evaluation.

ghost use Rattle.std.specs.Prelude.{◌≡◌, map as each, pos, string_bytes};
ghost use Rattle.tf_expr_syntax.specs.TemplateTree.{template_view, view, terms_view, parts_view};
ghost use Rattle.tf_expr_operators.specs.Answer.{Gives, whole_value};
ghost use Rattle.tf_expr_operators.specs.Found.{Finds, found_tree};
ghost use Rattle.tf_expr_syntax.specs.Function.{function_named};
ghost use Rattle.tf_expr_eval.specs.Answering.{GivesAs, GivesJoined};
ghost use Rattle.tf_expr_eval.specs.Meaning.{between, called, choice, count, meaning, meanings, stands_alone, template_meaning};

use crate::scope::Scope;
use std::alloc::Global;
use tf_expr_operators::{
    EvalFault, Found, Function, Joiner, attribute_of, binary_of, call, index_of, list_of, made,
    owned, unary_of,
};
use tf_expr_syntax::{Template, Term};
use tf_value_data::Value;

/// Evaluates a template in a scope.
///
/// # Errors
///
/// Fails with the first fault of its parts from left to right, or with `OutOfMemory`.
pub fn eval<S: Scope>(alloc: Global, template: &Template, scope: &S) -> Result<Value, EvalFault>
    ensures { Gives (template_meaning (S.environment scope.now) (template_view template.now)) result }
{
    let found = find(alloc, template, scope)?;
    Ok(owned(found)?)
}

/// Evaluates a template in a scope without copying values that the scope owns.
///
/// # Errors
///
/// Fails with the first fault of its parts from left to right, or with `OutOfMemory`.
#[cycle(eval)]
pub fn find<'a, S: Scope>(
    alloc: Global,
    template: &Template,
    scope: &'a S,
) -> Result<Found<'a>, EvalFault>
    ensures { Finds (template_meaning (S.environment scope.now) (template_view template.now)) result }
{
    woven_value(alloc, &template.parts, template.last.as_str(), scope)
}

/// Evaluates a template of interpolations and the text after the last.
#[cycle(eval)]
fn woven_value<'a, S: Scope>(
    alloc: Global,
    parts: &Vec<(String, Term)>,
    last: &str,
    scope: &'a S,
) -> Result<Found<'a>, EvalFault>
    ensures { Finds (template_meaning (S.environment scope.now) (parts_view parts.now.items, last.now)) result }
{
    if stand_alone(parts, last) {
        return term_value(alloc, &parts[0].1, scope);
    }
    let mut joiner = Joiner::new(alloc);
    join_parts(alloc, parts, scope, &mut joiner)?;
    joiner.push_text(last)?;
    made(joiner.finish())
}

/// Returns whether there is exactly one interpolation, without any text around it.
fn stand_alone(parts: &Vec<(String, Term)>, last: &str) -> bool
    ensures { result ≡ stands_alone (parts_view parts.now.items) last.now }
{
    if parts.len() != 1 {
        return false;
    }
    if !last.is_empty() {
        return false;
    }
    parts[0].0.is_empty()
}

/// Appends texts and the values of the interpolations after them to a joiner.
#[cycle(eval)]
fn join_parts<S: Scope>(
    alloc: Global,
    parts: &Vec<(String, Term)>,
    scope: &S,
    joiner: &mut Joiner,
) -> Result<(), EvalFault>
    ensures { GivesJoined (between (S.environment scope.now) (parts_view parts.now.items)) joiner.old joiner.new result }
{
    for part in parts {
        joiner.push_text(part.0.as_str())?;
        let value = term_value(alloc, &part.1, scope)?;
        joiner.push_value(value.value())?;
    }
    Ok(())
}

/// Evaluates an expression. The value is borrowed or made.
#[cycle(eval)]
fn term_value<'a, S: Scope>(
    alloc: Global,
    term: &Term,
    scope: &'a S,
) -> Result<Found<'a>, EvalFault>
    ensures { Finds (meaning (S.environment scope.now) (view term.now)) result }
{
    match term {
        Term::Number(number) => Ok(Found::Made(whole(*number)?)),
        Term::Truth(truth) => Ok(Found::Made(Value::Bool(*truth))),
        Term::Null => Ok(Found::Made(Value::Null)),
        Term::Quoted(template) => find(alloc, template, scope),
        Term::Reference(reference) => Ok(Found::At(scope.look_at(reference)?)),
        Term::Call(name, terms) => call_value(alloc, name.as_str(), terms, scope),
        Term::Group(inner) => term_value(alloc, inner, scope),
        Term::List(terms) => list_of(alloc, term_values(alloc, terms, scope)?),
        Term::Attribute(inner, name) => {
            attribute_of(term_value(alloc, inner, scope)?, name.as_str())
        }
        Term::Index(left, right) => {
            let value = term_value(alloc, left, scope)?;
            index_of(value, term_value(alloc, right, scope)?)
        }
        Term::Unary(prefix, inner) => unary_of(*prefix, term_value(alloc, inner, scope)?),
        Term::Binary(operator, left, right) => {
            let value = term_value(alloc, left, scope)?;
            binary_of(*operator, value, term_value(alloc, right, scope)?)
        }
        Term::Conditional(condition, yes, no) => {
            let Some(is_met) = choice(term_value(alloc, condition, scope)?)? else {
                return Ok(Found::Made(Value::Unknown));
            };
            if is_met {
                return term_value(alloc, yes, scope);
            }
            term_value(alloc, no, scope)
        }
    }
}

/// Returns whether a condition is met; `None` if that isn't known yet.
fn choice(condition: Found<'_>) -> Result<Option<bool>, EvalFault>
    ensures { result ≡ choice (found_tree condition.entry) }
{
    match condition.value() {
        Value::Bool(is_met) => Ok(Some(*is_met)),
        Value::Unknown => Ok(None),
        Value::Null => Err(EvalFault::WrongKind),
        Value::Int(_) => Err(EvalFault::WrongKind),
        Value::Text(_) => Err(EvalFault::WrongKind),
        Value::List(_) => Err(EvalFault::WrongKind),
        Value::Map(_) => Err(EvalFault::WrongKind),
        Value::Set(_) => Err(EvalFault::WrongKind),
    }
}

/// Returns the value of a number.
fn whole(number: u64) -> Result<Value, EvalFault>
    ensures { Gives (whole_value (pos number)) result }
{
    match i64::try_from(number) {
        Ok(number) => Ok(Value::Int(number)),
        Err(_) => Err(EvalFault::Overflow),
    }
}

/// Evaluates a call.
#[cycle(eval)]
fn call_value<'a, S: Scope>(
    alloc: Global,
    name: &str,
    terms: &Vec<Term>,
    scope: &'a S,
) -> Result<Found<'a>, EvalFault>
    ensures { Finds (called (function_named name.now) (count (terms_view terms.now.items)) (meanings (S.environment scope.now) (terms_view terms.now.items))) result }
{
    let Some(function) = Function::named(name) else {
        return Err(EvalFault::Missing);
    };
    if !function.takes(terms.len()) {
        return Err(EvalFault::Arity);
    }
    made(call(alloc, function, term_values(alloc, terms, scope)?))
}

/// Evaluates a sequence of expressions.
#[cycle(eval)]
fn term_values<'a, S: Scope>(
    alloc: Global,
    terms: &Vec<Term>,
    scope: &'a S,
) -> Result<Vec<Found<'a>>, EvalFault>
    ensures { GivesAs (λ v. each found_tree v.items) (meanings (S.environment scope.now) (terms_view terms.now.items)) result }
{
    let mut values = Vec::with_capacity(alloc, terms.len())?;
    for term in terms {
        values.push(term_value(alloc, term, scope)?)?;
    }
    Ok(values)
}
