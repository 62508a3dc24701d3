//! Scopes of references that were looked up.

ghost use Rattle.std.specs.Prelude.{◌≡◌, IfErr, IfOk, OnOk, map as each, string_bytes};
ghost use Rattle.tf_expr_eval.specs.ExprMeaning.{meaning};
ghost use Rattle.tf_expr_eval.specs.Meaning.{and_then, template_meaning};
ghost use Rattle.tf_expr_operators.specs.Answer.{Shows, limited};
ghost use Rattle.tf_expr_syntax.specs.ExprNames.{named_by};
ghost use Rattle.tf_expr_syntax.specs.ExprTree.{tree_of};
ghost use Rattle.tf_expr_syntax.specs.TemplateNames.{named, reference_of};
ghost use Rattle.tf_expr_syntax.specs.TemplateTree.{template_view};
ghost use Rattle.tf_expr.specs.Looked.{answer_of, answer_to, answers_of, answers_to, bounded_answer, environment_of, is_answered, with_answer};
ghost use Rattle.tf_expr.specs.WithinLimits.{within_limits};
ghost use Rattle.tf_expr_syntax.specs.declared.fault.EvalFault.TheVariants.{OutOfMemory};

use crate::lookup::LookUp;
use std::alloc::Global;
use tf_expr_eval::{Bounded, EvalFault, Scope, meaning_is_local};
use tf_expr_syntax::{Expr, Reference, Template, names_of};
use tf_value_data::Value;

/// A reference, and the value or the fault that a scope gave it.
#[derive(Debug, Drop)]
struct ReferenceAnswer {
    reference: Reference,
    answer: Result<Bounded, EvalFault>,
}

/// The answers of a scope to the references of a template or an expression. It is a `Scope` itself: each of these references
/// has its answer, and any other is `Missing`.
#[derive(Debug, Drop)]
pub struct Looked {
    answers: Vec<ReferenceAnswer>,
}

impl Scope for Looked {
    ghost environment = { environment_of };

    fn look_at<'a>(&'a self, reference: &Reference) -> Result<&'a Value, EvalFault> {
        for answered in &self.answers {
            if answered.reference.first == reference.first
                && answered.reference.name == reference.name
            {
                return lent(&answered.answer);
            }
        }
        Err(EvalFault::Missing)
    }
}

/// Lends the value of an answer.
fn lent(answer: &Result<Bounded, EvalFault>) -> Result<&Value, EvalFault>
    ensures { Shows (and_then (bounded_answer answer.now) limited) result }
{
    match answer {
        Ok(bounded) => Ok(bounded.value()),
        Err(fault) => Err(*fault),
    }
}

/// Looks up each reference of a template once. The template means the same in the result as in the scope.
///
/// # Errors
///
/// Fails only if memory runs out. The fault of a reference is kept, and evaluation reports it only if it reaches the reference.
pub fn looked_up<S: LookUp>(
    alloc: Global,
    template: &Template,
    scope: &S,
) -> Result<Looked, EvalFault>
    ensures meaning { IfOk result (λ l. template_meaning (environment_of l) (template_view template.now) ≡ template_meaning (S.environment scope.now) (template_view template.now)) }
    ensures answers { IfOk result (λ l. answers_of l.answers.items ≡ answers_to (within_limits (S.environment scope.now)) (named (template_view template.now))) }
    ensures fault { IfErr result (λ e. e ≡ OutOfMemory) }
{
    meaning_is_local();
    let names = names_of(alloc, template)?;
    answers_to(alloc, names.references.as_slice(), scope)
}

/// Looks up each reference of an expression once. The expression means the same in the result as in the scope.
///
/// # Errors
///
/// Fails only if memory runs out. The fault of a reference is kept, and evaluation reports it only if it reaches the reference.
pub fn looked_up_expr<S: LookUp>(alloc: Global, expr: &Expr, scope: &S) -> Result<Looked, EvalFault>
    ensures meaning { IfOk result (λ l. meaning (environment_of l) (tree_of expr.now) ≡ meaning (S.environment scope.now) (tree_of expr.now)) }
    ensures answers { IfOk result (λ l. answers_of l.answers.items ≡ answers_to (within_limits (S.environment scope.now)) (named_by (tree_of expr.now))) }
    ensures fault { IfErr result (λ e. e ≡ OutOfMemory) }
{
    meaning_is_local();
    let names = expr.names_within(alloc)?;
    answers_to(alloc, names.references.as_slice(), scope)
}

/// Looks up each of some references once.
fn answers_to<S: LookUp>(
    alloc: Global,
    references: &[&Reference],
    scope: &S,
) -> Result<Looked, EvalFault>
    ensures answers { IfOk result (λ l. answers_of l.answers.items ≡ answers_to (within_limits (S.environment scope.now)) (each (λ r. reference_of r.now) references.now)) }
    ensures fault { IfErr result (λ e. e ≡ OutOfMemory) }
{
    let mut answers = Vec::new(alloc);
    for &reference in references {
        add(alloc, &mut answers, reference, scope)?;
    }
    Ok(Looked { answers })
}

/// Looks up a reference that has no answer yet, and adds its answer.
fn add<S: LookUp>(
    alloc: Global,
    answers: &mut Vec<ReferenceAnswer>,
    reference: &Reference,
    scope: &S,
) -> Result<(), EvalFault>
    ensures answers { OnOk result (answers_of answers.new.items ≡ with_answer (within_limits (S.environment scope.now)) (answers_of answers.old.items) (reference_of reference.now)) }
    ensures fault { IfErr result (λ e. e ≡ OutOfMemory) }
{
    if is_answered(answers, reference) {
        return Ok(());
    }
    let answered = look_up_one(alloc, reference, scope)?;
    answers.push(answered)?;
    Ok(())
}

/// Checks whether a reference has an answer.
fn is_answered(answers: &Vec<ReferenceAnswer>, reference: &Reference) -> bool
    ensures { result ≡ is_answered (answers_of answers.now.items) (string_bytes reference.now.first) (string_bytes reference.now.name) }
{
    for answered in answers {
        if answered.reference.first == reference.first
            && answered.reference.name == reference.name
        {
            return true;
        }
    }
    false
}

/// Looks up a reference.
fn look_up_one<S: LookUp>(
    alloc: Global,
    reference: &Reference,
    scope: &S,
) -> Result<ReferenceAnswer, EvalFault>
    ensures answer { IfOk result (λ a. answer_of a ≡ answer_to (within_limits (S.environment scope.now)) (reference_of reference.now)) }
    ensures fault { IfErr result (λ e. e ≡ OutOfMemory) }
{
    let answer = match scope.look_up(alloc, reference) {
        Ok(value) => Ok(Bounded::of(value)),
        Err(EvalFault::OutOfMemory) => return Err(EvalFault::OutOfMemory),
        Err(fault) => Err(fault),
    };
    let reference = reference.clone()?;
    Ok(ReferenceAnswer { reference, answer })
}
