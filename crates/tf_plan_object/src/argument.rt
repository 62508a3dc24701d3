//! The value that an argument gives the attribute that it names.

ghost use Rattle.std.specs.Fmt.{signed_decimal};
ghost use Rattle.std.specs.Prelude.{◌≡◌, true, IfOk, option_map, string_bytes};
ghost use Rattle.tf_expand_keys.specs.Words.{is_within, may_be_planned, text, tree_of};
ghost use Rattle.tf_expr_syntax.specs.ExprTree.{tree_of as expr_of};
ghost use Rattle.tf_plan_object.specs.Argument.{argument_value, unset_value, set_value, given_value, attribute_value, converted, or_bad_argument};
ghost use Rattle.tf_provider_protocol.specs.declared.schema.Kind.TheVariants as kinds;
ghost use Rattle.tf_plan_object.specs.declared.argument.ValueFault.TheVariants.{OutOfMemory};
ghost use Rattle.tf_plan_object.specs.Gives.{Gives};
ghost use Rattle.tf_provider_protocol.specs.Schema.{attribute_of};

use std::alloc::{AllocError, AllocFailed, Global};
use tf_expr_eval::{EvalFault, Scope, eval_expr, values_are_within_limits};
use tf_expr_syntax::Expr;
use tf_provider_protocol::{Attribute, Kind, Mode};
use tf_value_data::{Value, with_lists};

/// The fault of an argument, or of an attribute that no argument sets.
#[derive(Clone, Copy, Debug, PartialEq, Eq)]
pub enum ArgumentFault {
    /// Its expression has no value.
    Evaluation(EvalFault),
    /// It is missing, names no attribute, sets a computed one, or is of the wrong kind.
    BadArgument,
}

/// Why an argument gives no value: a fault, or out of memory.
#[derive(Clone, Copy, Debug, PartialEq, Eq)]
pub enum ValueFault {
    /// Memory ran out.
    OutOfMemory,
    /// The argument has a fault.
    Argument(ArgumentFault),
}

impl From<AllocError> for ValueFault {
    ghost from_gives = { λ _ e. e ≡ OutOfMemory };

    fn from(_error: AllocError) -> ValueFault {
        ValueFault::OutOfMemory
    }
}

/// Returns an attribute's planned value in a create, from the argument that names it, if there is one, evaluated in the
/// scope.
///
/// # Errors
///
/// Fails with the fault of the argument's evaluation, with `BadArgument` if a required attribute isn't set, a computed
/// one is set, or the value isn't of the attribute's kind, and with `OutOfMemory`.
pub fn attribute_value<S: Scope>(
    alloc: Global,
    attribute: &Attribute,
    argument: Option<&Expr>,
    scope: &S,
) -> Result<Value, ValueFault>
    ensures gives { Gives tree_of result
        (attribute_value (S.environment scope.now) (attribute_of attribute.now) (option_map (λ e. expr_of e.now) argument.entry)) }
    ensures within { IfOk result (λ v. may_be_planned (tree_of v) ≡ true) }
{
    match argument {
        None => unset_value(attribute.mode),
        Some(expr) => {
            let value = argument_value(alloc, expr, scope)?;
            given_value(alloc, attribute.mode, attribute.kind, value)
        }
    }
}

/// Evaluates an argument.
fn argument_value<S: Scope>(alloc: Global, expr: &Expr, scope: &S) -> Result<Value, ValueFault>
    ensures gives { Gives tree_of result (argument_value (S.environment scope.now) (expr_of expr.now)) }
    ensures within { IfOk result (λ v. is_within (tree_of v) ≡ true) }
{
    values_are_within_limits();
    match eval_expr(alloc, expr, scope) {
        Ok(value) => Ok(value),
        Err(EvalFault::OutOfMemory) => Err(ValueFault::OutOfMemory),
        Err(why) => Err(ValueFault::Argument(ArgumentFault::Evaluation(why))),
    }
}

/// Returns the value of an attribute that isn't set. Fails with `BadArgument` if the attribute is required.
fn unset_value(mode: Mode) -> Result<Value, ValueFault>
    ensures gives { Gives tree_of result (unset_value mode) }
    ensures within { IfOk result (λ v. may_be_planned (tree_of v) ≡ true) }
{
    match mode {
        Mode::Required => Err(BAD_ARGUMENT),
        Mode::Optional => Ok(Value::Null),
        Mode::Computed => Ok(Value::Unknown),
    }
}

/// Returns the value of an attribute whose argument has this value. Null means that it isn't set.
fn given_value(alloc: Global, mode: Mode, kind: Kind, value: Value) -> Result<Value, ValueFault>
    ensures gives { Gives tree_of result (given_value mode kind (tree_of value)) }
    ensures within { is_within (tree_of value) ≡ true → IfOk result (λ v. may_be_planned (tree_of v) ≡ true) }
{
    match value {
        Value::Null => unset_value(mode),
        value => set_value(alloc, mode, kind, value),
    }
}

/// Returns the value of an attribute that is set. Fails with `BadArgument` if the attribute is computed.
fn set_value(alloc: Global, mode: Mode, kind: Kind, value: Value) -> Result<Value, ValueFault>
    ensures gives { Gives tree_of result (set_value mode kind (tree_of value)) }
    ensures within { is_within (tree_of value) ≡ true → IfOk result (λ v. may_be_planned (tree_of v) ≡ true) }
{
    match mode {
        Mode::Computed => Err(BAD_ARGUMENT),
        Mode::Required => converted(alloc, kind, value),
        Mode::Optional => converted(alloc, kind, value),
    }
}

/// Converts a value to a kind. For the kind `Any`, each set becomes the list of its texts.
#[tactic(auto, using(crate::proofs::Within::lists_planned))]
fn converted(alloc: Global, kind: Kind, value: Value) -> Result<Value, ValueFault>
    ensures gives { Gives tree_of result (or_bad_argument (converted kind (tree_of value))) }
    ensures within { is_within (tree_of value) ≡ true → IfOk result (λ v. may_be_planned (tree_of v) ≡ true) }
{
    match kind {
        Kind::Any => Ok(with_lists(alloc, value)?),
        Kind::String => as_text(alloc, value),
        Kind::Number => match value {
            Value::Unknown => Ok(Value::Unknown),
            Value::Int(number) => Ok(Value::Int(number)),
            _ => Err(BAD_ARGUMENT),
        },
        Kind::Bool => match value {
            Value::Unknown => Ok(Value::Unknown),
            Value::Bool(truth) => Ok(Value::Bool(truth)),
            _ => Err(BAD_ARGUMENT),
        },
    }
}

#[tactic(auto, using(crate::proofs::Within::text_planned))]
fn as_text(alloc: Global, value: Value) -> Result<Value, ValueFault>
    ensures gives { Gives tree_of result (or_bad_argument (converted kinds.String (tree_of value))) }
    ensures within { is_within (tree_of value) ≡ true → IfOk result (λ v. may_be_planned (tree_of v) ≡ true) }
{
    match value {
        Value::Unknown => Ok(Value::Unknown),
        Value::Text(text) => Ok(Value::Text(text)),
        Value::Int(number) => Ok(Value::Text(decimal(alloc, number)?)),
        Value::Bool(true) => Ok(Value::Text(String::from_str(alloc, "true")?)),
        Value::Bool(false) => Ok(Value::Text(String::from_str(alloc, "false")?)),
        Value::Null => Err(BAD_ARGUMENT),
        Value::List(_) => Err(BAD_ARGUMENT),
        Value::Map(_) => Err(BAD_ARGUMENT),
        Value::Set(_) => Err(BAD_ARGUMENT),
    }
}

fn decimal(alloc: Global, number: i64) -> Result<String, AllocError>
    ensures text { IfOk result (λ s. string_bytes s ≡ signed_decimal number) }
    ensures within { IfOk result (λ s. may_be_planned (text (string_bytes s)) ≡ true) }
{
    let text = number.to_string(alloc)?;
    Ok(text)
}

const BAD_ARGUMENT: ValueFault = ValueFault::Argument(ArgumentFault::BadArgument);
