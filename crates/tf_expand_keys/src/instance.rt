//! What the arguments of one instance see.

ghost use Rattle.std.specs.Prelude.{◌≡◌, IfOk, Ok, [], ◌∷◌, pos, string_bytes};
ghost use Rattle.tf_config_data.specs.Words.{instance_key_of, repetition_of};
ghost use Rattle.tf_expr_operators.specs.Answer.{Gives, whole_value};
ghost use Rattle.tf_value_data.specs.Tree.{tree_of};
ghost use Rattle.tf_expr_eval.specs.Answering.{GivesAs};
ghost use Rattle.tf_expr_eval.specs.Constants.{ConstantView, constant_of, constants_of};
ghost use Rattle.tf_expr_eval.specs.Meaning.{and_then};
ghost use Rattle.tf_expand_keys.specs.Instance.{bound, count_index, each_key, each_value, instance_constants as constants_at, is_set, value_under};

use std::alloc::{AllocError, Global};
use tf_config_address::InstanceKey;
use tf_config_data::Repetition;
use tf_expr_eval::{Constant, Constants, EvalFault, Scope, find_expr};
use tf_expr_operators::limited_at;
use tf_expr_syntax::Reference;
use tf_value_data::Value;

/// Constants, and a scope around them in which all other references are looked up.
#[derive(Drop)]
pub struct InstanceScope<'a, S> {
    /// The constants.
    pub constants: &'a Constants,
    /// The scope of all other references.
    pub around: &'a S,
}

impl<S: Scope> Scope for InstanceScope<'_, S> {
    ghost environment = { λ s. bound (constants_of s.constants.now) (S.environment s.around.now) };

    fn look_at<'s>(&'s self, reference: &Reference) -> Result<&'s Value, EvalFault> {
        for constant in &self.constants.constants {
            if constant.reference.first == reference.first
                && constant.reference.name == reference.name
            {
                return limited_at(&constant.value);
            }
        }
        self.around.look_at(reference)
    }
}

/// Builds the constants of an instance: `count.index` for one with a number, `each.key` and `each.value` for one with a
/// name.
///
/// # Errors
///
/// Fails with the fault of `for_each`, which is evaluated for `each.value`, with `Missing` if its value has nothing
/// under the key, with `Overflow` if the number exceeds the whole numbers, and with `OutOfMemory`.
pub fn instance_constants<S: Scope>(
    alloc: Global,
    repetition: &Repetition,
    key: &InstanceKey,
    scope: &S,
) -> Result<Constants, EvalFault>
    ensures { GivesAs constants_of (constants_at (repetition_of repetition.now) (instance_key_of key.now) (S.environment scope.now)) result }
{
    match (repetition, key) {
        (Repetition::Count(_), InstanceKey::Number(number)) => numbered(alloc, *number),
        (Repetition::ForEach(expr), InstanceKey::Name(name)) => {
            let all = find_expr(alloc, expr, scope)?;
            named(alloc, name, value_at(all.value(), name)?)
        }
        _ => Ok(Constants {
            constants: Vec::new(alloc),
        }),
    }
}

/// Returns `count.index` of the instance with this number.
fn numbered(alloc: Global, number: u64) -> Result<Constants, EvalFault>
    ensures { GivesAs constants_of (and_then (whole_value (pos number)) (λ t. Ok (count_index t ∷ []))) result }
{
    let index = whole(number)?;
    Ok(Constants {
        constants: vec![in alloc; constant(alloc, "count", "index", index)?]?,
    })
}

/// Returns a whole number as a value.
fn whole(number: u64) -> Result<Value, EvalFault>
    ensures { Gives (whole_value (pos number)) result }
{
    match i64::try_from(number) {
        Ok(number) => Ok(Value::Int(number)),
        Err(_) => Err(EvalFault::Overflow),
    }
}

/// Returns what the value of `for_each` has under a key.
fn value_at(all: &Value, key: &String) -> Result<Value, EvalFault>
    ensures { Gives (value_under (string_bytes key.now) (tree_of all.now)) result }
{
    if is_set(all) {
        return Ok(Value::Text(key.clone()?));
    }
    match all.get(key.as_str()) {
        Some(value) => Ok(value.clone()?),
        None => Err(EvalFault::Missing),
    }
}

fn is_set(value: &Value) -> bool
    ensures { result ≡ is_set (tree_of value.now) }
{
    matches!(value, Value::Set(_))
}

/// Returns `each.key` and `each.value` of an instance.
fn named(alloc: Global, key: &String, value: Value) -> Result<Constants, EvalFault>
    ensures { GivesAs constants_of (Ok (each_key (string_bytes key.now) ∷ each_value (tree_of value) ∷ [])) result }
{
    let key = constant(alloc, "each", "key", Value::Text(key.clone()?))?;
    let value = constant(alloc, "each", "value", value)?;
    Ok(Constants {
        constants: vec![in alloc; key, value]?,
    })
}

/// Builds the constant with a value under a name.
fn constant(alloc: Global, first: &str, name: &str, value: Value) -> Result<Constant, AllocError>
    ensures { IfOk result (λ c. constant_of c ≡ record { first = first.now; name = name.now; value = tree_of value }) }
{
    let reference = Reference {
        first: String::from_str(alloc, first)?,
        name: String::from_str(alloc, name)?,
    };
    Ok(Constant { reference, value })
}
