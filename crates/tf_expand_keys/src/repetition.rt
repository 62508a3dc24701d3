//! How many instances a resource has, and under which keys.

ghost use Rattle.std.specs.Prelude.{◌≡◌, IfOk, Ok, map as each, option_map, string_bytes};
ghost use Rattle.tf_config_data.specs.Config.{repetition_of};
ghost use Rattle.tf_value_data.specs.Tree.{entries_view, keys_of, texts_view, tree_of};
ghost use Rattle.tf_expand_keys.specs.Repetition.{counted as counted_shape, instances as instances_in, keyed as keyed_shape, names_in};
ghost use Rattle.tf_expand_keys.specs.Views.{worked_out};

use crate::evaluation::valued;
use crate::shape::InstanceKeys;
use std::alloc::{AllocError, Global};
use std::collections::{BTreeMap, BTreeSet};
use tf_config_data::Repetition;
use tf_expr_eval::{EvalFault, Scope};
use tf_value_data::Value;

/// Why the instances of a resource can't be computed.
#[derive(Clone, Copy, Debug, PartialEq, Eq)]
pub enum RepetitionFault {
    /// `count` isn't a whole number of 0 or more.
    BadCount,
    /// `for_each` is neither a map nor a set of texts.
    BadForEach,
    /// `count` or `for_each` isn't known yet.
    UnknownInstances,
    /// `count` or `for_each` can't be evaluated.
    Evaluation(EvalFault),
}

/// Computes the instance keys of a resource in a scope, or why it is refused.
///
/// # Errors
///
/// Fails only if memory runs out.
pub(crate) fn instances<S: Scope>(
    alloc: Global,
    repetition: &Repetition,
    scope: &S,
) -> Result<Result<InstanceKeys, RepetitionFault>, AllocError>
    ensures { IfOk result (λ shape. worked_out shape ≡ instances_in (repetition_of repetition.now) (S.environment scope.now)) }
{
    match repetition {
        Repetition::Single => Ok(Ok(InstanceKeys::One)),
        Repetition::Count(expr) => match valued(alloc, expr, scope)? {
            Ok(found) => Ok(counted(found.value())),
            Err(fault) => Ok(Err(RepetitionFault::Evaluation(fault))),
        },
        Repetition::ForEach(expr) => match valued(alloc, expr, scope)? {
            Ok(found) => keyed(alloc, found.value()),
            Err(fault) => Ok(Err(RepetitionFault::Evaluation(fault))),
        },
    }
}

/// Returns the instances of a `count` with this value.
fn counted(value: &Value) -> Result<InstanceKeys, RepetitionFault>
    ensures { worked_out result ≡ counted_shape (Ok (tree_of value.now)) }
{
    match value {
        Value::Unknown => Err(RepetitionFault::UnknownInstances),
        Value::Int(number) => match u64::try_from(*number) {
            Ok(count) => Ok(InstanceKeys::Many(count)),
            Err(_) => Err(RepetitionFault::BadCount),
        },
        _ => Err(RepetitionFault::BadCount),
    }
}

/// Returns the instances of a `for_each` with this value.
fn keyed(alloc: Global, value: &Value) -> Result<Result<InstanceKeys, RepetitionFault>, AllocError>
    ensures { IfOk result (λ shape. worked_out shape ≡ keyed_shape (Ok (tree_of value.now))) }
{
    if matches!(value, Value::Unknown) {
        return Ok(Err(RepetitionFault::UnknownInstances));
    }
    match names(alloc, value)? {
        Some(names) => Ok(Ok(InstanceKeys::Named(names))),
        None => Ok(Err(RepetitionFault::BadForEach)),
    }
}

/// Returns the keys of a map or the texts of a set, or `None` for other values, which `for_each` doesn't accept.
fn names(alloc: Global, value: &Value) -> Result<Option<Vec<String>>, AllocError>
    ensures { IfOk result (λ names. option_map (λ v. each string_bytes v.items) names ≡ names_in (tree_of value.now)) }
{
    match value {
        Value::Map(entries) => Ok(Some(keys(alloc, entries)?)),
        Value::Set(set) => Ok(Some(texts(alloc, set)?)),
        _ => Ok(None),
    }
}

/// Returns the keys of a map.
fn keys(alloc: Global, entries: &BTreeMap<String, Value>) -> Result<Vec<String>, AllocError>
    ensures { IfOk result (λ names. each string_bytes names.items ≡ keys_of (entries_view entries.now.entries)) }
{
    let mut names = Vec::new(alloc);
    for (name, _) in entries.iter() {
        names.push(name.clone()?)?;
    }
    Ok(names)
}

/// Copies the texts of a set into a list, in byte order.
fn texts(alloc: Global, set: &BTreeSet<String>) -> Result<Vec<String>, AllocError>
    ensures { IfOk result (λ names. each string_bytes names.items ≡ texts_view set.now.keys) }
{
    let mut names = Vec::new(alloc);
    for text in set.iter() {
        names.push(text.clone()?)?;
    }
    Ok(names)
}
