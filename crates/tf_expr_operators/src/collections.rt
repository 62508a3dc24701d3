//! Functions on lists, maps and sets.

ghost use Rattle.std.specs.Prelude.{◌≡◌, IfOk, OnOk, []};
ghost use Rattle.tf_value_data.specs.Tree.{no_entries, tree_of, items_view, entries_view};
ghost use Rattle.tf_expr_operators.specs.Answer.{Answers, Gives, any_unknown};
ghost use Rattle.tf_expr_operators.specs.Functions.{key_items, keys_value, values_value, concatenated, entries_value, items_value, laid_over, merged_onto, set_value, toset_value, texts_value, texts_with};

use crate::building::{list, map};
use std::alloc::{AllocError, Global};
use std::collections::{BTreeMap, BTreeSet};
use tf_expr_syntax::EvalFault;
use tf_value_data::{Value, is_known};

// Returns the keys of a map.
pub(crate) fn keys(alloc: Global, argument: &Value) -> Result<Value, EvalFault>
    ensures { Gives (keys_value (tree_of argument.now)) result }
{
    match argument {
        Value::Unknown => Ok(Value::Unknown),
        Value::Map(entries) => Ok(Value::List(key_texts(alloc, entries)?)),
        _ => Err(EvalFault::WrongKind),
    }
}

fn key_texts(alloc: Global, entries: &BTreeMap<String, Value>) -> Result<Vec<Value>, AllocError>
    ensures { IfOk result (λ v. items_view v.items ≡ key_items (entries_view entries.now.entries)) }
{
    let mut texts = Vec::with_capacity(alloc, entries.len())?;
    for key in entries.keys() {
        let text = key.clone()?;
        texts.push(Value::Text(text))?;
    }
    Ok(texts)
}

// Returns the values of a map.
pub(crate) fn values(alloc: Global, argument: Value) -> Result<Value, EvalFault>
    ensures { Gives (values_value (tree_of argument)) result }
{
    match argument {
        Value::Unknown => Ok(Value::Unknown),
        Value::Map(entries) => Ok(Value::List(entries.into_values().collect(alloc)?)),
        _ => Err(EvalFault::WrongKind),
    }
}

// Merges maps.
pub(crate) fn merge(alloc: Global, arguments: Vec<Value>) -> Result<Value, EvalFault>
    ensures { Gives (entries_value (merged_onto no_entries (items_view arguments.items))) result }
{
    let mut merged = BTreeMap::new(alloc);
    for argument in arguments {
        match argument {
            Value::Map(entries) => lay_over(&mut merged, entries)?,
            _ => return Err(EvalFault::WrongKind),
        }
    }
    map(merged)
}

// Inserts entries into a map, in place of those with the same keys.
fn lay_over(
    base: &mut BTreeMap<String, Value>,
    entries: BTreeMap<String, Value>,
) -> Result<(), AllocError>
    ensures { OnOk result (entries_view base.new.entries ≡ laid_over (entries_view base.old.entries) (entries_view entries.entries)) }
{
    for (key, value) in entries {
        drop(base.insert(key, value)?);
    }
    Ok(())
}

// Concatenates lists.
pub(crate) fn concat(alloc: Global, arguments: Vec<Value>) -> Result<Value, EvalFault>
    ensures { Gives (items_value (concatenated (items_view arguments.items))) result }
{
    let mut joined = Vec::new(alloc);
    for argument in arguments {
        match argument {
            Value::List(items) => {
                let mut items = items;
                joined.append(&mut items)?;
            }
            _ => return Err(EvalFault::WrongKind),
        }
    }
    list(joined)
}

// Returns the set of a list's texts, and a set unchanged.
pub(crate) fn toset(alloc: Global, argument: Value) -> Result<Value, EvalFault>
    ensures { Gives (toset_value (tree_of argument)) result }
{
    if !is_known(&argument) {
        return Ok(Value::Unknown);
    }
    set_of(alloc, argument)
}

fn set_of(alloc: Global, argument: Value) -> Result<Value, EvalFault>
    ensures { Gives (set_value (tree_of argument)) result }
{
    match argument {
        Value::List(items) => set_of_texts(alloc, items),
        Value::Set(texts) => Ok(Value::Set(texts)),
        _ => Err(EvalFault::WrongKind),
    }
}

fn set_of_texts(alloc: Global, items: Vec<Value>) -> Result<Value, EvalFault>
    ensures { Gives (texts_value (texts_with [] (items_view items.items))) result }
{
    let mut texts = BTreeSet::new(alloc);
    for item in items {
        match item {
            Value::Text(text) => {
                texts.insert(text)?;
            }
            _ => return Err(EvalFault::WrongKind),
        }
    }
    Ok(Value::Set(texts))
}

// Returns whether one of several values is unknown as a whole.
pub(crate) fn has_unknown(values: &Vec<Value>) -> bool
    ensures { result ≡ any_unknown (items_view values.now.items) }
{
    for value in values {
        if let Value::Unknown = value {
            return true;
        }
    }
    false
}
