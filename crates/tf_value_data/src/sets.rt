//! Values without sets.

ghost use Rattle.std.specs.Prelude.{◌≡◌, IfOk, false, true, map as each};
ghost use Rattle.tf_value_data.specs.Parts.{items_rewritten, entries_rewritten};
ghost use Rattle.tf_value_data.specs.Sets.{has_no_set, with_lists};
ghost use Rattle.tf_value_data.specs.Tree.{tree_of, items_view, entries_view};
ghost use Rattle.tf_value_data.specs.declared.value.Value.{Text};

use crate::parts::{Parts, has_only};
use crate::value::{Entries, Value};
use std::alloc::{AllocError, Global};
use std::collections::{BTreeMap, BTreeSet};

/// Returns whether neither a value nor a part of it is a set.
pub fn has_no_set(value: &Value) -> bool
    ensures { result ≡ has_no_set (tree_of value.now) }
{
    let allowed = Parts {
        unknowns: true,
        sets: false,
    };
    has_only(value, allowed)
}

/// Replaces each set in a value by the list of its texts, in byte order, which is how an attribute of any kind stores
/// it. Fails only if memory runs out.
#[cycle(lists)]
pub fn with_lists(alloc: Global, value: Value) -> Result<Value, AllocError>
    ensures { IfOk result (λ v. tree_of v ≡ with_lists (tree_of value)) }
{
    match value {
        Value::Null => Ok(Value::Null),
        Value::Bool(truth) => Ok(Value::Bool(truth)),
        Value::Int(number) => Ok(Value::Int(number)),
        Value::Text(text) => Ok(Value::Text(text)),
        Value::List(items) => Ok(Value::List(items_with_lists(alloc, items)?)),
        Value::Map(entries) => Ok(Value::Map(entries_with_lists(alloc, entries)?)),
        Value::Set(texts) => Ok(Value::List(text_values(alloc, texts)?)),
        Value::Unknown => Ok(Value::Unknown),
    }
}

#[cycle(lists)]
fn items_with_lists(alloc: Global, items: Vec<Value>) -> Result<Vec<Value>, AllocError>
    ensures { IfOk result (λ v. items_view v.items ≡ items_rewritten false true (items_view items.items)) }
{
    let mut rewrites = Vec::with_capacity(alloc, items.len())?;
    for item in items {
        rewrites.push(with_lists(alloc, item)?)?;
    }
    Ok(rewrites)
}

#[cycle(lists)]
fn entries_with_lists(alloc: Global, entries: Entries) -> Result<Entries, AllocError>
    ensures { IfOk result (λ m. entries_view m.entries ≡ entries_rewritten false true (entries_view entries.entries)) }
{
    let mut rewrites = BTreeMap::new(alloc);
    for (key, value) in entries {
        drop(rewrites.insert(key, with_lists(alloc, value)?)?);
    }
    Ok(rewrites)
}

// Wraps the texts of a set as values.
fn text_values(alloc: Global, texts: BTreeSet<String>) -> Result<Vec<Value>, AllocError>
    ensures { IfOk result (λ v. v.items ≡ each Text texts.keys) }
{
    texts.into_iter().map(Value::Text).collect(alloc)
}
