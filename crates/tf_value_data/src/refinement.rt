ghost use Rattle.std.specs.Prelude.{◌≡◌, ◌↔◌, IsTrue};
ghost use Rattle.tf_value_data.specs.Tree.{tree_of, items_view, entries_view, texts_view};
ghost use Rattle.tf_value_data.specs.Refinement.{Refines, RefinesItems, RefinesEntries, refined};

use crate::value::Value;
use std::collections::{BTreeMap, BTreeSet};

/// Returns whether a value refines to another one. It does if it is unknown, or if both have the same shape (as many
/// items, the same keys), their parts refine one by one, and scalars and sets are equal.
#[cycle(refines)]
pub fn refines(value: &Value, other: &Value) -> bool
    ensures { IsTrue result ↔ Refines (tree_of value.now) (tree_of other.now) }
{
    match (value, other) {
        (Value::Unknown, _) => true,
        (Value::Null, Value::Null) => true,
        (Value::Bool(a), Value::Bool(b)) => *a == *b,
        (Value::Int(a), Value::Int(b)) => *a == *b,
        (Value::Text(a), Value::Text(b)) => a == b,
        (Value::List(items), Value::List(others)) => items_refine(items, others),
        (Value::Map(entries), Value::Map(others)) => entries_refine(entries, others),
        (Value::Set(texts), Value::Set(others)) => same_texts(texts, others),
        _ => false,
    }
}

#[cycle(refines)]
fn items_refine(items: &Vec<Value>, others: &Vec<Value>) -> bool
    ensures { IsTrue result ↔ RefinesItems (items_view items.now.items) (items_view others.now.items) }
{
    if items.len() != others.len() {
        return false;
    }
    for (item, other) in items.iter().zip(others.iter()) {
        if !refines(item, other) {
            return false;
        }
    }
    true
}

#[cycle(refines)]
fn entries_refine(entries: &BTreeMap<String, Value>, others: &BTreeMap<String, Value>) -> bool
    ensures { IsTrue result ↔ RefinesEntries (entries_view entries.now.entries) (entries_view others.now.entries) }
{
    if entries.len() != others.len() {
        return false;
    }
    for ((key, value), (other_key, other)) in entries.iter().zip(others.iter()) {
        if key != other_key || !refines(value, other) {
            return false;
        }
    }
    true
}

// Returns whether two sets have the same texts.
fn same_texts(texts: &BTreeSet<String>, others: &BTreeSet<String>) -> bool
    ensures { IsTrue result ↔ (texts_view texts.now.keys ≡ texts_view others.now.keys) }
{
    texts == others
}
