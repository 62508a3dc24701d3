ghost use Rattle.std.specs.Prelude.{◌≡◌, ◌↔◌, ◌^◌, ◌-◌, min, FitsSigned, IsTrue};
ghost use Rattle.std.specs.Int.{w64};
ghost use Rattle.tf_value_data.specs.Tree.{map, set, IsHeld, IsSorted, AreHeld, AreSorted, tree_of, items_view, entries_view, texts_view};
ghost use Rattle.tf_value_data.specs.Measure.{weight as weight_of, weight_of_texts, weight_of_items, weight_of_entries, depth as depth_of, depth_of_items, depth_of_entries, IsWithinLimits};

use crate::value::Value;
use std::collections::{BTreeMap, BTreeSet};

/// The greatest weight of a value from outside.
pub const MAX_WEIGHT: u64 = 1_000_000;

/// The greatest depth of a value from outside.
pub const MAX_DEPTH: u32 = 32;

/// Returns whether neither a value's weight nor its depth is above the greatest.
pub fn is_within_limits(value: &Value) -> bool
    ensures exact { IsTrue result ↔ IsWithinLimits (tree_of value.now) }
    ensures held { IsHeld (tree_of value.now) }
    ensures sorted { IsSorted (tree_of value.now) }
{
    weight(value) <= MAX_WEIGHT && depth(value) <= MAX_DEPTH
}

/// Returns a value's weight: one for itself, the bytes of its texts and keys, and the weights of its parts; at most
/// 2^64 - 1. The walk over all parts also shows what holds of each value: its numbers are of 64 bits, and the keys of
/// its maps and the texts of its sets are in byte order.
#[cycle(weight)]
pub fn weight(value: &Value) -> u64
    ensures total { result ≡ min (weight_of (tree_of value.now)) (2 ^ 64 - 1) }
    ensures held { IsHeld (tree_of value.now) }
    ensures sorted { IsSorted (tree_of value.now) }
{
    match value {
        Value::Null | Value::Bool(_) | Value::Unknown => 1,
        Value::Int(number) => weigh_number(*number),
        Value::Text(text) => (text.len() as u64).saturating_add(1),
        Value::List(items) => weigh_items(items).saturating_add(1),
        Value::Map(entries) => weigh_entries(entries).saturating_add(1),
        Value::Set(texts) => weigh_texts(texts).saturating_add(1),
    }
}

// A whole number weighs one, and is one of 64 bits.
fn weigh_number(_number: i64) -> u64
    ensures total { result ≡ 1 }
    ensures held { FitsSigned w64 _number }
{
    1
}

#[cycle(weight)]
fn weigh_items(items: &Vec<Value>) -> u64
    ensures total { result ≡ min (weight_of_items (items_view items.now.items)) (2 ^ 64 - 1) }
    ensures held { AreHeld (items_view items.now.items) }
    ensures sorted { AreSorted (items_view items.now.items) }
{
    let mut total = 0u64;
    for item in items {
        total = total.saturating_add(weight(item));
    }
    total
}

#[cycle(weight)]
#[tactic(auto, using(crate::proofs::Ordered::map_sorted))]
fn weigh_entries(entries: &BTreeMap<String, Value>) -> u64
    ensures total { result ≡ min (weight_of_entries (entries_view entries.now.entries)) (2 ^ 64 - 1) }
    ensures held { IsHeld (map (entries_view entries.now.entries)) }
    ensures sorted { IsSorted (map (entries_view entries.now.entries)) }
{
    let mut total = 0u64;
    for (key, value) in entries.iter() {
        total = total
            .saturating_add(key.len() as u64)
            .saturating_add(weight(value));
    }
    total
}

// A text of a set weighs as much as it does as a value.
#[tactic(auto, using(crate::proofs::Ordered::texts_sorted))]
fn weigh_texts(texts: &BTreeSet<String>) -> u64
    ensures total { result ≡ min (weight_of_texts (texts_view texts.now.keys)) (2 ^ 64 - 1) }
    ensures sorted { IsSorted (set (texts_view texts.now.keys)) }
{
    let mut total = 0u64;
    for text in texts.iter() {
        total = total.saturating_add(text.len() as u64).saturating_add(1);
    }
    total
}

/// Returns how deep lists, maps and sets are nested: 0 for a scalar and an unknown value, 1 for a set and for an
/// empty list or map, else one more than the deepest part; at most 2^32 - 1.
#[cycle(depth)]
pub fn depth(value: &Value) -> u32
    ensures { result ≡ min (depth_of (tree_of value.now)) (2 ^ 32 - 1) }
{
    match value {
        Value::List(items) => deepest_item(items).saturating_add(1),
        Value::Map(entries) => deepest_entry(entries).saturating_add(1),
        Value::Set(_) => 1,
        _ => 0,
    }
}

#[cycle(depth)]
fn deepest_item(items: &Vec<Value>) -> u32
    ensures { result ≡ min (depth_of_items (items_view items.now.items)) (2 ^ 32 - 1) }
{
    let mut deepest = 0u32;
    for item in items {
        deepest = deepest.max(depth(item));
    }
    deepest
}

#[cycle(depth)]
fn deepest_entry(entries: &BTreeMap<String, Value>) -> u32
    ensures { result ≡ min (depth_of_entries (entries_view entries.now.entries)) (2 ^ 32 - 1) }
{
    let mut deepest = 0u32;
    for (_, value) in entries.iter() {
        deepest = deepest.max(depth(value));
    }
    deepest
}
