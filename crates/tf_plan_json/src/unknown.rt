//! Which parts of an object are unknown.

ghost use Rattle.std.specs.Prelude.{◌≡◌, OnOk};
ghost use Rattle.serde_json.specs.Data.{array, object};
ghost use Rattle.serde_json.specs.Events.{SendsValue, members_len};
ghost use Rattle.tf_plan_json.specs.Parts.{false_items, is_leaf, unknown_data, unknown_items, unknown_members};
ghost use Rattle.tf_value_data.specs.Tree.{entries_view, items_view, texts_view, tree_of};

use serde::Serializer;
use std::collections::{BTreeMap, BTreeSet};
use tf_value_data::Value;

/// Sends which parts of a value are unknown: true for each, and false for each known one. A known scalar of a map is
/// left out.
#[cycle(unknown)]
pub(crate) fn send_unknown<S: Serializer>(value: &Value, out: &mut S) -> Result<(), S::Error>
    ensures { OnOk result (SendsValue (unknown_data (tree_of value.now)) (S.written out.old) (S.written out.new)) }
{
    match value {
        Value::Null | Value::Bool(_) | Value::Int(_) | Value::Text(_) => out.bool(false),
        Value::List(items) => send_items(items, out),
        Value::Map(entries) => send_entries(entries, out),
        Value::Set(texts) => send_texts(texts, out),
        Value::Unknown => out.bool(true),
    }
}

#[cycle(unknown)]
fn send_items<S: Serializer>(items: &Vec<Value>, out: &mut S) -> Result<(), S::Error>
    ensures { OnOk result (SendsValue (array (unknown_items (items_view items.now.items))) (S.written out.old) (S.written out.new)) }
{
    out.begin_seq(Some(items.len()))?;
    for item in items {
        send_unknown(item, out)?;
    }
    out.end_seq()
}

#[cycle(unknown)]
fn send_entries<S: Serializer>(
    entries: &BTreeMap<String, Value>,
    out: &mut S,
) -> Result<(), S::Error>
    ensures { OnOk result (SendsValue (object (unknown_members (entries_view entries.now.entries))) (S.written out.old) (S.written out.new)) }
{
    out.begin_map(Some(unknown_count(entries)))?;
    for (key, value) in entries.iter() {
        if is_leaf(value) {
            continue;
        }
        out.key(key.as_str())?;
        send_unknown(value, out)?;
    }
    out.end_map()
}

fn send_texts<S: Serializer>(texts: &BTreeSet<String>, out: &mut S) -> Result<(), S::Error>
    ensures { OnOk result (SendsValue (array (false_items (texts_view texts.now.keys))) (S.written out.old) (S.written out.new)) }
{
    out.begin_seq(Some(texts.len()))?;
    for text in texts.iter() {
        out.bool(false)?;
    }
    out.end_seq()
}

/// Counts the entries that aren't known scalars.
fn unknown_count(entries: &BTreeMap<String, Value>) -> usize
    ensures { result ≡ members_len (unknown_members (entries_view entries.now.entries)) }
{
    let mut count = entries.len();
    for (_, value) in entries.iter() {
        count -= usize::from(is_leaf(value));
    }
    count
}

/// Checks whether a value is a known scalar.
fn is_leaf(value: &Value) -> bool
    ensures { result ≡ is_leaf (tree_of value.now) }
{
    matches!(
        value,
        Value::Null | Value::Bool(_) | Value::Int(_) | Value::Text(_)
    )
}
