//! The known part of an object.

ghost use Rattle.std.specs.Prelude.{◌≡◌, OnOk};
ghost use Rattle.serde_json.specs.Data.{array, object};
ghost use Rattle.serde_json.specs.Events.{SendsValue, members_len};
ghost use Rattle.tf_plan_json.specs.Parts.{known_data, known_items, known_members};
ghost use Rattle.tf_value_data.specs.Tree.{entries_view, is_unknown, items_view, tree_of};

use serde::{Serialize, Serializer};
use std::collections::BTreeMap;
use tf_value_data::Value;
use tf_value_json::AsJson;

/// Sends the known part of a value: an unknown entry of a map is left out, and any other unknown part is null.
#[cycle(known)]
pub(crate) fn send_known<S: Serializer>(value: &Value, out: &mut S) -> Result<(), S::Error>
    ensures { OnOk result (SendsValue (known_data (tree_of value.now)) (S.written out.old) (S.written out.new)) }
{
    match value {
        Value::List(items) => send_items(items, out),
        Value::Map(entries) => send_entries(entries, out),
        _ => AsJson { value }.serialize(out),
    }
}

#[cycle(known)]
fn send_items<S: Serializer>(items: &Vec<Value>, out: &mut S) -> Result<(), S::Error>
    ensures { OnOk result (SendsValue (array (known_items (items_view items.now.items))) (S.written out.old) (S.written out.new)) }
{
    out.begin_seq(Some(items.len()))?;
    for item in items {
        send_known(item, out)?;
    }
    out.end_seq()
}

#[cycle(known)]
fn send_entries<S: Serializer>(
    entries: &BTreeMap<String, Value>,
    out: &mut S,
) -> Result<(), S::Error>
    ensures { OnOk result (SendsValue (object (known_members (entries_view entries.now.entries))) (S.written out.old) (S.written out.new)) }
{
    out.begin_map(Some(known_count(entries)))?;
    for (key, value) in entries.iter() {
        if is_unknown(value) {
            continue;
        }
        out.key(key.as_str())?;
        send_known(value, out)?;
    }
    out.end_map()
}

/// Counts the entries that aren't unknown.
fn known_count(entries: &BTreeMap<String, Value>) -> usize
    ensures { result ≡ members_len (known_members (entries_view entries.now.entries)) }
{
    let mut count = entries.len();
    for (_, value) in entries.iter() {
        count -= usize::from(is_unknown(value));
    }
    count
}

fn is_unknown(value: &Value) -> bool
    ensures { result ≡ is_unknown (tree_of value.now) }
{
    matches!(value, Value::Unknown)
}
