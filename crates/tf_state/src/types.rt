//! The types that a state names next to the values of outputs.

ghost use Rattle.std.specs.Prelude.{◌≡◌, OnOk};
ghost use Rattle.serde_json.specs.Data.{array, object};
ghost use Rattle.serde_json.specs.Events.{SendsValue};
ghost use Rattle.tf_state.specs.Types.{type_data, item_types, entry_types};
ghost use Rattle.tf_value_data.specs.Tree.{tree_of, items_view, entries_view};

use serde::Serializer;
use std::collections::BTreeMap;
use tf_value_data::Value;

/// Sends the type of a value, as a state names it.
#[cycle(types)]
pub(crate) fn send_type<S: Serializer>(value: &Value, out: &mut S) -> Result<(), S::Error>
    ensures { OnOk result (SendsValue (type_data (tree_of value.now)) (S.written out.old) (S.written out.new)) }
{
    match value {
        Value::Null | Value::Unknown => out.str("dynamic"),
        Value::Bool(_) => out.str("bool"),
        Value::Int(_) => out.str("number"),
        Value::Text(_) => out.str("string"),
        Value::List(items) => {
            out.begin_seq(Some(2))?;
            out.str("tuple")?;
            send_item_types(items, out)?;
            out.end_seq()
        }
        Value::Map(entries) => {
            out.begin_seq(Some(2))?;
            out.str("object")?;
            send_entry_types(entries, out)?;
            out.end_seq()
        }
        Value::Set(_) => {
            out.begin_seq(Some(2))?;
            out.str("set")?;
            out.str("string")?;
            out.end_seq()
        }
    }
}

#[cycle(types)]
fn send_item_types<S: Serializer>(items: &Vec<Value>, out: &mut S) -> Result<(), S::Error>
    ensures { OnOk result (SendsValue (array (item_types (items_view items.now.items))) (S.written out.old) (S.written out.new)) }
{
    out.begin_seq(Some(items.len()))?;
    for item in items {
        send_type(item, out)?;
    }
    out.end_seq()
}

#[cycle(types)]
fn send_entry_types<S: Serializer>(
    entries: &BTreeMap<String, Value>,
    out: &mut S,
) -> Result<(), S::Error>
    ensures { OnOk result (SendsValue (object (entry_types (entries_view entries.now.entries))) (S.written out.old) (S.written out.new)) }
{
    out.begin_map(Some(entries.len()))?;
    for (key, value) in entries.iter() {
        out.key(key.as_str())?;
        send_type(value, out)?;
    }
    out.end_map()
}
