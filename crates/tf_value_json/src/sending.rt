// A value as serde's data, written straight to a `Serializer` with no JSON tree between.
ghost use Rattle.std.specs.Prelude.{OnOk};
ghost use Rattle.serde.specs.Event.{Logs};
ghost use Rattle.serde_json.specs.Data.{array, object};
ghost use Rattle.serde_json.specs.Events.{SendsValue, number_event};
ghost use Rattle.serde_json.specs.Find.{of_integer};
ghost use Rattle.tf_value_data.specs.Tree.{tree_of, items_view, entries_view, texts_view};
ghost use Rattle.tf_value_json.specs.Json.{value_data, items_data, entries_data, texts_data};

use serde::{Described, Serialize, Serializer};
use std::collections::{BTreeMap, BTreeSet};
use tf_value_data::Value;

/// A value to be written as its JSON form, with null for each unknown part. Callers who must not lose unknown parts
/// ask `is_known` first. An error comes from the serializer, and no contract says when.
#[derive(Clone, Copy)]
pub struct AsJson<'a> {
    /// The value to write.
    pub value: &'a Value,
}

impl Described for AsJson<'_> {
    ghost writes = { λ it. SendsValue (value_data (tree_of it.value.now)) };
}

impl Serialize for AsJson<'_> {
    fn serialize<S: Serializer>(&self, out: &mut S) -> Result<(), S::Error> {
        send(self.value, out)
    }
}

#[cycle(send)]
fn send<S: Serializer>(value: &Value, out: &mut S) -> Result<(), S::Error>
    ensures { OnOk result (SendsValue (value_data (tree_of value.now)) (S.written out.old) (S.written out.new)) }
{
    match value {
        Value::Null | Value::Unknown => out.unit(),
        Value::Bool(b) => out.bool(*b),
        Value::Int(number) => send_whole(*number, out),
        Value::Text(text) => out.str(text.as_str()),
        Value::List(items) => send_items(items, out),
        Value::Map(entries) => send_entries(entries, out),
        Value::Set(texts) => send_texts(texts, out),
    }
}

// Sends a number below 0 with its sign, any other as a number without one.
fn send_whole<S: Serializer>(number: i64, out: &mut S) -> Result<(), S::Error>
    ensures { OnOk result (Logs (S.written out.old) (S.written out.new) (number_event (of_integer number))) }
{
    if number < 0 {
        out.i64(number)
    } else {
        out.u64(number as u64)
    }
}

#[cycle(send)]
fn send_items<S: Serializer>(items: &Vec<Value>, out: &mut S) -> Result<(), S::Error>
    ensures { OnOk result (SendsValue (array (items_data (items_view items.now.items)))
        (S.written out.old) (S.written out.new)) }
{
    out.begin_seq(Some(items.len()))?;
    for item in items {
        send(item, out)?;
    }
    out.end_seq()
}

#[cycle(send)]
fn send_entries<S: Serializer>(
    entries: &BTreeMap<String, Value>,
    out: &mut S,
) -> Result<(), S::Error>
    ensures { OnOk result (SendsValue (object (entries_data (entries_view entries.now.entries)))
        (S.written out.old) (S.written out.new)) }
{
    out.begin_map(Some(entries.len()))?;
    for (key, value) in entries.iter() {
        out.key(key.as_str())?;
        send(value, out)?;
    }
    out.end_map()
}

fn send_texts<S: Serializer>(texts: &BTreeSet<String>, out: &mut S) -> Result<(), S::Error>
    ensures { OnOk result (SendsValue (array (texts_data (texts_view texts.now.keys)))
        (S.written out.old) (S.written out.new)) }
{
    out.begin_seq(Some(texts.len()))?;
    for text in texts.iter() {
        out.str(text.as_str())?;
    }
    out.end_seq()
}
