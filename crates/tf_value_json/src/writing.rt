ghost use Rattle.std.specs.Prelude.{◌≡◌, IfOk, IfErr, OnOk};
ghost use Rattle.serde_json.specs.View.{view, items_view as json_items, members_view};
ghost use Rattle.tf_value_data.specs.Tree.{map, IsHeld, AreHeld, AreHeldEntries, tree_of, items_view, entries_view, texts_view};
ghost use Rattle.tf_value_json.specs.Json.{IsJson, IsObject, IsUnwritten, value_data, items_data, entries_data, texts_data};

use crate::fault::JsonFault;
use serde_json::{Map, Number, Value as Json};
use std::alloc::{AllocError, Global};
use std::collections::{BTreeMap, BTreeSet};
use tf_value_data::{Value, entries_are_known, is_known};

/// Returns the JSON form of a value. Fails with `UnknownInside` exactly if a part of the value is unknown, otherwise
/// only if memory runs out.
#[tactic(auto, using(crate::proofs::Forms::form_along))]
pub fn to_json(alloc: Global, value: &Value) -> Result<Json, JsonFault>
    ensures ok { IfOk result (λ j. view j ≡ value_data (tree_of value.now)) }
    ensures form { IfOk result (λ j. IsJson (tree_of value.now) (view j)) }
    ensures err { IfErr result (λ e. IsUnwritten (tree_of value.now) e) }
{
    if !is_known(value) {
        return Err(JsonFault::UnknownInside);
    }
    Ok(written(alloc, value)?)
}

/// Returns the JSON form of a map's entries. Fails as `to_json` does for the map.
#[tactic(auto, using(crate::proofs::Forms::object_along))]
pub fn entries_to_json(
    alloc: Global,
    entries: &BTreeMap<String, Value>,
) -> Result<Map<String, Json>, JsonFault>
    ensures ok { IfOk result (λ m. members_view m.entries ≡ entries_data (entries_view entries.now.entries)) }
    ensures form { IfOk result (λ m. IsObject (entries_view entries.now.entries) (members_view m.entries)) }
    ensures err { IfErr result (λ e. IsUnwritten (map (entries_view entries.now.entries)) e) }
{
    if !entries_are_known(entries) {
        return Err(JsonFault::UnknownInside);
    }
    Ok(written_entries(alloc, entries)?)
}

#[cycle(write)]
fn written(alloc: Global, value: &Value) -> Result<Json, AllocError>
    ensures held { OnOk result (IsHeld (tree_of value.now)) }
    ensures value { IfOk result (λ j. view j ≡ value_data (tree_of value.now)) }
{
    match value {
        Value::Null | Value::Unknown => Ok(Json::Null),
        Value::Bool(b) => Ok(Json::Bool(*b)),
        Value::Int(number) => Ok(Json::Number(Number::from(*number))),
        Value::Text(text) => Ok(Json::String(text.clone()?)),
        Value::List(items) => Ok(Json::Array(written_items(alloc, items)?)),
        Value::Map(entries) => Ok(Json::Object(written_entries(alloc, entries)?)),
        Value::Set(texts) => Ok(Json::Array(written_texts(alloc, texts)?)),
    }
}

#[cycle(write)]
fn written_items(alloc: Global, items: &Vec<Value>) -> Result<Vec<Json>, AllocError>
    ensures held { OnOk result (AreHeld (items_view items.now.items)) }
    ensures value { IfOk result (λ js. json_items js.items ≡ items_data (items_view items.now.items)) }
{
    let mut array = Vec::with_capacity(alloc, items.len())?;
    for item in items {
        array.push(written(alloc, item)?)?;
    }
    Ok(array)
}

#[cycle(write)]
fn written_entries(
    alloc: Global,
    entries: &BTreeMap<String, Value>,
) -> Result<Map<String, Json>, AllocError>
    ensures held { OnOk result (AreHeldEntries (entries_view entries.now.entries)) }
    ensures value { IfOk result (λ m. members_view m.entries ≡ entries_data (entries_view entries.now.entries)) }
{
    let mut object = BTreeMap::new(alloc);
    for (key, value) in entries.iter() {
        let name = key.clone()?;
        drop(object.insert(name, written(alloc, value)?)?);
    }
    Ok(object)
}

// Returns the texts of a set as an array, in byte order.
fn written_texts(alloc: Global, texts: &BTreeSet<String>) -> Result<Vec<Json>, AllocError>
    ensures { IfOk result (λ js. json_items js.items ≡ texts_data (texts_view texts.now.keys)) }
{
    let mut array = Vec::with_capacity(alloc, texts.len())?;
    for text in texts.iter() {
        array.push(Json::String(text.clone()?))?;
    }
    Ok(array)
}
