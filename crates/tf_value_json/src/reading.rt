ghost use Rattle.std.specs.Prelude.{◌≡◌, ◌+◌, ◌^◌, ◌-◌, min, IfOk, IfErr, Some, true};
ghost use Rattle.serde_json.specs.View.{view, items_view as json_items, members_view};
ghost use Rattle.tf_value_data.specs.Stored.{MayBeStored};
ghost use Rattle.tf_value_data.specs.Tree.{map, tree_of, items_view, entries_view, IsSorted, AreSorted};
ghost use Rattle.tf_value_data.specs.Known.{known, known_items, known_entries};
ghost use Rattle.tf_value_data.specs.Measure.{weight, weight_of_items, weight_of_entries, depth, depth_of_items, depth_of_entries, IsWithinLimits};
ghost use Rattle.tf_value_json.specs.Json.{IsUnread, value_from, tree_from, items_from, entries_from};

use crate::fault::JsonFault;
use serde_json::{Map, Value as Json};
use std::alloc::{AllocError, Global};
use std::collections::BTreeMap;
use tf_value_data::{MAX_DEPTH, MAX_WEIGHT, Value};

/// Reads a JSON tree as the value without sets whose form it is. What is read may be stored.
///
/// The tree is measured before the value is built, so no value beyond the limits is built.
///
/// # Errors
///
/// Fails with `NotWhole` exactly if the tree is no value's form: a number in it isn't held as a whole number of 64
/// bits with a sign (`1.0`, `1e3`, `-0`, 2^63). Otherwise fails with `TooLarge` exactly if the value is beyond the
/// limits, `MAX_WEIGHT` and `MAX_DEPTH`; otherwise only if memory runs out.
pub fn from_json(alloc: Global, json: &Json) -> Result<Value, JsonFault>
    ensures ok { IfOk result (λ v. value_from (view json.now) ≡ Some (tree_of v)) }
    ensures within { IfOk result (λ v. IsWithinLimits (tree_of v)) }
    ensures stored { IfOk result (λ v. MayBeStored (tree_of v)) }
    ensures err { IfErr result (λ e. IsUnread (view json.now) e) }
{
    if !is_whole(json) {
        return Err(JsonFault::NotWhole);
    }
    let measure = measure_of(json);
    if measure.weight > MAX_WEIGHT || measure.depth > MAX_DEPTH {
        return Err(JsonFault::TooLarge);
    }
    Ok(tree_from(alloc, json)?)
}

// Returns whether each number is held as a whole number of 64 bits with a sign.
#[cycle(whole)]
fn is_whole(json: &Json) -> bool
    ensures { result ≡ known (tree_from (view json.now)) }
{
    match json {
        Json::Number(number) => number.as_i64().is_some(),
        Json::Array(items) => are_whole(items),
        Json::Object(members) => members_are_whole(members),
        _ => true,
    }
}

#[cycle(whole)]
fn are_whole(items: &Vec<Json>) -> bool
    ensures { result ≡ known_items (items_from (json_items items.now.items)) }
{
    for item in items {
        if !is_whole(item) {
            return false;
        }
    }
    true
}

#[cycle(whole)]
fn members_are_whole(members: &Map<String, Json>) -> bool
    ensures { result ≡ known_entries (entries_from (members_view members.now.entries)) }
{
    for (_, member) in members.iter() {
        if !is_whole(member) {
            return false;
        }
    }
    true
}

// The weight and the depth of a value.
#[derive(Clone, Copy)]
struct Measure {
    weight: u64,
    depth: u32,
}

// Measures the value that the tree reads as.
#[cycle(measure)]
fn measure_of(json: &Json) -> Measure
    ensures sorted { IsSorted (tree_from (view json.now)) }
    ensures weight { result.weight ≡ min (weight (tree_from (view json.now))) (2 ^ 64 - 1) }
    ensures depth { result.depth ≡ min (depth (tree_from (view json.now))) (2 ^ 32 - 1) }
{
    match json {
        Json::String(text) => Measure {
            weight: (text.len() as u64).saturating_add(1),
            depth: 0,
        },
        Json::Array(items) => around(measure_of_items(items)),
        Json::Object(members) => around(measure_of_members(members)),
        _ => Measure {
            weight: 1,
            depth: 0,
        },
    }
}

// Measures a list or a map by the measure of its parts.
fn around(parts: Measure) -> Measure
    ensures weight { result.weight ≡ min (1 + parts.weight) (2 ^ 64 - 1) }
    ensures depth { result.depth ≡ min (1 + parts.depth) (2 ^ 32 - 1) }
{
    Measure {
        weight: parts.weight.saturating_add(1),
        depth: parts.depth.saturating_add(1),
    }
}

#[cycle(measure)]
fn measure_of_items(items: &Vec<Json>) -> Measure
    ensures sorted { AreSorted (items_from (json_items items.now.items)) }
    ensures weight { result.weight ≡ min (weight_of_items (items_from (json_items items.now.items))) (2 ^ 64 - 1) }
    ensures depth { result.depth ≡ min (depth_of_items (items_from (json_items items.now.items))) (2 ^ 32 - 1) }
{
    let mut weight = 0u64;
    let mut depth = 0u32;
    for item in items {
        let part = measure_of(item);
        weight = weight.saturating_add(part.weight);
        depth = depth.max(part.depth);
    }
    Measure { weight, depth }
}

#[cycle(measure)]
#[tactic(auto, using(crate::proofs::InOrder::members_sorted))]
fn measure_of_members(members: &Map<String, Json>) -> Measure
    ensures sorted { IsSorted (map (entries_from (members_view members.now.entries))) }
    ensures weight { result.weight ≡ min (weight_of_entries (entries_from (members_view members.now.entries))) (2 ^ 64 - 1) }
    ensures depth { result.depth ≡ min (depth_of_entries (entries_from (members_view members.now.entries))) (2 ^ 32 - 1) }
{
    let mut weight = 0u64;
    let mut depth = 0u32;
    for (key, member) in members.iter() {
        let part = measure_of(member);
        weight = weight
            .saturating_add(key.len() as u64)
            .saturating_add(part.weight);
        depth = depth.max(part.depth);
    }
    Measure { weight, depth }
}

/// Reads a JSON tree of any size as a value, with an unknown part for each number that isn't held as a whole number of 64
/// bits with a sign.
///
/// # Errors
///
/// Fails only if memory runs out.
#[cycle(read)]
pub fn tree_from(alloc: Global, json: &Json) -> Result<Value, AllocError>
    ensures { IfOk result (λ v. tree_of v ≡ tree_from (view json.now)) }
{
    match json {
        Json::Null => Ok(Value::Null),
        Json::Bool(b) => Ok(Value::Bool(*b)),
        Json::Number(number) => match number.as_i64() {
            Some(whole) => Ok(Value::Int(whole)),
            None => Ok(Value::Unknown),
        },
        Json::String(text) => Ok(Value::Text(text.clone()?)),
        Json::Array(items) => Ok(Value::List(read_items(alloc, items)?)),
        Json::Object(members) => Ok(Value::Map(read_members(alloc, members)?)),
    }
}

#[cycle(read)]
fn read_items(alloc: Global, items: &Vec<Json>) -> Result<Vec<Value>, AllocError>
    ensures { IfOk result (λ vs. items_view vs.items ≡ items_from (json_items items.now.items)) }
{
    let mut values = Vec::with_capacity(alloc, items.len())?;
    for item in items {
        values.push(tree_from(alloc, item)?)?;
    }
    Ok(values)
}

#[cycle(read)]
fn read_members(
    alloc: Global,
    members: &Map<String, Json>,
) -> Result<BTreeMap<String, Value>, AllocError>
    ensures { IfOk result (λ m. entries_view m.entries ≡ entries_from (members_view members.now.entries)) }
{
    let mut entries = BTreeMap::new(alloc);
    for (key, member) in members.iter() {
        let name = key.clone()?;
        drop(entries.insert(name, tree_from(alloc, member)?)?);
    }
    Ok(entries)
}
