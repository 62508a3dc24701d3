//! Reading of values and of the properties of a record.

ghost use Rattle.std.specs.Prelude.{◌≡◌, ◌^◌, [], Some, IfErr, IfOk, map, option_map, string_bytes};
ghost use Rattle.serde_json.specs.Data.{array};
ghost use Rattle.serde_json.specs.View.{view, items_view, members_view};
ghost use Rattle.tf_config_address.specs.ObjectId.{deposed_of, instance_key_of, object_id_of};
ghost use Rattle.tf_state.specs.Reading.{IsRefused, address_in, addresses_in, attributes_in, below, below_or_zero, dependencies_in, deposed_in, flag_in, is_unsensitive, key_in, name_in, id_in, tainted_in, text_in, text_or, value_in, values_in};
ghost use Rattle.tf_value_data.specs.Tree.{no_entries, tree_of, entries_view};

use crate::fault::StateFault;
use crate::shape::{is_address, is_deposed_key};
use serde_json::{Map, Value as Json};
use std::alloc::Global;
use std::collections::{BTreeMap, BTreeSet};
use tf_config_address::{InstanceKey, ObjectId, is_name};
use tf_state_data::Object;
use tf_value_data::Value;
use tf_value_json::{JsonFault, from_json};

/// Reads a value, which is known and within the limits.
#[tactic(auto, using(crate::proofs::ValueForms::value_read, crate::proofs::ValueForms::value_known, crate::proofs::ValueForms::value_refused))]
pub(crate) fn read_value(alloc: Global, json: &Json) -> Result<Object, StateFault>
    ensures ok { IfOk result (λ o. value_in (view json.now) ≡ Some (tree_of o.value)) }
    ensures err { IfErr result (λ e. IsRefused (value_in (view json.now)) e) }
{
    match from_json(alloc, json) {
        Ok(value) => Ok(Object { value }),
        Err(JsonFault::OutOfMemory) => Err(StateFault::OutOfMemory),
        Err(_) => Err(StateFault::BadState),
    }
}

/// Reads the attributes of an object.
#[tactic(auto, using(crate::proofs::KnownForms::attributes_known))]
pub(crate) fn read_attributes(alloc: Global, json: Option<&Json>) -> Result<Object, StateFault>
    ensures ok { IfOk result (λ o. attributes_in (option_map (λ v. view v.now) json.entry) ≡ Some (tree_of o.value)) }
    ensures err { IfErr result (λ e. IsRefused (attributes_in (option_map (λ v. view v.now) json.entry)) e) }
{
    match json {
        Some(Json::Object(members)) => {
            let value = Value::Map(read_values(alloc, members)?);
            Ok(Object { value })
        }
        _ => Err(StateFault::BadState),
    }
}

fn read_values(
    alloc: Global,
    members: &Map<String, Json>,
) -> Result<BTreeMap<String, Value>, StateFault>
    ensures ok { IfOk result (λ m. values_in value_in (members_view members.now.entries) no_entries ≡ Some (entries_view m.entries)) }
    ensures err { IfErr result (λ e. IsRefused (values_in value_in (members_view members.now.entries) no_entries) e) }
{
    let mut entries = BTreeMap::new(alloc);
    for (key, member) in members.iter() {
        let object = read_value(alloc, member)?;
        let name = key.clone()?;
        drop(entries.insert(name, object.value)?);
    }
    Ok(entries)
}

/// Reads a number below 2^32; 0 if it is absent.
pub(crate) fn read_version(json: Option<&Json>) -> Result<u32, StateFault>
    ensures ok { IfOk result (λ n. below_or_zero (2 ^ 32) (option_map (λ v. view v.now) json.entry) ≡ Some n) }
    ensures err { IfErr result (λ e. IsRefused (below_or_zero (2 ^ 32) (option_map (λ v. view v.now) json.entry)) e) }
{
    match json {
        Some(_) => read_serial(json),
        None => Ok(0),
    }
}

/// Reads a number below 2^32.
pub(crate) fn read_serial(json: Option<&Json>) -> Result<u32, StateFault>
    ensures ok { IfOk result (λ n. below (2 ^ 32) (option_map (λ v. view v.now) json.entry) ≡ Some n) }
    ensures err { IfErr result (λ e. IsRefused (below (2 ^ 32) (option_map (λ v. view v.now) json.entry)) e) }
{
    if let Some(Json::Number(number)) = json {
        if let Some(number) = number.as_u64() {
            if number < 0x1_0000_0000 {
                return Ok(number as u32);
            }
        }
    }
    Err(StateFault::BadState)
}

/// Reads the instance of a record.
pub(crate) fn read_key(alloc: Global, json: Option<&Json>) -> Result<InstanceKey, StateFault>
    ensures ok { IfOk result (λ k. key_in (option_map (λ v. view v.now) json.entry) ≡ Some (instance_key_of k)) }
    ensures err { IfErr result (λ e. IsRefused (key_in (option_map (λ v. view v.now) json.entry)) e) }
{
    match json {
        None => Ok(InstanceKey::Single),
        Some(Json::Number(number)) => match number.as_u64() {
            Some(number) if number < 0x8000_0000_0000_0000 => Ok(InstanceKey::Number(number)),
            _ => Err(StateFault::BadState),
        },
        Some(Json::String(name)) => Ok(InstanceKey::Name(String::from_str(alloc, name)?)),
        Some(_) => Err(StateFault::BadState),
    }
}

/// Reads the key of a deposed object.
pub(crate) fn read_deposed(alloc: Global, json: Option<&Json>) -> Result<Option<String>, StateFault>
    ensures ok { IfOk result (λ d. deposed_in (option_map (λ v. view v.now) json.entry) ≡ Some (deposed_of d)) }
    ensures err { IfErr result (λ e. IsRefused (deposed_in (option_map (λ v. view v.now) json.entry)) e) }
{
    match json {
        None => Ok(None),
        Some(Json::String(key)) if is_deposed_key(key) => Ok(Some(String::from_str(alloc, key)?)),
        Some(_) => Err(StateFault::BadState),
    }
}

/// Reads the id of a record's object.
pub(crate) fn read_id(alloc: Global, json: &Json) -> Result<ObjectId, StateFault>
    ensures ok { IfOk result (λ p. id_in (view json.now) ≡ Some (object_id_of p)) }
    ensures err { IfErr result (λ e. IsRefused (id_in (view json.now)) e) }
{
    let key = read_key(alloc, json.get("index_key"))?;
    let deposed = read_deposed(alloc, json.get("deposed"))?;
    Ok(ObjectId { key, deposed })
}

/// Reads from its status whether an object is tainted.
pub(crate) fn read_tainted(json: Option<&Json>) -> Result<bool, StateFault>
    ensures ok { IfOk result (λ b. tainted_in (option_map (λ v. view v.now) json.entry) ≡ Some b) }
    ensures err { IfErr result (λ e. IsRefused (tainted_in (option_map (λ v. view v.now) json.entry)) e) }
{
    match json {
        None => Ok(false),
        Some(Json::String(status)) if status.as_str() == "tainted" => Ok(true),
        Some(_) => Err(StateFault::BadState),
    }
}

/// Reads a truth value; false if it is absent.
pub(crate) fn read_flag(json: Option<&Json>) -> Result<bool, StateFault>
    ensures ok { IfOk result (λ b. flag_in (option_map (λ v. view v.now) json.entry) ≡ Some b) }
    ensures err { IfErr result (λ e. IsRefused (flag_in (option_map (λ v. view v.now) json.entry)) e) }
{
    match json {
        None => Ok(false),
        Some(Json::Bool(flag)) => Ok(*flag),
        Some(_) => Err(StateFault::BadState),
    }
}

/// Reads the addresses of the resources that an object depends on.
pub(crate) fn read_dependencies(
    alloc: Global,
    json: Option<&Json>,
) -> Result<BTreeSet<String>, StateFault>
    ensures ok { IfOk result (λ s. dependencies_in (option_map (λ v. view v.now) json.entry) ≡ Some (map string_bytes s.keys)) }
    ensures err { IfErr result (λ e. IsRefused (dependencies_in (option_map (λ v. view v.now) json.entry)) e) }
{
    match json {
        None => Ok(BTreeSet::new(alloc)),
        Some(Json::Array(items)) => read_addresses(alloc, items),
        Some(_) => Err(StateFault::BadState),
    }
}

fn read_addresses(alloc: Global, items: &[Json]) -> Result<BTreeSet<String>, StateFault>
    ensures ok { IfOk result (λ s. addresses_in (items_view items.now) [] ≡ Some (map string_bytes s.keys)) }
    ensures err { IfErr result (λ e. IsRefused (addresses_in (items_view items.now) []) e) }
{
    let mut addresses = BTreeSet::new(alloc);
    for item in items {
        let address = read_address(alloc, item)?;
        addresses.insert(address)?;
    }
    Ok(addresses)
}

fn read_address(alloc: Global, json: &Json) -> Result<String, StateFault>
    ensures ok { IfOk result (λ s. address_in (view json.now) ≡ Some (string_bytes s)) }
    ensures err { IfErr result (λ e. IsRefused (address_in (view json.now)) e) }
{
    match json {
        Json::String(text) if is_address(text) => Ok(String::from_str(alloc, text)?),
        _ => Err(StateFault::BadState),
    }
}

/// Returns whether no attribute is sensitive.
pub(crate) fn is_unsensitive(json: Option<&Json>) -> bool
    ensures { result ≡ is_unsensitive (option_map (λ v. view v.now) json.entry) }
{
    match json {
        None => true,
        Some(Json::Array(items)) => are_none(items),
        Some(_) => false,
    }
}

#[tactic(auto, using(crate::proofs::Loops::some_items))]
fn are_none(items: &[Json]) -> bool
    ensures { result ≡ is_unsensitive (Some (array (items_view items.now))) }
{
    match items {
        [] => true,
        [_, ..] => false,
    }
}

/// Reads a text.
pub(crate) fn read_text(alloc: Global, json: Option<&Json>) -> Result<String, StateFault>
    ensures ok { IfOk result (λ s. text_in (option_map (λ v. view v.now) json.entry) ≡ Some (string_bytes s)) }
    ensures err { IfErr result (λ e. IsRefused (text_in (option_map (λ v. view v.now) json.entry)) e) }
{
    match json {
        Some(Json::String(text)) => Ok(String::from_str(alloc, text)?),
        _ => Err(StateFault::BadState),
    }
}

/// Reads a text that is a name.
pub(crate) fn read_name(alloc: Global, json: Option<&Json>) -> Result<String, StateFault>
    ensures ok { IfOk result (λ s. name_in (option_map (λ v. view v.now) json.entry) ≡ Some (string_bytes s)) }
    ensures err { IfErr result (λ e. IsRefused (name_in (option_map (λ v. view v.now) json.entry)) e) }
{
    match json {
        Some(Json::String(text)) if is_name(text) => Ok(String::from_str(alloc, text)?),
        _ => Err(StateFault::BadState),
    }
}
