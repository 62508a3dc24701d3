//! Reading of a state from its text.

ghost use Rattle.std.specs.Prelude.{◌≡◌, Some, IfErr, IfOk, OnOk, option_map, string_bytes, IsUtf8, codes};
ghost use Rattle.std.specs.Bool.{OnFalse, OnTrue};
ghost use Rattle.serde_json.specs.Data.{Data};
ghost use Rattle.serde_json.specs.Read.{read};
ghost use Rattle.serde_json.specs.View.{view, members_view};
ghost use Rattle.tf_state.specs.Reading.{IsNoJson, IsRefused, is_state, is_unchecked, is_version, output_in, outputs_in, required_value, state_in, text_or, values_in};
ghost use Rattle.tf_state.specs.Table.{IsBeyond, IsPlannable, IsUnread, Reads};
ghost use Rattle.tf_state_data.specs.State.{outputs_of, state_of};
ghost use Rattle.tf_value_data.specs.Tree.{no_entries, tree_of};

use crate::fault::StateFault;
use crate::resource_reading::read_resources;
use crate::shape::{Shape, is_shaped, take_member};
use crate::value_reading::{read_serial, read_text, read_value};
use serde_json::{Map, Value as Json};
use std::alloc::Global;
use std::collections::BTreeMap;
use tf_state_data::{Object, State};

/// The outputs of a state, by name.
pub(crate) type Outputs = BTreeMap<String, Object>;

/// The most resources with records that a state may have.
const MAX_RESOURCES: usize = 4_000;

/// Reads the text of a state in Terraform's state file format, version 4.
///
/// # Errors
///
/// - `BadState` if the bytes are not the text of a state: they aren't UTF-8 or aren't JSON; or a property isn't
///   listed, is missing or has a value that the format refuses; or a value isn't whole or is beyond the limits of
///   `tf_value_data`; or two resources have the same address, or two records of a resource the same id.
/// - `Limit` if they are the text of a state with more than 4,000 resources with records, or with the serial
///   4294967295.
/// - `OutOfMemory` only if memory runs out.
#[tactic(auto, using(crate::proofs::Refusals::no_json, crate::proofs::Refusals::no_state, crate::proofs::Refusals::reads_by_table, crate::proofs::Refusals::beyond_limits))]
pub fn read(alloc: Global, bytes: &[u8]) -> Result<State, StateFault>
    // The bytes are the text of the state.
    ensures ok { IfOk result (λ state. Reads bytes.now (state_of state)) }

    // No limit is passed.
    ensures small { IfOk result (λ state. IsPlannable (state_of state)) }

    // The bytes are no state's text, or that of a state beyond a limit, or memory ran out.
    ensures err { IfErr result (λ e. IsUnread bytes.now e) }
{
    let json = read_json(alloc, bytes)?;
    let state = read_state(alloc, json)?;
    if !is_plannable(&state) {
        return Err(StateFault::Limit);
    }
    Ok(state)
}

/// Returns whether a plan can start from a state: it has at most 4,000 resources, and a serial that another follows.
pub fn is_plannable(state: &State) -> bool
    ensures within { OnTrue result (IsPlannable (state_of state.now)) }
    ensures beyond { OnFalse result (IsBeyond (state_of state.now)) }
{
    state.resources().len() <= MAX_RESOURCES && state.serial() < u32::MAX
}

fn read_json(alloc: Global, bytes: &[u8]) -> Result<Json, StateFault>
    ensures ok { IfOk result (λ json. IsUtf8 bytes.now × (read bytes.now ≡ Some (view json))) }
    ensures err { IfErr result (λ e. IsNoJson bytes.now e) }
{
    match Json::from_slice(alloc, bytes) {
        Ok(json) => Ok(json),
        Err(error) if error.is_memory() => Err(StateFault::OutOfMemory),
        Err(_) => Err(StateFault::BadState),
    }
}

fn read_state(alloc: Global, json: Json) -> Result<State, StateFault>
    ensures ok { IfOk result (λ s. state_in (view json) ≡ Some (state_of s)) }
    ensures err { IfErr result (λ e. IsRefused (state_in (view json)) e) }
{
    if !is_state(&json) {
        return Err(StateFault::BadState);
    }
    let serial = read_serial(json.get("serial"))?;
    let lineage = read_text(alloc, json.get("lineage"))?;
    let terraform_version = read_terraform_version(alloc, json.get("terraform_version"))?;
    let outputs = read_outputs(alloc, json.get("outputs"))?;
    let resources = read_resources(alloc, take_member(json, "resources"))?;
    Ok(State::new(serial, lineage, terraform_version, outputs, resources))
}

fn is_state(json: &Json) -> bool
    ensures { result ≡ is_state (view json.now) }
{
    is_shaped(json, Shape::State)
        && is_version(json.get("version"))
        && is_unchecked(json.get("check_results"))
}

fn is_version(json: Option<&Json>) -> bool
    ensures { result ≡ is_version (option_map (λ v. view v.now) json.entry) }
{
    match json {
        Some(Json::Number(number)) => match number.as_u64() {
            Some(version) => version == 4,
            None => false,
        },
        _ => false,
    }
}

fn is_unchecked(json: Option<&Json>) -> bool
    ensures { result ≡ is_unchecked (option_map (λ v. view v.now) json.entry) }
{
    matches!(json, None | Some(Json::Null))
}

fn read_terraform_version(alloc: Global, json: Option<&Json>) -> Result<String, StateFault>
    ensures ok { IfOk result (λ s. text_or (codes "1.0.0") (option_map (λ v. view v.now) json.entry) ≡ Some (string_bytes s)) }
    ensures err { IfErr result (λ e. IsRefused (text_or (codes "1.0.0") (option_map (λ v. view v.now) json.entry)) e) }
{
    match json {
        None => Ok(String::from_str(alloc, "1.0.0")?),
        Some(_) => read_text(alloc, json),
    }
}

fn read_outputs(alloc: Global, json: Option<&Json>) -> Result<Outputs, StateFault>
    ensures ok { IfOk result (λ m. outputs_in (option_map (λ v. view v.now) json.entry) ≡ Some (outputs_of m.entries)) }
    ensures err { IfErr result (λ e. IsRefused (outputs_in (option_map (λ v. view v.now) json.entry)) e) }
{
    match json {
        None => Ok(BTreeMap::new(alloc)),
        Some(Json::Object(members)) => read_each_output(alloc, members),
        Some(_) => Err(StateFault::BadState),
    }
}

fn read_each_output(alloc: Global, members: &Map<String, Json>) -> Result<Outputs, StateFault>
    ensures ok { IfOk result (λ m. values_in output_in (members_view members.now.entries) no_entries ≡ Some (outputs_of m.entries)) }
    ensures err { IfErr result (λ e. IsRefused (values_in output_in (members_view members.now.entries) no_entries) e) }
{
    let mut outputs = BTreeMap::new(alloc);
    for (key, member) in members {
        let output = read_output(alloc, member)?;
        let name = key.clone()?;
        drop(outputs.insert(name, output)?);
    }
    Ok(outputs)
}

fn read_output(alloc: Global, json: &Json) -> Result<Object, StateFault>
    ensures ok { IfOk result (λ o. output_in (view json.now) ≡ Some (tree_of o.value)) }
    ensures err { IfErr result (λ e. IsRefused (output_in (view json.now)) e) }
{
    if !is_shaped(json, Shape::Output) {
        return Err(StateFault::BadState);
    }
    match json.get("value") {
        Some(value) => read_value(alloc, value),
        None => Err(StateFault::BadState),
    }
}
