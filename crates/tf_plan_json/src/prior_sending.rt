//! The JSON form of the prior state, sent member by member in byte order.

ghost use Rattle.std.specs.Prelude.{◌≡◌, OnOk, codes, is_some, map, option_map, string_bytes};
ghost use Rattle.serde_json.specs.Data.{array, object, string};
ghost use Rattle.serde_json.specs.Events.{SendsValue};
ghost use Rattle.serde_json.specs.View.{items_of};
ghost use Rattle.tf_config_address.specs.ObjectId.{deposed_of};
ghost use Rattle.tf_plan_json.specs.Members.{members_by};
ghost use Rattle.tf_plan_json.specs.Prior.{is_something, module_data, objects_data, output_data, outputs_data, prior_data, some_prior, stored_count, values_count, values_data};
ghost use Rattle.tf_plan_json.specs.Views.{stored_view};
ghost use Rattle.tf_state.specs.Sending.{SendsSome};
ghost use Rattle.tf_state.specs.Text.{dependencies_data, flag_data};
ghost use Rattle.tf_state_data.specs.Record.{record_of};
ghost use Rattle.tf_state_data.specs.State.{outputs_of};
ghost use Rattle.tf_value_data.specs.Tree.{tree_of};

use crate::changing::{has_index, send_empty, send_index};
use crate::prior::Stored;
use serde::{Serialize, Serializer};
use std::collections::{BTreeMap, BTreeSet};
use tf_state_data::{Object, Record};
use tf_value_json::AsJson;

/// Sends the prior state, if it has an output or an object.
pub(crate) fn send_prior<S: Serializer>(
    outputs: &BTreeMap<String, Object>,
    objects: &[Stored<'_>],
    out: &mut S,
) -> Result<(), S::Error>
    ensures { OnOk result (SendsSome (codes "prior_state") (some_prior (outputs_of outputs.now.entries) (map stored_view objects.now)) (S.written out.old) (S.written out.new)) }
{
    if !is_something(outputs, objects) {
        return Ok(());
    }
    out.key("prior_state")?;
    send_state(outputs, objects, out)
}

/// Checks whether the prior state has an output or an object.
pub(crate) fn is_something(outputs: &BTreeMap<String, Object>, objects: &[Stored<'_>]) -> bool
    ensures { result ≡ is_something (outputs_of outputs.now.entries) (map stored_view objects.now) }
{
    has_outputs(outputs) || has_objects(objects)
}

/// Checks whether there is an output.
fn has_outputs(outputs: &BTreeMap<String, Object>) -> bool
    ensures { result ≡ is_some (outputs_data (outputs_of outputs.now.entries)) }
{
    !outputs.is_empty()
}

/// Checks whether there is an object.
fn has_objects(objects: &[Stored<'_>]) -> bool
    ensures { result ≡ is_some (objects_data (map stored_view objects.now)) }
{
    match objects {
        [] => false,
        [_, ..] => true,
    }
}

/// Sends the prior state.
fn send_state<S: Serializer>(
    outputs: &BTreeMap<String, Object>,
    objects: &[Stored<'_>],
    out: &mut S,
) -> Result<(), S::Error>
    ensures { OnOk result (SendsValue (prior_data (outputs_of outputs.now.entries) (map stored_view objects.now)) (S.written out.old) (S.written out.new)) }
{
    out.begin_map(Some(3))?;
    out.key("format_version")?;
    out.str("1.0")?;
    out.key("terraform_version")?;
    out.str("1.0.0")?;
    out.key("values")?;
    send_values(outputs, objects, out)?;
    out.end_map()
}

/// Sends the values of the prior state: its outputs and its objects.
fn send_values<S: Serializer>(
    outputs: &BTreeMap<String, Object>,
    objects: &[Stored<'_>],
    out: &mut S,
) -> Result<(), S::Error>
    ensures { OnOk result (SendsValue (values_data (outputs_of outputs.now.entries) (map stored_view objects.now)) (S.written out.old) (S.written out.new)) }
{
    out.begin_map(Some(values_count(outputs)))?;
    send_outputs(outputs, out)?;
    out.key("root_module")?;
    send_module(objects, out)?;
    out.end_map()
}

/// Counts the members of the values: the root module, and the outputs if there are any.
fn values_count(outputs: &BTreeMap<String, Object>) -> usize
    ensures { result ≡ values_count (outputs_of outputs.now.entries) }
{
    1 + usize::from(has_outputs(outputs))
}

/// Sends the outputs, if there are any.
fn send_outputs<S: Serializer>(
    outputs: &BTreeMap<String, Object>,
    out: &mut S,
) -> Result<(), S::Error>
    ensures { OnOk result (SendsSome (codes "outputs") (outputs_data (outputs_of outputs.now.entries)) (S.written out.old) (S.written out.new)) }
{
    if outputs.is_empty() {
        return Ok(());
    }
    out.key("outputs")?;
    send_each_output(outputs, out)
}

/// Sends the outputs by name.
fn send_each_output<S: Serializer>(
    outputs: &BTreeMap<String, Object>,
    out: &mut S,
) -> Result<(), S::Error>
    ensures { OnOk result (SendsValue (object (members_by output_data (outputs_of outputs.now.entries))) (S.written out.old) (S.written out.new)) }
{
    out.begin_map(Some(outputs.len()))?;
    for (name, output) in outputs.iter() {
        out.key(name.as_str())?;
        send_output(output, out)?;
    }
    out.end_map()
}

/// Sends an output. None is sensitive.
fn send_output<S: Serializer>(output: &Object, out: &mut S) -> Result<(), S::Error>
    ensures { OnOk result (SendsValue (output_data (tree_of output.now.value)) (S.written out.old) (S.written out.new)) }
{
    out.begin_map(Some(2))?;
    out.key("sensitive")?;
    out.bool(false)?;
    out.key("value")?;
    AsJson {
        value: &output.value,
    }
    .serialize(out)?;
    out.end_map()
}

/// Sends the root module: its objects, if there are any.
fn send_module<S: Serializer>(objects: &[Stored<'_>], out: &mut S) -> Result<(), S::Error>
    ensures { OnOk result (SendsValue (module_data (map stored_view objects.now)) (S.written out.old) (S.written out.new)) }
{
    out.begin_map(Some(usize::from(has_objects(objects))))?;
    send_objects(objects, out)?;
    out.end_map()
}

/// Sends the objects, if there are any.
fn send_objects<S: Serializer>(objects: &[Stored<'_>], out: &mut S) -> Result<(), S::Error>
    ensures { OnOk result (SendsSome (codes "resources") (objects_data (map stored_view objects.now)) (S.written out.old) (S.written out.new)) }
{
    if objects.is_empty() {
        return Ok(());
    }
    out.key("resources")?;
    send_each_object(objects, out)
}

/// Sends the objects in their order.
fn send_each_object<S: Serializer>(objects: &[Stored<'_>], out: &mut S) -> Result<(), S::Error>
    ensures { OnOk result (SendsValue (array (items_of (map stored_view objects.now))) (S.written out.old) (S.written out.new)) }
{
    out.begin_seq(Some(objects.len()))?;
    for object in objects {
        send_object(object, out)?;
    }
    out.end_seq()
}

/// Sends an object.
fn send_object<S: Serializer>(object: &Stored<'_>, out: &mut S) -> Result<(), S::Error>
    ensures { OnOk result (SendsValue (stored_view object.now) (S.written out.old) (S.written out.new)) }
{
    let instance = object.instance;
    out.begin_map(Some(stored_count(instance)))?;
    out.key("address")?;
    out.str(object.address.as_str())?;
    send_dependencies(&instance.dependencies, out)?;
    send_deposed(&instance.id.deposed, out)?;
    send_index(&instance.id.key, out)?;
    out.key("mode")?;
    out.str("managed")?;
    out.key("name")?;
    out.str(object.addr.name.as_str())?;
    out.key("provider_name")?;
    out.str(object.provider.as_str())?;
    out.key("schema_version")?;
    out.u64(u64::from(instance.schema_version))?;
    out.key("sensitive_values")?;
    send_empty(out)?;
    send_tainted(instance.tainted, out)?;
    out.key("type")?;
    out.str(object.addr.type_name.as_str())?;
    out.key("values")?;
    AsJson {
        value: &instance.attributes.value,
    }
    .serialize(out)?;
    out.end_map()
}

/// Counts the members of an object: eight, and each other one that has a value.
fn stored_count(instance: &Record) -> usize
    ensures { result ≡ stored_count (record_of instance.now) }
{
    8 + usize::from(!instance.dependencies.is_empty())
        + usize::from(instance.id.deposed.is_some())
        + usize::from(has_index(&instance.id.key))
        + usize::from(instance.tainted)
}

/// Sends the addresses of the resources that an object depends on, if there are any.
fn send_dependencies<S: Serializer>(
    dependencies: &BTreeSet<String>,
    out: &mut S,
) -> Result<(), S::Error>
    ensures { OnOk result (SendsSome (codes "depends_on") (dependencies_data (map string_bytes dependencies.now.keys)) (S.written out.old) (S.written out.new)) }
{
    if dependencies.is_empty() {
        return Ok(());
    }
    out.key("depends_on")?;
    send_addresses(dependencies, out)
}

/// Sends an array of addresses.
fn send_addresses<S: Serializer>(texts: &BTreeSet<String>, out: &mut S) -> Result<(), S::Error>
    ensures { OnOk result (SendsValue (array (items_of (map string (map string_bytes texts.now.keys)))) (S.written out.old) (S.written out.new)) }
{
    out.begin_seq(Some(texts.len()))?;
    for text in texts.iter() {
        out.str(text.as_str())?;
    }
    out.end_seq()
}

/// Sends the key of an object, if it is deposed.
fn send_deposed<S: Serializer>(deposed: &Option<String>, out: &mut S) -> Result<(), S::Error>
    ensures { OnOk result (SendsSome (codes "deposed_key") (option_map string (deposed_of deposed.now)) (S.written out.old) (S.written out.new)) }
{
    match deposed {
        Some(key) => {
            out.key("deposed_key")?;
            out.str(key.as_str())
        }
        None => Ok(()),
    }
}

/// Sends that an object is tainted, if it is.
fn send_tainted<S: Serializer>(tainted: bool, out: &mut S) -> Result<(), S::Error>
    ensures { OnOk result (SendsSome (codes "tainted") (flag_data tainted) (S.written out.old) (S.written out.new)) }
{
    if !tainted {
        return Ok(());
    }
    out.key("tainted")?;
    out.bool(true)
}
