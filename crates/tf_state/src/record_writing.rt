//! The JSON form of a record, sent member by member in byte order.

ghost use Rattle.std.specs.Prelude.{◌≡◌, OnOk, codes, map, option_map, string_bytes};
ghost use Rattle.serde_json.specs.Data.{array, string};
ghost use Rattle.serde_json.specs.Events.{SendsValue};
ghost use Rattle.serde_json.specs.View.{items_of};
ghost use Rattle.tf_config_address.specs.ObjectId.{deposed_of, instance_key_of};
ghost use Rattle.tf_state_data.specs.Record.{record_of};
ghost use Rattle.tf_state.specs.Sending.{SendsSome, member_count};
ghost use Rattle.tf_state.specs.Text.{dependencies_data, flag_data, key_data, record_data, status_data};

use serde::{Serialize, Serializer};
use std::collections::BTreeSet;
use tf_config_address::InstanceKey;
use tf_state_data::Record;
use tf_value_json::AsJson;

pub(crate) fn send_record<S: Serializer>(instance: &Record, out: &mut S) -> Result<(), S::Error>
    ensures { OnOk result (SendsValue (record_data (record_of instance.now)) (S.written out.old) (S.written out.new)) }
{
    out.begin_map(Some(member_count(instance)))?;
    out.key("attributes")?;
    AsJson {
        value: &instance.attributes.value,
    }
    .serialize(out)?;
    send_flag(instance.create_before_destroy, out)?;
    send_dependencies(&instance.dependencies, out)?;
    send_deposed(&instance.id.deposed, out)?;
    send_key(&instance.id.key, out)?;
    out.key("schema_version")?;
    out.u64(u64::from(instance.schema_version))?;
    send_status(instance.tainted, out)?;
    out.end_map()
}

/// Returns with how many members a record is written.
fn member_count(instance: &Record) -> usize
    ensures { result ≡ member_count (record_of instance.now) }
{
    2 + usize::from(instance.create_before_destroy)
        + usize::from(!instance.dependencies.is_empty())
        + usize::from(instance.id.deposed.is_some())
        + usize::from(instance.id.key != InstanceKey::Single)
        + usize::from(instance.tainted)
}

fn send_flag<S: Serializer>(create_before_destroy: bool, out: &mut S) -> Result<(), S::Error>
    ensures { OnOk result (SendsSome (codes "create_before_destroy") (flag_data create_before_destroy) (S.written out.old) (S.written out.new)) }
{
    if !create_before_destroy {
        return Ok(());
    }
    out.key("create_before_destroy")?;
    out.bool(true)
}

fn send_dependencies<S: Serializer>(
    dependencies: &BTreeSet<String>,
    out: &mut S,
) -> Result<(), S::Error>
    ensures { OnOk result (SendsSome (codes "dependencies") (dependencies_data (map string_bytes dependencies.now.keys)) (S.written out.old) (S.written out.new)) }
{
    if dependencies.is_empty() {
        return Ok(());
    }
    out.key("dependencies")?;
    send_texts(dependencies, out)
}

fn send_texts<S: Serializer>(texts: &BTreeSet<String>, out: &mut S) -> Result<(), S::Error>
    ensures { OnOk result (SendsValue (array (items_of (map string (map string_bytes texts.now.keys)))) (S.written out.old) (S.written out.new)) }
{
    out.begin_seq(Some(texts.len()))?;
    for text in texts.iter() {
        out.str(text.as_str())?;
    }
    out.end_seq()
}

fn send_deposed<S: Serializer>(deposed: &Option<String>, out: &mut S) -> Result<(), S::Error>
    ensures { OnOk result (SendsSome (codes "deposed") (option_map string (deposed_of deposed.now)) (S.written out.old) (S.written out.new)) }
{
    match deposed {
        Some(key) => {
            out.key("deposed")?;
            out.str(key.as_str())
        }
        None => Ok(()),
    }
}

fn send_key<S: Serializer>(key: &InstanceKey, out: &mut S) -> Result<(), S::Error>
    ensures { OnOk result (SendsSome (codes "index_key") (key_data (instance_key_of key.now)) (S.written out.old) (S.written out.new)) }
{
    match key {
        InstanceKey::Single => Ok(()),
        InstanceKey::Number(number) => {
            out.key("index_key")?;
            out.u64(*number)
        }
        InstanceKey::Name(name) => {
            out.key("index_key")?;
            out.str(name.as_str())
        }
    }
}

fn send_status<S: Serializer>(tainted: bool, out: &mut S) -> Result<(), S::Error>
    ensures { OnOk result (SendsSome (codes "status") (status_data tainted) (S.written out.old) (S.written out.new)) }
{
    if !tainted {
        return Ok(());
    }
    out.key("status")?;
    out.str("tainted")
}
