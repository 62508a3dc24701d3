//! The text of a state.

ghost use Rattle.std.specs.Prelude.{◌≡◌, IfOk, OnOk, length, map, string_bytes};
ghost use Rattle.serde_json.specs.Data.{array, object};
ghost use Rattle.serde_json.specs.Events.{SendsValue};
ghost use Rattle.serde_json.specs.View.{items_of};
ghost use Rattle.tf_state_data.specs.Record.{record_of};
ghost use Rattle.tf_state_data.specs.Resource.{resource_of};
ghost use Rattle.tf_state_data.specs.State.{outputs_of, state_of};
ghost use Rattle.tf_state.specs.Arrangement.{is_some_record, with_records};
ghost use Rattle.tf_state.specs.Sending.{SendsWhere};
ghost use Rattle.tf_state.specs.Text.{output_data, outputs_data, record_data, resource_data, state_data, state_text};
ghost use Rattle.tf_value_data.specs.Tree.{tree_of};

use crate::reading::Outputs;
use crate::record_writing::send_record;
use crate::resource_reading::has_records;
use crate::types::send_type;
use serde::{Described, Serialize, Serializer};
use std::alloc::{AllocError, Global};
use tf_state_data::{Object, Record, Resource, State};
use tf_value_json::AsJson;

/// Returns the one text of a state: Terraform's state file format, version 4, two spaces a level, keys in byte order,
/// and one newline at the end. Leaves out resources without records. Fails only if memory runs out.
pub fn write(alloc: Global, state: &State) -> Result<String, AllocError>
    ensures { IfOk result (λ text. string_bytes text ≡ state_text (state_of state.now)) }
{
    match tf_value_json::text(alloc, &StateFile { state }) {
        Ok(text) => Ok(text),
        // The events are well formed, so only memory can run out.
        Err(_) => Err(AllocError),
    }
}

/// A state, to be sent as the content of its file.
#[derive(Drop)]
struct StateFile<'a> {
    state: &'a State,
}

impl Described for StateFile<'_> {
    ghost writes = { λ file. SendsValue (state_data (state_of file.state.now)) };
}

impl Serialize for StateFile<'_> {
    fn serialize<S: Serializer>(&self, out: &mut S) -> Result<(), S::Error> {
        send_state(self.state, out)
    }
}

fn send_state<S: Serializer>(state: &State, out: &mut S) -> Result<(), S::Error>
    ensures { OnOk result (SendsValue (state_data (state_of state.now)) (S.written out.old) (S.written out.new)) }
{
    out.begin_map(Some(6))?;
    out.key("lineage")?;
    out.str(state.lineage())?;
    out.key("outputs")?;
    send_outputs(state.outputs(), out)?;
    out.key("resources")?;
    send_resources(state.resources(), out)?;
    out.key("serial")?;
    out.u64(u64::from(state.serial()))?;
    out.key("terraform_version")?;
    out.str(state.terraform_version())?;
    out.key("version")?;
    out.u64(4)?;
    out.end_map()
}

fn send_outputs<S: Serializer>(outputs: &Outputs, out: &mut S) -> Result<(), S::Error>
    ensures { OnOk result (SendsValue (object (outputs_data (outputs_of outputs.now.entries))) (S.written out.old) (S.written out.new)) }
{
    out.begin_map(Some(outputs.len()))?;
    for (name, output) in outputs {
        out.key(name.as_str())?;
        send_output(output, out)?;
    }
    out.end_map()
}

fn send_output<S: Serializer>(output: &Object, out: &mut S) -> Result<(), S::Error>
    ensures { OnOk result (SendsValue (output_data (tree_of output.now.value)) (S.written out.old) (S.written out.new)) }
{
    out.begin_map(Some(2))?;
    out.key("type")?;
    send_type(&output.value, out)?;
    out.key("value")?;
    AsJson {
        value: &output.value,
    }
    .serialize(out)?;
    out.end_map()
}

fn send_resources<S: Serializer>(resources: &[Resource], out: &mut S) -> Result<(), S::Error>
    ensures { OnOk result (SendsValue (array (items_of (map resource_data (with_records (map resource_of resources.now))))) (S.written out.old) (S.written out.new)) }
{
    out.begin_seq(Some(count_present(resources)))?;
    for resource in resources {
        send_present(resource, out)?;
    }
    out.end_seq()
}

/// Returns how many resources have records.
fn count_present(resources: &[Resource]) -> usize
    ensures { result ≡ length (with_records (map resource_of resources.now)) }
{
    let mut count = 0;
    for resource in resources {
        count += usize::from(is_present(resource));
    }
    count
}

fn is_present(resource: &Resource) -> bool
    ensures { result ≡ is_some_record (resource_of resource.now).records }
{
    has_records(resource.records())
}

/// Sends a resource if it has records.
fn send_present<S: Serializer>(resource: &Resource, out: &mut S) -> Result<(), S::Error>
    ensures { OnOk result (SendsWhere (is_some_record (resource_of resource.now).records) (resource_data (resource_of resource.now)) (S.written out.old) (S.written out.new)) }
{
    if !is_present(resource) {
        return Ok(());
    }
    send_resource(resource, out)
}

fn send_resource<S: Serializer>(resource: &Resource, out: &mut S) -> Result<(), S::Error>
    ensures { OnOk result (SendsValue (resource_data (resource_of resource.now)) (S.written out.old) (S.written out.new)) }
{
    out.begin_map(Some(5))?;
    out.key("instances")?;
    send_records(resource.records(), out)?;
    out.key("mode")?;
    out.str("managed")?;
    out.key("name")?;
    out.str(&resource.addr().name)?;
    out.key("provider")?;
    out.str(resource.provider())?;
    out.key("type")?;
    out.str(&resource.addr().type_name)?;
    out.end_map()
}

fn send_records<S: Serializer>(records: &[Record], out: &mut S) -> Result<(), S::Error>
    ensures { OnOk result (SendsValue (array (items_of (map record_data (map record_of records.now)))) (S.written out.old) (S.written out.new)) }
{
    out.begin_seq(Some(records.len()))?;
    for record in records {
        send_record(record, out)?;
    }
    out.end_seq()
}
