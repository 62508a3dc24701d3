//! The document.

ghost use Rattle.std.specs.Prelude.{◌≡◌, IfOk, OnOk, is_some, map, string_bytes};
ghost use Rattle.serde_json.specs.Data.{array, object};
ghost use Rattle.serde_json.specs.Events.{SendsValue};
ghost use Rattle.serde_json.specs.View.{items_of};
ghost use Rattle.tf_plan_data.specs.Plan.{plan_of};
ghost use Rattle.tf_plan_json.specs.Document.{IsJsonText, document_count, document_data, output_changes_data, plan_data, variable_data};
ghost use Rattle.tf_plan_json.specs.Members.{members_by};
ghost use Rattle.tf_plan_json.specs.Prior.{some_prior};
ghost use Rattle.tf_plan_json.specs.Views.{entry_view, stored_view};
ghost use Rattle.tf_plan_outputs.specs.Views.{change_view};
ghost use Rattle.tf_state_data.specs.State.{outputs_of};
ghost use Rattle.tf_value_data.specs.Tree.{entries_view, tree_of};
ghost use Rattle.tf_value_json.specs.Text.{text_of};

use crate::changing::send_entry;
use crate::listing::{Entry, entries};
use crate::output_sending::send_output_changes;
use crate::prior::{Stored, stored_objects};
use crate::prior_sending::{is_something, send_prior};
use serde::{Described, Serialize, Serializer};
use std::alloc::{AllocError, Global};
use std::collections::BTreeMap;
use tf_plan_data::{Plan, Planned};
use tf_plan_outputs::{OutputChange, output_changes};
use tf_state_data::Object;
use tf_value_data::Value;
use tf_value_json::AsJson;

/// Returns a plan as one JSON document, in the shape of Terraform's plan representation: its variables, the state that
/// it starts from, its changes of objects, in address order, and its changes of outputs, by name, each once. Two spaces a
/// level, keys in byte order, and one newline at the end.
///
/// # Errors
///
/// Fails only if memory runs out.
pub fn json_text(alloc: Global, planned: &Planned) -> Result<String, AllocError>
    ensures { IfOk result (λ text. IsJsonText (plan_of planned.now) (string_bytes text)) }
{
    let changes = output_changes(alloc, planned)?;
    document_text(alloc, &planned.plan, changes)
}

/// Returns the document of a plan and the changes of its outputs, as a text.
fn document_text(
    alloc: Global,
    plan: &Plan,
    changes: Vec<OutputChange<'_>>,
) -> Result<String, AllocError>
    ensures { IfOk result (λ text. string_bytes text ≡ text_of (plan_data (plan_of plan.now) (map change_view changes.entry.items))) }
{
    let objects = stored_objects(alloc, &plan.prior)?;
    let entries = entries(alloc, plan)?;
    let document = PlanDocument {
        variables: &plan.variables,
        changes: changes.as_slice(),
        outputs: plan.prior.outputs(),
        objects: objects.as_slice(),
        entries: entries.as_slice(),
    };
    match tf_value_json::text(alloc, &document) {
        Ok(text) => Ok(text),
        // The events are well formed, so only memory can run out.
        Err(_) => Err(AllocError),
    }
}

/// What the document has of a plan.
#[derive(Drop)]
struct PlanDocument<'a> {
    /// The values of the variables.
    variables: &'a BTreeMap<String, Value>,
    /// The changes of outputs.
    changes: &'a [OutputChange<'a>],
    /// The outputs of the prior state.
    outputs: &'a BTreeMap<String, Object>,
    /// The objects of the prior state.
    objects: &'a [Stored<'a>],
    /// The changes of objects.
    entries: &'a [Entry<'a>],
}

impl Described for PlanDocument<'_> {
    ghost writes = { λ it. SendsValue (document_data (entries_view it.variables.now.entries) (output_changes_data (map change_view it.changes.now)) (some_prior (outputs_of it.outputs.now.entries) (map stored_view it.objects.now)) (map entry_view it.entries.now)) };
}

impl Serialize for PlanDocument<'_> {
    fn serialize<S: Serializer>(&self, out: &mut S) -> Result<(), S::Error> {
        send_document(
            self.variables,
            self.changes,
            self.outputs,
            self.objects,
            self.entries,
            out,
        )
    }
}

fn send_document<S: Serializer>(
    variables: &BTreeMap<String, Value>,
    changes: &[OutputChange<'_>],
    outputs: &BTreeMap<String, Object>,
    objects: &[Stored<'_>],
    entries: &[Entry<'_>],
    out: &mut S,
) -> Result<(), S::Error>
    ensures { OnOk result (SendsValue (document_data (entries_view variables.now.entries) (output_changes_data (map change_view changes.now)) (some_prior (outputs_of outputs.now.entries) (map stored_view objects.now)) (map entry_view entries.now)) (S.written out.old) (S.written out.new)) }
{
    out.begin_map(Some(document_count(changes, outputs, objects)))?;
    out.key("complete")?;
    out.bool(true)?;
    out.key("errored")?;
    out.bool(false)?;
    out.key("format_version")?;
    out.str("1.2")?;
    send_output_changes(changes, out)?;
    send_prior(outputs, objects, out)?;
    out.key("resource_changes")?;
    send_entries(entries, out)?;
    out.key("terraform_version")?;
    out.str("1.0.0")?;
    out.key("variables")?;
    send_variables(variables, out)?;
    out.end_map()
}

/// Counts the members of the document: six, the changes of outputs if there are any, and the prior state if it has an
/// output or an object.
fn document_count(
    changes: &[OutputChange<'_>],
    outputs: &BTreeMap<String, Object>,
    objects: &[Stored<'_>],
) -> usize
    ensures { result ≡ document_count (output_changes_data (map change_view changes.now)) (some_prior (outputs_of outputs.now.entries) (map stored_view objects.now)) }
{
    6 + usize::from(has_changes(changes)) + usize::from(is_something(outputs, objects))
}

/// Checks whether there is a change of an output.
fn has_changes(changes: &[OutputChange<'_>]) -> bool
    ensures { result ≡ is_some (output_changes_data (map change_view changes.now)) }
{
    match changes {
        [] => false,
        [_, ..] => true,
    }
}

fn send_entries<S: Serializer>(entries: &[Entry<'_>], out: &mut S) -> Result<(), S::Error>
    ensures { OnOk result (SendsValue (array (items_of (map entry_view entries.now))) (S.written out.old) (S.written out.new)) }
{
    out.begin_seq(Some(entries.len()))?;
    for entry in entries {
        send_entry(entry, out)?;
    }
    out.end_seq()
}

fn send_variables<S: Serializer>(
    variables: &BTreeMap<String, Value>,
    out: &mut S,
) -> Result<(), S::Error>
    ensures { OnOk result (SendsValue (object (members_by variable_data (entries_view variables.now.entries))) (S.written out.old) (S.written out.new)) }
{
    out.begin_map(Some(variables.len()))?;
    for (name, value) in variables.iter() {
        out.key(name.as_str())?;
        send_variable(value, out)?;
    }
    out.end_map()
}

fn send_variable<S: Serializer>(value: &Value, out: &mut S) -> Result<(), S::Error>
    ensures { OnOk result (SendsValue (variable_data (tree_of value.now)) (S.written out.old) (S.written out.new)) }
{
    out.begin_map(Some(1))?;
    out.key("value")?;
    AsJson { value }.serialize(out)?;
    out.end_map()
}
