//! The JSON form of the changes of outputs, sent member by member in byte order.

ghost use Rattle.std.specs.Prelude.{◌≡◌, OnOk, codes, map, option_map};
ghost use Rattle.serde_json.specs.Data.{object};
ghost use Rattle.serde_json.specs.Events.{SendsValue};
ghost use Rattle.tf_plan_json.specs.Document.{output_actions_data, output_change_data, output_changes_data, output_marks_data, output_members, output_unknown_data};
ghost use Rattle.tf_plan_outputs.specs.Views.{action_view, change_view};
ghost use Rattle.tf_state.specs.Sending.{SendsSome};
ghost use Rattle.tf_value_data.specs.Tree.{tree_of};

use crate::changing::{send_object, send_one};
use crate::unknown::send_unknown;
use serde::Serializer;
use tf_plan_outputs::{OutputAction, OutputChange};
use tf_value_data::{Value, is_known};

/// Sends the changes of outputs, if there are any.
pub(crate) fn send_output_changes<S: Serializer>(
    outputs: &[OutputChange<'_>],
    out: &mut S,
) -> Result<(), S::Error>
    ensures { OnOk result (SendsSome (codes "output_changes") (output_changes_data (map change_view outputs.now)) (S.written out.old) (S.written out.new)) }
{
    if outputs.is_empty() {
        return Ok(());
    }
    out.key("output_changes")?;
    send_each_change(outputs, out)
}

/// Sends the changes of outputs by name.
fn send_each_change<S: Serializer>(
    outputs: &[OutputChange<'_>],
    out: &mut S,
) -> Result<(), S::Error>
    ensures { OnOk result (SendsValue (object (output_members (map change_view outputs.now))) (S.written out.old) (S.written out.new)) }
{
    out.begin_map(Some(outputs.len()))?;
    for output in outputs {
        out.key(output.name.as_str())?;
        send_change(output, out)?;
    }
    out.end_map()
}

/// Sends the change of an output. Neither value is sensitive.
fn send_change<S: Serializer>(output: &OutputChange<'_>, out: &mut S) -> Result<(), S::Error>
    ensures { OnOk result (SendsValue (output_change_data (change_view output.now)) (S.written out.old) (S.written out.new)) }
{
    out.begin_map(Some(6))?;
    out.key("actions")?;
    send_action(output.action(), out)?;
    out.key("after")?;
    send_object(output.after.as_ref(), out)?;
    out.key("after_sensitive")?;
    out.bool(false)?;
    out.key("after_unknown")?;
    send_unknown_parts(output.after.as_ref(), out)?;
    out.key("before")?;
    send_object(output.before, out)?;
    out.key("before_sensitive")?;
    out.bool(false)?;
    out.end_map()
}

/// Sends what is done to an output.
fn send_action<S: Serializer>(action: OutputAction, out: &mut S) -> Result<(), S::Error>
    ensures { OnOk result (SendsValue (output_actions_data (action_view action)) (S.written out.old) (S.written out.new)) }
{
    match action {
        OutputAction::NoOp => send_one("no-op", out),
        OutputAction::Create => send_one("create", out),
        OutputAction::Update => send_one("update", out),
        OutputAction::Delete => send_one("delete", out),
    }
}

/// Sends which parts of a value are unknown: `false` if there is no value, or if it is known.
fn send_unknown_parts<S: Serializer>(after: Option<&Value>, out: &mut S) -> Result<(), S::Error>
    ensures { OnOk result (SendsValue (output_unknown_data (option_map (λ v. tree_of v.now) after.entry)) (S.written out.old) (S.written out.new)) }
{
    match after {
        Some(value) => send_marks(value, out),
        None => out.bool(false),
    }
}

/// Sends which parts of a value are unknown, or `false` if it is known.
fn send_marks<S: Serializer>(value: &Value, out: &mut S) -> Result<(), S::Error>
    ensures { OnOk result (SendsValue (output_marks_data (tree_of value.now)) (S.written out.old) (S.written out.new)) }
{
    if is_known(value) {
        out.bool(false)
    } else {
        send_unknown(value, out)
    }
}
