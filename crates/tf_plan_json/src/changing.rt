//! The JSON form of a change, sent member by member in byte order.

ghost use Rattle.std.specs.Prelude.{◌≡◌, OnOk, codes, is_some, map, option_map, string_bytes};
ghost use Rattle.serde_json.specs.Data.{array, item, no_items, no_members, object, string};
ghost use Rattle.serde_json.specs.Events.{SendsValue};
ghost use Rattle.serde_json.specs.View.{items_of};
ghost use Rattle.tf_config_address.specs.ObjectId.{instance_key_of};
ghost use Rattle.tf_plan_changes.specs.Views.{change_view, kind_view};
ghost use Rattle.tf_plan_data.specs.Action.{names_of};
ghost use Rattle.tf_plan_json.specs.Document.{actions_data, after_unknown_data, inner_count, inner_data, marks_data, object_data, outer_count, path_data, paths_data, paths_of};
ghost use Rattle.tf_plan_json.specs.Views.{entry_view};
ghost use Rattle.tf_state.specs.Sending.{SendsSome};
ghost use Rattle.tf_state.specs.Text.{key_data};
ghost use Rattle.tf_value_data.specs.Tree.{tree_of};

use crate::known::send_known;
use crate::listing::Entry;
use crate::unknown::send_unknown;
use serde::Serializer;
use tf_config_address::InstanceKey;
use tf_plan_changes::{Change, ChangeKind};
use tf_value_data::{Value, is_known};

/// Sends a change.
pub(crate) fn send_entry<S: Serializer>(entry: &Entry<'_>, out: &mut S) -> Result<(), S::Error>
    ensures { OnOk result (SendsValue (entry_view entry.now) (S.written out.old) (S.written out.new)) }
{
    out.begin_map(Some(outer_count(entry)))?;
    send_word("action_reason", entry.reason, out)?;
    out.key("address")?;
    out.str(entry.address.as_str())?;
    out.key("change")?;
    send_inner(&entry.change, out)?;
    send_deposed(entry.change.deposed, out)?;
    send_index(entry.change.key, out)?;
    out.key("mode")?;
    out.str("managed")?;
    out.key("name")?;
    out.str(entry.change.addr.name.as_str())?;
    out.key("provider_name")?;
    out.str(entry.provider.as_str())?;
    out.key("type")?;
    out.str(entry.change.addr.type_name.as_str())?;
    out.end_map()
}

/// Counts the members of a change: six, and each other one that has a value.
fn outer_count(entry: &Entry<'_>) -> usize
    ensures { result ≡ outer_count (option_map (λ s. s.now) entry.now.reason) (change_view entry.now.change) }
{
    6 + usize::from(entry.reason.is_some())
        + usize::from(entry.change.deposed.is_some())
        + usize::from(has_index(entry.change.key))
}

pub(crate) fn has_index(key: &InstanceKey) -> bool
    ensures { result ≡ is_some (key_data (instance_key_of key.now)) }
{
    match key {
        InstanceKey::Single => false,
        InstanceKey::Number(_) | InstanceKey::Name(_) => true,
    }
}

fn send_word<S: Serializer>(
    name: &'static str,
    word: Option<&'static str>,
    out: &mut S,
) -> Result<(), S::Error>
    ensures { OnOk result (SendsSome name.now (option_map string (option_map (λ s. s.now) word.entry)) (S.written out.old) (S.written out.new)) }
{
    match word {
        Some(word) => {
            out.key(name)?;
            out.str(word)
        }
        None => Ok(()),
    }
}

fn send_deposed<S: Serializer>(deposed: Option<&String>, out: &mut S) -> Result<(), S::Error>
    ensures { OnOk result (SendsSome (codes "deposed") (option_map string (option_map (λ s. string_bytes s.now) deposed.entry)) (S.written out.old) (S.written out.new)) }
{
    match deposed {
        Some(key) => {
            out.key("deposed")?;
            out.str(key.as_str())
        }
        None => Ok(()),
    }
}

pub(crate) fn send_index<S: Serializer>(key: &InstanceKey, out: &mut S) -> Result<(), S::Error>
    ensures { OnOk result (SendsSome (codes "index") (key_data (instance_key_of key.now)) (S.written out.old) (S.written out.new)) }
{
    match key {
        InstanceKey::Single => Ok(()),
        InstanceKey::Number(number) => {
            out.key("index")?;
            out.u64(*number)
        }
        InstanceKey::Name(name) => {
            out.key("index")?;
            out.str(name.as_str())
        }
    }
}

/// Sends what is done to an object, and the object before and after.
fn send_inner<S: Serializer>(change: &Change<'_>, out: &mut S) -> Result<(), S::Error>
    ensures { OnOk result (SendsValue (inner_data (change_view change.now)) (S.written out.old) (S.written out.new)) }
{
    out.begin_map(Some(inner_count(change.kind)))?;
    out.key("actions")?;
    send_actions(change.kind, out)?;
    out.key("after")?;
    send_object(change.after, out)?;
    out.key("after_unknown")?;
    send_after_unknown(change.after, out)?;
    out.key("before")?;
    send_object(change.before, out)?;
    send_paths(change.kind, out)?;
    out.end_map()
}

/// Counts the members of what is done to an object: four, and the attributes that force a replacement, if there are any.
fn inner_count(kind: ChangeKind<'_>) -> usize
    ensures { result ≡ inner_count (kind_view kind.entry) }
{
    match kind {
        ChangeKind::Replace(names) | ChangeKind::LateReplace(names) => {
            4 + usize::from(!names.is_empty())
        }
        ChangeKind::Create | ChangeKind::Update | ChangeKind::Destroy => 4,
    }
}

fn send_actions<S: Serializer>(kind: ChangeKind<'_>, out: &mut S) -> Result<(), S::Error>
    ensures { OnOk result (SendsValue (actions_data (kind_view kind.entry)) (S.written out.old) (S.written out.new)) }
{
    match kind {
        ChangeKind::Create => send_one("create", out),
        ChangeKind::Update => send_one("update", out),
        ChangeKind::Replace(_) => send_two("delete", "create", out),
        ChangeKind::LateReplace(_) => send_two("create", "delete", out),
        ChangeKind::Destroy => send_one("delete", out),
    }
}

/// Sends an array of one text.
pub(crate) fn send_one<S: Serializer>(word: &str, out: &mut S) -> Result<(), S::Error>
    ensures { OnOk result (SendsValue (path_data word.now) (S.written out.old) (S.written out.new)) }
{
    out.begin_seq(Some(1))?;
    out.str(word)?;
    out.end_seq()
}

fn send_two<S: Serializer>(
    first: &'static str,
    second: &'static str,
    out: &mut S,
) -> Result<(), S::Error>
    ensures { OnOk result (SendsValue (array (item (string first.now) (item (string second.now) no_items))) (S.written out.old) (S.written out.new)) }
{
    out.begin_seq(Some(2))?;
    out.str(first)?;
    out.str(second)?;
    out.end_seq()
}

/// Sends the known part of an object, or null if there is no object.
pub(crate) fn send_object<S: Serializer>(
    object: Option<&Value>,
    out: &mut S,
) -> Result<(), S::Error>
    ensures { OnOk result (SendsValue (object_data (option_map (λ v. tree_of v.now) object.entry)) (S.written out.old) (S.written out.new)) }
{
    match object {
        Some(object) => send_known(object, out),
        None => out.unit(),
    }
}

/// Sends which parts of an object are unknown. There are none if there is no object, or if it is known.
fn send_after_unknown<S: Serializer>(after: Option<&Value>, out: &mut S) -> Result<(), S::Error>
    ensures { OnOk result (SendsValue (after_unknown_data (option_map (λ v. tree_of v.now) after.entry)) (S.written out.old) (S.written out.new)) }
{
    match after {
        Some(object) => send_marks(object, out),
        None => send_empty(out),
    }
}

fn send_marks<S: Serializer>(object: &Value, out: &mut S) -> Result<(), S::Error>
    ensures { OnOk result (SendsValue (marks_data (tree_of object.now)) (S.written out.old) (S.written out.new)) }
{
    if is_known(object) {
        send_empty(out)
    } else {
        send_unknown(object, out)
    }
}

pub(crate) fn send_empty<S: Serializer>(out: &mut S) -> Result<(), S::Error>
    ensures { OnOk result (SendsValue (object no_members) (S.written out.old) (S.written out.new)) }
{
    out.begin_map(Some(0))?;
    out.end_map()
}

/// Sends the paths of the attributes that force a replacement, if there are any.
fn send_paths<S: Serializer>(kind: ChangeKind<'_>, out: &mut S) -> Result<(), S::Error>
    ensures { OnOk result (SendsSome (codes "replace_paths") (paths_data (kind_view kind.entry)) (S.written out.old) (S.written out.new)) }
{
    match kind {
        ChangeKind::Replace(names) | ChangeKind::LateReplace(names) => {
            send_names(names.as_slice(), out)
        }
        ChangeKind::Create | ChangeKind::Update | ChangeKind::Destroy => Ok(()),
    }
}

fn send_names<S: Serializer>(names: &[String], out: &mut S) -> Result<(), S::Error>
    ensures { OnOk result (SendsSome (codes "replace_paths") (paths_of (names_of names.now)) (S.written out.old) (S.written out.new)) }
{
    if names.is_empty() {
        return Ok(());
    }
    out.key("replace_paths")?;
    send_each(names, out)
}

fn send_each<S: Serializer>(names: &[String], out: &mut S) -> Result<(), S::Error>
    ensures { OnOk result (SendsValue (array (items_of (map path_data (names_of names.now)))) (S.written out.old) (S.written out.new)) }
{
    out.begin_seq(Some(names.len()))?;
    for name in names {
        send_one(name.as_str(), out)?;
    }
    out.end_seq()
}
