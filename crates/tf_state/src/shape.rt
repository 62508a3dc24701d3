//! The objects of a state's JSON, and the texts in it.

ghost use Rattle.std.specs.List.{list_all, list_any};
ghost use Rattle.std.specs.Prelude.{◌≡◌, option_map};
ghost use Rattle.std.specs.Str.{bytes_eq};
ghost use Rattle.serde_json.specs.Find.{get};
ghost use Rattle.serde_json.specs.View.{view, members_view};
ghost use Rattle.tf_state.specs.Words.{has_only, is_address, is_deposed_key, is_hex, is_shaped, properties_of};

use serde_json::{Map, Value as Json};
use tf_config_address::is_name;

/// The kind of an object in a state's JSON.
#[derive(Clone, Copy)]
pub(crate) enum Shape {
    /// The whole state.
    State,
    /// An output.
    Output,
    /// A resource.
    Resource,
    /// An object of a resource.
    Record,
}

/// Returns whether a tree is an object that has only properties of the given shape.
pub(crate) fn is_shaped(json: &Json, shape: Shape) -> bool
    ensures { result ≡ is_shaped shape (view json.now) }
{
    match json {
        Json::Object(members) => have_only(members, shape),
        _ => false,
    }
}

fn have_only(members: &Map<String, Json>, shape: Shape) -> bool
    ensures { result ≡ has_only (properties_of shape) (members_view members.now.entries) }
{
    for (name, _) in members.iter() {
        if !is_property(shape, name.as_str()) {
            return false;
        }
    }
    true
}

fn is_property(shape: Shape, name: &str) -> bool
    ensures { result ≡ list_any (bytes_eq name.now) (properties_of shape) }
{
    match shape {
        Shape::State => matches!(
            name,
            "check_results"
                | "lineage"
                | "outputs"
                | "resources"
                | "serial"
                | "terraform_version"
                | "version"
        ),
        Shape::Output => matches!(name, "type" | "value"),
        Shape::Resource => matches!(name, "instances" | "mode" | "name" | "provider" | "type"),
        Shape::Record => matches!(
            name,
            "attributes"
                | "create_before_destroy"
                | "dependencies"
                | "deposed"
                | "index_key"
                | "schema_version"
                | "sensitive_attributes"
                | "status"
        ),
    }
}

/// Returns a member of an object, if it has one, and drops the rest of the object.
pub(crate) fn take_member(mut json: Json, key: &str) -> Option<Json>
    ensures { option_map view result ≡ get key.now (view json) }
{
    match json.get_mut(key) {
        Some(member) => Some(member.take()),
        None => None,
    }
}

/// Returns whether a text is the key of a deposed object: eight lower-case hex digits.
pub(crate) fn is_deposed_key(text: &str) -> bool
    ensures { result ≡ is_deposed_key text.now }
{
    text.len() == 8 && all_hex(text.as_bytes())
}

fn all_hex(bytes: &[u8]) -> bool
    ensures { result ≡ list_all is_hex bytes.now }
{
    bytes.iter().all(|byte| is_hex(*byte))
}

fn is_hex(byte: u8) -> bool
    ensures { result ≡ is_hex byte }
{
    matches!(byte, b'0'..=b'9' | b'a'..=b'f')
}

/// Returns whether a text is the address `TYPE.NAME` of a resource.
pub(crate) fn is_address(text: &str) -> bool
    ensures { result ≡ is_address text.now }
{
    match text.split_once('.') {
        Some((type_name, name)) => is_name(type_name) && is_name(name),
        None => false,
    }
}
