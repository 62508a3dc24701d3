//! What a reply says of an object.

ghost use Rattle.std.specs.Bool.{OnTrue};
ghost use Rattle.std.specs.List.{list_all};
ghost use Rattle.std.specs.Prelude.{◌≡◌, map, option_and_then, option_map, string_bytes, IfSome};
ghost use Rattle.tf_provider_protocol.specs.Schema.{attribute_of};
ghost use Rattle.tf_provider_protocol.specs.Verdict.{well_formed};
ghost use Rattle.tf_walk_action.specs.Words.{answered, has_stored_attributes, tree_of};
ghost use Rattle.tf_state.specs.Valid.{IsAttributes};
ghost use Rattle.tf_state_next.specs.Saved.{formed_in, if_formed};
ghost use Rattle.tf_walk_report.specs.Formed.{allowed_in};
ghost use Rattle.tf_walk_report.specs.Replied.{failure_in};

use tf_provider::{Attribute, Reply, Schema, has_attributes};
use tf_provider_protocol::is_allowed;
use tf_state_data::Object;
use tf_value_data::{Value, each_may_be_stored};

/// Splits a reply into the object in it, if that is well formed, and the message of a failure.
pub fn open_reply(reply: Reply, schema: &Schema) -> (Option<Object>, Option<String>)
    ensures formed { option_map (λ o. tree_of o.value) result.0 ≡ formed_in schema.now (answered reply) }
    ensures stored { IfSome result.0 (λ o. IsAttributes (tree_of o.value)) }
    ensures failure { option_map string_bytes result.1 ≡ failure_in (answered reply) }
{
    match reply {
        Reply::Object(value) => (formed_object(value, schema), None),
        Reply::Failed { message, object } => (object_there(object, schema), Some(message)),
        Reply::Gone | Reply::NoMemory => (None, None),
    }
}

/// Returns the object that exists in spite of a failure, if there is one and it is well formed.
fn object_there(object: Option<Value>, schema: &Schema) -> Option<Object>
    ensures object { option_map (λ o. tree_of o.value) result ≡ option_and_then (if_formed schema.now) (option_map tree_of object) }
    ensures stored { IfSome result (λ o. IsAttributes (tree_of o.value)) }
{
    match object {
        Some(value) => formed_object(value, schema),
        None => None,
    }
}

/// Returns an object that a provider returned, if it is well formed.
fn formed_object(value: Value, schema: &Schema) -> Option<Object>
    ensures object { option_map (λ o. tree_of o.value) result ≡ if_formed schema.now (tree_of value) }
    ensures stored { IfSome result (λ o. IsAttributes (tree_of o.value)) }
{
    if is_well_formed(&value, schema) {
        Some(Object { value })
    } else {
        None
    }
}

/// Checks whether an object is well formed: each attribute may be stored, it has exactly those of the schema, and the
/// value of each is allowed. Because it looks through the object, it also shows that a text can hold its numbers and
/// keys.
fn is_well_formed(value: &Value, schema: &Schema) -> bool
    ensures exact { result ≡ well_formed schema.now (tree_of value.now) }
    ensures stored { OnTrue result (IsAttributes (tree_of value.now)) }
{
    let attributes = schema.attributes();
    let stored = has_stored_attributes(value);
    stored && has_attributes(value, schema) && all_allowed(value, attributes)
}

/// Checks whether the value of each attribute is there and allowed.
fn all_allowed(value: &Value, attributes: &[Attribute]) -> bool
    ensures { result ≡ list_all (allowed_in (tree_of value.now)) (map attribute_of attributes.now) }
{
    for attribute in attributes {
        if !is_allowed_in(value, attribute) {
            return false;
        }
    }
    true
}

/// Checks whether a map has an allowed value for the attribute.
fn is_allowed_in(value: &Value, attribute: &Attribute) -> bool
    ensures { result ≡ allowed_in (tree_of value.now) (attribute_of attribute.now) }
{
    match value.get(attribute.name.as_str()) {
        Some(part) => is_allowed(part, attribute),
        None => false,
    }
}

/// Checks whether each attribute of an object may be stored.
pub fn has_stored_attributes(object: &Value) -> bool
    ensures exact { result ≡ has_stored_attributes (tree_of object.now) }
    ensures stored { OnTrue result (IsAttributes (tree_of object.now)) }
{
    match object {
        Value::Map(attributes) => each_may_be_stored(attributes),
        _ => false,
    }
}
