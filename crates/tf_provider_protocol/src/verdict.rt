//! The verdict on a reply, by the request, the reply and the schema alone.

ghost use Rattle.std.specs.List.{list_all, position_from};
ghost use Rattle.std.specs.Prelude.{◌≡◌, IsTrue, map, option_map};
ghost use Rattle.tf_provider_protocol.specs.Meaning.{asked, answered};
ghost use Rattle.tf_provider_protocol.specs.Schema.{attribute_of};
ghost use Rattle.tf_value_data.specs.Tree.{keys_of, tree_of, entries_view};
ghost use Rattle.tf_provider_protocol.specs.Verdict.{asks_fully, verdict_on, verdict_on_object, well_formed, has_attributes, same_names, fits, fits_in, is_allowed, contradicts_at};

use crate::request::{Op, Reply, Request};
use crate::schema::{Attribute, Kind, Mode, Schema};
use std::collections::BTreeMap;
use tf_value_data::{Value, may_be_stored, refines};

/// The judgment of a reply.
#[derive(Clone, Copy, Debug, PartialEq, Eq)]
pub enum Verdict {
    /// The reply meets the request.
    Good,
    /// The provider reports that the request failed.
    Failed,
    /// The reply's object contradicts the requested one. The first attribute that does has this place in the schema's
    /// byte order of names.
    Contradicted(usize),
    /// The reply doesn't answer the request, or its object doesn't follow the schema.
    Malformed,
    /// Memory ran out, and nothing was done.
    Excused,
}

/// Returns the verdict on a reply. Out of memory is excused, and a failure is failed. A destroy is good if the object
/// is gone, and malformed if there is an object. A create or an update is malformed if there is no object or if the
/// object isn't well formed. Otherwise it is contradicted at the first attribute, in byte order, whose value in the
/// request's object doesn't refine to the reply's, and good if there is no such attribute. Takes no memory.
pub fn judge(request: &Request, reply: &Reply, schema: &Schema) -> Verdict
    requires { IsTrue (asks_fully (asked request.now) schema.now) }
    ensures { result ≡ verdict_on (asked request.now) (answered reply.now) schema.now }
{
    match (reply, request.op) {
        (Reply::NoMemory, _) => Verdict::Excused,
        (Reply::Failed { .. }, _) => Verdict::Failed,
        (Reply::Gone, Op::Destroy) => Verdict::Good,
        (Reply::Gone, Op::Create | Op::Update) => Verdict::Malformed,
        (Reply::Object(_), Op::Destroy) => Verdict::Malformed,
        (Reply::Object(there), Op::Create | Op::Update) => {
            judge_object(&request.object, there, schema)
        }
    }
}

/// Checks that a request has what its operation needs. A destroy needs no object, and the object of a create or an
/// update is a map with exactly the schema's attributes.
pub fn asks_fully(request: &Request, schema: &Schema) -> bool
    ensures { result ≡ asks_fully (asked request.now) schema.now }
{
    match &request.object {
        Some(object) => request.op == Op::Destroy || has_attributes(object, schema),
        None => request.op == Op::Destroy,
    }
}

/// Returns the verdict on an object that answers a create or an update.
fn judge_object(wanted: &Option<Value>, there: &Value, schema: &Schema) -> Verdict
    ensures { result ≡ verdict_on_object schema.now (option_map tree_of wanted.now) (tree_of there.now) }
{
    if !well_formed(there, schema) {
        return Verdict::Malformed;
    }
    match wanted {
        Some(wanted) => match first_contradiction(wanted, there, schema.attributes()) {
            Some(place) => Verdict::Contradicted(place),
            None => Verdict::Good,
        },
        None => Verdict::Good,
    }
}

/// Checks that a value is a well-formed object of a schema: it has exactly the schema's attributes, and each value
/// may be stored (known, of weight at most 1,000,000 and depth at most 32, without a set in it). Each value is of the
/// attribute's kind, without conversion, or null if the attribute isn't required.
pub fn well_formed(value: &Value, schema: &Schema) -> bool
    ensures { result ≡ well_formed schema.now (tree_of value.now) }
{
    has_attributes(value, schema) && all_fit(value, schema.attributes())
}

/// Returns whether a value is a map with exactly the schema's attributes.
pub fn has_attributes(value: &Value, schema: &Schema) -> bool
    ensures { result ≡ has_attributes schema.now (tree_of value.now) }
{
    match value {
        Value::Map(entries) => keys_are(entries, schema.attributes()),
        _ => false,
    }
}

/// Checks that the keys of a map are the names of some attributes, in the same order.
fn keys_are(entries: &BTreeMap<String, Value>, attributes: &[Attribute]) -> bool
    ensures { result ≡ same_names (keys_of (entries_view entries.now.entries))
        (map (λ a. a.name) (map attribute_of attributes.now)) }
{
    if entries.len() != attributes.len() {
        return false;
    }
    for ((key, _value), attribute) in entries.iter().zip(attributes.iter()) {
        if key.as_str() != attribute.name.as_str() {
            return false;
        }
    }
    true
}

/// Checks that a value for each attribute exists and fits.
fn all_fit(value: &Value, attributes: &[Attribute]) -> bool
    ensures { result ≡ list_all (fits_in (tree_of value.now)) (map attribute_of attributes.now) }
{
    for attribute in attributes {
        if !fits_in(value, attribute) {
            return false;
        }
    }
    true
}

/// Returns whether a map has a value for the attribute that fits it.
fn fits_in(value: &Value, attribute: &Attribute) -> bool
    ensures { result ≡ fits_in (tree_of value.now) (attribute_of attribute.now) }
{
    match value.get(attribute.name.as_str()) {
        Some(part) => fits(part, attribute),
        None => false,
    }
}

/// Returns whether a value may be stored and is allowed for an attribute.
fn fits(value: &Value, attribute: &Attribute) -> bool
    ensures { result ≡ fits (attribute_of attribute.now) (tree_of value.now) }
{
    may_be_stored(value) && is_allowed(value, attribute)
}

/// Returns whether a value is of the attribute's kind, or null if the attribute isn't required.
pub fn is_allowed(value: &Value, attribute: &Attribute) -> bool
    ensures { result ≡ is_allowed (attribute_of attribute.now) (tree_of value.now) }
{
    match value {
        Value::Null => attribute.mode != Mode::Required,
        Value::Text(_) => attribute.kind == Kind::String || attribute.kind == Kind::Any,
        Value::Int(_) => attribute.kind == Kind::Number || attribute.kind == Kind::Any,
        Value::Bool(_) => attribute.kind == Kind::Bool || attribute.kind == Kind::Any,
        Value::List(_) | Value::Map(_) | Value::Set(_) | Value::Unknown => {
            attribute.kind == Kind::Any
        }
    }
}

/// Returns the place of the first attribute whose requested value doesn't refine to the actual one.
fn first_contradiction(wanted: &Value, there: &Value, attributes: &[Attribute]) -> Option<usize>
    ensures { result ≡ position_from (contradicts_at (tree_of wanted.now) (tree_of there.now)) 0 (map attribute_of attributes.now) }
{
    for (place, attribute) in attributes.iter().enumerate() {
        if contradicts(wanted, there, attribute) {
            return Some(place);
        }
    }
    None
}

/// Returns whether an attribute's requested value doesn't refine to the actual one.
fn contradicts(wanted: &Value, there: &Value, attribute: &Attribute) -> bool
    ensures { result ≡ contradicts_at (tree_of wanted.now) (tree_of there.now) (attribute_of attribute.now) }
{
    let name = attribute.name.as_str();
    match (wanted.get(name), there.get(name)) {
        (Some(value), Some(other)) => !refines(value, other),
        _ => false,
    }
}
