//! The object that an update asks for: it keeps the prior values that aren't to be changed.

ghost use Rattle.std.specs.Prelude.{◌≡◌, IfOk, map, string_bytes};
ghost use Rattle.tf_value_data.specs.Tree.{tree_of, entries_view};
ghost use Rattle.tf_plan_object.specs.Kept.{is_ignored, is_kept, kept_entries, kept_object, kept_value, names_computed};

use std::alloc::{AllocError, Global};
use std::collections::BTreeMap;
use tf_provider_protocol::{Mode, Schema};
use tf_value_data::Value;

/// Returns the planned object with the prior value of each attribute that is kept: those that the provider sets, and
/// those whose changes are ignored. An update asks for this object.
///
/// # Errors
///
/// Fails only if memory runs out.
pub fn kept_object(
    alloc: Global,
    schema: &Schema,
    ignored: &[String],
    prior: &Value,
    planned: &Value,
) -> Result<Value, AllocError>
    ensures { IfOk result (λ v. tree_of v ≡ kept_object schema.now (map string_bytes ignored.now) (tree_of prior.now) (tree_of planned.now)) }
{
    match planned {
        Value::Map(entries) => Ok(Value::Map(kept_entries(
            alloc, schema, ignored, prior, entries,
        )?)),
        _ => planned.clone(),
    }
}

fn kept_entries(
    alloc: Global,
    schema: &Schema,
    ignored: &[String],
    prior: &Value,
    planned: &BTreeMap<String, Value>,
) -> Result<BTreeMap<String, Value>, AllocError>
    ensures { IfOk result (λ m. entries_view m.entries
        ≡ kept_entries schema.now (map string_bytes ignored.now) (tree_of prior.now) (entries_view planned.now.entries)) }
{
    let mut kept = BTreeMap::new(alloc);
    for (key, value) in planned.iter() {
        let name = key.clone()?;
        let value = kept_value(schema, ignored, prior, key.as_str(), value).clone()?;
        drop(kept.insert(name, value)?);
    }
    Ok(kept)
}

/// Returns the prior value of an attribute that is kept, or else its planned value.
fn kept_value<'a>(
    schema: &Schema,
    ignored: &[String],
    prior: &'a Value,
    name: &str,
    planned: &'a Value,
) -> &'a Value
    ensures { tree_of result.now ≡ kept_value schema.now (map string_bytes ignored.now) (tree_of prior.now) name.now (tree_of planned.now) }
{
    if is_kept(schema, ignored, name) {
        match prior.get(name) {
            Some(value) => value,
            None => planned,
        }
    } else {
        planned
    }
}

fn is_kept(schema: &Schema, ignored: &[String], name: &str) -> bool
    ensures { result ≡ is_kept schema.now (map string_bytes ignored.now) name.now }
{
    names_computed(schema, name) || is_ignored(ignored, name)
}

/// Checks whether a name is that of an attribute that the provider sets.
fn names_computed(schema: &Schema, name: &str) -> bool
    ensures { result ≡ names_computed schema.now name.now }
{
    match schema.attribute(name) {
        Some(attribute) => attribute.mode == Mode::Computed,
        None => false,
    }
}

/// Checks whether the changes of an attribute are ignored.
fn is_ignored(ignored: &[String], name: &str) -> bool
    ensures { result ≡ is_ignored (map string_bytes ignored.now) name.now }
{
    for other in ignored {
        if other.as_str() == name {
            return true;
        }
    }
    false
}
