//! The attributes in which an object differs from the prior one.

ghost use Rattle.std.specs.Prelude.{◌≡◌, IfOk, option_map, map, string_bytes};
ghost use Rattle.tf_value_data.specs.Tree.{tree_of, entries_view};
ghost use Rattle.tf_plan_decision.specs.Differing.{differing, differing_entries, differs, forces_new, forcing};

use std::alloc::{AllocError, Global};
use std::collections::BTreeMap;
use tf_provider_protocol::Schema;
use tf_value_data::{Value, is_known};

/// Returns the names of the attributes in which an object differs from the prior one, in byte order.
pub(crate) fn differing(
    alloc: Global,
    prior: &Value,
    object: &Value,
) -> Result<Vec<String>, AllocError>
    ensures { IfOk result (λ names. map string_bytes names.items ≡ differing (tree_of prior.now) (tree_of object.now)) }
{
    match object {
        Value::Map(entries) => differing_entries(alloc, prior, entries),
        _ => Ok(Vec::new(alloc)),
    }
}

fn differing_entries(
    alloc: Global,
    prior: &Value,
    entries: &BTreeMap<String, Value>,
) -> Result<Vec<String>, AllocError>
    ensures { IfOk result (λ names. map string_bytes names.items ≡ differing_entries (tree_of prior.now) (entries_view entries.now.entries)) }
{
    let mut names = Vec::new(alloc);
    for (name, value) in entries.iter() {
        if differs(prior.get(name.as_str()), value) {
            names.push(name.clone()?)?;
        }
    }
    Ok(names)
}

/// Checks whether a value differs from the prior one, or has a part that isn't known yet.
fn differs(prior: Option<&Value>, value: &Value) -> bool
    ensures { result ≡ differs (option_map (λ v. tree_of v.now) prior.entry) (tree_of value.now) }
{
    match prior {
        Some(old) => *old != *value || !is_known(value),
        None => true,
    }
}

/// Returns the names among these whose changes replace the object.
pub(crate) fn forcing(
    alloc: Global,
    schema: &Schema,
    names: &[String],
) -> Result<Vec<String>, AllocError>
    ensures { IfOk result (λ found. map string_bytes found.items ≡ forcing schema.now (map string_bytes names.now)) }
{
    let mut found = Vec::new(alloc);
    for name in names {
        if forces_new(schema, name.as_str()) {
            found.push(name.clone()?)?;
        }
    }
    Ok(found)
}

/// Checks whether a name is that of an attribute whose change replaces the object.
fn forces_new(schema: &Schema, name: &str) -> bool
    ensures { result ≡ forces_new schema.now name.now }
{
    match schema.attribute(name) {
        Some(attribute) => attribute.force_new,
        None => false,
    }
}
