//! The check that a prior object fits the schema of its type.

ghost use Rattle.std.specs.Prelude.{◌≡◌, fold, map, IfOk, option_map};
ghost use Rattle.tf_provider_protocol.specs.Schema.{attribute_of};
ghost use Rattle.tf_state_data.specs.Record.{record_of};
ghost use Rattle.tf_value_data.specs.Tree.{entries_view};
ghost use Rattle.tf_plan_decision.specs.Answer.{prior_fault_of};
ghost use Rattle.tf_plan_decision.specs.Names.{first_name, sooner_name};
ghost use Rattle.tf_plan_decision.specs.Prior.{all_misfits, first_unfit, has_allowed, misfits, record_fault, strays};

use crate::names::sooner;
use std::alloc::{AllocError, Global};
use std::collections::BTreeMap;
use tf_provider_protocol::{Attribute, Schema, is_allowed};
use tf_state_data::Record;
use tf_value_data::{Value, find};

/// How a prior object doesn't fit the schema of its type.
#[derive(Debug, Drop)]
pub enum PriorFault {
    /// As a whole: it was written with another version of the schema, or isn't a map.
    Whole,
    /// At the attribute of this name. Only the object or only the schema has it, or its value is null although it is
    /// required, or its value isn't of the attribute's kind.
    Attribute(String),
}

/// Checks a record's object by the schema of its type and returns the first fault, if there is one: the version, or
/// else the attribute whose name is first in byte order, of the schema's and the object's together. No value is
/// converted.
///
/// # Errors
///
/// Fails only if memory runs out.
pub fn prior_fault(
    alloc: Global,
    schema: &Schema,
    record: &Record,
) -> Result<Option<PriorFault>, AllocError>
    ensures { IfOk result (λ fault. option_map prior_fault_of fault ≡ record_fault schema.now (record_of record.now)) }
{
    match &record.attributes.value {
        Value::Map(entries) => {
            if record.schema_version != schema.version() {
                return Ok(Some(PriorFault::Whole));
            }
            match first_misfit(schema, entries) {
                Some(name) => Ok(Some(PriorFault::Attribute(String::from_str(alloc, name)?))),
                None => Ok(None),
            }
        }
        _ => Ok(Some(PriorFault::Whole)),
    }
}

/// Returns the first fault of the objects of records, in their order.
pub(crate) fn first_unfit(
    alloc: Global,
    schema: &Schema,
    records: &[Record],
) -> Result<Option<PriorFault>, AllocError>
    ensures { IfOk result (λ fault. option_map prior_fault_of fault ≡ first_unfit schema.now (map record_of records.now)) }
{
    for record in records {
        if let Some(fault) = prior_fault(alloc, schema, record)? {
            return Ok(Some(fault));
        }
    }
    Ok(None)
}

/// Returns the first name, in byte order, at which an object's entries don't fit the schema.
fn first_misfit<'a>(schema: &'a Schema, entries: &'a BTreeMap<String, Value>) -> Option<&'a str>
    ensures { option_map (λ s. s.now) result ≡ first_name (all_misfits schema.now (entries_view entries.now.entries)) }
{
    let first = misfit_attribute(schema.attributes(), entries);
    first_stray(first, schema, entries)
}

/// Returns the name of the first attribute, in byte order, that an object doesn't have or whose value isn't allowed.
fn misfit_attribute<'a>(
    attributes: &'a [Attribute],
    entries: &BTreeMap<String, Value>,
) -> Option<&'a str>
    ensures { option_map (λ s. s.now) result ≡ first_name (misfits (map attribute_of attributes.now) (entries_view entries.now.entries)) }
{
    let mut first = None;
    for attribute in attributes {
        if !has_allowed(entries, attribute) {
            first = sooner(first, attribute.name.as_str());
        }
    }
    first
}

/// Returns the first of a name and those of an object's entries that no attribute has.
fn first_stray<'a>(
    misfit: Option<&'a str>,
    schema: &Schema,
    entries: &'a BTreeMap<String, Value>,
) -> Option<&'a str>
    ensures { option_map (λ s. s.now) result
        ≡ fold sooner_name (option_map (λ s. s.now) misfit.entry) (strays schema.now (entries_view entries.now.entries)) }
{
    let mut first = misfit;
    for (name, _) in entries.iter() {
        if schema.attribute(name.as_str()).is_none() {
            first = sooner(first, name.as_str());
        }
    }
    first
}

/// Checks whether an object has an attribute with an allowed value.
fn has_allowed(entries: &BTreeMap<String, Value>, attribute: &Attribute) -> bool
    ensures { result ≡ has_allowed (entries_view entries.now.entries) (attribute_of attribute.now) }
{
    match find(entries, attribute.name.as_str()) {
        Some(value) => is_allowed(value, attribute),
        None => false,
    }
}
