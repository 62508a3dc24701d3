//! Merging of several sources.

ghost use Rattle.std.specs.Prelude.{◌≡◌, IfErr, IfOk, OnOk};
ghost use Rattle.serde_json.specs.View.{view, members_view};
ghost use Rattle.tf_cli_variables.specs.Merge.{AreValues, HasBadSource, IsMerge, IsUnmerged, IsUnread, put_each};
ghost use Rattle.tf_cli_variables.specs.Values.{IsTree};

use crate::source::{MergeFault, Source};
use crate::values::values_of;
use serde_json::{Map, Value};
use std::alloc::{AllocError, Global};

/// Merges the values of several sources into the text of one variables file: an object in which each name that a source has
/// occurs once, with the value of the last source that has it. The names are in byte order. Nothing else is merged: a value
/// that is an object or a list replaces an earlier one.
///
/// A file gives the members of its object; if a name occurs twice, the last one counts. An assignment, `NAME=VALUE`, gives one
/// name its value: the text itself if the configuration declares this variable with `"type": "string"`, or else the value
/// of the text as JSON.
///
/// # Errors
///
/// - `Configuration`: the configuration isn't JSON.
/// - `BadSource`: the first source, in their order, that gives no values, and why.
/// - `OutOfMemory`.
pub fn merge(alloc: Global, config: &[u8], sources: &[Source]) -> Result<Vec<u8>, MergeFault>
    ensures merged { IfOk result (λ bytes. IsMerge config.now sources.now bytes.items) }
    ensures fault { IfErr result (IsUnmerged config.now sources.now) }
{
    let config = read_config(alloc, config)?;
    let values = merged_values(alloc, &config, sources)?;
    Ok(Value::Object(values).to_vec(alloc)?)
}

/// Merges the values of sources, by this configuration.
fn merged_values(
    alloc: Global,
    config: &Value,
    sources: &[Source],
) -> Result<Map<String, Value>, MergeFault>
    ensures merged { IfOk result (λ values. AreValues (view config.now) sources.now (members_view values.entries)) }
    ensures fault { IfErr result (HasBadSource (view config.now) sources.now) }
{
    let mut values = Map::new(alloc);
    for (position, source) in sources.iter().enumerate() {
        match values_of(alloc, config, source)? {
            Ok(given) => put_each(&mut values, given)?,
            Err(cause) => return Err(MergeFault::BadSource(position, cause)),
        }
    }
    Ok(values)
}

/// Reads a configuration as JSON.
fn read_config(alloc: Global, bytes: &[u8]) -> Result<Value, MergeFault>
    ensures read { IfOk result (λ config. IsTree bytes.now (view config)) }
    ensures fault { IfErr result (IsUnread bytes.now) }
{
    match Value::from_slice(alloc, bytes) {
        Ok(config) => Ok(config),
        Err(error) if error.is_memory() => Err(MergeFault::OutOfMemory),
        Err(_) => Err(MergeFault::Configuration),
    }
}

/// Puts each of the given values at its name, in place of the value that is there.
fn put_each(values: &mut Map<String, Value>, given: Map<String, Value>) -> Result<(), AllocError>
    ensures { OnOk result (members_view values.new.entries ≡ put_each (members_view given.entries) (members_view values.old.entries)) }
{
    for (name, value) in given {
        drop(values.insert(name, value)?);
    }
    Ok(())
}
