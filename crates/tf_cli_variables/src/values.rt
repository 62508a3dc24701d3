//! The values that one source gives.

ghost use Rattle.std.specs.Prelude.{◌≡◌, IfOk, MatchOption, option_map};
ghost use Rattle.serde_json.specs.View.{view, members_view};
ghost use Rattle.tf_cli_variables.specs.Values.{FindsAssigned, FindsInFile, FindsValues, IsSplit, block_of, is_string, name_in, value_from};

use crate::source::{Cause, Source};
use serde_json::{Map, Value};
use std::alloc::{AllocError, Global};

/// The longest variables file, in bytes.
const MAX_BYTES: usize = 4_194_304;

/// Returns the values that a source gives by name, or why it gives none. Fails only if memory runs out.
pub(crate) fn values_of(
    alloc: Global,
    config: &Value,
    source: &Source,
) -> Result<Result<Map<String, Value>, Cause>, AllocError>
    ensures { IfOk result (FindsValues (view config.now) source.now) }
{
    match source {
        Source::File(bytes) => values_in_file(alloc, bytes.as_slice()),
        Source::Assignment(text) => assigned_values(alloc, config, text.as_str()),
    }
}

/// Returns the members of a variables file's object.
fn values_in_file(
    alloc: Global,
    bytes: &[u8],
) -> Result<Result<Map<String, Value>, Cause>, AllocError>
    ensures { IfOk result (FindsInFile bytes.now) }
{
    if bytes.len() > MAX_BYTES {
        return Ok(Err(Cause::NotAFile));
    }
    let tree = match Value::from_slice(alloc, bytes) {
        Ok(tree) => tree,
        Err(error) if error.is_memory() => return Err(AllocError),
        Err(_) => return Ok(Err(Cause::NotAFile)),
    };
    match tree {
        Value::Object(values) => Ok(Ok(values)),
        _other => Ok(Err(Cause::NotAFile)),
    }
}

/// Returns the value that an assignment gives to its name, if the configuration declares that.
fn assigned_values(
    alloc: Global,
    config: &Value,
    text: &str,
) -> Result<Result<Map<String, Value>, Cause>, AllocError>
    ensures { IfOk result (FindsAssigned (view config.now) text.now) }
{
    let Some((name, value)) = split(text) else {
        return Ok(Err(Cause::NoEqualsSign));
    };
    let Some(block) = block_of(config, name) else {
        return Ok(Err(Cause::Undeclared));
    };
    let Some(value) = value_from(alloc, block, value)? else {
        return Ok(Err(Cause::NotJson));
    };
    let mut values = Map::new(alloc);
    drop(values.insert(String::from_str(alloc, name)?, value)?);
    Ok(Ok(values))
}

/// Splits an assignment at its first `=`.
#[tactic(auto, using(crate::proofs::Splits::split_at_equals))]
fn split(text: &str) -> Option<(&str, &str)>
    ensures { IsSplit text.now result }
{
    text.split_once('=')
}

/// Returns the name in an assignment, `NAME=VALUE`, or the whole text if it has no `=`.
#[tactic(auto, using(crate::proofs::Splits::whole_name))]
pub fn name_in(text: &str) -> &str
    ensures { result.now ≡ name_in text.now }
{
    match split(text) {
        Some((name, _)) => name,
        None => text,
    }
}

/// Returns the block of a variable, if the configuration declares the variable.
fn block_of<'a>(config: &'a Value, name: &str) -> Option<&'a Value>
    ensures { option_map (λ block. view block.now) result ≡ block_of name.now (view config.now) }
{
    config.get("variable")?.get(name)
}

/// Returns the value that a text gives to a variable with this block: the text itself if the variable's type is `string`,
/// or else the value of the text as JSON, if it is JSON. Fails only if memory runs out.
fn value_from(alloc: Global, block: &Value, text: &str) -> Result<Option<Value>, AllocError>
    ensures { IfOk result (λ value. option_map view value ≡ value_from (view block.now) text.now) }
{
    if is_string(block) {
        return Ok(Some(Value::String(String::from_str(alloc, text)?)));
    }
    match Value::from_str(alloc, text) {
        Ok(value) => Ok(Some(value)),
        Err(error) if error.is_memory() => Err(AllocError),
        Err(_) => Ok(None),
    }
}

/// Returns whether a variable's block has the type `string`.
fn is_string(block: &Value) -> bool
    ensures { result ≡ is_string (view block.now) }
{
    match block.get("type") {
        Some(Value::String(text)) => text.as_str() == "string",
        _ => false,
    }
}
