//! The results of calls that were in flight when an apply ended, as a user writes them down.

ghost use Rattle.std.specs.Prelude.{◌≡◌, IfOk, option_map, string_bytes};
ghost use Rattle.serde_json.specs.View.{view};
ghost use Rattle.tf_provider_protocol.specs.Meaning.{asked};
ghost use Rattle.tf_provider_remote.specs.Results.{is_of, key_from, result_from, result_in, result_of};

use crate::replies::reply_from;
use serde_json::Value as Json;
use std::alloc::{AllocError, Global};
use tf_provider_log::{is_same_text, op_word, read_tree, text_from};
use tf_provider_protocol::{Reply, Request};

/// The result of a call.
#[derive(Drop)]
pub struct CallResult {
    /// The address of the object.
    pub address: String,
    /// The word of the operation: `create`, `update` or `destroy`.
    pub op: String,
    /// The key of the deposed object, if the call was about one.
    pub deposed: Option<String>,
    /// The reply.
    pub reply: Reply,
}

impl CallResult {
    /// Returns whether this is the result of a request.
    pub fn is_of(&self, request: &Request) -> bool
        ensures { result ≡ is_of (result_of self.now) (asked request.now) }
    {
        self.address.as_str() == request.address.as_str()
            && self.op.as_str() == op_word(request.op)
            && is_same_text(&self.deposed, &request.deposed)
    }
}

/// Why a file isn't one of results.
#[derive(Clone, Copy, Debug, PartialEq, Eq)]
pub enum ResultsFault {
    /// The line of this number, counted from 1, isn't a result.
    Line(usize),
    /// Memory ran out.
    OutOfMemory,
}

impl From<AllocError> for ResultsFault {
    fn from(_: AllocError) -> ResultsFault {
        ResultsFault::OutOfMemory
    }
}

/// Reads the lines of a file as results, each with the number of its line, counted from 1. Skips empty lines. The last line may have
/// no newline.
///
/// # Errors
///
/// Fails with `Line` at the first line that isn't a result, and with `OutOfMemory` if memory runs out.
pub fn read_results(alloc: Global, bytes: &[u8]) -> Result<Vec<(usize, CallResult)>, ResultsFault> {
    let mut results = Vec::new(alloc);
    let mut number = 1usize;
    for line in bytes.split(|byte| *byte == b'\n') {
        match read_result(alloc, line)? {
            Some(found) => add(&mut results, number, found)?,
            None if line.is_empty() => {}
            None => return Err(ResultsFault::Line(number)),
        }
        number = number.saturating_add(1);
    }
    Ok(results)
}

/// Adds a result at the end.
fn add(
    results: &mut Vec<(usize, CallResult)>,
    number: usize,
    found: CallResult,
) -> Result<(), AllocError> {
    results.push((number, found))?;
    Ok(())
}

/// Reads a line, without its newline, as a result. Returns `None` if it isn't one.
fn read_result(alloc: Global, line: &[u8]) -> Result<Option<CallResult>, AllocError>
    ensures { IfOk result (λ found. option_map result_of found ≡ result_in line.now) }
{
    match read_tree(alloc, line)? {
        Some(json) => {
            let result = result_from(alloc, &json)?;
            Ok(result)
        }
        None => Ok(None),
    }
}

/// Reads the result that a tree says.
fn result_from(alloc: Global, json: &Json) -> Result<Option<CallResult>, AllocError>
    ensures { IfOk result (λ found. option_map result_of found ≡ result_from (view json.now)) }
{
    let Some(address) = text_from(json.get("address"))? else {
        return Ok(None);
    };
    let Some(op) = text_from(json.get("op"))? else {
        return Ok(None);
    };
    let Some(deposed) = key_from(json.get("deposed"))? else {
        return Ok(None);
    };
    let Some(reply) = reply_from(alloc, json)? else {
        return Ok(None);
    };
    Ok(Some(CallResult {
        address,
        op,
        deposed,
        reply,
    }))
}

/// Reads a string as a key, and null, or nothing, as no key.
fn key_from(json: Option<&Json>) -> Result<Option<Option<String>>, AllocError>
    ensures { IfOk result (λ key. option_map (option_map string_bytes) key ≡ key_from (option_map (λ v. view v.now) json.entry)) }
{
    match json {
        Some(Json::String(text)) => Ok(Some(Some(text.clone()?))),
        None | Some(Json::Null) => Ok(Some(None)),
        _ => Ok(None),
    }
}
