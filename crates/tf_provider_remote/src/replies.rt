//! The lines of replies from a provider that is another program.

ghost use Rattle.std.specs.Prelude.{◌≡◌, IfOk, map, option_map, Some};
ghost use Rattle.serde_json.specs.View.{view};
ghost use Rattle.tf_provider_log.specs.Line.{lines_of};
ghost use Rattle.tf_provider_protocol.specs.Meaning.{answered};
ghost use Rattle.tf_provider_remote.specs.Responses.{answer_from, failure_from, gone_from, id_from, left_from, response_from, response_in, response_of, responses_in, numbered};
ghost use Rattle.tf_value_data.specs.Tree.{tree_of};

use serde_json::Value as Json;
use std::alloc::{AllocError, Global};
use tf_provider_log::{next_line, read_tree};
use tf_provider_protocol::Reply;
use tf_value_data::Value;
use tf_value_json::tree_from;

/// A reply, and the number of its request.
#[derive(Drop)]
pub struct Response {
    /// The number of the request.
    pub id: u64,
    /// The reply.
    pub reply: Reply,
}

/// The whole lines at the beginning of what was read of a pipe.
#[derive(Drop)]
pub struct Responses {
    /// The replies that they say, up to the first line that isn't one.
    pub replies: Vec<Response>,
    /// How many bytes these lines have.
    pub read: usize,
    /// Whether the next line isn't a reply.
    pub is_faulty: bool,
}

/// Reads the whole lines at the beginning of bytes as replies. Fails only if memory runs out.
pub fn read_replies(alloc: Global, bytes: &[u8]) -> Result<Responses, AllocError>
    ensures { IfOk result (λ found. map response_of found.replies.items ≡ map numbered (responses_in (lines_of bytes.now))) }
{
    let mut replies = Vec::new(alloc);
    let mut rest = bytes;
    while let Some((line, after)) = next_line(rest) {
        let Some(reply) = read_reply(alloc, line)? else {
            return Ok(found(replies, bytes, rest, true));
        };
        replies.push(reply)?;
        rest = after;
    }
    Ok(found(replies, bytes, rest, false))
}

/// Returns what was found in bytes, of which a rest isn't read.
fn found(replies: Vec<Response>, bytes: &[u8], rest: &[u8], is_faulty: bool) -> Responses
    ensures { result.replies ≡ replies }
{
    Responses {
        replies,
        read: bytes.len().saturating_sub(rest.len()),
        is_faulty,
    }
}

/// Reads a line, without its newline, as a reply. Returns `None` if it isn't one.
fn read_reply(alloc: Global, line: &[u8]) -> Result<Option<Response>, AllocError>
    ensures { IfOk result (λ found. option_map response_of found ≡ option_map numbered (response_in line.now)) }
{
    match read_tree(alloc, line)? {
        Some(json) => {
            let response = response_from(alloc, &json)?;
            Ok(response)
        }
        None => Ok(None),
    }
}

/// Reads the reply that a tree says, with its number.
fn response_from(alloc: Global, json: &Json) -> Result<Option<Response>, AllocError>
    ensures { IfOk result (λ found. option_map response_of found ≡ option_map numbered (response_from (view json.now))) }
{
    let Some(id) = json.get("id").and_then(Json::as_u64) else {
        return Ok(None);
    };
    match reply_from(alloc, json)? {
        Some(reply) => Ok(Some(Response { id, reply })),
        None => Ok(None),
    }
}

/// Reads the reply that a tree says: a failure, an object, or that the object is gone.
pub(crate) fn reply_from(alloc: Global, json: &Json) -> Result<Option<Reply>, AllocError>
    ensures { IfOk result (λ found. option_map answered found ≡ option_map Some (answer_from (view json.now))) }
{
    match (json.get("failed"), json.get("object"), json.get("gone")) {
        (Some(message), left, None) => {
            let reply = failure_from(alloc, message, left)?;
            Ok(reply)
        }
        (None, Some(object), None) => Ok(Some(Reply::Object(tree_from(alloc, object)?))),
        (None, None, Some(flag)) => Ok(gone_from(flag)),
        _ => Ok(None),
    }
}

/// Reads a failure, whose message is a string.
fn failure_from(
    alloc: Global,
    message: &Json,
    left: Option<&Json>,
) -> Result<Option<Reply>, AllocError>
    ensures { IfOk result (λ found. option_map answered found ≡ option_map Some (failure_from (view message.now) (option_map (λ v. view v.now) left.entry))) }
{
    match message {
        Json::String(message) => {
            let message = message.clone()?;
            let object = left_from(alloc, left)?;
            Ok(Some(Reply::Failed { message, object }))
        }
        _ => Ok(None),
    }
}

/// Reads the object that a failure leaves: none if it is absent or null.
fn left_from(alloc: Global, left: Option<&Json>) -> Result<Option<Value>, AllocError>
    ensures { IfOk result (λ found. option_map tree_of found ≡ left_from (option_map (λ v. view v.now) left.entry)) }
{
    match left {
        None | Some(Json::Null) => Ok(None),
        Some(object) => Ok(Some(tree_from(alloc, object)?)),
    }
}

/// Reads that the object is gone.
fn gone_from(flag: &Json) -> Option<Reply>
    ensures { option_map answered result ≡ option_map Some (gone_from (view flag.now)) }
{
    match flag {
        Json::Bool(true) => Some(Reply::Gone),
        _ => None,
    }
}
