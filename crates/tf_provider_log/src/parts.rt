//! Reading requests and replies from JSON trees.

ghost use Rattle.std.specs.Prelude.{◌≡◌, IfOk, option_map, string_bytes, Some};
ghost use Rattle.serde_json.specs.Data as json;
ghost use Rattle.serde_json.specs.View.{view, items_view as json_items};
ghost use Rattle.tf_provider_log.specs.From.{text_from, option_text_from, option_from, op_of_word, op_from, request_from, failure_of_parts, reply_of_members, reply_from};
ghost use Rattle.tf_provider_protocol.specs.Meaning.{asked, answered};
ghost use Rattle.tf_value_data.specs.Tree.{tree_of};

use serde_json::Value as Json;
use std::alloc::{AllocError, Global};
use tf_provider_protocol::{Op, Reply, Request};
use tf_value_data::Value;
use tf_value_json::tree_from;

/// Reads a string as a text. Returns `None` if there is no value, or another one.
///
/// # Errors
///
/// Fails only if memory runs out.
pub fn text_from(json: Option<&Json>) -> Result<Option<String>, AllocError>
    ensures { IfOk result (λ o. option_map string_bytes o ≡ text_from (option_map (λ v. view v.now) json.entry)) }
{
    match json {
        Some(Json::String(text)) => Ok(Some(text.clone()?)),
        _ => Ok(None),
    }
}

/// Reads a string as a text, and null as no text.
pub(crate) fn option_text_from(json: Option<&Json>) -> Result<Option<Option<String>>, AllocError>
    ensures { IfOk result (λ o. option_map (option_map string_bytes) o ≡ option_text_from (option_map (λ v. view v.now) json.entry)) }
{
    match json {
        Some(Json::String(text)) => Ok(Some(Some(text.clone()?))),
        Some(Json::Null) => Ok(Some(None)),
        _ => Ok(None),
    }
}

// Reads an array of one item as the item's value, and an empty one as no value.
fn option_from(alloc: Global, json: Option<&Json>) -> Result<Option<Option<Value>>, AllocError>
    ensures { IfOk result (λ o. option_map (option_map tree_of) o ≡ option_from (option_map (λ v. view v.now) json.entry)) }
{
    match json {
        Some(Json::Array(items)) => {
            let value = value_of_items(alloc, items)?;
            Ok(value)
        }
        _ => Ok(None),
    }
}

fn value_of_items(alloc: Global, items: &Vec<Json>) -> Result<Option<Option<Value>>, AllocError>
    ensures { IfOk result (λ o. option_map (option_map tree_of) o ≡ option_from (Some (json.array (json_items items.now.items)))) }
{
    match items.as_slice() {
        [] => Ok(Some(None)),
        [item] => Ok(Some(Some(tree_from(alloc, item)?))),
        _ => Ok(None),
    }
}

fn op_of_word(word: &str) -> Option<Op>
    ensures { result ≡ op_of_word word.now }
{
    if word == "create" {
        return Some(Op::Create);
    }
    if word == "update" {
        return Some(Op::Update);
    }
    if word == "destroy" {
        return Some(Op::Destroy);
    }
    None
}

fn op_from(json: Option<&Json>) -> Option<Op>
    ensures { result ≡ op_from (option_map (λ v. view v.now) json.entry) }
{
    match json {
        Some(Json::String(word)) => op_of_word(word.as_str()),
        _ => None,
    }
}

/// Reads a request from a JSON tree, or returns nothing if the tree isn't a request.
pub(crate) fn request_from(alloc: Global, json: &Json) -> Result<Option<Request>, AllocError>
    ensures { IfOk result (λ r. option_map asked r ≡ request_from (view json.now)) }
{
    let Some(op) = op_from(json.get("op")) else {
        return Ok(None);
    };
    let Some(address) = text_from(json.get("address"))? else {
        return Ok(None);
    };
    let Some(type_name) = text_from(json.get("type"))? else {
        return Ok(None);
    };
    let Some(deposed) = option_text_from(json.get("deposed"))? else {
        return Ok(None);
    };
    let Some(prior) = option_from(alloc, json.get("prior"))? else {
        return Ok(None);
    };
    let Some(object) = option_from(alloc, json.get("object"))? else {
        return Ok(None);
    };
    Ok(Some(Request {
        op,
        address,
        type_name,
        deposed,
        prior,
        object,
    }))
}

fn failure_of_parts(
    alloc: Global,
    message: Option<&Json>,
    object: Option<&Json>,
) -> Result<Option<Reply>, AllocError>
    ensures { IfOk result (λ o. option_map answered o ≡ failure_of_parts (text_from (option_map (λ v. view v.now) message.entry)) (option_from (option_map (λ v. view v.now) object.entry))) }
{
    let Some(message) = text_from(message)? else {
        return Ok(None);
    };
    let Some(object) = option_from(alloc, object)? else {
        return Ok(None);
    };
    Ok(Some(Reply::Failed { message, object }))
}

fn reply_of_members(
    alloc: Global,
    message: Option<&Json>,
    object: Option<&Json>,
) -> Result<Option<Reply>, AllocError>
    ensures { IfOk result (λ o. option_map answered o ≡ reply_of_members (option_map (λ v. view v.now) message.entry) (option_map (λ v. view v.now) object.entry)) }
{
    match (message, object) {
        (None, None) => Ok(None),
        (None, Some(object)) => Ok(Some(Reply::Object(tree_from(alloc, object)?))),
        (Some(message), object) => {
            let reply = failure_of_parts(alloc, Some(message), object)?;
            Ok(reply)
        }
    }
}

/// Reads the reply that a tree says.
pub(crate) fn reply_from(alloc: Global, json: &Json) -> Result<Option<Reply>, AllocError>
    ensures { IfOk result (λ o. option_map answered o ≡ reply_from (view json.now)) }
{
    match json {
        Json::Null => Ok(Some(Reply::NoMemory)),
        Json::String(word) => {
            if word.as_str() == "gone" {
                return Ok(Some(Reply::Gone));
            }
            Ok(None)
        }
        Json::Object(_) => {
            let reply = reply_of_members(alloc, json.get("failed"), json.get("object"))?;
            Ok(reply)
        }
        _ => Ok(None),
    }
}
