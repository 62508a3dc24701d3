//! The answers to requests.

ghost use Rattle.std.specs.Option.{option_map_or};
ghost use Rattle.std.specs.Prelude.{◌≡◌, ◌++◌, IfOk, false, option_map, string_bytes};
ghost use Rattle.tf_provider_protocol.specs.Meaning.{asked, answered, failed};
ghost use Rattle.tf_provider_sim.specs.Table.{sim_answer, net_answer, net_made, host_answer, host_made, has_text, text_in, is_large, with_text, with_truth};
ghost use Rattle.tf_value_data.specs.Tree.{tree_of, part_at};

use std::alloc::{AllocError, Global};
use tf_provider_protocol::{Op, Reply, Request};
use tf_value_data::{Value, copy};

/// Answers a request, by its type.
pub fn answer(alloc: Global, request: &Request) -> Result<Reply, AllocError>
    ensures { IfOk result (λ reply. answered reply ≡ Some (sim_answer (asked request.now))) }
{
    match request.type_name.as_str() {
        "sim_net" => answer_net(alloc, request),
        "sim_host" => answer_host(alloc, request),
        _ => failure(alloc, "unknown type"),
    }
}

/// Answers a request for a net.
fn answer_net(alloc: Global, request: &Request) -> Result<Reply, AllocError>
    ensures { IfOk result (λ reply. answered reply ≡ Some (net_answer (asked request.now))) }
{
    if request.op == Op::Destroy {
        return match &request.prior {
            Some(prior) if has_text(prior, "tag", "stuck") => failure(alloc, "stuck"),
            _ => Ok(Reply::Gone),
        };
    }
    match &request.object {
        Some(object) => make_net(alloc, request.op, object),
        None => failure(alloc, "malformed request"),
    }
}

/// Answers the create or update of a net.
fn make_net(alloc: Global, op: Op, object: &Value) -> Result<Reply, AllocError>
    ensures { IfOk result (λ reply. answered reply ≡ Some (net_made op (tree_of object.now))) }
{
    match text_at(object, "cidr") {
        Some("bad") if op == Op::Create => failure(alloc, "refused"),
        Some(cidr) => {
            let id = joined(alloc, "net-", cidr)?;
            let object = truthful(alloc, copy(object)?)?;
            Ok(Reply::Object(with_text(alloc, object, "id", id)?))
        }
        None => failure(alloc, "malformed request"),
    }
}

/// Answers a request for a host.
fn answer_host(alloc: Global, request: &Request) -> Result<Reply, AllocError>
    ensures { IfOk result (λ reply. answered reply ≡ Some (host_answer (asked request.now))) }
{
    if request.op == Op::Destroy {
        return Ok(Reply::Gone);
    }
    match &request.object {
        Some(object) => make_host(alloc, object),
        None => failure(alloc, "malformed request"),
    }
}

/// Answers the create or update of a host.
fn make_host(alloc: Global, object: &Value) -> Result<Reply, AllocError>
    ensures { IfOk result (λ reply. answered reply ≡ Some (host_made (tree_of object.now))) }
{
    match text_at(object, "name") {
        Some(_) if is_large(object.get("size")) => failure(alloc, "size too large"),
        Some(name) => {
            let id = joined(alloc, "host-", name)?;
            Ok(Reply::Object(with_text(alloc, copy(object)?, "id", id)?))
        }
        None => failure(alloc, "malformed request"),
    }
}

/// Builds a failure that leaves no object.
fn failure(alloc: Global, message: &str) -> Result<Reply, AllocError>
    ensures { IfOk result (λ reply. answered reply ≡ Some (failed message.now None)) }
{
    Ok(Reply::Failed {
        message: String::from_str(alloc, message)?,
        object: None,
    })
}

/// Returns the text at a key, if the value there is a text.
fn text_at<'a>(value: &'a Value, key: &str) -> Option<&'a str>
    ensures { option_map (λ t. t.now) result ≡ text_in (part_at key.now (tree_of value.now)) }
{
    match value.get(key) {
        Some(Value::Text(text)) => Some(text.as_str()),
        _ => None,
    }
}

/// Returns whether the value at a key is a certain text.
fn has_text(value: &Value, key: &str, text: &str) -> bool
    ensures { result ≡ has_text key.now text.now (tree_of value.now) }
{
    match text_at(value, key) {
        Some(found) => found == text,
        None => false,
    }
}

/// Returns whether a value is a whole number above 100.
fn is_large(value: Option<&Value>) -> bool
    ensures { result ≡ is_large (option_map (λ v. tree_of v.now) value.entry) }
{
    match value {
        Some(Value::Int(number)) => *number > 100,
        _ => false,
    }
}

/// Joins two texts.
fn joined(alloc: Global, first: &str, second: &str) -> Result<String, AllocError>
    ensures { IfOk result (λ text. string_bytes text ≡ first.now ++ second.now) }
{
    let mut text = String::with_capacity(alloc, first.len().saturating_add(second.len()))?;
    text.push_str(first)?;
    text.push_str(second)?;
    Ok(text)
}

/// Returns a net's object, with the tag `truth` in place of `lie`.
fn truthful(alloc: Global, object: Value) -> Result<Value, AllocError>
    ensures { IfOk result (λ v. tree_of v ≡ with_truth (tree_of object)) }
{
    if has_text(&object, "tag", "lie") {
        let truth = String::from_str(alloc, "truth")?;
        with_text(alloc, object, "tag", truth)
    } else {
        Ok(object)
    }
}

/// Sets a text at a key of a map; returns any other value unchanged.
fn with_text(alloc: Global, value: Value, key: &str, text: String) -> Result<Value, AllocError>
    ensures { IfOk result (λ v. tree_of v ≡ with_text key.now (string_bytes text) (tree_of value)) }
{
    match value {
        Value::Map(mut entries) => {
            let key = String::from_str(alloc, key)?;
            drop(entries.insert(key, Value::Text(text))?);
            Ok(Value::Map(entries))
        }
        other => Ok(other),
    }
}
