//! The JSON forms of what a line says.

ghost use Rattle.std.specs.Prelude.{◌≡◌, IfOk, OnOk, option_map, string_bytes, codes};
ghost use Rattle.serde_json.specs.Data as json;
ghost use Rattle.serde_json.specs.View.{view, items_view as json_items, members_view};
ghost use Rattle.tf_provider_log.specs.LogEntry.{begun, replied};
ghost use Rattle.tf_provider_log.specs.Form.{value_form, items_form, members_form, text_form, option_form, op_word, request_form, reply_form, entry_form, header_form};
ghost use Rattle.tf_provider_log.specs.Text.{IsOptionHeld, IsRequestHeld, IsAnswerHeld};
ghost use Rattle.tf_provider_protocol.specs.Meaning.{asked, answered};
ghost use Rattle.tf_value_data.specs.Tree.{IsHeld, AreHeld, AreHeldEntries, tree_of, items_view, entries_view};

use crate::entry::Header;
use serde_json::{Map, Number, Value as Json, json};
use std::alloc::{AllocError, Global};
use std::collections::BTreeMap;
use tf_provider_protocol::{Op, Reply, Request};
use tf_value_data::Value;

#[cycle(write)]
fn value_form(alloc: Global, value: &Value) -> Result<Json, AllocError>
    ensures held { OnOk result (IsHeld (tree_of value.now)) }
    ensures value { IfOk result (λ j. view j ≡ value_form (tree_of value.now)) }
{
    match value {
        Value::Null | Value::Set(_) => Ok(Json::Null),
        Value::Bool(b) => Ok(Json::Bool(*b)),
        Value::Int(number) => Ok(Json::Number(Number::from(*number))),
        Value::Text(text) => Ok(Json::String(text.clone()?)),
        Value::List(items) => Ok(Json::Array(items_form(alloc, items)?)),
        Value::Map(entries) => Ok(Json::Object(members_form(alloc, entries)?)),
        Value::Unknown => Ok(Json::Number(Number::from(u64::MAX))),
    }
}

#[cycle(write)]
fn items_form(alloc: Global, items: &Vec<Value>) -> Result<Vec<Json>, AllocError>
    ensures held { OnOk result (AreHeld (items_view items.now.items)) }
    ensures value { IfOk result (λ js. json_items js.items ≡ items_form (items_view items.now.items)) }
{
    let mut array = Vec::with_capacity(alloc, items.len())?;
    for item in items {
        array.push(value_form(alloc, item)?)?;
    }
    Ok(array)
}

#[cycle(write)]
fn members_form(
    alloc: Global,
    entries: &BTreeMap<String, Value>,
) -> Result<Map<String, Json>, AllocError>
    ensures held { OnOk result (AreHeldEntries (entries_view entries.now.entries)) }
    ensures value { IfOk result (λ m. members_view m.entries ≡ members_form (entries_view entries.now.entries)) }
{
    let mut object = BTreeMap::new(alloc);
    for (key, value) in entries.iter() {
        let name = key.clone()?;
        drop(object.insert(name, value_form(alloc, value)?)?);
    }
    Ok(object)
}

// Builds the form of an optional text: a string, or null.
fn text_form(text: &Option<String>) -> Result<Json, AllocError>
    ensures { IfOk result (λ j. view j ≡ text_form (option_map string_bytes text.now)) }
{
    match text {
        Some(text) => Ok(Json::String(text.clone()?)),
        None => Ok(Json::Null),
    }
}

// Builds the form of an optional value: an array of the value, or an empty one.
fn option_form(alloc: Global, value: &Option<Value>) -> Result<Json, AllocError>
    ensures held { OnOk result (IsOptionHeld (option_map tree_of value.now)) }
    ensures value { IfOk result (λ j. view j ≡ option_form (option_map tree_of value.now)) }
{
    match value {
        Some(value) => one_item(alloc, value_form(alloc, value)?),
        None => json!(in alloc; []),
    }
}

fn one_item(alloc: Global, item: Json) -> Result<Json, AllocError>
    ensures { IfOk result (λ j. view j ≡ json.array (json.item (view item) json.no_items)) }
{
    json!(in alloc; [item])
}

/// Returns the word of an operation: `create`, `update` or `destroy`.
pub fn op_word(op: Op) -> &'static str
    ensures { result.now ≡ op_word op }
{
    match op {
        Op::Create => "create",
        Op::Update => "update",
        Op::Destroy => "destroy",
    }
}

/// Builds the form of a request.
fn request_form(alloc: Global, request: &Request) -> Result<Json, AllocError>
    ensures held { OnOk result (IsRequestHeld (asked request.now)) }
    ensures value { IfOk result (λ j. view j ≡ request_form (asked request.now)) }
{
    let deposed = text_form(&request.deposed)?;
    let prior = option_form(alloc, &request.prior)?;
    let object = option_form(alloc, &request.object)?;
    let form = request_of_parts(alloc, request, deposed, prior, object)?;
    Ok(form)
}

fn request_of_parts(
    alloc: Global,
    request: &Request,
    deposed: Json,
    prior: Json,
    object: Json,
) -> Result<Json, AllocError>
    ensures { IfOk result (λ j. view j ≡ json.object
        (json.member (codes "address") (json.string (string_bytes request.now.address))
        (json.member (codes "deposed") (view deposed)
        (json.member (codes "object") (view object)
        (json.member (codes "op") (json.string (op_word request.now.op))
        (json.member (codes "prior") (view prior)
        (json.member (codes "type") (json.string (string_bytes request.now.type_name))
        json.no_members))))))) }
{
    let word = op_word(request.op);
    json!(in alloc; {
        "address": &request.address,
        "deposed": deposed,
        "object": object,
        "op": word,
        "prior": prior,
        "type": &request.type_name
    })
}

fn reply_form(alloc: Global, reply: &Reply) -> Result<Json, AllocError>
    ensures held { OnOk result (IsAnswerHeld (answered reply.now)) }
    ensures value { IfOk result (λ j. view j ≡ reply_form (answered reply.now)) }
{
    match reply {
        Reply::Object(value) => object_form(alloc, value_form(alloc, value)?),
        Reply::Gone => json!(in alloc; "gone"),
        Reply::Failed { message, object } => {
            failure_form(alloc, message, option_form(alloc, object)?)
        }
        Reply::NoMemory => Ok(Json::Null),
    }
}

fn object_form(alloc: Global, object: Json) -> Result<Json, AllocError>
    ensures { IfOk result (λ j. view j ≡ json.object (json.member (codes "object") (view object) json.no_members)) }
{
    json!(in alloc; {"object": object})
}

fn failure_form(alloc: Global, message: &String, object: Json) -> Result<Json, AllocError>
    ensures { IfOk result (λ j. view j ≡ json.object (json.member (codes "failed") (json.string (string_bytes message.now)) (json.member (codes "object") (view object) json.no_members))) }
{
    json!(in alloc; {"failed": message, "object": object})
}

/// Builds the form of an entry that a request is begun.
pub(crate) fn begun_form(alloc: Global, request: &Request) -> Result<Json, AllocError>
    ensures held { OnOk result (IsRequestHeld (asked request.now)) }
    ensures value { IfOk result (λ j. view j ≡ entry_form (begun (asked request.now))) }
{
    let request = request_form(alloc, request)?;
    let form = json!(in alloc; {"begun": request})?;
    Ok(form)
}

/// Builds the form of an entry with a request and its answer.
pub(crate) fn answered_form(
    alloc: Global,
    request: &Request,
    reply: &Reply,
) -> Result<Json, AllocError>
    ensures request_held { OnOk result (IsRequestHeld (asked request.now)) }
    ensures answer_held { OnOk result (IsAnswerHeld (answered reply.now)) }
    ensures value { IfOk result (λ j. view j ≡ entry_form (replied (asked request.now) (answered reply.now))) }
{
    let request = request_form(alloc, request)?;
    let reply = reply_form(alloc, reply)?;
    let form = json!(in alloc; {"answered": request, "reply": reply})?;
    Ok(form)
}

/// Builds the form of a header.
pub(crate) fn header_form(alloc: Global, header: &Header) -> Result<Json, AllocError>
    ensures { IfOk result (λ j. view j ≡ header_form header.now) }
{
    let state = text_form(&header.state)?;
    let vars = text_form(&header.vars)?;
    let form = header_of_parts(alloc, &header.config, &header.lineage, state, vars)?;
    Ok(form)
}

fn header_of_parts(
    alloc: Global,
    config: &String,
    lineage: &String,
    state: Json,
    vars: Json,
) -> Result<Json, AllocError>
    ensures { IfOk result (λ j. view j ≡ json.object
        (json.member (codes "config") (json.string (string_bytes config.now))
        (json.member (codes "lineage") (json.string (string_bytes lineage.now))
        (json.member (codes "state") (view state)
        (json.member (codes "vars") (view vars)
        (json.member (codes "version") (json.number (json.unsigned 1))
        json.no_members)))))) }
{
    json!(in alloc; {
        "config": config,
        "lineage": lineage,
        "state": state,
        "vars": vars,
        "version": 1u64
    })
}
