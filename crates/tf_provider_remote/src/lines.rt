//! The line of a request to a provider that is another program.

ghost use Rattle.std.specs.Prelude.{◌≡◌, IfOk, option_map, string_bytes, codes};
ghost use Rattle.serde_json.specs.Data as json;
ghost use Rattle.serde_json.specs.Read.{max_depth, read};
ghost use Rattle.serde_json.specs.View.{view};
ghost use Rattle.tf_provider_log.specs.Form.{op_word, text_form};
ghost use Rattle.tf_provider_protocol.specs.Meaning.{asked};
ghost use Rattle.tf_provider_remote.specs.Lines.{object_form, remote_form};
ghost use Rattle.tf_value_data.specs.Tree.{tree_of};

use serde_json::{Number, Value as Json, json};
use std::alloc::{AllocError, Global};
use tf_provider_log::op_word;
use tf_provider_protocol::Request;
use tf_value_data::{Value, copy, with_nulls};
use tf_value_json::to_json;

/// Why no line is built for a request.
#[derive(Clone, Copy, Debug, PartialEq, Eq)]
pub enum Unsent {
    /// A value of it has no JSON form.
    Unfit,
    /// Memory ran out.
    OutOfMemory,
}

impl From<AllocError> for Unsent {
    fn from(_: AllocError) -> Unsent {
        Unsent::OutOfMemory
    }
}

/// Builds the line of a request with this number, with its newline. What the provider decides is null.
pub fn request_line(alloc: Global, id: u64, request: &Request) -> Result<String, Unsent> {
    let form = remote_form(alloc, id, request)?;
    let mut text = form.to_string(alloc)?;
    text.push('\n')?;
    Ok(text)
}

/// Builds the JSON object of a request with this number.
fn remote_form(alloc: Global, id: u64, request: &Request) -> Result<Json, Unsent>
    ensures { IfOk result (λ j. view j ≡ remote_form id (asked request.now)) }
{
    let prior = option_form(alloc, &request.prior)?;
    let object = option_form(alloc, &request.object)?;
    let deposed = text_form(&request.deposed)?;
    let id = Json::Number(Number::from(id));
    let form = form_of(alloc, id, request, deposed, prior, object)?;
    Ok(form)
}

/// Builds the JSON object of a request from the forms of its parts.
fn form_of(
    alloc: Global,
    id: Json,
    request: &Request,
    deposed: Json,
    prior: Json,
    object: Json,
) -> Result<Json, AllocError>
    ensures { IfOk result (λ j. view j ≡ json.object
        (json.member (codes "address") (json.string (string_bytes request.now.address))
        (json.member (codes "deposed") (view deposed)
        (json.member (codes "id") (view id)
        (json.member (codes "object") (view object)
        (json.member (codes "op") (json.string (op_word request.now.op))
        (json.member (codes "prior") (view prior)
        (json.member (codes "type") (json.string (string_bytes request.now.type_name))
        json.no_members)))))))) }
{
    let word = op_word(request.op);
    json!(in alloc; {
        "address": &request.address,
        "deposed": deposed,
        "id": id,
        "object": object,
        "op": word,
        "prior": prior,
        "type": &request.type_name
    })
}

/// Builds the form of an optional text: a string, or null.
fn text_form(text: &Option<String>) -> Result<Json, AllocError>
    ensures { IfOk result (λ j. view j ≡ text_form (option_map string_bytes text.now)) }
{
    match text {
        Some(text) => Ok(Json::String(text.clone()?)),
        None => Ok(Json::Null),
    }
}

/// Builds the form of an optional object, with null for what isn't known; or null.
fn option_form(alloc: Global, value: &Option<Value>) -> Result<Json, Unsent>
    ensures { IfOk result (λ j. view j ≡ object_form (option_map tree_of value.now)) }
{
    match value {
        Some(value) => {
            let known = with_nulls(copy(value)?);
            match to_json(alloc, &known) {
                Ok(form) => Ok(form),
                Err(_) => Err(Unsent::Unfit),
            }
        }
        None => Ok(Json::Null),
    }
}
