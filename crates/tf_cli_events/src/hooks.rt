//! The events of a call.

use crate::address::resource_json;
use crate::event::{Event, Level, Members};
use std::alloc::{AllocError, Global};
use std::rt::Clock;
use tf_provider_progress::{begun_line, ended_line, ended_well};
use tf_provider_protocol::{Op, Reply, Request};
use tf_value_data::Value;

/// Returns the event of a call that begins.
pub(crate) fn begun_event<C: Clock>(
    alloc: Global,
    clock: &C,
    request: &Request,
) -> Result<String, AllocError> {
    let message = begun_line(alloc, request)?;
    let hook = hook_of(alloc, request, request.prior.as_ref())?;
    hook_event(clock, "apply_start", message.as_str(), hook)
}

/// Returns the event of a call that ended, after these seconds if the clock could be read.
pub(crate) fn ended_event<C: Clock>(
    alloc: Global,
    clock: &C,
    request: &Request,
    reply: &Reply,
    seconds: Option<u64>,
) -> Result<String, AllocError> {
    let message = ended_line(alloc, request, reply, seconds)?;
    let is_well = ended_well(request.op, reply);
    let object = match reply {
        Reply::Object(object) if is_well => Some(object),
        _ => None,
    };
    let mut hook = hook_of(alloc, request, object)?;
    if let Some(seconds) = seconds {
        hook.add_number("elapsed_seconds", seconds)?;
    }
    let kind = if is_well {
        "apply_complete"
    } else {
        "apply_errored"
    };
    hook_event(clock, kind, message.as_str(), hook)
}

/// Returns what the events of a call have in common: the object's address, what is done, and the object's id, if it has one.
fn hook_of(
    alloc: Global,
    request: &Request,
    object: Option<&Value>,
) -> Result<Members, AllocError> {
    let mut hook = Members::new(alloc);
    hook.add("resource", resource_json(alloc, request.address.as_str())?)?;
    hook.add_text("action", action_word(request.op))?;
    if let Some(key) = &request.deposed {
        hook.add_text("deposed", key.as_str())?;
    }
    if let Some(object) = object
        && let Some(Value::Text(id)) = object.get("id")
    {
        hook.add_text("id_key", "id")?;
        hook.add_text("id_value", id.as_str())?;
    }
    Ok(hook)
}

fn action_word(op: Op) -> &'static str {
    match op {
        Op::Create => "create",
        Op::Update => "update",
        Op::Destroy => "delete",
    }
}

fn hook_event<C: Clock>(
    clock: &C,
    kind: &'static str,
    message: &str,
    hook: Members,
) -> Result<String, AllocError> {
    let mut members = Members::new(hook.alloc());
    members.add("hook", hook.into_json())?;
    let event = Event {
        level: Level::Info,
        message: message.trim_end(),
        kind,
    };
    event.line(clock, members)
}
