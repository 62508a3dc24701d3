//! Copies of requests and replies.

ghost use Rattle.std.specs.Prelude.{◌≡◌, IfOk, map, option_map, string_bytes};
ghost use Rattle.tf_provider_log.specs.LogEntry.{log_entry_of};
ghost use Rattle.tf_provider_protocol.specs.Meaning.{asked, answered};
ghost use Rattle.tf_value_data.specs.Tree.{tree_of};

use crate::entry::LogEntry;
use std::alloc::{AllocError, Global};
use tf_provider_protocol::{Reply, Request};
use tf_value_data::{Value, copy};

/// Copies a request.
pub fn copy_request(alloc: Global, request: &Request) -> Result<Request, AllocError>
    ensures { IfOk result (λ r. asked r ≡ asked request.now) }
{
    let address = String::from_str(alloc, request.address.as_str())?;
    let type_name = String::from_str(alloc, request.type_name.as_str())?;
    let deposed = copy_text(alloc, &request.deposed)?;
    let prior = copy_value(&request.prior)?;
    let object = copy_value(&request.object)?;
    Ok(Request {
        op: request.op,
        address,
        type_name,
        deposed,
        prior,
        object,
    })
}

/// Copies a reply.
pub(crate) fn copy_reply(alloc: Global, reply: &Reply) -> Result<Reply, AllocError>
    ensures { IfOk result (λ r. answered r ≡ answered reply.now) }
{
    match reply {
        Reply::Object(object) => {
            let object = copy(object)?;
            Ok(Reply::Object(object))
        }
        Reply::Gone => Ok(Reply::Gone),
        Reply::Failed { message, object } => {
            let message = String::from_str(alloc, message.as_str())?;
            let object = copy_value(object)?;
            Ok(Reply::Failed { message, object })
        }
        Reply::NoMemory => Ok(Reply::NoMemory),
    }
}

/// Copies the entries of a log.
pub fn copy_entries(alloc: Global, entries: &[LogEntry]) -> Result<Vec<LogEntry>, AllocError>
    ensures { IfOk result (λ copies. map log_entry_of copies.items ≡ map log_entry_of entries.now) }
{
    let mut copies = Vec::with_capacity(alloc, entries.len())?;
    for entry in entries {
        let copy = copy_entry(alloc, entry)?;
        copies.push(copy)?;
    }
    Ok(copies)
}

/// Copies an entry.
fn copy_entry(alloc: Global, entry: &LogEntry) -> Result<LogEntry, AllocError>
    ensures { IfOk result (λ copy. log_entry_of copy ≡ log_entry_of entry.now) }
{
    match entry {
        LogEntry::Begun(request) => {
            let request = copy_request(alloc, request)?;
            Ok(LogEntry::Begun(request))
        }
        LogEntry::Answered(request, reply) => {
            let request = copy_request(alloc, request)?;
            let reply = copy_reply(alloc, reply)?;
            Ok(LogEntry::Answered(request, reply))
        }
    }
}

/// Copies a text, if there is one.
fn copy_text(alloc: Global, text: &Option<String>) -> Result<Option<String>, AllocError>
    ensures { IfOk result (λ t. option_map string_bytes t ≡ option_map string_bytes text.now) }
{
    match text {
        Some(text) => {
            let text = String::from_str(alloc, text.as_str())?;
            Ok(Some(text))
        }
        None => Ok(None),
    }
}

/// Copies a value, if there is one.
fn copy_value(value: &Option<Value>) -> Result<Option<Value>, AllocError>
    ensures { IfOk result (λ v. option_map tree_of v ≡ option_map tree_of value.now) }
{
    match value {
        Some(value) => {
            let value = copy(value)?;
            Ok(Some(value))
        }
        None => Ok(None),
    }
}
