//! What the entries of a log say of requests.

ghost use Rattle.std.specs.List.{position_from};
ghost use Rattle.std.specs.Option.{option_map_or};
ghost use Rattle.std.specs.Prelude.{◌≡◌, ◌<◌, All, IfOk, IfSome, length, map, slice_get};
ghost use Rattle.tf_provider_log.specs.LogEntry.{log_entry_of};
ghost use Rattle.tf_provider_log.specs.Replayed.{is_about};
ghost use Rattle.tf_provider_protocol.specs.Meaning.{answered, asked};
ghost use Rattle.tf_value_data.specs.Tree.{null, tree_of};
ghost use Rattle.tf_walk_requests.specs.Stages.{IsFullyRequested, good, is_good_reply, object_by, object_of, objects_in, requested, stage_by, stage_of, with_reply};

use crate::results::Results;
use crate::stage::Stage;
use std::alloc::{AllocError, Global};
use std::mem;
use tf_provider_log::{LogEntry, is_begun};
use tf_provider_protocol::{Provider, Reply, Request, Verdict, judge, schema_for};
use tf_value_data::{Value, copy};

/// Notes the replies that the entries of a log have to the requests of actions.
pub(crate) fn note_replies(
    stages: &mut [Stage],
    providers: &[Box<dyn Provider + Sync>],
    entries: &[LogEntry],
)
    requires { All (λ s. IsFullyRequested (map meaning providers.now) (stage_of s)) stages.old }
    ensures { map stage_of stages.new ≡ map (with_reply (map meaning providers.now) (map log_entry_of entries.now)) (map stage_of stages.old) }
{
    for stage in stages.iter_mut() {
        note_reply(stage, providers, entries);
    }
}

/// Notes the reply that the entries of a log have to the request of an action, if there are both.
fn note_reply(stage: &mut Stage, providers: &[Box<dyn Provider + Sync>], entries: &[LogEntry])
    requires { IsFullyRequested (map meaning providers.now) (stage_of stage.old) }
    ensures { stage_of stage.new ≡ with_reply (map meaning providers.now) (map log_entry_of entries.now) (stage_of stage.old) }
{
    if let Some(next) = after_reply(stage, providers, entries) {
        drop(mem::replace(stage, next));
    }
}

/// Returns the stage of an action after the reply to its request, if its request was returned and the entries have a reply.
fn after_reply(
    stage: &Stage,
    providers: &[Box<dyn Provider + Sync>],
    entries: &[LogEntry],
) -> Option<Stage>
    requires { IsFullyRequested (map meaning providers.now) (stage_of stage.now) }
    ensures { option_map_or stage_of result (stage_of stage.now) ≡ with_reply (map meaning providers.now) (map log_entry_of entries.now) (stage_of stage.now) }
{
    let Stage::Requested(request) = stage else {
        return None;
    };
    match place_about(entries, request) {
        Some(place) => stage_at(providers, entries, request, place),
        None => None,
    }
}

/// Returns the place of the first entry about a request.
fn place_about(entries: &[LogEntry], request: &Request) -> Option<usize>
    ensures first { result ≡ position_from (is_about (asked request.now)) 0 (map log_entry_of entries.now) }
    ensures within { IfSome result (λ place. place < length entries.now) }
{
    for place in 0..entries.len() {
        if is_begun(&entries[place..place + 1], request) {
            return Some(place);
        }
    }
    None
}

/// Returns the stage of an action by the entry at a place, which is about its request, or `None` if that says only that it is begun.
fn stage_at(
    providers: &[Box<dyn Provider + Sync>],
    entries: &[LogEntry],
    request: &Request,
    place: usize,
) -> Option<Stage>
    requires fully { IsFullyRequested (map meaning providers.now) (requested (asked request.now)) }
    requires within { place < length entries.now }
    ensures { option_map_or stage_of result (requested (asked request.now)) ≡ stage_by (map meaning providers.now) (asked request.now) place (slice_get (map log_entry_of entries.now) place) }
{
    match &entries[place] {
        LogEntry::Begun(_) => None,
        LogEntry::Answered(_, reply) => {
            if is_good(providers, request, reply) {
                Some(Stage::Good(place))
            } else {
                Some(Stage::Failed)
            }
        }
    }
}

/// Returns whether the verdict on a reply is `Good`, by the schema of the first provider that has the request's type.
fn is_good(providers: &[Box<dyn Provider + Sync>], request: &Request, reply: &Reply) -> bool
    requires { IsFullyRequested (map meaning providers.now) (requested (asked request.now)) }
    ensures { result ≡ is_good_reply (map meaning providers.now) (asked request.now) (answered reply.now) }
{
    match schema_for(providers, request.type_name.as_str()) {
        Some(schema) => judge(request, reply, schema) == Verdict::Good,
        None => false,
    }
}

/// The objects of the actions that ended well, as the entries of a log have them.
#[derive(Drop)]
pub(crate) struct LoggedObjects<'a> {
    /// The stages of the actions.
    pub(crate) stages: &'a [Stage],
    /// The entries.
    pub(crate) entries: &'a [LogEntry],
}

impl Results for LoggedObjects<'_> {
    ghost objects = { λ s. objects_in (map log_entry_of s.entries.now) (map stage_of s.stages.now) };

    fn object(&self, alloc: Global, action: usize) -> Result<Value, AllocError> {
        if action >= self.stages.len() {
            return Ok(no_object());
        }
        match &self.stages[action] {
            Stage::Good(place) => object_at(self.entries, *place),
            Stage::Pending | Stage::Requested(_) | Stage::Failed => Ok(no_object()),
        }
    }
}

/// Returns a copy of the object in the reply at a place of a log's entries, or null if there is none.
fn object_at(entries: &[LogEntry], place: usize) -> Result<Value, AllocError>
    ensures { IfOk result (λ value. tree_of value ≡ object_by (map log_entry_of entries.now) (good place)) }
{
    if place >= entries.len() {
        return Ok(no_object());
    }
    match &entries[place] {
        LogEntry::Answered(_, reply) => object_of(reply),
        LogEntry::Begun(_) => Ok(no_object()),
    }
}

/// Returns a copy of the object that a reply has, or null if there is none.
fn object_of(reply: &Reply) -> Result<Value, AllocError>
    ensures { IfOk result (λ value. tree_of value ≡ object_of (answered reply.now)) }
{
    match reply {
        Reply::Object(object) => copy(object),
        Reply::Gone | Reply::Failed { .. } | Reply::NoMemory => Ok(no_object()),
    }
}

/// Returns the value of an action without an object.
fn no_object() -> Value
    ensures { tree_of result ≡ null }
{
    Value::Null
}
