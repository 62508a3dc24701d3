//! A provider that answers from a log.

ghost use Rattle.std.specs.Prelude.{◌≡◌, Some, IfSome, map, option_and_then, option_map};
ghost use Rattle.tf_provider_log.specs.LogEntry.{log_entry_of};
ghost use Rattle.tf_provider_log.specs.Replayed.{answer_in, answer_of, replayed};
ghost use Rattle.tf_provider_protocol.specs.Meaning.{asked, answered};

use crate::copies::copy_reply;
use crate::entry::LogEntry;
use crate::same::is_same;
use std::alloc::Global;
use tf_provider_protocol::{Provider, Reply, Request, Schema};

/// A provider that answers from the entries of a log. It asks the provider of these entries only for schemas. If no
/// entry answers the request, the reply is `NoMemory`.
#[derive(Drop)]
pub struct Replayed<P: Provider> {
    alloc: Global,
    entries: Vec<LogEntry>,
    provider: P,
}

impl<P: Provider> Replayed<P> {
    /// Replaces a provider by its entries.
    pub fn new(alloc: Global, entries: Vec<LogEntry>, provider: P) -> Replayed<P>
        ensures { ⟦<Replayed<P> as Provider>⟧.meaning result ≡ replayed (map log_entry_of entries.items) (P.meaning provider) }
    {
        Replayed {
            alloc,
            entries,
            provider,
        }
    }
}

impl<P: Provider> Provider for Replayed<P> {
    ghost use Rattle.std.specs.Prelude.{◌≡◌, Some, IfSome, map};
    ghost use Rattle.tf_provider_log.specs.LogEntry.{log_entry_of};
    ghost use Rattle.tf_provider_log.specs.Replayed.{answer_in, replayed};
    ghost use Rattle.tf_provider_protocol.specs.Meaning.{asked, answered};

    ghost meaning = { λ r. replayed (map log_entry_of r.entries.items) (P.meaning r.provider) };

    fn schema(&self, type_name: &str) -> Option<&Schema> {
        self.provider.schema(type_name)
    }

    fn apply(&self, request: &Request) -> Reply
        ensures law { IfSome (answered result) (λ a. a ≡ (replayed (map log_entry_of self.now.entries.items) (P.meaning self.now.provider)).answer (asked request.now)) }
        ensures told { IfSome (answered result) (λ a. answer_in (map log_entry_of self.now.entries.items) (asked request.now) ≡ Some a) }
    {
        match first_answer(self.entries.as_slice(), request) {
            Some(reply) => match copy_reply(self.alloc, reply) {
                Ok(reply) => reply,
                Err(_) => Reply::NoMemory,
            },
            None => Reply::NoMemory,
        }
    }
}

/// Returns the first answer of the entries to the same request.
fn first_answer<'a>(entries: &'a [LogEntry], request: &Request) -> Option<&'a Reply>
    ensures { option_and_then (λ reply. answered reply.now) result ≡ answer_in (map log_entry_of entries.now) (asked request.now) }
{
    for entry in entries {
        if let Some(reply) = answer_of(entry, request) {
            return Some(reply);
        }
    }
    None
}

/// Returns the answer of an entry, if it answers the same request.
fn answer_of<'a>(entry: &'a LogEntry, request: &Request) -> Option<&'a Reply>
    ensures { option_map (λ reply. answered reply.now) result ≡ option_map Some (answer_of (log_entry_of entry.now) (asked request.now)) }
{
    match entry {
        LogEntry::Begun(_) => None,
        LogEntry::Answered(asked, reply) => {
            if is_same(asked, request) {
                telling(reply)
            } else {
                None
            }
        }
    }
}

/// Returns the reply, unless it is `NoMemory`.
fn telling(reply: &Reply) -> Option<&Reply>
    ensures { option_map (λ r. answered r.now) result ≡ option_map Some (answered reply.now) }
{
    match reply {
        Reply::NoMemory => None,
        Reply::Object(_) | Reply::Gone | Reply::Failed { .. } => Some(reply),
    }
}
