//! What the entries of a log say.

ghost use Rattle.std.specs.List.{list_any};
ghost use Rattle.std.specs.Prelude.{◌≡◌, IfOk, filter, not, map, option_map};
ghost use Rattle.tf_provider_log.specs.LogEntry.{log_entry_of};
ghost use Rattle.tf_provider_log.specs.Replayed.{answer_count, ends, has_answer, has_its_type, is_about, in_flight, open_of, own_entries, type_in};
ghost use Rattle.tf_provider_protocol.specs.Meaning.{asked};

use crate::copies::copy_request;
use crate::entry::LogEntry;
use crate::same::is_same;
use std::alloc::{AllocError, Global};
use tf_provider_protocol::{Provider, Reply, Request};

/// Splits entries by provider, in their order: each provider gets those of the types whose first provider it is.
/// Entries of a type that no provider has are dropped.
pub fn split(
    alloc: Global,
    entries: Vec<LogEntry>,
    providers: &[Box<dyn Provider + Sync>],
) -> Result<Vec<Vec<LogEntry>>, AllocError>
    ensures { IfOk result (λ lists. map (λ own. map log_entry_of own.items) lists.items
        ≡ own_entries (map meaning providers.now) (map log_entry_of entries.items)) }
{
    let mut left = entries;
    let mut lists = Vec::with_capacity(alloc, providers.len())?;
    for provider in providers {
        let (own, others) = part(alloc, left, provider)?;
        lists.push(own)?;
        left = others;
    }
    Ok(lists)
}

/// Separates the entries whose type a provider has from the others.
fn part(
    alloc: Global,
    entries: Vec<LogEntry>,
    provider: &Box<dyn Provider + Sync>,
) -> Result<(Vec<LogEntry>, Vec<LogEntry>), AllocError>
    ensures own { IfOk result (λ parts. map log_entry_of parts.0.items ≡ filter (has_its_type (meaning provider.now)) (map log_entry_of entries.items)) }
    ensures others { IfOk result (λ parts. map log_entry_of parts.1.items ≡ filter (λ e. not (has_its_type (meaning provider.now) e)) (map log_entry_of entries.items)) }
{
    let mut own = Vec::new(alloc);
    let mut others = Vec::new(alloc);
    for entry in entries {
        if has_its_type(provider, &entry) {
            own.push(entry)?;
        } else {
            others.push(entry)?;
        }
    }
    Ok((own, others))
}

/// Returns whether a provider has the type of an entry.
fn has_its_type(provider: &Box<dyn Provider + Sync>, entry: &LogEntry) -> bool
    ensures { result ≡ has_its_type (meaning provider.now) (log_entry_of entry.now) }
{
    provider.schema(type_in(entry)).is_some()
}

/// Returns the type of the object that an entry is about.
fn type_in(entry: &LogEntry) -> &str
    ensures { result.now ≡ type_in (log_entry_of entry.now) }
{
    match entry {
        LogEntry::Begun(request) => request.type_name.as_str(),
        LogEntry::Answered(request, _) => request.type_name.as_str(),
    }
}

/// Returns copies of the requests that are begun and that no entry says have ended, in their order. They may have
/// been carried out.
pub fn in_flight(alloc: Global, entries: &[LogEntry]) -> Result<Vec<Request>, AllocError>
    ensures { IfOk result (λ requests. map asked requests.items ≡ in_flight (map log_entry_of entries.now)) }
{
    let mut requests = Vec::new(alloc);
    for entry in entries {
        if let Some(request) = open_of(entries, entry) {
            let request = copy_request(alloc, request)?;
            requests.push(request)?;
        }
    }
    Ok(requests)
}

/// Returns the request that an entry says is begun, if no entry of a log says that it has ended.
fn open_of<'a>(entries: &[LogEntry], entry: &'a LogEntry) -> Option<&'a Request>
    ensures { option_map (λ request. asked request.now) result ≡ open_of (map log_entry_of entries.now) (log_entry_of entry.now) }
{
    match entry {
        LogEntry::Begun(request) => {
            if has_ended(entries, request) {
                None
            } else {
                Some(request)
            }
        }
        LogEntry::Answered(_, _) => None,
    }
}

/// Returns whether an entry says that the same request has ended.
fn has_ended(entries: &[LogEntry], request: &Request) -> bool
    ensures { result ≡ list_any (ends (asked request.now)) (map log_entry_of entries.now) }
{
    for entry in entries {
        if ends(request, entry) {
            return true;
        }
    }
    false
}

/// Returns whether this entry says that the same request has ended.
fn ends(request: &Request, entry: &LogEntry) -> bool
    ensures { result ≡ ends (asked request.now) (log_entry_of entry.now) }
{
    match entry {
        LogEntry::Begun(_) => false,
        LogEntry::Answered(asked, _) => is_same(asked, request),
    }
}

/// Returns whether an entry says that the same request is begun or answered.
pub fn is_begun(entries: &[LogEntry], request: &Request) -> bool
    ensures { result ≡ list_any (is_about (asked request.now)) (map log_entry_of entries.now) }
{
    for entry in entries {
        if is_about(request, entry) {
            return true;
        }
    }
    false
}

/// Returns whether an entry is about the same request.
fn is_about(request: &Request, entry: &LogEntry) -> bool
    ensures { result ≡ is_about (asked request.now) (log_entry_of entry.now) }
{
    match entry {
        LogEntry::Begun(asked) | LogEntry::Answered(asked, _) => is_same(asked, request),
    }
}

/// Counts the entries with an answer.
pub fn answer_count(entries: &[LogEntry]) -> usize
    ensures { result ≡ answer_count (map log_entry_of entries.now) }
{
    let mut count = 0;
    for entry in entries {
        if has_answer(entry) {
            count += 1;
        }
    }
    count
}

/// Returns whether an entry has an answer.
fn has_answer(entry: &LogEntry) -> bool
    ensures { result ≡ has_answer (log_entry_of entry.now) }
{
    match entry {
        LogEntry::Begun(_) | LogEntry::Answered(_, Reply::NoMemory) => false,
        LogEntry::Answered(_, _) => true,
    }
}
