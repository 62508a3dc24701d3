//! Reading a log.

ghost use Rattle.std.specs.Prelude.{◌≡◌, ◌<◌, ◌∷◌, [], Some, Ok, ◌++◌, IfOk, IfErr, IfSome, OnOk, MatchOption, option_map, map, length};
ghost use Rattle.serde_json.specs.View.{view};
ghost use Rattle.tf_provider_log.specs.LogEntry.{log_entry_of, log_of};
ghost use Rattle.tf_provider_log.specs.From.{entry_from, header_from, version_of, version_from, is_known};
ghost use Rattle.tf_provider_log.specs.Line.{lines_of, tree_in, entry_in, header_in, header_fault, fault_of_version};
ghost use Rattle.tf_provider_log.specs.Log.{log_in, entries_in, IsUnread, IsHeaderRefused, IsEntryRefused};

use crate::entry::{Header, Log, LogEntry};
use crate::fault::{LineFault, LogFault};
use crate::parts::{option_text_from, reply_from, request_from, text_from};
use serde_json::Value as Json;
use std::alloc::{AllocError, Global};

/// Reads bytes as a log: its lines are what is before each newline. Returns `None` if no line is whole. What follows
/// the last newline was cut off and is ignored, but no line is.
///
/// # Errors
///
/// Fails with `Line` if a whole line isn't what it has to be: the number of the first such line, counted from 1, and
/// its fault. Fails with `OutOfMemory` if memory runs out.
pub fn read_log(alloc: Global, bytes: &[u8]) -> Result<Option<Log>, LogFault>
    ensures ok { IfOk result (λ log. log_in (lines_of bytes.now) ≡ Ok (option_map log_of log)) }
    ensures err { IfErr result (IsUnread bytes.now) }
{
    let Some((first, rest)) = next_line(bytes) else {
        return Ok(None);
    };
    let header = read_header(alloc, first)?;
    let entries = read_entries(alloc, rest)?;
    Ok(Some(Log { header, entries }))
}

/// Returns the first whole line of a text, without its newline, and what follows it. Returns `None` if there is no newline.
pub fn next_line(bytes: &[u8]) -> Option<(&[u8], &[u8])>
    ensures lines { MatchOption result (lines_of bytes.now ≡ [])
        (λ p. (lines_of bytes.now ≡ p.0.now ∷ lines_of p.1.now) × (length p.1.now < length bytes.now)) }
    ensures parts { IfSome result (λ p. bytes.now ≡ p.0.now ++ 10 ∷ p.1.now) }
{
    for (index, byte) in bytes.iter().enumerate() {
        if *byte == 10 {
            return Some((&bytes[..index], &bytes[index + 1..]));
        }
    }
    None
}

// Reads lines as entries. The first of these lines has the number 2.
fn read_entries(alloc: Global, bytes: &[u8]) -> Result<Vec<LogEntry>, LogFault>
    ensures ok { IfOk result (λ entries. entries_in 2 (lines_of bytes.now) ≡ Ok (map log_entry_of entries.items)) }
    ensures err { IfErr result (IsEntryRefused (lines_of bytes.now)) }
{
    let mut entries = Vec::new(alloc);
    let mut number = 2usize;
    let mut rest = bytes;
    while let Some((line, after)) = next_line(rest) {
        let Some(entry) = read_entry(alloc, line)? else {
            return Err(LogFault::Line(number, LineFault::NotAnEntry));
        };
        push(&mut entries, entry)?;
        number += 1;
        rest = after;
    }
    Ok(entries)
}

fn push(entries: &mut Vec<LogEntry>, entry: LogEntry) -> Result<(), AllocError>
    ensures { OnOk result (entries.new.items ≡ entries.old.items ++ entry ∷ []) }
{
    Ok(entries.push(entry)?)
}

// Reads the entry that a line says, if it is the line of one.
fn read_entry(alloc: Global, line: &[u8]) -> Result<Option<LogEntry>, AllocError>
    ensures { IfOk result (λ entry. option_map log_entry_of entry ≡ entry_in line.now) }
{
    match read_tree(alloc, line)? {
        Some(json) => {
            let entry = entry_from(alloc, &json)?;
            Ok(entry)
        }
        None => Ok(None),
    }
}

/// Reads the JSON tree of a line. Returns `None` if the line isn't JSON.
///
/// # Errors
///
/// Fails only if memory runs out.
pub fn read_tree(alloc: Global, line: &[u8]) -> Result<Option<Json>, AllocError>
    ensures { IfOk result (λ tree. option_map view tree ≡ tree_in line.now) }
{
    match Json::from_slice(alloc, line) {
        Ok(json) => Ok(Some(json)),
        Err(error) if error.is_memory() => Err(AllocError),
        Err(_) => Ok(None),
    }
}

// Reads the entry that a tree says.
fn entry_from(alloc: Global, json: &Json) -> Result<Option<LogEntry>, AllocError>
    ensures { IfOk result (λ entry. option_map log_entry_of entry ≡ entry_from (view json.now)) }
{
    match (json.get("begun"), json.get("answered"), json.get("reply")) {
        (Some(request), None, None) => {
            let request = request_from(alloc, request)?;
            Ok(request.map(LogEntry::Begun))
        }
        (None, Some(request), Some(reply)) => {
            let Some(request) = request_from(alloc, request)? else {
                return Ok(None);
            };
            let Some(reply) = reply_from(alloc, reply)? else {
                return Ok(None);
            };
            Ok(Some(LogEntry::Answered(request, reply)))
        }
        _ => Ok(None),
    }
}

fn version_from(json: Option<&Json>) -> Option<i128>
    ensures { result ≡ version_from (option_map (λ v. view v.now) json.entry) }
{
    match json {
        Some(Json::Number(number)) => number.as_i128(),
        _ => None,
    }
}

fn is_known(version: Option<i128>) -> bool
    ensures { result ≡ is_known version }
{
    match version {
        Some(version) => version == 1,
        None => false,
    }
}

fn fault_of_version(version: Option<i128>) -> LineFault
    ensures { result ≡ fault_of_version version }
{
    match version {
        Some(version) => {
            if version == 1 {
                return LineFault::NotAHeader;
            }
            LineFault::UnknownVersion
        }
        None => LineFault::NotAHeader,
    }
}

// Reads the header that a log's first line says.
fn read_header(alloc: Global, line: &[u8]) -> Result<Header, LogFault>
    ensures ok { IfOk result (λ header. header_in line.now ≡ Some header) }
    ensures err { IfErr result (IsHeaderRefused line.now) }
{
    let Some(json) = read_tree(alloc, line)? else {
        return Err(LogFault::Line(1, LineFault::NotAHeader));
    };
    match header_from(alloc, &json)? {
        Some(header) => Ok(header),
        None => {
            let fault = fault_of_version(version_from(json.get("version")));
            Err(LogFault::Line(1, fault))
        }
    }
}

// Reads the header that a tree says.
fn header_from(alloc: Global, json: &Json) -> Result<Option<Header>, AllocError>
    ensures { IfOk result (λ header. header ≡ header_from (view json.now)) }
{
    if !is_known(version_from(json.get("version"))) {
        return Ok(None);
    }
    let Some(config) = text_from(json.get("config"))? else {
        return Ok(None);
    };
    let Some(vars) = option_text_from(json.get("vars"))? else {
        return Ok(None);
    };
    let Some(state) = option_text_from(json.get("state"))? else {
        return Ok(None);
    };
    let Some(lineage) = text_from(json.get("lineage"))? else {
        return Ok(None);
    };
    Ok(Some(Header {
        config,
        vars,
        state,
        lineage,
    }))
}
