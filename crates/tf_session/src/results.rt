//! The results of calls that were in flight when an apply ended, which a file says.

use crate::remotes::unread;
use std::alloc::{AllocError, Global};
use std::fs::File;
use std::io::{ErrorKind, Write};
use std::process::ExitCode;
use std::{fmt, fs, io};
use tf_cli_files::{Ending, LineFile, Place, print_no_log, print_no_memory};
use tf_cli_lines::verb_text;
use tf_provider::Provider;
use tf_provider_local::LocalFile;
use tf_provider_log::{Unwritten, answered_line};
use tf_provider_protocol::{Reply, Request, Verdict, asks_fully, judge, schema_for, well_formed};
use tf_provider_remote::{CallResult, RemoteTypes, ResultsFault, read_results};
use tf_provider_sim::Sim;

/// Adds the results in the file `name` to the log of an unfinished apply, which is `file`, and syncs it. If the file isn't of exactly
/// the calls in flight, or can't be read, prints that and returns the program's end; the log then stays as it is. If the log can't be
/// written, prints that and returns the program's end.
pub fn add_results<E: Write>(
    rt: &HostRuntime,
    types: &RemoteTypes,
    place: &Place,
    file: &File,
    name: &str,
    in_flight: &[Request],
    err: &mut E,
) -> Result<(), Ending> {
    let text = match fs::read(rt, name) {
        Ok(text) => text,
        Err(error) => return Err(unread(name, error, err)),
    };
    let lines = match answers_by(rt, types, name, text.as_slice(), in_flight, err) {
        Ok(lines) => lines?,
        Err(AllocError) => return Err(Ending::from(print_no_memory(err))),
    };
    match append(rt, place, file, lines.as_str()) {
        Ok(()) => Ok(()),
        Err(error) => Err(Ending {
            status: print_no_log(place.log.as_str(), err),
            cause: Some(error),
        }),
    }
}

/// Returns the log's lines of the results in a text. The providers are those of these types, and the programs' own.
/// If the text isn't of exactly the calls in flight, prints that.
fn answers_by<E: Write>(
    rt: &HostRuntime,
    types: &RemoteTypes,
    name: &str,
    text: &[u8],
    in_flight: &[Request],
    err: &mut E,
) -> Result<Result<String, ExitCode>, AllocError> {
    let alloc = rt.alloc();
    let mut providers: Vec<Box<dyn Provider + Sync>> = Vec::new(alloc);
    providers.push(Box::new(alloc, types.share()?)?)?;
    providers.push(Box::new(alloc, Sim::new(alloc)?)?)?;
    providers.push(Box::new(alloc, LocalFile::new(alloc, *rt)?)?)?;
    match answers(alloc, text, in_flight, &providers) {
        Ok(lines) => Ok(Ok(lines)),
        Err(Misfit::OutOfMemory) => Err(AllocError),
        Err(fault) => {
            let _ = writeln!(err, "error: {name}: {fault}");
            Ok(Err(ExitCode::FAILURE))
        }
    }
}

/// Why a file doesn't have the results of the calls in flight.
#[derive(Drop)]
enum Misfit<'a> {
    /// A line isn't a result.
    NotAResult(usize),
    /// A line has the result of a call that isn't in flight, or that has its result already.
    NotInFlight(usize),
    /// No provider has the type of the call in a line.
    NoProvider(usize),
    /// A line has a result that this call can't have.
    Malformed(usize, &'a Request),
    /// A line has an object with another value of this attribute than requested.
    Contradicts(usize, &'a str),
    /// A line has a value that is nested too deep.
    TooDeep(usize),
    /// No line has the result of this call.
    Missing(&'a Request),
    /// Memory ran out.
    OutOfMemory,
}

impl From<AllocError> for Misfit<'_> {
    fn from(_: AllocError) -> Self {
        Misfit::OutOfMemory
    }
}

impl fmt::Display for Misfit<'_> {
    fn fmt<W: fmt::Write>(&self, f: &mut fmt::Formatter<W>) -> fmt::Result {
        match self {
            Misfit::NotAResult(line) => write!(f, "line {line}: not a result"),
            Misfit::NotInFlight(line) => { write!(f, "line {line}: no such call is in flight") }
            Misfit::NoProvider(line) => write!(f, "line {line}: no provider has this type"),
            Misfit::Malformed(line, request) => {
                let verb = verb_text(&Some(request.op));
                write!(f, "line {line}: not a result of {}{verb}", request.address)
            }
            Misfit::Contradicts(line, name) => {
                write!(f, "line {line}: another value of {name} than requested")
            }
            Misfit::TooDeep(line) => write!(f, "line {line}: nested too deep"),
            Misfit::Missing(request) => {
                let verb = verb_text(&Some(request.op));
                write!(f, "no result of {}{verb}", request.address)
            }
            Misfit::OutOfMemory => write!(f, "out of memory"),
        }
    }
}

/// Returns the log's lines of the results in a text: exactly one for each call in flight.
fn answers<'a>(
    alloc: Global,
    text: &[u8],
    in_flight: &'a [Request],
    providers: &'a [Box<dyn Provider + Sync>],
) -> Result<String, Misfit<'a>> {
    let results = match read_results(alloc, text) {
        Ok(results) => results,
        Err(ResultsFault::Line(line)) => return Err(Misfit::NotAResult(line)),
        Err(ResultsFault::OutOfMemory) => return Err(Misfit::OutOfMemory),
    };
    for request in in_flight {
        if !results.iter().any(|(_, found)| found.is_of(request)) {
            return Err(Misfit::Missing(request));
        }
    }
    let mut lines = String::new(alloc);
    for (at, (line, found)) in results.iter().enumerate() {
        let Some(request) = asked_of(in_flight, found) else {
            return Err(Misfit::NotInFlight(*line));
        };
        let mut earlier = results.iter().take(at);
        if earlier.any(|(_, other)| other.is_of(request)) {
            return Err(Misfit::NotInFlight(*line));
        }
        check(*line, request, &found.reply, providers)?;
        match answered_line(alloc, request, &found.reply) {
            Ok(text) => add(&mut lines, text.as_str())?,
            Err(Unwritten::OutOfMemory) => return Err(Misfit::OutOfMemory),
            Err(Unwritten::Unfit) => return Err(Misfit::TooDeep(*line)),
        }
    }
    Ok(lines)
}

/// Checks that a result is a good one, or a failure that leaves no object or one of the type. Any other would be judged as a fault of
/// the provider, and the object replaced.
fn check<'a>(
    line: usize,
    request: &'a Request,
    reply: &Reply,
    providers: &'a [Box<dyn Provider + Sync>],
) -> Result<(), Misfit<'a>> {
    let Some(schema) = schema_for(providers, request.type_name.as_str()) else {
        return Err(Misfit::NoProvider(line));
    };
    if let Reply::Failed { object, .. } = reply {
        return match object {
            Some(left) if !well_formed(left, schema) => Err(Misfit::Malformed(line, request)),
            _ => Ok(()),
        };
    }
    if !asks_fully(request, schema) {
        return Err(Misfit::Malformed(line, request));
    }
    match judge(request, reply, schema) {
        Verdict::Good => Ok(()),
        Verdict::Contradicted(place) => match schema.attributes().get(place) {
            Some(attribute) => Err(Misfit::Contradicts(line, attribute.name.as_str())),
            None => Err(Misfit::Malformed(line, request)),
        },
        _ => Err(Misfit::Malformed(line, request)),
    }
}

/// Returns the request that this is the result of, if there is one.
fn asked_of<'a>(in_flight: &'a [Request], found: &CallResult) -> Option<&'a Request> {
    in_flight.iter().find(|request| found.is_of(request))
}

/// Adds a text at the end.
fn add(lines: &mut String, text: &str) -> Result<(), AllocError> {
    lines.push_str(text)?;
    Ok(())
}

/// Appends whole lines to a log and syncs it. What follows its last whole line was cut off when an apply ended, and is removed. If not
/// all lines are added, removes those that were.
fn append(rt: &HostRuntime, place: &Place, file: &File, lines: &str) -> io::Result<()> {
    let bytes = fs::read(rt, place.log.as_str())?;
    let whole = whole_lines(bytes.as_slice());
    if whole < bytes.len() {
        file.set_len(whole as u64)?;
    }
    let added = add_synced(file, lines);
    if added.is_err() {
        let _ = file.set_len(whole as u64);
    }
    added
}

/// Writes lines at the end of a log and syncs it.
fn add_synced(file: &File, lines: &str) -> io::Result<()> {
    if LineFile::append(file, lines.as_bytes())? < lines.len() {
        return Err(io::Error::from(ErrorKind::WriteZero));
    }
    file.sync_data()
}

/// Returns how many bytes the whole lines of a text have, with their newlines.
fn whole_lines(bytes: &[u8]) -> usize {
    let mut whole = 0;
    for (index, byte) in bytes.iter().enumerate() {
        if *byte == b'\n' {
            whole = index + 1;
        }
    }
    whole
}
