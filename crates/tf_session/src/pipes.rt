//! The two pipes of each provider outside the program.

ghost use Rattle.std.specs.List.{list_any};
ghost use Rattle.std.specs.Prelude.{◌≡◌, ◌<◌, ◌&&◌, IfErr, IfSome, MatchResult, Some, false, length, slice_get, slice_index_or, true};
ghost use Rattle.tf_provider_log.specs.Fit.{answer_fits, request_fits};
ghost use Rattle.tf_provider_protocol.specs.Meaning.{answered, asked};
ghost use Rattle.tf_provider_remote.specs.Flights.{is_numbered};
ghost use Rattle.tf_provider_remote.specs.declared.flights.Flight.{Flight};

use crate::context::ApplyLog;
use crate::remotes::file_in;
use std::alloc::{AllocError, Global};
use std::fs::{File, OpenOptions};
use std::io::{ErrorKind, Read, Write};
use std::process::ExitCode;
use std::{fs, io, mem};
use tf_provider_log::{Announced, LoggedReply};
use tf_provider_protocol::{Reply, Request};
use tf_provider_remote::{Flight, Flights, Response, Responses, read_replies};

/// The most bytes of a reply's line.
const MOST_BYTES: usize = 4_194_304;

/// How many bytes are read at once.
const AT_ONCE: usize = 65_536;

/// Why a provider is lost whose pipe of replies has ended, or can't be read.
const ENDED: &str = "its pipe of replies has ended";

/// Why a provider is lost if its replies can't be read because memory ran out.
const OUT_OF_MEMORY: &str = "out of memory";

/// The two pipes of a provider: one for requests, and one for replies.
#[derive(Drop)]
pub struct Pipe {
    requests: File,
    replies: File,
    /// What was read of a line that isn't whole.
    pending: Vec<u8>,
}

/// The evidence that a provider is lost. Only the functions here make one, each if it finds the reason.
#[derive(Drop)]
pub(crate) struct Loss {
    /// The number of the provider.
    provider: usize,
    /// The reason in words.
    reason: &'static str,
}

impl Loss {
    /// Returns the number of the provider.
    pub(crate) fn provider(&self) -> usize
        ensures { result ≡ self.now.provider }
    {
        self.provider
    }

    /// Returns the reason in words.
    pub(crate) fn reason(&self) -> &'static str {
        self.reason
    }
}

/// A request in flight: its line was written to its provider's pipe once, or the provider is lost. Only the functions here make one.
pub(crate) struct Sent {
    flight: Flight,
}

impl Sent {
    /// Returns a request that isn't written, because its provider is lost.
    pub(crate) fn to_lost(announced: Announced<Flight>, lost: &[bool]) -> Sent
        requires { slice_get lost.now announced.message.provider ≡ Some true }
        ensures { result.flight ≡ announced.message }
    {
        let _ = lost;
        Sent {
            flight: announced.into_message(),
        }
    }

    /// Returns the request.
    pub(crate) fn into_flight(self) -> Flight
        ensures { result ≡ self.flight }
    {
        let Sent { flight } = self;
        flight
    }
}

/// The replies of a provider that were read.
pub(crate) struct Received {
    /// The replies.
    pub(crate) replies: Vec<Response>,
    /// The evidence that the provider is lost, if a line after them isn't a reply.
    pub(crate) loss: Option<Loss>,
}

/// Sends the line of a request to its provider. `Announced` shows that the log on the disk has the request as begun, and is spent, so
/// the request is sent once. If the provider's pipe of requests can't be written, also returns the evidence that the provider is lost.
pub(crate) fn send_line(
    pipes: &mut [Pipe],
    announced: Announced<Flight>,
) -> (Sent, Result<(), Loss>)
    ensures flight { result.0.flight ≡ announced.message }
    ensures loss { IfErr result.1 (λ loss. loss.provider ≡ announced.message.provider) }
{
    let flight = announced.into_message();
    let provider = flight.provider;
    let is_sent = match pipes.get_mut(provider) {
        Some(pipe) => pipe.send(flight.line.as_str()),
        None => false,
    };
    let result = if is_sent {
        Ok(())
    } else {
        Err(Loss {
            provider,
            reason: "its pipe of requests can't be written",
        })
    };
    (Sent { flight }, result)
}

/// Waits until more of a provider's replies can be read, and returns those whose lines are whole.
///
/// # Errors
///
/// Fails if the provider's pipe of replies has ended, if a line is above 4 MB, or if memory runs out.
pub(crate) fn receive_from(
    rt: &HostRuntime,
    pipes: &mut [Pipe],
    provider: usize,
) -> Result<Received, Loss>
    ensures { MatchResult result (λ received. IfSome received.loss (λ loss. loss.provider ≡ provider)) (λ loss. loss.provider ≡ provider) }
{
    let received = match pipes.get_mut(provider) {
        Some(pipe) => pipe.receive(rt),
        None => Err(ENDED),
    };
    match received {
        Ok(responses) => Ok(Received {
            replies: responses.replies,
            loss: if responses.is_faulty {
                Some(Loss {
                    provider,
                    reason: "a line isn't a reply",
                })
            } else {
                None
            },
        }),
        Err(reason) => Err(Loss { provider, reason }),
    }
}

/// Returns the place of the request in flight to which a provider's reply has the number.
///
/// # Errors
///
/// Fails if no such request is in flight.
pub(crate) fn place_of(flights: &Flights, provider: usize, id: u64) -> Result<usize, Loss>
    ensures { MatchResult result
        (λ place. (place < length flights.now.flights.items) × ((d : Flight) → ((slice_index_or flights.now.flights.items place d).id ≡ id) × ((slice_index_or flights.now.flights.items place d).provider ≡ provider)))
        (λ loss. (loss.provider ≡ provider) × (list_any (is_numbered provider id) flights.now.flights.items ≡ false)) }
{
    match flights.place_of(provider, id) {
        Some(place) => Ok(place),
        None => Err(Loss {
            provider,
            reason: "a reply to a request that isn't in flight",
        }),
    }
}

/// Writes a provider's reply to a request to the log, and returns the reply with the evidence of that.
///
/// # Errors
///
/// Fails exactly if a value of the reply is nested too deep for the log, or holds a set. Then the reply is dropped.
pub(crate) fn log_reply(
    alloc: Global,
    log: &ApplyLog,
    provider: usize,
    request: &Request,
    reply: Reply,
) -> Result<LoggedReply, Loss>
    ensures { MatchResult result
        (λ logged. (logged.request.value ≡ request.now) × (logged.reply ≡ reply))
        (λ loss. (loss.provider ≡ provider) × ((request_fits (asked request.now) && answer_fits (answered reply)) ≡ false)) }
{
    match log.receive(alloc, request, reply) {
        Ok(logged) => Ok(logged),
        Err(_) => Err(Loss {
            provider,
            reason: "a reply that is nested too deep",
        }),
    }
}

impl Pipe {
    /// Returns whether a folder has both pipes.
    fn is_in(rt: &HostRuntime, folder: &str) -> io::Result<bool> {
        let alloc = rt.alloc();
        let requests = file_in(alloc, folder, "requests")?;
        let replies = file_in(alloc, folder, "replies")?;
        Ok(is_pipe(rt, requests.as_str()) && is_pipe(rt, replies.as_str()))
    }

    /// Opens the pipes in a folder, that of the requests first. Waits for the provider to open them too.
    fn open(rt: &HostRuntime, folder: &str) -> io::Result<Pipe> {
        let alloc = rt.alloc();
        let requests = file_in(alloc, folder, "requests")?;
        let replies = file_in(alloc, folder, "replies")?;
        let mut options = OpenOptions::new();
        options.write(true);
        let requests = options.open(rt, requests.as_str())?;
        let replies = fs::open(rt, replies.as_str())?;
        Ok(Pipe {
            requests,
            replies,
            pending: Vec::new(alloc),
        })
    }

    /// Sends the line of a request, and returns whether it is written.
    fn send(&mut self, line: &str) -> bool {
        self.requests.write_all(line.as_bytes()).is_ok()
    }

    /// Waits until more can be read, and returns the replies whose lines are whole. If it fails, returns why in words.
    fn receive(&mut self, rt: &HostRuntime) -> Result<Responses, &'static str> {
        self.read_more(rt)?;
        let Ok(responses) = read_replies(rt.alloc(), self.pending.as_slice()) else {
            return Err(OUT_OF_MEMORY);
        };
        if responses.read <= self.pending.len() {
            match self.pending.split_off(responses.read) {
                Ok(rest) => drop(mem::replace(&mut self.pending, rest)),
                Err(_) => return Err(OUT_OF_MEMORY),
            }
        }
        if self.pending.len() > MOST_BYTES {
            return Err("a line above 4 MB");
        }
        Ok(responses)
    }

    /// Waits until more can be read, and adds it to what was read.
    fn read_more(&mut self, rt: &HostRuntime) -> Result<(), &'static str> {
        let mut buffer = Vec::new(rt.alloc());
        if buffer.resize(AT_ONCE, 0u8).is_err() {
            return Err(OUT_OF_MEMORY);
        }
        let count = match self.replies.read(buffer.as_mut_slice()) {
            Ok(count) => count,
            Err(error) if error.kind() == ErrorKind::Interrupted => return Ok(()),
            Err(_) => return Err(ENDED),
        };
        if count == 0 {
            return Err(ENDED);
        }
        match self.pending.extend_from_slice(&buffer[..count]) {
            Ok(()) => Ok(()),
            Err(_) => Err(OUT_OF_MEMORY),
        }
    }
}

/// Opens the pipes of each provider, whose folders these are, in their order. Waits for each provider to open them too. If one can't be
/// opened, prints that and returns the program's status, 1.
///
/// # Errors
///
/// Fails only if memory runs out.
pub fn open_pipes<E: Write>(
    rt: &HostRuntime,
    folders: &[String],
    err: &mut E,
) -> Result<Result<Vec<Pipe>, ExitCode>, AllocError> {
    let mut pipes = Vec::new(rt.alloc());
    for folder in folders {
        match Pipe::open(rt, folder.as_str()) {
            Ok(pipe) => pipes.push(pipe)?,
            Err(_) => return Ok(Err(print_no_pipes(folder.as_str(), err))),
        }
    }
    Ok(Ok(pipes))
}

/// Checks that each folder has both pipes, without opening them. If one hasn't, prints that and returns the program's status, 1.
pub fn check_pipes<E: Write>(
    rt: &HostRuntime,
    folders: &[String],
    err: &mut E,
) -> Result<(), ExitCode> {
    for folder in folders {
        match Pipe::is_in(rt, folder.as_str()) {
            Ok(true) => {}
            _ => return Err(print_no_pipes(folder.as_str(), err)),
        }
    }
    Ok(())
}

/// Prints that a folder doesn't have the two pipes of a provider.
fn print_no_pipes<E: Write>(folder: &str, err: &mut E) -> ExitCode {
    let _ = writeln!(err, "error: {folder}: no pipes named requests and replies");
    ExitCode::FAILURE
}

/// Returns whether a name is of a pipe.
fn is_pipe(rt: &HostRuntime, name: &str) -> bool {
    match fs::metadata(rt, name) {
        Ok(metadata) => !metadata.is_file() && !metadata.is_dir(),
        Err(_) => false,
    }
}
