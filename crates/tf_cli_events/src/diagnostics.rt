//! Lines of errors and warnings, as events.

ghost use Rattle.std.specs.Io.{WritesAtMost};
ghost use Rattle.std.specs.Io.KnownBytes.{WriteAppends};
ghost use Rattle.std.specs.Prelude.{◌≡◌};

use crate::event::{Event, Level, Members, Writer};
use crate::lines::{ends_line, first_line, text_of};
use std::alloc::{AllocError, Global};
use std::io;
use std::io::Write;
use std::rt::Clock;

/// The smallest code of an error of an action or output, in a program's line.
const FIRST_DIAGNOSTIC: u64 = 21;

/// Standard error of an apply, or another writer, with an event for each line of an error or a warning. The lines themselves pass
/// through unchanged; the events are written elsewhere. An event that can't be built is left out.
#[derive(Drop)]
pub struct Diagnosed<'w, E: Write, W: Writer, C: Clock + Drop> {
    alloc: Global,
    err: &'w mut E,
    events: Option<W>,
    clock: C,
    /// The beginning of the line that isn't complete yet.
    line: Vec<u8>,
    /// Whether there was no memory for the line.
    is_cut: bool,
}

impl<'w, E: Write, W: Writer, C: Clock + Drop> Diagnosed<'w, E, W, C> {
    /// Wraps a writer, with the place for its events, if there are any.
    pub fn new(
        alloc: Global,
        err: &'w mut E,
        events: Option<W>,
        clock: C,
    ) -> Diagnosed<'w, E, W, C> {
        Diagnosed {
            alloc,
            err,
            events,
            clock,
            line: Vec::new(alloc),
            is_cut: false,
        }
    }

    /// Adds bytes to the line, and writes its event if they end it.
    fn collect(&mut self, bytes: &[u8])
        ensures { E.contents self.new.err.now ≡ E.contents self.old.err.now }
    {
        if self.line.extend_from_slice(bytes).is_err() {
            self.is_cut = true;
        }
        if ends_line(bytes) {
            if !self.is_cut {
                self.write_event();
            }
            self.line.clear();
            self.is_cut = false;
        }
    }

    /// Writes the event of the complete line, if it has one.
    fn write_event(&self) {
        let Some(events) = &self.events else {
            return;
        };
        let Some(line) = text_of(self.line.as_slice()) else {
            return;
        };
        if let Some(fault) = read_fault(line)
            && let Ok(event) = fault.event(self.alloc, &self.clock)
        {
            events.write_line(event.as_str());
        }
    }
}

impl<E: Write, W: Writer, C: Clock + Drop> Write for Diagnosed<'_, E, W, C> {
    // What was written to it is what the wrapped writer has.
    ghost contents = { λ diagnosed. E.contents diagnosed.err.now };

    fn write(&mut self, buf: &[u8]) -> io::Result<usize>
        ensures bound { WritesAtMost result buf.now }
        ensures bytes { WriteAppends (E.contents self.old.err.now) (E.contents self.new.err.now) result buf.now }
    {
        if self.events.is_none() {
            return self.err.write(buf);
        }
        let part = first_line(buf);
        let count = self.err.write(part)?;
        self.collect(part.get(..count).unwrap_or(b""));
        Ok(count)
    }

    fn flush(&mut self) -> io::Result<()> {
        self.err.flush()
    }
}

/// An error or a warning, as a line has it.
#[derive(Drop)]
struct Fault<'a> {
    is_error: bool,
    /// What is wrong.
    summary: &'a str,
    /// The number of the error and its place.
    detail: &'a str,
    /// The address of the object that it is about.
    address: Option<&'a str>,
}

/// Reads a line such as `error 21 at sim_net.a create: no such net` or `warning: a log is lost`. Returns `None` for any other line.
fn read_fault(line: &str) -> Option<Fault<'_>> {
    if let Some(summary) = line.strip_prefix("warning: ") {
        return Some(plain_fault(false, summary));
    }
    if let Some(summary) = line.strip_prefix("error: ") {
        return Some(plain_fault(true, summary));
    }
    let (detail, summary) = line.split_once(": ")?;
    let (code, place) = detail.strip_prefix("error ")?.split_once(" at ")?;
    let code = code.parse::<u64>().ok()?;
    Some(Fault {
        is_error: true,
        summary,
        detail,
        address: if code >= FIRST_DIAGNOSTIC {
            address_in(place)
        } else {
            None
        },
    })
}

fn plain_fault(is_error: bool, summary: &str) -> Fault<'_> {
    Fault {
        is_error,
        summary,
        detail: "",
        address: None,
    }
}

/// Returns the address at the beginning of a place, or `None` if the place is an output.
fn address_in(place: &str) -> Option<&str> {
    if place.starts_with("output.") {
        return None;
    }
    let end = match place.find("] ") {
        Some(bracket) => Some(bracket.saturating_add(1)),
        None => place.find(' '),
    };
    match end {
        Some(end) => place.get(..end),
        None => Some(place),
    }
}

impl Fault<'_> {
    /// Returns the event.
    fn event<C: Clock>(&self, alloc: Global, clock: &C) -> Result<String, AllocError> {
        let mut diagnostic = Members::new(alloc);
        diagnostic.add_text("detail", self.detail)?;
        diagnostic.add_text("severity", if self.is_error { "error" } else { "warning" })?;
        diagnostic.add_text("summary", self.summary)?;
        if let Some(address) = self.address {
            diagnostic.add_text("address", address)?;
        }
        let mut members = Members::new(alloc);
        members.add("diagnostic", diagnostic.into_json())?;
        let mut message = String::from_str(
            alloc,
            if self.is_error {
                "Error: "
            } else {
                "Warning: "
            },
        )?;
        message.push_str(self.summary)?;
        let event = Event {
            level: if self.is_error {
                Level::Error
            } else {
                Level::Warning
            },
            message: message.as_str(),
            kind: "diagnostic",
        };
        event.line(clock, members)
    }
}
