//! Standard output as events.

ghost use Rattle.std.specs.Io.{WritesAtMost};
ghost use Rattle.std.specs.Io.KnownBytes.{WriteAppends};
ghost use Rattle.std.specs.Prelude.{◌≡◌, ◌≤◌, length};
ghost use Rattle.tf_cli_events.specs.Passing.{known_contents};

use crate::event::{Event, Level, Members};
use crate::lines::{ends_line, first_line, text_of};
use crate::planned::read_planned;
use crate::summary::{read_apply_counts, read_plan_counts};
use std::alloc::{AllocError, Global};
use std::io;
use std::io::Write;
use std::rt::Clock;
use tf_cli_lines::save;

/// Standard output of an apply, or another writer, to which the lines of the apply's text are written as events. Without events
/// the text passes through unchanged.
///
/// A line of an action becomes a `planned_change`, and the lines of its attributes are left out; a count of objects becomes a
/// `change_summary`. Any other line, such as those of a state that couldn't be written, becomes a `log`, so none is lost. A line for
/// whose event there is no memory is written as it is.
#[derive(Drop)]
pub struct Events<'w, O: Write, C: Clock + Drop> {
    alloc: Global,
    out: &'w mut O,
    clock: C,
    has_events: bool,
    /// The beginning of the line that isn't complete yet.
    line: Vec<u8>,
    /// Which lines come next.
    part: Part,
    /// Whether the summary of an apply was written.
    has_summary: bool,
}

/// A part of the text of an apply.
#[derive(Clone, Copy, PartialEq, Eq, Drop)]
enum Part {
    /// Before the plan, or between the actions of a plan.
    Plan,
    /// The attributes of an action.
    Attributes,
    /// After the plan.
    Rest,
}

impl<'w, O: Write, C: Clock + Drop> Events<'w, O, C> {
    /// Wraps a writer. Without `has_events`, everything passes through unchanged.
    pub fn new(alloc: Global, out: &'w mut O, clock: C, has_events: bool) -> Events<'w, O, C> {
        Events {
            alloc,
            out,
            clock,
            has_events,
            line: Vec::new(alloc),
            part: Part::Plan,
            has_summary: false,
        }
    }

    /// Returns whether the summary of an apply was written as an event.
    pub fn has_summary(&self) -> bool {
        self.has_summary
    }

    /// Takes bytes up to the end of the first line, and writes the event of that line if it is complete. Returns how many bytes it
    /// took.
    fn take(&mut self, buf: &[u8]) -> usize
        ensures bound { result ≤ length buf.now }
        ensures kind { self.new.has_events ≡ self.old.has_events }
    {
        let part = first_line(buf);
        if self.line.extend_from_slice(part).is_err() {
            self.write_line();
            self.write_bytes(part);
        } else if ends_line(part) {
            self.end_line();
        }
        part.len()
    }

    /// Writes the event of the complete line, if it has one.
    fn end_line(&mut self)
        ensures kind { self.new.has_events ≡ self.old.has_events }
    {
        match self.event() {
            Some(Ok(event)) => {
                let _ = save(self.out, event.as_str());
                self.line.clear();
            }
            Some(Err(AllocError)) => self.write_line(),
            None => self.line.clear(),
        }
    }

    /// Returns the event of the complete line, or `None` if it has none.
    fn event(&mut self) -> Option<Result<String, AllocError>>
        ensures kind { self.new.has_events ≡ self.old.has_events }
    {
        let Some(line) = text_of(self.line.as_slice()) else {
            return Some(Err(AllocError));
        };
        let part = self.part;
        if part != Part::Rest {
            if let Some(planned) = read_planned(line) {
                self.part = Part::Attributes;
                return Some(planned.event(self.alloc, &self.clock));
            }
            if part == Part::Attributes && line.starts_with("    ") {
                return None;
            }
            self.part = Part::Plan;
            if let Some(counts) = read_plan_counts(line) {
                self.part = Part::Rest;
                return Some(counts.event(self.alloc, &self.clock, "plan", line));
            }
        }
        if let Some(counts) = read_apply_counts(line) {
            self.has_summary = true;
            return Some(counts.event(self.alloc, &self.clock, "apply", line));
        }
        Some(log_event(self.alloc, &self.clock, line))
    }

    /// Writes the line as it is, and removes it.
    fn write_line(&mut self)
        ensures kind { self.new.has_events ≡ self.old.has_events }
    {
        if let Ok(text) = str::from_utf8(self.line.as_slice()) {
            let _ = save(self.out, text);
        }
        self.line.clear();
    }

    /// Writes bytes as they are.
    fn write_bytes(&mut self, bytes: &[u8])
        ensures kind { self.new.has_events ≡ self.old.has_events }
    {
        if let Ok(text) = str::from_utf8(bytes) {
            let _ = save(self.out, text);
        }
    }
}

/// Returns the event of a line that is no event of its own.
fn log_event<C: Clock>(alloc: Global, clock: &C, line: &str) -> Result<String, AllocError> {
    let event = Event {
        level: Level::Info,
        message: line,
        kind: "log",
    };
    event.line(clock, Members::new(alloc))
}

impl<O: Write, C: Clock + Drop> Write for Events<'_, O, C> {
    // What was written to it, as far as that is known: without events that is what the wrapped writer has, so each contract on
    // printed text holds of the wrapped writer.
    ghost contents = { λ events. known_contents events.has_events (O.contents events.out.now) };

    fn write(&mut self, buf: &[u8]) -> io::Result<usize>
        ensures bound { WritesAtMost result buf.now }
        ensures bytes { WriteAppends (known_contents self.old.has_events (O.contents self.old.out.now)) (known_contents self.new.has_events (O.contents self.new.out.now)) result buf.now }
    {
        if self.has_events {
            return Ok(self.take(buf));
        }
        self.out.write(buf)
    }

    fn flush(&mut self) -> io::Result<()> {
        self.out.flush()
    }
}
