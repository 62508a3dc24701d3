//! The events of calls.

use crate::event::Writer;
use crate::hooks::{begun_event, ended_event};
use std::alloc::{AllocError, Global};
use std::rt::Clock;
use tf_provider_progress::Watch;
use tf_provider_protocol::{Reply, Request};

/// Writes the events of calls. Without a writer it writes nothing. An event that can't be built is left out.
#[derive(Drop)]
pub struct CallEvents<W: Writer, C: Clock + Drop> {
    alloc: Global,
    writer: Option<W>,
    clock: C,
}

impl<W: Writer, C: Clock + Drop> CallEvents<W, C> {
    /// Builds the events of calls, with the place where they are written, if there is one, and a clock.
    pub fn new(alloc: Global, writer: Option<W>, clock: C) -> CallEvents<W, C> {
        CallEvents {
            alloc,
            writer,
            clock,
        }
    }

    /// Starts the watch of a call. It reads the clock only if there is a writer.
    pub fn watch(&self) -> Option<Watch> {
        match &self.writer {
            Some(_) => Some(Watch::start(&self.clock)),
            None => None,
        }
    }

    /// Writes the event of a call that begins.
    pub fn begin(&self, request: &Request) {
        if let Some(writer) = &self.writer {
            write_event(writer, begun_event(self.alloc, &self.clock, request));
        }
    }

    /// Writes the event of a call that ended, and how long it took if it has a watch.
    pub fn end(&self, request: &Request, reply: &Reply, watch: Option<Watch>) {
        if let Some(writer) = &self.writer {
            let seconds = match watch {
                Some(watch) => watch.seconds(&self.clock),
                None => None,
            };
            write_event(
                writer,
                ended_event(self.alloc, &self.clock, request, reply, seconds),
            );
        }
    }
}

/// Writes an event, if there was memory for it.
fn write_event<W: Writer>(writer: &W, event: Result<String, AllocError>) {
    if let Ok(event) = event {
        writer.write_line(event.as_str());
    }
}
