//! What an apply reports as JSON, one event a line.

use std::fs;
use std::io::{Stdout, Write};
use tf_cli_events::{CallEvents, Events, Writer, outputs_event, version_event};
use tf_cli_files::ApplyEvents;

/// Returns the place where events are written, if there are any.
pub(crate) fn writer(rt: &HostRuntime, has_events: bool) -> Option<Stdout> {
    if has_events { Some(rt.stdout()) } else { None }
}

/// Returns the events of calls.
pub(crate) fn call_events(rt: &HostRuntime, has_events: bool) -> ApplyEvents {
    CallEvents::new(rt.alloc(), writer(rt, has_events), *rt)
}

/// Writes the first event, which names the form of all events, if there are any.
pub(crate) fn begin_events(rt: &HostRuntime, has_events: bool) {
    if let Some(writer) = writer(rt, has_events)
        && let Ok(event) = version_event(rt.alloc(), rt)
    {
        writer.write_line(event.as_str());
    }
}

/// Writes the event with the outputs of the state in a file, if an apply has ended.
pub(crate) fn end_events<O: Write>(
    rt: &HostRuntime,
    out: &Events<'_, O, HostRuntime>,
    state: &str,
) {
    if !out.has_summary() {
        return;
    }
    let Ok(text) = fs::read(rt, state) else {
        return;
    };
    if let Ok(Some(event)) = outputs_event(rt.alloc(), rt, text.as_slice()) {
        rt.stdout().write_line(event.as_str());
    }
}
