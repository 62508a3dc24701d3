//! The failures of an unfinished apply, which it didn't report.

use std::alloc::{AllocError, Global};
use tf_cli_files::{ProgramInput, UnfinishedApply};
use tf_cli_lines::verb_text;
use tf_cli_program::is_state;
use tf_provider_log::LogEntry;
use tf_provider_protocol::{Reply, Request};

/// Returns a line for each failed reply in the log of an unfinished apply, in the log's order: the line that the apply would have
/// printed at its end. Returns an empty text if the given state isn't the one that the apply began with, since the apply then
/// printed these lines itself.
pub(crate) fn failure_lines(
    alloc: Global,
    given: &ProgramInput,
    unfinished: &Option<(UnfinishedApply, Vec<LogEntry>)>,
) -> Result<String, AllocError> {
    let mut lines = String::new(alloc);
    let Some((found, entries)) = unfinished else {
        return Ok(lines);
    };
    if !is_state(given, &found.header.state) {
        return Ok(lines);
    }
    for entry in entries {
        if let LogEntry::Answered(request, Reply::Failed { message, .. }) = entry {
            add_line(&mut lines, request, message.as_str())?;
        }
    }
    Ok(lines)
}

/// Adds the line of a failure. Each character of its message below U+0020 becomes a space.
fn add_line(lines: &mut String, request: &Request, message: &str) -> Result<(), AllocError> {
    lines.push_str("error 21 at ")?;
    lines.push_str(request.address.as_str())?;
    if let Some(key) = &request.deposed {
        lines.push_str(" (deposed ")?;
        lines.push_str(key.as_str())?;
        lines.push(')')?;
    }
    lines.push_str(verb_text(&Some(request.op)))?;
    lines.push_str(": ")?;
    for letter in message.chars() {
        lines.push(if letter < ' ' { ' ' } else { letter })?;
    }
    lines.push('\n')?;
    Ok(())
}
