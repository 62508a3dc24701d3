//! The events that count actions.

use crate::event::{Event, Level, Members};
use std::alloc::{AllocError, Global};
use std::rt::Clock;

/// How many objects are added, changed and destroyed.
#[derive(Clone, Copy)]
pub(crate) struct Counts {
    added: u64,
    changed: u64,
    destroyed: u64,
}

/// Reads the last line of a plan's text: `Plan: 1 to add, 0 to change, 2 to destroy.` or `No changes.`
pub(crate) fn read_plan_counts(line: &str) -> Option<Counts> {
    if line == "No changes." {
        return Some(Counts {
            added: 0,
            changed: 0,
            destroyed: 0,
        });
    }
    let rest = line.strip_prefix("Plan: ")?;
    let (added, rest) = rest.split_once(" to add, ")?;
    let (changed, rest) = rest.split_once(" to change, ")?;
    counts_of(added, changed, rest.strip_suffix(" to destroy.")?)
}

/// Reads the summary of an apply: `Apply complete! Resources: 1 added, 0 changed, 2 destroyed.`
pub(crate) fn read_apply_counts(line: &str) -> Option<Counts> {
    let (opening, rest) = line.split_once(" Resources: ")?;
    if !opening.starts_with("Apply ") {
        return None;
    }
    let (added, rest) = rest.split_once(" added, ")?;
    let (changed, rest) = rest.split_once(" changed, ")?;
    counts_of(added, changed, rest.strip_suffix(" destroyed.")?)
}

fn counts_of(added: &str, changed: &str, destroyed: &str) -> Option<Counts> {
    Some(Counts {
        added: added.parse::<u64>().ok()?,
        changed: changed.parse::<u64>().ok()?,
        destroyed: destroyed.parse::<u64>().ok()?,
    })
}

impl Counts {
    /// Returns the event with the counts of an operation, `plan` or `apply`.
    pub(crate) fn event<C: Clock>(
        &self,
        alloc: Global,
        clock: &C,
        operation: &str,
        message: &str,
    ) -> Result<String, AllocError> {
        let mut changes = Members::new(alloc);
        changes.add_number("add", self.added)?;
        changes.add_number("change", self.changed)?;
        changes.add_number("import", 0)?;
        changes.add_number("remove", self.destroyed)?;
        changes.add_text("operation", operation)?;
        let mut members = Members::new(alloc);
        members.add("changes", changes.into_json())?;
        let event = Event {
            level: Level::Info,
            message,
            kind: "change_summary",
        };
        event.line(clock, members)
    }
}
