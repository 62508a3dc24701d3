//! The events of a plan.

use crate::address::resource_json;
use crate::event::{Event, Level, Members};
use std::alloc::{AllocError, Global};
use std::rt::Clock;

/// What the line of an action says.
#[derive(Drop)]
pub(crate) struct Planned<'a> {
    /// The address of the object, with the key of a deposed one.
    name: &'a str,
    /// What is planned.
    action: &'static str,
}

/// Reads the line of an action in a plan's text, such as `-/+ sim_host.web[0]`. Returns `None` for any other line.
pub(crate) fn read_planned(line: &str) -> Option<Planned<'_>> {
    let (symbol, name) = line.split_once(' ')?;
    let action = action_of(symbol)?;
    Some(Planned { name, action })
}

fn action_of(symbol: &str) -> Option<&'static str> {
    match symbol {
        "+" => Some("create"),
        "~" => Some("update"),
        "-" => Some("delete"),
        "-/+" | "+/-" => Some("replace"),
        _ => None,
    }
}

impl Planned<'_> {
    /// Returns the event of the action.
    pub(crate) fn event<C: Clock>(&self, alloc: Global, clock: &C) -> Result<String, AllocError> {
        let (address, deposed) = match self.name.split_once(" (deposed ") {
            Some((address, key)) => (address, key.strip_suffix(')')),
            None => (self.name, None),
        };
        let mut change = Members::new(alloc);
        change.add("resource", resource_json(alloc, address)?)?;
        change.add_text("action", self.action)?;
        if let Some(key) = deposed {
            change.add_text("deposed", key)?;
        }
        let mut members = Members::new(alloc);
        members.add("change", change.into_json())?;
        let mut message = String::from_str(alloc, self.name)?;
        message.push_str(": Plan to ")?;
        message.push_str(self.action)?;
        let event = Event {
            level: Level::Info,
            message: message.as_str(),
            kind: "planned_change",
        };
        event.line(clock, members)
    }
}
