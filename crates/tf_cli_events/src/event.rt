//! One event as a line of JSON.

use jiff::Timestamp;
use serde_json::{Map, Value as Json};
use std::alloc::{AllocError, Global};
use std::collections::BTreeMap;
use std::io::Stdout;
use std::rt::Clock;
use tf_cli_lines::save;

/// The version of the form of events, as Terraform counts it.
const FORM: &str = "1.2";

/// The version of Terraform whose form the events have.
const TERRAFORM: &str = "1.11.4";

/// Where events of several threads are written.
pub trait Writer: Drop {
    /// Writes a line by one write if the system takes it whole, so that lines of threads don't mix. Skips what can't be written.
    fn write_line(&self, line: &str);
}

/// Writes events to standard output.
impl Writer for Stdout {
    fn write_line(&self, line: &str) {
        let mut writer = self;
        let _ = save(&mut writer, line);
    }
}

/// How important an event is.
#[derive(Clone, Copy)]
pub(crate) enum Level {
    Info,
    Warning,
    Error,
}

/// An event, but for the time.
#[derive(Drop)]
pub(crate) struct Event<'a> {
    /// How important it is.
    pub(crate) level: Level,
    /// What a user reads.
    pub(crate) message: &'a str,
    /// What kind of event it is.
    pub(crate) kind: &'static str,
}

/// Returns the line of the first event, which names the form of all events.
pub fn version_event<C: Clock>(alloc: Global, clock: &C) -> Result<String, AllocError> {
    let mut members = Members::new(alloc);
    members.add_text("terraform", TERRAFORM)?;
    members.add_text("ui", FORM)?;
    let event = Event {
        level: Level::Info,
        message: "Bixundor",
        kind: "version",
    };
    event.line(clock, members)
}

impl Event<'_> {
    /// Returns the line of the event with its other members.
    pub(crate) fn line<C: Clock>(
        &self,
        clock: &C,
        mut members: Members,
    ) -> Result<String, AllocError> {
        members.add_text("@level", word_of(self.level))?;
        members.add_text("@message", self.message)?;
        members.add_text("@module", "terraform.ui")?;
        members.add_time("@timestamp", clock)?;
        members.add_text("type", self.kind)?;
        members.into_line()
    }
}

fn word_of(level: Level) -> &'static str {
    match level {
        Level::Info => "info",
        Level::Warning => "warn",
        Level::Error => "error",
    }
}

/// The members of a JSON object.
#[derive(Drop)]
pub(crate) struct Members {
    alloc: Global,
    map: Map<String, Json>,
}

impl Members {
    /// Returns no members.
    pub(crate) fn new(alloc: Global) -> Members {
        Members {
            alloc,
            map: BTreeMap::new(alloc),
        }
    }

    /// Returns the allocator.
    pub(crate) fn alloc(&self) -> Global {
        self.alloc
    }

    /// Adds a member.
    pub(crate) fn add(&mut self, name: &str, value: Json) -> Result<(), AllocError> {
        let name = String::from_str(self.alloc, name)?;
        drop(self.map.insert(name, value)?);
        Ok(())
    }

    /// Adds a member that is a text.
    pub(crate) fn add_text(&mut self, name: &str, text: &str) -> Result<(), AllocError> {
        let text = String::from_str(self.alloc, text)?;
        self.add(name, Json::String(text))
    }

    /// Adds a member that is a whole number.
    pub(crate) fn add_number(&mut self, name: &str, number: u64) -> Result<(), AllocError> {
        self.add(name, Json::from(number))
    }

    /// Adds the time, if the clock can be read.
    fn add_time<C: Clock>(&mut self, name: &str, clock: &C) -> Result<(), AllocError> {
        match Timestamp::now(clock) {
            Ok(now) => {
                let mut text = String::new(self.alloc);
                write!(text, "{now}")?;
                self.add(name, Json::String(text))
            }
            Err(_) => Ok(()),
        }
    }

    /// Returns the object.
    pub(crate) fn into_json(self) -> Json {
        Json::Object(self.map)
    }

    /// Returns the object as a line.
    fn into_line(self) -> Result<String, AllocError> {
        let alloc = self.alloc;
        let mut line = self.into_json().to_string(alloc)?;
        line.push('\n')?;
        Ok(line)
    }
}
