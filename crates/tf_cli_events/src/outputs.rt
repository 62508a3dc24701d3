//! The event with the outputs of a state.

use crate::event::{Event, Level, Members};
use serde_json::Value as Json;
use std::alloc::{AllocError, Global};
use std::rt::Clock;

/// Returns the event with the outputs in the text of a state, or `None` if the text has no outputs. Fails only if memory runs out.
pub fn outputs_event<C: Clock>(
    alloc: Global,
    clock: &C,
    state: &[u8],
) -> Result<Option<String>, AllocError> {
    let Ok(Json::Object(mut members)) = Json::from_slice(alloc, state) else {
        return Ok(None);
    };
    let Some(Json::Object(stored)) = members.remove("outputs") else {
        return Ok(None);
    };
    let count = stored.len();
    let mut outputs = Members::new(alloc);
    for (name, output) in stored {
        outputs.add(name.as_str(), with_sensitivity(alloc, output)?)?;
    }
    let mut message = String::new(alloc);
    write!(message, "Outputs: {count}")?;
    let mut members = Members::new(alloc);
    members.add("outputs", outputs.into_json())?;
    let event = Event {
        level: Level::Info,
        message: message.as_str(),
        kind: "outputs",
    };
    Ok(Some(event.line(clock, members)?))
}

/// Returns an output as events have it: Terraform also says whether it is sensitive, which no output of this engine is.
fn with_sensitivity(alloc: Global, output: Json) -> Result<Json, AllocError> {
    let mut members = Members::new(alloc);
    if let Json::Object(parts) = output {
        for (name, part) in parts {
            members.add(name.as_str(), part)?;
        }
    }
    members.add("sensitive", Json::Bool(false))?;
    Ok(members.into_json())
}
