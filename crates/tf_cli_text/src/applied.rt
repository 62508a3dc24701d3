//! The answer of an apply.

ghost use Rattle.std.specs.Prelude.{◌≡◌, option_map, string_bytes};
ghost use Rattle.tf_cli_text.specs.Shown.{to_write};

use std::alloc::AllocError;
use tf_plan_planner::Refused;
use tf_walk_report::{Report, Walked};

/// The outcome of an apply. It may be the only record of what was created, so it can be neither copied nor dropped.
/// Only a pattern that names each of its fields takes it apart.
pub struct Applied {
    /// The plan's text.
    pub plan: String,
    /// The report of the walk.
    pub walked: Walked,
    /// The text of the state after the apply, if there was memory for it.
    pub state: Result<String, AllocError>,
    /// Whether the state after the apply differs from the prior one, so that its text has to be written.
    pub changed: bool,
}

/// Returns the text to write in place of the prior state's: that of the state after the apply, if it differs from the
/// prior one and there was memory for its text. Drops all the rest of the answer, so a program shows it before.
pub fn state_to_write(answer: Result<Applied, Refused>) -> Option<String>
    ensures { option_map string_bytes result ≡ to_write answer }
{
    match answer {
        Ok(
            Applied {
                plan: _,
                walked,
                state,
                changed,
            },
        ) => {
            let Report {
                state: _,
                outcomes: _,
                diagnostics: _,
                journal: _,
                excused: _,
                good: _,
            } = walked.into_report();
            if changed { state.ok() } else { None }
        }
        Err(_) => None,
    }
}
