//! The duration of a call.

use std::rt::Clock;
use std::time::Instant;

/// The time when a call began, if the clock could be read.
#[derive(Clone, Copy)]
pub struct Watch {
    began: Option<Instant>,
}

impl Watch {
    /// Starts the watch when a call begins.
    pub fn start<C: Clock>(clock: &C) -> Watch {
        Watch {
            began: Instant::now(clock).ok(),
        }
    }

    /// Returns how many whole seconds have passed since the start, if the clock could be read both times.
    pub fn seconds<C: Clock>(&self, clock: &C) -> Option<u64> {
        match self.began {
            Some(began) => match began.elapsed(clock) {
                Ok(elapsed) => Some(elapsed.as_secs()),
                Err(_) => None,
            },
            None => None,
        }
    }
}
