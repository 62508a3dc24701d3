//! The status line at the bottom of a terminal.

ghost use Rattle.std.specs.Prelude.{◌≡◌, ◌++◌, IfOk, OnOk, string_bytes};
ghost use Rattle.tf_provider_progress.specs.Lines.{oldest, status_counts};

use crate::clean::push_clean;
use crate::elapsed::Watch;
use crate::lines::{push_duration, push_name, push_still, still_head};
use std::alloc::{AllocError, Global};
use std::rt::Clock;
use std::sync::{Mutex, MutexGuard};
use std::thread;
use tf_provider_protocol::Request;

/// Returns to the beginning of the terminal's line, and erases the line and those below it.
const ERASE: &str = "\r\u{1b}[J";

/// Begins the status line, one line below the cursor. The terminal has to cut it off if it is too long.
const BEFORE: &str = "\n\u{1b}[?7l";

/// Ends the status line: the terminal continues long lines again, and the cursor returns to the line above. So a line that
/// somebody else writes doesn't run into the status line.
const AFTER: &str = "\u{1b}[?7h\r\u{1b}[A";

/// The most characters of a status line.
const MOST_SHOWN: usize = 79;

/// After how many seconds a running call is shown again.
const INTERVAL: u64 = 10;

/// How often a thread tries to take the lock.
const TRIES: usize = 100_000;

/// The status line of a terminal. Several providers may share it.
#[derive(Drop)]
pub struct StatusLine {
    calls: Mutex<Calls>,
}

/// The calls of all providers that share a terminal.
#[derive(Drop)]
pub(crate) struct Calls {
    /// How many ended well.
    done: u64,
    /// How many failed.
    failed: u64,
    /// How many began.
    begun: u64,
    /// Those that are running, the oldest first.
    running: Vec<Running>,
}

/// A call that is running.
#[derive(Drop)]
struct Running {
    /// Its number.
    number: u64,
    /// Its object, as in the lines.
    name: String,
    /// The beginning of the line that says that it is still running.
    still: String,
    watch: Watch,
    /// After how many intervals it was shown last.
    intervals: u64,
}

impl StatusLine {
    /// Returns the status line of a terminal on which nothing is running.
    pub fn new(alloc: Global) -> StatusLine {
        StatusLine {
            calls: Mutex::new(Calls {
                done: 0,
                failed: 0,
                begun: 0,
                running: Vec::new(alloc),
            }),
        }
    }

    /// Takes the lock. Gives up after many tries, since a provider may not wait.
    pub(crate) fn locked(&self) -> Option<MutexGuard<'_, Calls>> {
        for _ in 0..TRIES {
            if let Some(calls) = self.calls.try_lock() {
                return Some(calls);
            }
            thread::yield_now();
        }
        None
    }
}

impl Calls {
    /// Adds a call that begins now, and returns its number.
    pub(crate) fn begin<C: Clock>(
        &mut self,
        alloc: Global,
        clock: &C,
        request: &Request,
    ) -> Result<u64, AllocError> {
        let mut name = String::new(alloc);
        push_name(&mut name, request)?;
        let still = still_head(alloc, request)?;
        let number = self.begun;
        self.running.push(Running {
            number,
            name,
            still,
            watch: Watch::start(clock),
            intervals: 0,
        })?;
        self.begun = number.saturating_add(1);
        Ok(number)
    }

    /// Counts a call that ended, and removes it from those that are running, if it is among them.
    pub(crate) fn end(&mut self, number: Option<u64>, is_well: bool) {
        if is_well {
            self.done = self.done.saturating_add(1);
        } else {
            self.failed = self.failed.saturating_add(1);
        }
        let place = self
            .running
            .iter()
            .position(|call| Some(call.number) == number);
        if let Some(place) = place {
            let _ = self.running.remove(place);
        }
    }

    /// Returns what is written if a line is shown above the status line: the line if there was memory for it, a line for
    /// each call that has been running for ten seconds more, and the status line.
    pub(crate) fn page<C: Clock>(
        &mut self,
        alloc: Global,
        clock: &C,
        line: Result<String, AllocError>,
    ) -> Result<String, AllocError> {
        let mut text = above(alloc, line)?;
        for call in self.running.iter_mut() {
            call.push_still_running(alloc, clock, &mut text)?;
        }
        self.push_status(alloc, clock, &mut text)?;
        Ok(text)
    }

    /// Appends the status line, if a call is running.
    fn push_status<C: Clock>(
        &self,
        alloc: Global,
        clock: &C,
        text: &mut String,
    ) -> Result<(), AllocError> {
        let Some(first) = self.running.first() else {
            return Ok(());
        };
        let running = self.running.len() as u64;
        let mut line = counts(alloc, self.done, running, self.failed)?;
        push_oldest(&mut line, first.name.as_str(), first.watch.seconds(clock))?;
        text.push_str(BEFORE)?;
        push_clean(text, line.as_str(), MOST_SHOWN)?;
        text.push_str(AFTER)
    }
}

impl Running {
    /// Appends that the call is still running, if it has been for ten seconds more.
    fn push_still_running<C: Clock>(
        &mut self,
        alloc: Global,
        clock: &C,
        text: &mut String,
    ) -> Result<(), AllocError> {
        let Some(seconds) = self.watch.seconds(clock) else {
            return Ok(());
        };
        let intervals = seconds / INTERVAL;
        if intervals <= self.intervals {
            return Ok(());
        }
        self.intervals = intervals;
        let mut line = String::new(alloc);
        push_still(
            &mut line,
            self.still.as_str(),
            intervals.saturating_mul(INTERVAL),
        )?;
        push_clean(text, line.as_str(), usize::MAX)
    }
}

/// Returns what is written if a line is shown in place of the status line.
pub(crate) fn above(alloc: Global, line: Result<String, AllocError>) -> Result<String, AllocError> {
    let mut text = String::from_str(alloc, ERASE)?;
    if let Ok(line) = line {
        push_clean(&mut text, line.as_str(), usize::MAX)?;
    }
    Ok(text)
}

/// Returns the beginning of the status line: how many calls are done, are running and failed.
fn counts(alloc: Global, done: u64, running: u64, failed: u64) -> Result<String, AllocError>
    ensures { IfOk result (λ line. string_bytes line ≡ status_counts done running failed) }
{
    let mut line = String::new(alloc);
    write!(line, "{done} done, {running} running, {failed} failed")?;
    Ok(line)
}

/// Appends the oldest call, with its seconds if the clock could be read.
fn push_oldest(line: &mut String, call: &str, seconds: Option<u64>) -> Result<(), AllocError>
    ensures { OnOk result (string_bytes line.new ≡ string_bytes line.old ++ oldest call.now seconds) }
{
    line.push_str(". Oldest: ")?;
    line.push_str(call)?;
    match seconds {
        Some(seconds) => {
            line.push_str(", ")?;
            push_duration(line, seconds)
        }
        None => Ok(()),
    }
}
