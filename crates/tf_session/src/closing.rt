//! Why nothing more is begun, and the evidence that a call may be.

ghost use Rattle.std.specs.Prelude.{◌≡◌, IfErr, IfSome, false, is_some, length, map, nat_lt, take, true};

use crate::context::ApplyLog;
use crate::pipes::Loss;
use std::alloc::Global;
use std::fs;
use tf_provider_log::{Announced, BegunLine};
use tf_provider_remote::Flight;

/// The evidence that nothing more is to be begun. Only the functions here make one, each if it finds the reason.
#[derive(Clone, Copy, Drop)]
pub(crate) struct Closing {
    /// Whether the reason is the file that stops an apply.
    is_stop: bool,
}

/// The evidence that the file that stops an apply didn't exist. Only a look for the file makes one. It can't be copied, and a call
/// spends it.
#[derive(Drop)]
pub(crate) struct NotStopped {
    seen: (),
}

/// Looks for the file that stops an apply.
///
/// # Errors
///
/// Fails if the file is named and exists.
pub(crate) fn look_for_stop(rt: &HostRuntime, name: &Option<String>) -> Result<NotStopped, Closing>
    ensures { IfErr result (λ closing. closing.is_stop ≡ true) }
{
    match name {
        Some(name) if fs::metadata(rt, name.as_str()).is_ok() => Err(Closing { is_stop: true }),
        _ => Ok(NotStopped { seen: () }),
    }
}

impl Closing {
    /// Returns the evidence if the log is lost.
    pub(crate) fn by_log(log: &ApplyLog) -> Option<Closing>
        ensures { IfSome result (λ closing. closing.is_stop ≡ false) }
    {
        if log.is_lost() {
            Some(Closing { is_stop: false })
        } else {
            None
        }
    }

    /// Returns the evidence of a lost provider.
    pub(crate) fn by_loss(_loss: &Loss) -> Closing
        ensures { result.is_stop ≡ false }
    {
        Closing { is_stop: false }
    }

    /// Returns whether the reason is the file that stops an apply.
    pub(crate) fn is_stop(&self) -> bool
        ensures { result ≡ self.now.is_stop }
    {
        self.is_stop
    }
}

/// Which of the requests that wait may be sent.
pub(crate) struct Announcement {
    /// The first of them, which the log on the disk says are begun.
    pub(crate) announced: Vec<Announced<Flight>>,
    /// The evidence that nothing more is to be begun, if those aren't all.
    pub(crate) closing: Option<Closing>,
}

/// Writes that requests are begun, and syncs the log once. Returns the first of them, up to one that the log can't say is begun; the
/// others are dropped, since they may not be sent.
pub(crate) fn announce(alloc: Global, log: &ApplyLog, waiting: Vec<Flight>) -> Announcement
    ensures first { map (λ a. a.message) result.announced.items ≡ take (length result.announced.items) waiting.items }
    ensures closing { is_some result.closing ≡ nat_lt (length result.announced.items) (length waiting.items) }
    ensures no_stop { IfSome result.closing (λ closing. closing.is_stop ≡ false) }
{
    let count = waiting.len();
    let written = write_begun(alloc, log, waiting);
    let announced = match log.announce(alloc, written) {
        Ok(announced) => announced,
        Err(_) => Vec::new(alloc),
    };
    let closing = if announced.len() < count {
        Some(Closing { is_stop: false })
    } else {
        None
    };
    Announcement { announced, closing }
}

/// Writes that requests are begun, up to one for which this fails. Returns those before it.
fn write_begun(alloc: Global, log: &ApplyLog, waiting: Vec<Flight>) -> Vec<BegunLine<Flight>>
    ensures { map (λ b. b.message) result.items ≡ take (length result.items) waiting.items }
{
    let mut written = Vec::new(alloc);
    for flight in waiting {
        let Ok(line) = log.write_begun(alloc, flight) else {
            return written;
        };
        if written.push(line).is_err() {
            return written;
        }
    }
    written
}
