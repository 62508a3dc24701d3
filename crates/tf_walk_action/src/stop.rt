//! A flag by which a walk is stopped, and the evidence that a look at it gives.

ghost use Rattle.std.specs.Prelude.{◌≡◌, ℕ, MatchResult};

use std::marker::Model;
use std::sync::atomic::{AtomicBool, Ordering};

/// A flag that stops a walk. Threads assert_sync it, and nothing clears it. Before each call the walk looks at the flag, and makes
/// the call only if the flag isn't set. A call whose look came before the flag was set still begins, and the walk waits for
/// the calls that have begun. No contract depends on whether the flag is set.
///
/// Contracts see the flag's mark, and not how it is chosen. So nothing can be proved of a walk's flag by a look at another one.
#[derive(Drop)]
pub struct Stop {
    flag: AtomicBool,
    mark: u8,
}

impl Model for Stop {
    ghost Value = { ℕ };

    ghost view = { λ stop. stop.mark };
}

/// The evidence that a flag wasn't set at a look, so that one call may begin. Only a look at a flag makes it, and it can't be
/// copied: each call needs a look of its own. Contracts see the flag's mark.
#[derive(Debug, Drop)]
pub struct Going {
    mark: u8,
}

impl Model for Going {
    ghost Value = { ℕ };

    ghost view = { λ going. going.mark };
}

/// The evidence that a flag was seen set. Only a look at a flag makes it, and it can't be copied. So each action that a walk
/// leaves because of a stop has a look of its own. Contracts see the flag's mark.
#[derive(Debug, Drop)]
pub struct Stopped {
    mark: u8,
}

impl Model for Stopped {
    ghost Value = { ℕ };

    ghost view = { λ stopped. stopped.mark };
}

/// The evidence that a call began after a look at a flag that wasn't set. Only [`call_in_time`](crate::call_in_time) makes it,
/// once for each call. Contracts see the flag's mark.
#[derive(Debug, Drop)]
pub struct InTime {
    mark: u8,
}

impl Model for InTime {
    ghost Value = { ℕ };

    ghost view = { λ in_time. in_time.mark };
}

impl Stop {
    /// Returns a flag that isn't set.
    pub const fn new() -> Stop {
        Stop {
            flag: AtomicBool::new(false),
            mark: 0,
        }
    }

    /// Sets the flag, permanently.
    pub fn set(&self) {
        self.flag.store(true, Ordering::SeqCst);
    }

    /// Returns whether the flag is set.
    pub fn is_set(&self) -> bool {
        self.flag.load(Ordering::SeqCst)
    }

    /// Looks at the flag once, before a call. Returns the evidence that the flag isn't set, which the call takes.
    ///
    /// # Errors
    ///
    /// Fails with the evidence that the flag is set.
    pub fn look(&self) -> Result<Going, Stopped>
        ensures { MatchResult result (λ going. going ≡ self.now) (λ stopped. stopped ≡ self.now) }
    {
        let mark = self.mark;
        if self.is_set() {
            Err(Stopped { mark })
        } else {
            Ok(Going { mark })
        }
    }
}

impl InTime {
    /// Creates the evidence for a call that begins.
    pub(crate) fn of(going: Going) -> InTime
        ensures { result ≡ going }
    {
        let Going { mark } = going;
        InTime { mark }
    }
}

/// Requires that threads may assert_sync a flag, and the evidence of a look.
pub fn stops_are_shared(stop: &Stop, going: &Going, stopped: &Stopped, in_time: &InTime) {
    assert_sync(stop);
    assert_sync(going);
    assert_sync(stopped);
    assert_sync(in_time);
}

/// Takes a value that threads may assert_sync.
fn assert_sync<T: Sync>(_shared: &T) {}
