//! The progress of a walk.

ghost use Rattle.std.specs.Prelude.{◌<◌, IfSome};

use std::sync::Wait;
use std::sync::atomic::{AtomicU64, Ordering};

/// The progress of a walk, and the counter on which idle workers wait.
#[derive(Drop)]
pub struct WalkProgress {
    /// The number of actions that have ended.
    ended: AtomicU64,
    /// The first action that no worker has looked at since the workers last restarted the list.
    next: AtomicU64,
    /// The number of times that there may have been more to do than awake workers take. Workers wait on it.
    epoch: AtomicU64,
    /// The number of workers that wait, or are about to.
    waiting: AtomicU64,
}

impl WalkProgress {
    /// Builds the progress of a walk in which no action has ended.
    pub fn new() -> WalkProgress {
        WalkProgress {
            ended: AtomicU64::new(0),
            next: AtomicU64::new(0),
            epoch: AtomicU64::new(0),
            waiting: AtomicU64::new(0),
        }
    }

    /// Returns the number of actions that have ended.
    pub(crate) fn ended(&self) -> u64 {
        self.ended.load(Ordering::SeqCst)
    }

    /// Returns the epoch: how often there was something new to find.
    pub(crate) fn epoch(&self) -> u64 {
        self.epoch.load(Ordering::SeqCst)
    }

    /// Returns the next of `all` actions to look at, which no other worker gets unless the list restarts; `None` if
    /// all were returned.
    pub(crate) fn next(&self, all: usize) -> Option<usize>
        ensures { IfSome result (λ action. action < all) }
    {
        if self.next.load(Ordering::SeqCst) >= all as u64 {
            return None;
        }
        let action = self.next.fetch_add(1, Ordering::SeqCst);
        if action < all as u64 {
            Some(action as usize)
        } else {
            None
        }
    }

    /// Restarts the list, so that workers look at all actions again.
    pub(crate) fn rescan(&self) {
        self.next.store(0, Ordering::SeqCst);
    }

    /// Counts one more ended action, after which `free` actions that waited for it may be claimed. The calling worker
    /// takes one of those itself, and wakes a worker for each of the others.
    pub(crate) fn tell_end(&self, free: u64) {
        self.ended.fetch_add(1, Ordering::SeqCst);
        if free > 1 {
            self.bump_epoch(free - 1);
        }
    }

    /// Advances the epoch, and wakes up to the given number of the workers that wait.
    pub(crate) fn bump_epoch(&self, workers: u64) {
        self.epoch.fetch_add(1, Ordering::SeqCst);
        let waiting = self.waiting.load(Ordering::SeqCst);
        if waiting == 0 {
            return;
        }
        if waiting <= workers {
            self.epoch.wake_all();
            return;
        }
        for _ in 0..workers {
            self.epoch.wake_one();
        }
    }

    /// Waits to be woken, unless the epoch isn't `epoch` any more. It may return without a reason.
    pub(crate) fn wait_for_change<R: Wait>(&self, rt: &R, epoch: u64) {
        self.waiting.fetch_add(1, Ordering::SeqCst);
        self.epoch.park(rt, (epoch % 0x1_0000_0000) as u32);
        self.waiting.fetch_sub(1, Ordering::SeqCst);
    }
}
