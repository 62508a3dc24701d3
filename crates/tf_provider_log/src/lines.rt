//! The end of a log, where lines are added.

ghost use Rattle.std.specs.Prelude.{◌≡◌, IfOk};

use crate::sink::{Durability, NotAdded, Sink};
use std::sync::atomic::{AtomicBool, Ordering};

/// A log line's writer, and the texts that it may write.
pub(crate) trait Telling {
    ghost use Rattle.std.specs.Prelude.{ℕ, List};

    ghost may_tell: { Self → List ℕ → Type 0 };
}

/// The end of a log. Only its methods reach the sink. Once a text couldn't be added or synced, the log is lost, and
/// nothing is added after that.
#[derive(Drop)]
pub(crate) struct Lines<S: Sink> {
    sink: S,
    is_lost: AtomicBool,
}

/// The evidence that a text is in the log. Only adding the text creates one, and it can't be copied.
#[derive(Drop)]
pub(crate) struct Added<'a> {
    text: &'a str,
}

/// The evidence that a text is in the log and on the disk. Only adding the text with a sync creates one, and it can't
/// be copied.
#[derive(Drop)]
pub(crate) struct Synced<'a> {
    text: &'a str,
}

/// The evidence that all texts of a log were on the disk at some moment. Only a sync creates one.
#[derive(Drop)]
pub(crate) struct OnDisk {
    seen: (),
}

/// The evidence that the log is lost. It is created if the log is seen or marked as lost.
#[derive(Debug, Drop)]
pub(crate) struct Lost {
    seen: (),
}

impl<S: Sink> Lines<S> {
    /// Builds the end of a log that isn't lost.
    pub(crate) fn new(sink: S) -> Lines<S> {
        Lines {
            sink,
            is_lost: AtomicBool::new(false),
        }
    }

    /// Adds a text that its writer may write, unless the log is lost. If the text can't be added, the log is lost.
    pub(crate) fn add<'a, T: Telling>(&self, _teller: &T, text: &'a str) -> Result<Added<'a>, Lost>
        requires { T.may_tell _teller.now text.now }
        ensures { IfOk result (λ added. added.text.now ≡ text.now) }
    {
        self.store(text, Durability::Written)?;
        Ok(Added { text })
    }

    /// Adds a text that its writer may write, and syncs it and all texts before it, unless the log is lost. If that
    /// fails, the log is lost.
    pub(crate) fn add_synced<'a, T: Telling>(
        &self,
        _teller: &T,
        text: &'a str,
    ) -> Result<Synced<'a>, Lost>
        requires { T.may_tell _teller.now text.now }
        ensures { IfOk result (λ synced. synced.text.now ≡ text.now) }
    {
        self.store(text, Durability::OnDisk)?;
        Ok(Synced { text })
    }

    /// Syncs all texts so far, unless the log is lost. If that fails, the log is lost.
    pub(crate) fn sync(&self) -> Result<OnDisk, Lost> {
        self.store("", Durability::OnDisk)?;
        Ok(OnDisk { seen: () })
    }

    /// Stores a text, unless the log is lost. If that fails, the log is lost.
    fn store(&self, text: &str, durability: Durability) -> Result<(), Lost> {
        if self.is_lost() {
            return Err(Lost { seen: () });
        }
        match self.sink.add(text, durability) {
            Ok(()) => Ok(()),
            Err(NotAdded) => Err(self.lose()),
        }
    }

    /// Marks the log as lost, permanently.
    pub(crate) fn lose(&self) -> Lost {
        self.is_lost.store(true, Ordering::SeqCst);
        Lost { seen: () }
    }

    /// Returns whether the log is lost.
    pub(crate) fn is_lost(&self) -> bool {
        self.is_lost.load(Ordering::SeqCst)
    }
}
