//! The right to call an action's provider, and what is left after it is spent.

ghost use Rattle.std.specs.Prelude.{◌≡◌, ℕ};

use std::marker::Model;

/// The right to call the provider of one action, once. A permit can be neither copied nor dropped: a call, or
/// `waive`, spends it. Contracts see the action's number.
pub struct Permit {
    action: usize,
}

impl Model for Permit {
    ghost Value = { ℕ };

    ghost view = { λ permit. permit.action };
}

/// What is left of a spent permit: the right to report its action as done, once. It can be neither copied nor
/// dropped. Contracts see the action's number.
pub struct Finished {
    spent: usize,
}

impl Model for Finished {
    ghost Value = { ℕ };

    ghost view = { λ finished. finished.spent };
}

impl Permit {
    /// Returns the permit of an action. Only a claim calls this.
    pub(crate) fn of(action: usize) -> Permit
        ensures { result ≡ action }
    {
        Permit { action }
    }

    /// Returns the action that may be called.
    pub fn action(&self) -> usize
        ensures { result ≡ self.now }
    {
        self.action
    }
}

impl Finished {
    /// Consumes the right to report. Only a book of claims calls this, once the action is done.
    pub(crate) fn close(self) {
        let Finished { spent: _ } = self;
    }

    /// Returns the action whose permit was spent.
    pub fn action(&self) -> usize
        ensures { result ≡ self.now }
    {
        self.spent
    }
}

/// Spends a permit, and returns the right to report its action as done.
pub fn waive(permit: Permit) -> Finished
    ensures { result ≡ permit }
{
    let Permit { action } = permit;
    Finished { spent: action }
}
