//! The evidence that an action isn't good.

ghost use Rattle.std.specs.Prelude.{◌≡◌, ℕ};

use std::marker::Model;

/// The evidence that an action isn't good, so that no action that it is directly before may be called. Only the
/// action's result creates it. Contracts see the action's number.
#[derive(Debug, Drop)]
pub struct NotGood {
    action: usize,
}

impl NotGood {
    /// Creates the evidence for an action, as its result says.
    pub(crate) fn of(action: usize) -> NotGood
        ensures { result ≡ action }
    {
        NotGood { action }
    }
}

impl Model for NotGood {
    ghost Value = { ℕ };

    ghost view = { λ bad. bad.action };
}
