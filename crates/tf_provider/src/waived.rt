//! The end of an action whose provider isn't called.

ghost use Rattle.std.specs.Prelude.{◌≡◌, ℕ};

use std::marker::Model;
use tf_claim::{Finished, Permit, waive};

/// The evidence that the permit of an action was spent without a call. Contracts see the action's number.
#[derive(Debug, Drop)]
pub struct Waived {
    action: usize,
}

impl Model for Waived {
    ghost Value = { ℕ };

    ghost view = { λ waived. waived.action };
}

impl Waived {
    /// Returns the action whose provider wasn't called.
    pub fn action(&self) -> usize
        ensures { result ≡ self.now }
    {
        self.action
    }
}

/// Spends a permit without a call. Returns the right to report the action as done, and the evidence that no provider was
/// called.
pub fn waive_for(permit: Permit) -> (Finished, Waived)
    ensures finished { result.0 ≡ permit }
    ensures waived { result.1 ≡ permit }
{
    let action = permit.action();
    (waive(permit), Waived { action })
}
