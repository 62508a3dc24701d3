//! How an action ends, and what its result says.

ghost use Rattle.std.specs.Prelude.{◌≡◌, true, false, MatchOption};
ghost use Rattle.tf_walk_action.specs.ResultViews.{action_result_of, ended_action};
ghost use Rattle.tf_walk_action.specs.Outcome.{is_good};
ghost use Rattle.tf_walk_action.specs.declared.action_result.ActionResult.TheVariants as ended;

use crate::action_result::{ActionResult, Faulted};
use crate::not_good::NotGood;
use crate::stop::Stopped;
use crate::unasked::Unasked;
use tf_claim::{Finished, Permit};
use tf_provider::{Verdict, waive_for};

impl ActionResult {
    /// Ends an action as skipped, since the given one directly before it isn't good. Also returns the right to report
    /// it as done.
    pub fn skipped(permit: Permit, bad: NotGood) -> (ActionResult, Finished)
        ensures ended { result.0 ≡ ended.Skipped permit bad }
        ensures finished { result.1 ≡ permit }
    {
        let (finished, waived) = waive_for(permit);
        (ActionResult::Skipped(waived, bad), finished)
    }

    /// Ends an action for whose request memory ran out. Also returns the right to report it as done.
    pub fn not_asked(permit: Permit, unasked: Unasked) -> (ActionResult, Finished)
        ensures ended { result.0 ≡ ended.NotAsked permit unasked }
        ensures finished { result.1 ≡ permit }
    {
        let (finished, waived) = waive_for(permit);
        (ActionResult::NotAsked(waived, unasked), finished)
    }

    /// Ends an action as left, since the walk was stopped. Also returns the right to report it as done.
    pub fn left(permit: Permit, stopped: Stopped) -> (ActionResult, Finished)
        ensures ended { result.0 ≡ ended.Left permit stopped }
        ensures finished { result.1 ≡ permit }
    {
        let (finished, waived) = waive_for(permit);
        (ActionResult::Left(waived, stopped), finished)
    }

    /// Ends an action whose request has a fault. Also returns the right to report it as done.
    pub fn faulted(permit: Permit, faulted: Faulted) -> (ActionResult, Finished)
        ensures ended { result.0 ≡ ended.Faulted faulted permit }
        ensures finished { result.1 ≡ permit }
    {
        let (finished, waived) = waive_for(permit);
        (ActionResult::Faulted(faulted, waived), finished)
    }

    /// Returns the action of this result.
    pub fn action(&self) -> usize
        ensures { result ≡ ended_action self.now }
    {
        match self {
            ActionResult::Skipped(waived, _)
            | ActionResult::NotAsked(waived, _)
            | ActionResult::Left(waived, _)
            | ActionResult::Faulted(_, waived) => waived.action(),
            ActionResult::NotServed(unserved, _) => unserved.action(),
            ActionResult::Called(served) => served.call.action(),
        }
    }

    /// Returns whether the action is good: its provider was called, with the verdict good.
    pub fn is_good(&self) -> bool
        ensures { result ≡ is_good (action_result_of self.now) }
    {
        match self {
            ActionResult::Called(served) => served.call.verdict() == Verdict::Good,
            _ => false,
        }
    }

    /// Returns the evidence that the action isn't good, if it isn't.
    pub fn not_good(&self) -> Option<NotGood>
        ensures { MatchOption result
            (is_good (action_result_of self.now) ≡ true)
            (λ bad. (is_good (action_result_of self.now) ≡ false) × (bad ≡ ended_action self.now)) }
    {
        if self.is_good() {
            None
        } else {
            Some(NotGood::of(self.action()))
        }
    }
}
