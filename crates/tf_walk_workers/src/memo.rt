//! What a worker remembers of its requests, for the next one.

ghost use Rattle.std.specs.Prelude.{◌≡◌, ◌<◌, [], All, IfOk, IfSome, IsTrue, MatchOption, Contains};
ghost use Rattle.tf_walk_action.specs.Words.{names_in, predecessors_of};
ghost use Rattle.tf_walk_workers.specs.Ideal.{IsGoodInEach};
ghost use Rattle.tf_walk_workers.specs.Memo.{IsTrueMemo};

use crate::before::Before;
use crate::seeing::{first_not_good, good_before};
use crate::steps::WorkerContext;
use crate::walk_brand::WalkBrand;
use std::sync::Wait;
use tf_expand_keys::Resolved;
use tf_plan_data::Plan;
use tf_walk_action::{NotGood, Unasked};

/// What a worker read of the actions before one, and the values of names by that, as far as they are evaluated. It is
/// valid for each action with the same actions before it, as most instances of a resource have. For all of them each
/// local is evaluated once, and each resource's objects are collected once.
#[derive(Drop)]
pub struct Memo<'a, N: WalkBrand> {
    pub(crate) action: usize,
    pub(crate) before: Before<'a, N>,
    pub(crate) kept: Vec<Resolved>,
}

impl<N: WalkBrand> Memo<'_, N> {
    /// Returns whether another action has the same actions directly before it.
    pub(crate) fn holds_for(&self, plan: &Plan, action: usize) -> bool
        requires own { self.now.action < plan.now.order.nodes }
        requires other { action < plan.now.order.nodes }
        ensures { IsTrue result → predecessors_of plan.now.order self.now.action ≡ predecessors_of plan.now.order action }
    {
        let order = plan.order.graph();
        order.predecessors(self.action) == order.predecessors(action)
    }
}

impl<'a, N: WalkBrand, R: Wait> WorkerContext<'a, N, R> {
    /// Returns the evidence that an action directly before one isn't good, if one isn't. Waits until the results up
    /// to that action can be read. If the memo is for the same actions, all of them are good. Takes no memory.
    pub(crate) fn not_good_before(
        &self,
        memo: &Option<Memo<'a, N>>,
        action: usize,
    ) -> Option<NotGood>
        requires cells { self.now.cells.now ≡ self.now.plan.now.order.nodes }
        requires within { action < self.now.plan.now.order.nodes }
        requires memo { IfSome memo.now (IsTrueMemo N.meanings N.plan self.now.plan.now (names_in self.now.names.now)) }
        ensures { MatchOption result
            (All (λ n. IsGoodInEach N.meanings N.plan n) (predecessors_of self.now.plan.now.order action))
            (λ bad. Contains (predecessors_of self.now.plan.now.order action) bad) }
    {
        if let Some(memo) = memo {
            if memo.holds_for(self.plan, action) {
                return None;
            }
        }
        let before = self.plan.order.graph().predecessors(action);
        first_not_good(self.rt, self.cells, before)
    }

    /// Returns a memo for an action whose predecessors are all good. That is the given memo if it is valid for this
    /// action too, and otherwise one with the results read now, and without values of names.
    ///
    /// # Errors
    ///
    /// Fails only if memory runs out.
    pub(crate) fn memo_for(
        &self,
        memo: Option<Memo<'a, N>>,
        action: usize,
    ) -> Result<Memo<'a, N>, Unasked>
        requires cells { self.now.cells.now ≡ self.now.plan.now.order.nodes }
        requires within { action < self.now.plan.now.order.nodes }
        requires good { All (λ n. IsGoodInEach N.meanings N.plan n) (predecessors_of self.now.plan.now.order action) }
        requires memo { IfSome memo (IsTrueMemo N.meanings N.plan self.now.plan.now (names_in self.now.names.now)) }
        ensures memo { IfOk result (IsTrueMemo N.meanings N.plan self.now.plan.now (names_in self.now.names.now)) }
        ensures own { IfOk result (λ memo. predecessors_of self.now.plan.now.order memo.action ≡ predecessors_of self.now.plan.now.order action) }
    {
        let Some(memo) = memo else {
            return self.new_memo(Vec::new(self.alloc), action);
        };
        if memo.holds_for(self.plan, action) {
            return Ok(memo);
        }
        self.new_memo(emptied(memo), action)
    }

    /// Builds a memo from the results read now, for an action whose predecessors are all good. The list is empty, and
    /// takes the values of names.
    fn new_memo(&self, kept: Vec<Resolved>, action: usize) -> Result<Memo<'a, N>, Unasked>
        requires cells { self.now.cells.now ≡ self.now.plan.now.order.nodes }
        requires within { action < self.now.plan.now.order.nodes }
        requires good { All (λ n. IsGoodInEach N.meanings N.plan n) (predecessors_of self.now.plan.now.order action) }
        requires none { kept.items ≡ [] }
        ensures memo { IfOk result (IsTrueMemo N.meanings N.plan self.now.plan.now (names_in self.now.names.now)) }
        ensures own { IfOk result (λ memo. memo.action ≡ action) }
    {
        let before = good_before(
            self.rt, self.alloc, self.plan, self.names, self.cells, action,
        )?;
        Ok(Memo {
            action,
            before,
            kept,
        })
    }
}

/// Drops a memo, and returns its list, emptied.
fn emptied<N: WalkBrand>(memo: Memo<'_, N>) -> Vec<Resolved>
    ensures { result.items ≡ [] }
{
    let Memo {
        action: _,
        before: _,
        mut kept,
    } = memo;
    kept.clear();
    kept
}
