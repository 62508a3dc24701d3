//! A worker's request for an action.

ghost use Rattle.std.specs.Prelude.{◌≡◌, ◌<◌, All, map, IfOk, IfSome, IsSomeAnd, IsTrue, Some};
ghost use Rattle.tf_walk_action.specs.Journal.{op_at};
ghost use Rattle.tf_walk_action.specs.Words.{asked, asks_fully, comes_of, ActionResultView, IsRun, names_in, predecessors_of, schema_in};
ghost use Rattle.tf_walk_action.specs.AskedBy.{asked_by};
ghost use Rattle.tf_walk_workers.specs.Ideal.{IsGoodInEach, IsTrueTo};
ghost use Rattle.tf_walk_workers.specs.Memo.{IsTrueMemo};
ghost use Rattle.tf_walk_workers.specs.Shared.{IsOfWalk};

use crate::memo::Memo;
use crate::steps::WorkerContext;
use crate::walk_brand::WalkBrand;
use std::sync::Wait;
use tf_provider::Provider;
use tf_walk_action::{Faulted, PreparedCall, Unasked, ask_provider};

impl<'a, N: WalkBrand, R: Wait> WorkerContext<'a, N, R> {
    /// Builds the request of an action whose predecessors are all good, or its fault, by their results. Each possible
    /// result of that request is true of the action. The memo is updated for the next request.
    ///
    /// # Errors
    ///
    /// Fails only if memory runs out. `memo` is `None` then.
    pub(crate) fn ask(
        &self,
        providers: &[Box<dyn Provider + Sync>],
        action: usize,
        memo: &mut Option<Memo<'a, N>>,
    ) -> Result<Result<PreparedCall, Faulted>, Unasked>
        requires walk { IsOfWalk N.plan N.meanings self.now.plan.now (names_in self.now.names.now) self.now.cells.now (map meaning providers.now) }
        requires within { action < self.now.plan.now.order.nodes }
        requires good { All (λ n. IsGoodInEach N.meanings N.plan n) (predecessors_of self.now.plan.now.order action) }
        requires memo { IfSome memo.old (IsTrueMemo N.meanings N.plan self.now.plan.now (names_in self.now.names.now)) }
        ensures asked { IfOk result (λ made. (d : ActionResultView) → IsRun (comes_of (map meaning providers.now) (asked_by made)) d → IsTrueTo N.meanings N.plan action d) }
        ensures served { IfOk result (λ made. IfOk made (λ asking.
            IsSomeAnd (schema_in (asked asking.request).type_name (map meaning providers.now)) (λ s. IsTrue (asks_fully (asked asking.request) s)))) }
        ensures op { IfOk result (λ made. IfOk made (λ asking. op_at N.plan.actions action ≡ Some (asked asking.request).op)) }
        ensures memo { IfSome memo.new (IsTrueMemo N.meanings N.plan self.now.plan.now (names_in self.now.names.now)) }
    {
        let mut own = self.memo_for(memo.take(), action)?;
        let made = self.ask_by(providers, action, &mut own)?;
        *memo = Some(own);
        Ok(made)
    }

    /// Builds the request by a memo for the action.
    fn ask_by(
        &self,
        providers: &[Box<dyn Provider + Sync>],
        action: usize,
        memo: &mut Memo<'a, N>,
    ) -> Result<Result<PreparedCall, Faulted>, Unasked>
        requires walk { IsOfWalk N.plan N.meanings self.now.plan.now (names_in self.now.names.now) self.now.cells.now (map meaning providers.now) }
        requires within { action < self.now.plan.now.order.nodes }
        requires memo { IsTrueMemo N.meanings N.plan self.now.plan.now (names_in self.now.names.now) memo.old }
        requires own { predecessors_of self.now.plan.now.order memo.old.action ≡ predecessors_of self.now.plan.now.order action }
        ensures asked { IfOk result (λ made. (d : ActionResultView) → IsRun (comes_of (map meaning providers.now) (asked_by made)) d → IsTrueTo N.meanings N.plan action d) }
        ensures served { IfOk result (λ made. IfOk made (λ asking.
            IsSomeAnd (schema_in (asked asking.request).type_name (map meaning providers.now)) (λ s. IsTrue (asks_fully (asked asking.request) s)))) }
        ensures op { IfOk result (λ made. IfOk made (λ asking. op_at N.plan.actions action ≡ Some (asked asking.request).op)) }
        ensures memo { IsTrueMemo N.meanings N.plan self.now.plan.now (names_in self.now.names.now) memo.new }
    {
        let actions = self.plan.actions.as_slice();
        ask_provider(
            self.alloc,
            self.plan,
            self.names,
            providers,
            &actions[action],
            &memo.before,
            &mut memo.kept,
        )
    }
}
