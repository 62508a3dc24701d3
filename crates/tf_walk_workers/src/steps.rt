//! A worker's steps to end one action.

ghost use Rattle.std.specs.Prelude.{◌≡◌, ◌<◌, [], IfSome, map};
ghost use Rattle.tf_walk_action.specs.Words.{action_result_of, ended_action, HasCause, IsByFlag, names_in};
ghost use Rattle.tf_walk_workers.specs.Calls.{HasParts, reported_by};
ghost use Rattle.tf_walk_workers.specs.Ideal.{IsEndOf, IsTrueTo};
ghost use Rattle.tf_walk_workers.specs.Memo.{IsTrueMemo};
ghost use Rattle.tf_walk_workers.specs.Shared.{IsOfWalk};

use crate::call_record::CallRecord;
use crate::calls::{ActionEnd, serve, with_part};
use crate::cells::Cells;
use crate::log::Log;
use crate::memo::Memo;
use crate::publishing::{Published, publish};
use crate::walk_brand::WalkBrand;
use std::alloc::Global;
use std::sync::{Mutex, Wait};
use tf_claim::Permit;
use tf_config_names::Declarations;
use tf_plan_data::Plan;
use tf_provider::Provider;
use tf_tally::{Lane, Part};
use tf_walk_action::{ActionResult, Stop};

/// What a worker uses, besides the providers: the plan of a walk, the names of its configuration, the cells of the
/// plan's actions, the journal that workers share, the tally of calls, and the flag that stops the walk.
#[derive(Drop)]
pub struct WorkerContext<'a, N: WalkBrand, R> {
    /// The runtime by which it waits.
    pub rt: &'a R,
    /// The allocator for requests.
    pub alloc: Global,
    /// The plan.
    pub plan: &'a Plan,
    /// The names of its configuration.
    pub names: &'a Declarations<'a>,
    /// The cells of the plan's actions.
    pub cells: &'a Cells<N>,
    /// The journal.
    pub journal: &'a Mutex<Log<N>>,
    /// The tally of the walk's calls, as this worker uses it.
    pub tally: Lane<'a, CallRecord>,
    /// The flag that stops the walk.
    pub stop: &'a Stop,
}

impl<'a, N: WalkBrand, R: Wait> WorkerContext<'a, N, R> {
    /// Ends a claimed action, publishes its result, and returns the right to report it as done. The action is skipped if
    /// one directly before it isn't good, left if the walk is stopped, excused if memory for its request runs out, and
    /// faulted if its request has a fault. Otherwise its provider is called, without the lock, and the call is recorded
    /// under the lock. All actions directly before it have ended, and no result is published for it; until both hold,
    /// this waits. `memo` is what the worker remembers for its next action, `None` at first. The given part goes into the
    /// action's cell, to report the action's call, and the one that was there is returned.
    pub fn end_action(
        &self,
        providers: &[Box<dyn Provider + Sync>],
        permit: Permit,
        memo: &mut Option<Memo<'a, N>>,
        part: Part<CallRecord>,
    ) -> (Published, Part<CallRecord>)
        requires walk { IsOfWalk N.plan N.meanings self.now.plan.now (names_in self.now.names.now) self.now.cells.now (map meaning providers.now) }
        requires tally { self.now.tally ≡ N.table }
        requires flag { self.now.stop.now ≡ N.flag }
        requires within { permit < self.now.plan.now.order.nodes }
        requires part { HasParts N.table 1 [] [] part }
        requires memo { IfSome memo.old (IsTrueMemo N.meanings N.plan self.now.plan.now (names_in self.now.names.now)) }
        ensures published { result.0 ≡ permit }
        ensures part { HasParts N.table 1 [] [] result.1 }
        ensures memo { IfSome memo.new (IsTrueMemo N.meanings N.plan self.now.plan.now (names_in self.now.names.now)) }
    {
        let end = self.come_to_end(providers, permit, memo, part);
        publish(self.rt, self.cells, end)
    }

    /// Returns the result of a claimed action, and a part that reports its call, in place of the given one. Waits until the
    /// results of all actions directly before it can be read.
    #[tactic(auto, using(crate::proofs::Recording::reports_none))]
    fn come_to_end(
        &self,
        providers: &[Box<dyn Provider + Sync>],
        permit: Permit,
        memo: &mut Option<Memo<'a, N>>,
        part: Part<CallRecord>,
    ) -> ActionEnd
        requires walk { IsOfWalk N.plan N.meanings self.now.plan.now (names_in self.now.names.now) self.now.cells.now (map meaning providers.now) }
        requires tally { self.now.tally ≡ N.table }
        requires flag { self.now.stop.now ≡ N.flag }
        requires within { permit < self.now.plan.now.order.nodes }
        requires part { HasParts N.table 1 [] [] part }
        requires memo { IfSome memo.old (IsTrueMemo N.meanings N.plan self.now.plan.now (names_in self.now.names.now)) }
        ensures finished { result.finished ≡ permit }
        ensures action { ended_action result.ended ≡ permit }
        ensures cause { HasCause N.plan.order result.ended }
        ensures flag { IsByFlag N.flag result.ended }
        ensures ended { IsTrueTo N.meanings N.plan permit (action_result_of result.ended) }
        ensures part { HasParts N.table 1 [] (reported_by result.ended) result.part }
        ensures memo { IfSome memo.new (IsTrueMemo N.meanings N.plan self.now.plan.now (names_in self.now.names.now)) }
    {
        let action = permit.action();
        if let Some(bad) = self.not_good_before(memo, action) {
            return with_part(ActionResult::skipped(permit, bad), part);
        }
        let going = match self.stop.look() {
            Ok(going) => going,
            Err(stopped) => return with_part(ActionResult::left(permit, stopped), part),
        };
        match self.ask(providers, action, memo) {
            Err(unasked) => with_part(ActionResult::not_asked(permit, unasked), part),
            Ok(Err(faulted)) => with_part(ActionResult::faulted(permit, faulted), part),
            Ok(Ok(asking)) => serve(
                self.rt,
                providers,
                self.journal,
                &self.tally,
                permit,
                going,
                asking,
                part,
            ),
        }
    }
}
