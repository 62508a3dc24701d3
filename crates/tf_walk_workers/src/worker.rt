//! One worker of a walk.

ghost use Rattle.std.specs.Prelude.{◌≡◌, ◌<◌, List, map};
ghost use Rattle.tf_walk_workers.specs.Position.{IsPosition};
ghost use Rattle.tf_walk_workers.specs.Sharing.{IsWorkerEnd, IsWorkerState};
ghost use Rattle.tf_walk_workers.specs.Walk.{IsOneWalk};

use crate::bound::PlanBound;
use crate::call_record::CallRecord;
use crate::hinting::Hinting;
use crate::hints::HintStealer;
use crate::memo::Memo;
use crate::shared::{SharedWalk, WalkInput, WorkerEnd, WorkerState};
use crate::steps::WorkerContext;
use crate::walk_brand::WalkBrand;
use std::sync::Wait;
use tf_claim::Seat;
use tf_provider::Provider;
use tf_tally::Part;

/// Ends actions, one after another, until all have ended. Waits for the epoch to change if there is nothing to do.
pub(crate) fn work<N: WalkBrand, B: WalkInput<N>, R: Wait>(
    rt: &R,
    walk: &SharedWalk<'_, N>,
    walk_input: &B,
    providers: &[Box<dyn Provider + Sync>],
    worker_state: WorkerState<N>,
) -> WorkerEnd
    requires walk { IsOneWalk N.plan N.meanings (B.planned walk_input.now) (B.named walk_input.now) (B.count walk_input.now) walk.now.claims.now.graph walk.now.tally.now N.table walk.now.stop.now N.flag (map meaning providers.now) }
    requires worker_state { IsWorkerState walk.now.claims.now.table walk.now.tally.now worker_state }
    ensures { IsWorkerEnd walk.now.claims.now.table walk.now.tally.now 1 result }
{
    let worker = Worker {
        rt,
        walk,
        walk_input,
    };
    let WorkerState {
        seat,
        part,
        hinting,
        place,
    } = worker_state;
    let mut position = Position {
        seat,
        part: Some(part),
        hinting,
        place,
        memo: None,
    };
    let all = walk.claims.graph().nodes() as u64;
    // Liveness, which no contract states. No worker waits before each action was given to one to look at, which
    // claims it if no action is before it. For any other action, the worker that released the last edge into it has a
    // hint; if the hint is lost, all actions are given to workers again. That worker looks at its own hints, and at
    // the list, before it waits. So others are woken only for speed, except at the end, when all are. No worker waits
    // that hasn't looked since the epoch last changed: it reads the epoch before it looks, and the epoch changes after
    // there is something to find. `tools/model` checks all interleavings of this loop, for small orders.
    for _ in rt.forever() {
        let epoch = walk.progress.epoch();
        if walk.progress.ended() >= all {
            break;
        }
        if !worker.take_step(providers, &mut position) {
            walk.progress.wait_for_change(rt, epoch);
        }
    }
    walk.progress.bump_epoch(walk.stealers.len() as u64);
    let Position {
        seat,
        part,
        hinting: _,
        place: _,
        memo: _,
    } = position;
    match part {
        Some(part) => WorkerEnd { seat, part },
        None => unreachable!(),
    }
}

/// What each worker has for itself: its state, and its memo of the last request. While it ends an action it has no part.
#[derive(Drop)]
struct Position<'a, N: WalkBrand> {
    seat: Seat,
    part: Option<Part<CallRecord>>,
    hinting: Hinting<N>,
    place: usize,
    memo: Option<Memo<'a, N>>,
}

/// What a worker uses, besides the providers and its `Position`.
#[derive(Drop)]
struct Worker<'a, 'w, N: WalkBrand, B, R> {
    rt: &'a R,
    walk: &'a SharedWalk<'w, N>,
    walk_input: &'a B,
}

impl<'a, N: WalkBrand, B: WalkInput<N>, R: Wait> Worker<'a, '_, N, B, R> {
    /// Ends an action that may be claimed, and returns whether there was one. Takes a hint of its own, or else the
    /// first action in the list that no worker has looked at, or else a hint of another worker.
    fn take_step(
        &self,
        providers: &[Box<dyn Provider + Sync>],
        position: &mut Position<'a, N>,
    ) -> bool
        requires walk { IsOneWalk N.plan N.meanings (B.planned self.now.walk_input.now) (B.named self.now.walk_input.now) (B.count self.now.walk_input.now) self.now.walk.now.claims.now.graph self.now.walk.now.tally.now N.table self.now.walk.now.stop.now N.flag (map meaning providers.now) }
        requires position { IsPosition N.meanings N.plan N.table (B.planned self.now.walk_input.now) (B.named self.now.walk_input.now) self.now.walk.now.claims.now position.old }
        ensures { IsPosition N.meanings N.plan N.table (B.planned self.now.walk_input.now) (B.named self.now.walk_input.now) self.now.walk.now.claims.now position.new }
    {
        self.take_own_hint(providers, position)
            || self.scan(providers, position)
            || self.steal_hint(providers, position)
    }

    /// Ends an action by one of the worker's own hints. Drops hints at actions that can't be claimed.
    fn take_own_hint(
        &self,
        providers: &[Box<dyn Provider + Sync>],
        position: &mut Position<'a, N>,
    ) -> bool
        requires walk { IsOneWalk N.plan N.meanings (B.planned self.now.walk_input.now) (B.named self.now.walk_input.now) (B.count self.now.walk_input.now) self.now.walk.now.claims.now.graph self.now.walk.now.tally.now N.table self.now.walk.now.stop.now N.flag (map meaning providers.now) }
        requires position { IsPosition N.meanings N.plan N.table (B.planned self.now.walk_input.now) (B.named self.now.walk_input.now) self.now.walk.now.claims.now position.old }
        ensures { IsPosition N.meanings N.plan N.table (B.planned self.now.walk_input.now) (B.named self.now.walk_input.now) self.now.walk.now.claims.now position.new }
    {
        for _ in self.rt.forever() {
            let Some(hint) = position.hinting.hints.pop() else {
                return false;
            };
            if self.end_if_free(providers, position, hint) {
                return true;
            }
        }
        unreachable!()
    }

    /// Ends an action by a stolen hint, beginning with the next worker.
    fn steal_hint(
        &self,
        providers: &[Box<dyn Provider + Sync>],
        position: &mut Position<'a, N>,
    ) -> bool
        requires walk { IsOneWalk N.plan N.meanings (B.planned self.now.walk_input.now) (B.named self.now.walk_input.now) (B.count self.now.walk_input.now) self.now.walk.now.claims.now.graph self.now.walk.now.tally.now N.table self.now.walk.now.stop.now N.flag (map meaning providers.now) }
        requires position { IsPosition N.meanings N.plan N.table (B.planned self.now.walk_input.now) (B.named self.now.walk_input.now) self.now.walk.now.claims.now position.old }
        ensures { IsPosition N.meanings N.plan N.table (B.planned self.now.walk_input.now) (B.named self.now.walk_input.now) self.now.walk.now.claims.now position.new }
    {
        let own = position.place.min(self.walk.stealers.len());
        let (before, behind) = self.walk.stealers.split_at(own);
        self.steal_from_any(providers, position, behind)
            || self.steal_from_any(providers, position, before)
    }

    /// Ends an action by a hint stolen from the first of some workers that has one.
    fn steal_from_any(
        &self,
        providers: &[Box<dyn Provider + Sync>],
        position: &mut Position<'a, N>,
        stealers: &[HintStealer<PlanBound<N>>],
    ) -> bool
        requires walk { IsOneWalk N.plan N.meanings (B.planned self.now.walk_input.now) (B.named self.now.walk_input.now) (B.count self.now.walk_input.now) self.now.walk.now.claims.now.graph self.now.walk.now.tally.now N.table self.now.walk.now.stop.now N.flag (map meaning providers.now) }
        requires position { IsPosition N.meanings N.plan N.table (B.planned self.now.walk_input.now) (B.named self.now.walk_input.now) self.now.walk.now.claims.now position.old }
        ensures { IsPosition N.meanings N.plan N.table (B.planned self.now.walk_input.now) (B.named self.now.walk_input.now) self.now.walk.now.claims.now position.new }
    {
        for stealer in stealers {
            if self.steal_from(providers, position, stealer) {
                return true;
            }
        }
        false
    }

    /// Ends an action by a hint stolen from one worker. Drops hints at actions that can't be claimed, until that
    /// worker has none: after one of them may be the only hint at an action that can be claimed.
    fn steal_from(
        &self,
        providers: &[Box<dyn Provider + Sync>],
        position: &mut Position<'a, N>,
        stealer: &HintStealer<PlanBound<N>>,
    ) -> bool
        requires walk { IsOneWalk N.plan N.meanings (B.planned self.now.walk_input.now) (B.named self.now.walk_input.now) (B.count self.now.walk_input.now) self.now.walk.now.claims.now.graph self.now.walk.now.tally.now N.table self.now.walk.now.stop.now N.flag (map meaning providers.now) }
        requires position { IsPosition N.meanings N.plan N.table (B.planned self.now.walk_input.now) (B.named self.now.walk_input.now) self.now.walk.now.claims.now position.old }
        ensures { IsPosition N.meanings N.plan N.table (B.planned self.now.walk_input.now) (B.named self.now.walk_input.now) self.now.walk.now.claims.now position.new }
    {
        for _ in self.rt.forever() {
            let Some(hint) = stealer.steal(self.rt) else {
                return false;
            };
            if self.end_if_free(providers, position, hint) {
                return true;
            }
        }
        unreachable!()
    }

    /// Ends an action that can be claimed, of those that no worker has looked at. No action is looked at twice,
    /// unless a hint is lost. So a worker passes over an action that can't be claimed yet: the worker that ends the
    /// last action before it gives a hint at it.
    fn scan(&self, providers: &[Box<dyn Provider + Sync>], position: &mut Position<'a, N>) -> bool
        requires walk { IsOneWalk N.plan N.meanings (B.planned self.now.walk_input.now) (B.named self.now.walk_input.now) (B.count self.now.walk_input.now) self.now.walk.now.claims.now.graph self.now.walk.now.tally.now N.table self.now.walk.now.stop.now N.flag (map meaning providers.now) }
        requires position { IsPosition N.meanings N.plan N.table (B.planned self.now.walk_input.now) (B.named self.now.walk_input.now) self.now.walk.now.claims.now position.old }
        ensures { IsPosition N.meanings N.plan N.table (B.planned self.now.walk_input.now) (B.named self.now.walk_input.now) self.now.walk.now.claims.now position.new }
    {
        let all = self.walk.claims.graph().nodes();
        for _ in self.rt.forever() {
            let Some(action) = self.walk.progress.next(all) else {
                return false;
            };
            if self.end_if_free(providers, position, action) {
                return true;
            }
        }
        unreachable!()
    }

    /// Claims an action, ends it, releases the edges out of it, and gives hints at the actions that this frees.
    /// Returns false if the action can't be claimed. If a hint is lost, the workers look at all actions again. Others
    /// are woken if there is more than one worker can take.
    fn end_if_free(
        &self,
        providers: &[Box<dyn Provider + Sync>],
        position: &mut Position<'a, N>,
        action: usize,
    ) -> bool
        requires walk { IsOneWalk N.plan N.meanings (B.planned self.now.walk_input.now) (B.named self.now.walk_input.now) (B.count self.now.walk_input.now) self.now.walk.now.claims.now.graph self.now.walk.now.tally.now N.table self.now.walk.now.stop.now N.flag (map meaning providers.now) }
        requires position { IsPosition N.meanings N.plan N.table (B.planned self.now.walk_input.now) (B.named self.now.walk_input.now) self.now.walk.now.claims.now position.old }
        requires action { action < N.plan.order.nodes }
        ensures { IsPosition N.meanings N.plan N.table (B.planned self.now.walk_input.now) (B.named self.now.walk_input.now) self.now.walk.now.claims.now position.new }
    {
        let walk = self.walk;
        let Some(permit) = walk.claims.claim(&mut position.seat, action) else {
            return false;
        };
        let Some(part) = position.part.take() else {
            unreachable!()
        };
        let context = WorkerContext {
            rt: self.rt,
            alloc: walk.alloc,
            plan: self.walk_input.plan(),
            names: self.walk_input.names(),
            cells: self.walk_input.cells(),
            journal: walk.journal,
            tally: walk.tally.lane(position.place),
            stop: walk.stop,
        };
        let (published, part) = context.end_action(providers, permit, &mut position.memo, part);
        position.part = Some(part);
        position.hinting.begin();
        let owing = walk.claims.finish(&mut position.seat, published);
        walk.claims
            .release(&mut position.seat, owing, &mut position.hinting);
        if position.hinting.is_lost {
            walk.progress.rescan();
        }
        walk.progress.tell_end(position.hinting.free);
        true
    }
}
