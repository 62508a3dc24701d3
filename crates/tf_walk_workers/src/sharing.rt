//! The threads of a walk.

ghost use Rattle.std.specs.Prelude.{◌≡◌, ◌+◌, All, List, map, vec_len};
ghost use Rattle.tf_walk_workers.specs.Sharing.{IsWorkerEnd, IsWorkerState, Leaves};
ghost use Rattle.tf_walk_workers.specs.Walk.{IsOneWalk};
ghost use denote.Param.Send.{IsSync, IsSend};

use crate::call_record::CallRecord;
use crate::publishing::WalkClaims;
use crate::shared::{SharedWalk, WalkInput, WorkerEnd, WorkerState};
use crate::walk_brand::WalkBrand;
use crate::worker::work;
use std::sync::Wait;
use std::thread;
use std::thread::Threads;
use tf_provider::Provider;
use tf_tally::Tally;

/// Runs a worker for each state: the first on this thread, and each of the others on one more thread. Returns one
/// seat, which joins all that they have seen and done, and their parts of the tally.
pub fn share_out<N: WalkBrand + Send + Sync, B: WalkInput<N> + Sync, R: Threads + Wait + Sync>(
    rt: &R,
    walk: &SharedWalk<'_, N>,
    walk_input: &B,
    providers: &[Box<dyn Provider + Sync>],
    worker_state: WorkerState<N>,
    others: Vec<WorkerState<N>>,
) -> WorkerEnd
    requires walk { IsOneWalk N.plan N.meanings (B.planned walk_input.now) (B.named walk_input.now) (B.count walk_input.now) walk.now.claims.now.graph walk.now.tally.now N.table walk.now.stop.now N.flag (map meaning providers.now) }
    requires worker_state { IsWorkerState walk.now.claims.now.table walk.now.tally.now worker_state }
    requires others { All (IsWorkerState walk.now.claims.now.table walk.now.tally.now) others.items }
    ensures { IsWorkerEnd walk.now.claims.now.table walk.now.tally.now (vec_len others + 1) result }
{
    work_at_all(
        rt,
        walk.claims,
        walk.tally,
        &|worker_state: WorkerState<N>| -> WorkerEnd
            requires walk { IsOneWalk N.plan N.meanings (B.planned walk_input.now) (B.named walk_input.now) (B.count walk_input.now) walk.now.claims.now.graph walk.now.tally.now N.table walk.now.stop.now N.flag (map meaning providers.now) }
            requires worker_state { IsWorkerState walk.now.claims.now.table walk.now.tally.now worker_state }
            ensures { IsWorkerEnd walk.entry.now.claims.now.table walk.entry.now.tally.now 1 result }
        { work(rt, walk, walk_input, providers, worker_state) },
        worker_state,
        others,
    )
}

/// Runs a worker for each state: the first on this thread, and the others on one more thread, which does the same
/// with them. If a thread can't be started, only its own worker is missing. Takes no memory but for threads.
#[cycle(threads)]
fn work_at_all<D: Send + Drop, F: Fn(D) -> WorkerEnd + Sync, R: Threads + Sync>(
    rt: &R,
    claims: &WalkClaims<'_>,
    tally: &Tally<CallRecord>,
    work: &F,
    worker_state: D,
    mut others: Vec<D>,
) -> WorkerEnd
    requires leaves { Leaves F.Fn (IsWorkerEnd claims.now.table tally.now 1) work.now }
    requires worker_state { F.pre work.now worker_state }
    requires others { All (λ worker_state. F.pre work.now worker_state) others.items }
    ensures { IsWorkerEnd claims.now.table tally.now (vec_len others + 1) result }
{
    let Some(next) = others.pop() else {
        return work_at(claims, tally, work, worker_state);
    };
    let (other, own) = thread::join(
        rt,
        move || -> WorkerEnd
            requires sync { IsSync R.row × IsSync F.row × IsSend D.row }
            requires leaves { Leaves F.Fn (IsWorkerEnd claims.now.table tally.now 1) work.now }
            requires next { F.pre work.now next }
            requires others { All (λ worker_state. F.pre work.now worker_state) others.items }
            ensures { IsWorkerEnd claims.entry.now.table tally.entry.now (vec_len others + 1) result }
        { work_at_all(rt, claims, tally, work, next, others) },
        move || -> WorkerEnd
            requires leaves { Leaves F.Fn (IsWorkerEnd claims.now.table tally.now 1) work.now }
            requires worker_state { F.pre work.now worker_state }
            ensures { IsWorkerEnd claims.entry.now.table tally.entry.now 1 result }
        { work_at(claims, tally, work, worker_state) },
    );
    joined(claims, tally, own, other)
}

/// Joins what some workers return with what others do.
fn joined(
    claims: &WalkClaims<'_>,
    tally: &Tally<CallRecord>,
    own: WorkerEnd,
    others: WorkerEnd,
) -> WorkerEnd
    requires own { IsWorkerEnd claims.now.table tally.now own.part.holding.parts own }
    requires others { IsWorkerEnd claims.now.table tally.now others.part.holding.parts others }
    ensures { IsWorkerEnd claims.now.table tally.now (own.part.holding.parts + others.part.holding.parts) result }
{
    let WorkerEnd { mut seat, mut part } = own;
    let WorkerEnd {
        seat: other_seat,
        part: other_part,
    } = others;
    claims.join_seat(&mut seat, other_seat);
    tally.merge(&mut part, other_part);
    WorkerEnd { seat, part }
}

/// Runs a worker with its state on this thread.
fn work_at<D, F: Fn(D) -> WorkerEnd>(
    claims: &WalkClaims<'_>,
    tally: &Tally<CallRecord>,
    work: &F,
    worker_state: D,
) -> WorkerEnd
    requires leaves { Leaves F.Fn (IsWorkerEnd claims.now.table tally.now 1) work.now }
    requires worker_state { F.pre work.now worker_state }
    ensures { IsWorkerEnd claims.now.table tally.now 1 result }
{
    work(worker_state)
}
