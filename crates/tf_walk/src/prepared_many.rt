//! What a walk with several workers allocates before the first call.

ghost use Rattle.std.specs.Prelude.{◌≡◌, ◌+◌, ◌-◌, ◌<◌, ◌≤◌, [], All, IfOk, vec_len};
ghost use Rattle.tf_plan_data.specs.Fits.{FitsTogether};
ghost use Rattle.tf_plan_data.specs.Plan.{plan_of};
ghost use Rattle.tf_walk.specs.PreparedMany.{IsPrepared};
ghost use Rattle.tf_walk_workers.specs.Calls.{HasParts};
ghost use Rattle.tf_walk_workers.specs.Sharing.{IsWorkerState};

use std::alloc::{AllocError, Global};
use tf_claim::{Claims, Seat};
use tf_config_names::Declarations;
use tf_plan_data::Plan;
use tf_provider::Journal;
use tf_tally::{Part, Tally};
use tf_walk_report::{ReportBuffers, reserve_report};
use tf_walk_workers::{
    CallRecord, HintStealer, Hinting, Hints, PlanBound, ResultCells, WalkBrand, WorkerState,
};

/// Everything that a walk needs memory for: the names of the plan's configuration, the claims on its actions, a state for each
/// worker, the journal and its part of the tally, the cells of results, and the parts of the report.
pub(crate) struct PreparedWalk<'p, N: WalkBrand> {
    pub names: Declarations<'p>,
    pub claims: Claims,
    pub team: Team<N>,
    pub journal: Journal,
    pub keeper: Part<CallRecord>,
    pub result_cells: ResultCells<N>,
    pub buffers: ReportBuffers<'p>,
}

/// The states of all workers, that of the calling thread first, and the stealers of their hints.
#[derive(Drop)]
pub(crate) struct Team<N: WalkBrand> {
    pub worker_state: WorkerState<N>,
    pub others: Vec<WorkerState<N>>,
    pub stealers: Vec<HintStealer<PlanBound<N>>>,
}

/// Allocates everything for a walk with a team of `team` workers, and deals out all parts of its tally but one. It isn't given a
/// provider, so it calls none.
///
/// # Errors
///
/// Only if memory runs out.
pub(crate) fn prepare<'p, N: WalkBrand>(
    alloc: Global,
    plan: &'p Plan,
    team: usize,
    tally: &Tally<CallRecord>,
    part: &mut Part<CallRecord>,
) -> Result<PreparedWalk<'p, N>, AllocError>
    requires fits { FitsTogether plan.now }
    requires plan { N.plan ≡ plan_of plan.now }
    requires tally { tally.now ≡ N.table }
    requires team { 0 < team }
    requires part { HasParts N.table (2 + team + plan.now.order.nodes) [] [] part.old }
    ensures prepared { IfOk result (IsPrepared N.table team plan.now) }
    ensures part { IfOk result (λ _. HasParts N.table 1 [] [] part.new) }
    ensures whole { IfOk result (λ _. part.new.holding.whole ≡ part.old.holding.whole) }
{
    let order = plan.order.graph();
    let names = Declarations::new(alloc, &plan.config, &plan.dependence)?;
    let (claims, seat) = Claims::new(alloc, order)?;
    let keeper = tally.split_off(part);
    let team = team_of(alloc, &claims, seat, tally, part, team)?;
    let journal = Journal::with_room(alloc, order)?;
    let result_cells = ResultCells::new(alloc, tally, part, order.nodes())?;
    match reserve_report(alloc, plan, &names) {
        Ok(buffers) => Ok(PreparedWalk {
            names,
            claims,
            team,
            journal,
            keeper,
            result_cells,
            buffers,
        }),
        Err(AllocError) => {
            result_cells.discard(tally, part);
            Err(AllocError)
        }
    }
}

/// Returns the states of `workers` workers. The first has the given seat. Each takes a part of the tally, off the given one.
fn team_of<N: WalkBrand>(
    alloc: Global,
    claims: &Claims,
    mut seat: Seat,
    tally: &Tally<CallRecord>,
    part: &mut Part<CallRecord>,
    workers: usize,
) -> Result<Team<N>, AllocError>
    requires seat { seat.table ≡ claims.now.table }
    requires workers { 0 < workers }
    requires part { HasParts tally.now part.old.holding.parts [] [] part.old }
    requires enough { workers < part.old.holding.parts }
    ensures worker_state { IfOk result (λ team. IsWorkerState claims.now.table tally.now team.worker_state) }
    ensures others { IfOk result (λ team. All (IsWorkerState claims.now.table tally.now) team.others.items) }
    ensures counted { IfOk result (λ team. vec_len team.others + 1 ≡ workers) }
    ensures part { IfOk result (λ _. HasParts tally.now (part.old.holding.parts - workers) [] [] part.new) }
    ensures whole { IfOk result (λ _. part.new.holding.whole ≡ part.old.holding.whole) }
{
    let mut stealers = Vec::with_capacity(alloc, workers)?;
    let mut others = Vec::with_capacity(alloc, workers)?;
    for made in 1..workers {
        let other = claims.split_seat(&mut seat)?;
        let own = tally.split_off(part);
        others.push(worker_state_of(alloc, other, own, &mut stealers)?)?;
    }
    let first = tally.split_off(part);
    let worker_state = worker_state_of(alloc, seat, first, &mut stealers)?;
    Ok(Team {
        worker_state,
        others,
        stealers,
    })
}

/// The number of hints that a worker has space for at first.
const HINTS: usize = 64;

/// Returns the state of a worker with this seat and this part, and adds the stealer of its hints.
fn worker_state_of<N: WalkBrand>(
    alloc: Global,
    seat: Seat,
    part: Part<CallRecord>,
    stealers: &mut Vec<HintStealer<PlanBound<N>>>,
) -> Result<WorkerState<N>, AllocError>
    ensures seat { IfOk result (λ worker_state. worker_state.seat ≡ seat) }
    ensures part { IfOk result (λ worker_state. worker_state.part ≡ part) }
{
    let hints = Hints::new(alloc, HINTS)?;
    let place = stealers.len();
    stealers.push(hints.stealer()?)?;
    let hinting = Hinting {
        hints,
        free: 0,
        is_lost: false,
    };
    Ok(WorkerState {
        seat,
        part,
        hinting,
        place,
    })
}
