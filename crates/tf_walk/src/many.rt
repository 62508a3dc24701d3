//! Carries out a plan with several workers.

ghost use Rattle.std.specs.Prelude.{◌≡◌, ◌+◌, ◌<◌, List, [], map, true, IfOk, MatchBool, MatchResult};
ghost use Rattle.tf_walk_action.specs.Words.{action_of, AreServed, FitsTogether, plan_of};
ghost use Rattle.tf_config_refusal.specs.Refusal.{no_memory, refusal_of, workers as wrong_workers};
ghost use Rattle.tf_walk_report.specs.Report.{IsWalked, report_of};
ghost use Rattle.tf_walk_workers.specs.Calls.{HasParts};
ghost use Rattle.tf_walk.specs.PreparedMany.{IsPrepared};
ghost use Rattle.tf_walk.specs.Workers.{are_workers};

use crate::ending::report_walk;
use crate::prepared_many::{PreparedWalk, Team, prepare};
use crate::single::run_one;
use std::alloc::{AllocError, Global};
use std::marker::Brand;
use std::sync::{Mutex, Wait};
use std::thread::Threads;
use tf_config_refusal::Refusal;
use tf_plan_data::{Plan, Planned};
use tf_provider::Provider;
use tf_tally::{Part, Tally};
use tf_walk_action::Stop;
use tf_walk_report::Walked;
use tf_walk_workers::{
    BorrowedInput, CallRecord, Log, ResultCells, SharedWalk, WalkBrand, WalkClaims, WalkProgress,
    WorkerEnd, share_out,
};

/// The largest number of workers.
pub const MOST_WORKERS: usize = 64;

/// Carries out a plan with `workers` workers, one of which is the calling thread. If a worker can't be started, the others do its
/// work. One worker carries it out as [`run_one`] does. The report always comes with its journal. Every action ends once, after all actions
/// before it. Requires that some provider in the list has the type of each action.
///
/// After `stop` is set, no action begins; a call that a worker has begun, or is about to make after its look at the flag, is still
/// made and recorded. After the first call, nothing is allocated for what a reply says. More than one worker may wait.
///
/// # Errors
///
/// `Workers` if `workers` isn't 1 to 64, and otherwise only if memory runs out. Both come before the first call.
pub fn run<R: Threads + Wait + Sync>(
    rt: &R,
    alloc: Global,
    plan: &Planned,
    providers: &[Box<dyn Provider + Sync>],
    workers: usize,
    stop: &Stop,
) -> Result<Walked, Refusal>
    requires served { AreServed (map meaning providers.now) (map action_of plan.now.actions.items) }
    ensures walked { IfOk result (IsWalked (map meaning providers.now) (plan_of plan.now)) }
    ensures journal { IfOk result (λ walked. (report_of walked).journal.graph ≡ plan.now.order) }
    ensures refused { MatchResult result
        (λ _. are_workers workers ≡ true)
        (λ r. MatchBool (are_workers workers) (refusal_of r ≡ no_memory) (refusal_of r ≡ wrong_workers)) }
{
    if workers == 1 {
        return run_one(alloc, plan, providers, stop);
    }
    match run_and_close(rt, alloc, plan, providers, workers, stop) {
        Ok((walked, _)) => Ok(walked),
        Err(refusal) => Err(refusal),
    }
}

/// Like [`run`], but one worker uses the shared claims too, and it also returns whether these could be closed: whether each action
/// was claimed and ended, and every edge was released. No contract says that they can, so tests ask for it.
///
/// # Errors
///
/// As [`run`].
pub fn run_and_close<R: Threads + Wait + Sync>(
    rt: &R,
    alloc: Global,
    plan: &Planned,
    providers: &[Box<dyn Provider + Sync>],
    workers: usize,
    stop: &Stop,
) -> Result<(Walked, bool), Refusal>
    requires served { AreServed (map meaning providers.now) (map action_of plan.now.actions.items) }
    ensures walked { IfOk result (λ ended. IsWalked (map meaning providers.now) (plan_of plan.now) ended.0) }
    ensures journal { IfOk result (λ ended. (report_of ended.0).journal.graph ≡ plan.now.order) }
    ensures refused { MatchResult result
        (λ _. are_workers workers ≡ true)
        (λ r. MatchBool (are_workers workers) (refusal_of r ≡ no_memory) (refusal_of r ≡ wrong_workers)) }
{
    if !are_workers(workers) {
        return Err(Refusal::Workers);
    }
    let plan = &plan.plan;
    let nodes = plan.order.graph().nodes();
    let team = workers.min(nodes).max(1);
    // A part for the journal, for each worker, for each action, and for this thread.
    let Ok((tally, part)) = Tally::new(alloc, 2 + team as u64 + nodes as u64) else {
        return Err(Refusal::OutOfMemory);
    };
    match run_as::<Brand, R>(rt, alloc, plan, providers, team, stop, &tally, part) {
        Ok(ended) => Ok(ended),
        Err(AllocError) => Err(Refusal::OutOfMemory),
    }
}

/// Returns whether a walk may have this number of workers.
fn are_workers(workers: usize) -> bool
    ensures { result ≡ are_workers workers }
{
    1 <= workers && workers <= MOST_WORKERS
}

/// Carries out a plan with a team of workers. `N` names the walk, and the part is all of its tally.
fn run_as<N: WalkBrand + Send + Sync, R: Threads + Wait + Sync>(
    rt: &R,
    alloc: Global,
    plan: &Plan,
    providers: &[Box<dyn Provider + Sync>],
    team: usize,
    stop: &Stop,
    tally: &Tally<CallRecord>,
    mut part: Part<CallRecord>,
) -> Result<(Walked, bool), AllocError>
    requires tally { tally.now ≡ N.table }
    requires flag { stop.now ≡ N.flag }
    requires team { 0 < team }
    requires part { HasParts N.table (2 + team + plan.now.order.nodes) [] [] part }
    requires whole { part.holding.whole ≡ 2 + team + plan.now.order.nodes }
    requires fits { FitsTogether plan.now }
    requires meanings { N.meanings ≡ map meaning providers.now }
    requires plan { N.plan ≡ plan_of plan.now }
    requires served { AreServed (map meaning providers.now) (map action_of plan.now.actions.items) }
    ensures walked { IfOk result (λ ended. IsWalked (map meaning providers.now) (plan_of plan.now) ended.0) }
    ensures journal { IfOk result (λ ended. (report_of ended.0).journal.graph ≡ plan.now.order) }
{
    let prepared = prepare::<N>(alloc, plan, team, tally, &mut part)?;
    Ok(carry_out(
        rt, alloc, plan, providers, team, stop, tally, part, prepared,
    ))
}

/// Carries out a plan and returns its report, and whether its claims could be closed. It can't return out of memory.
fn carry_out<N: WalkBrand + Send + Sync, R: Threads + Wait + Sync>(
    rt: &R,
    alloc: Global,
    plan: &Plan,
    providers: &[Box<dyn Provider + Sync>],
    team: usize,
    stop: &Stop,
    tally: &Tally<CallRecord>,
    mut part: Part<CallRecord>,
    prepared: PreparedWalk<'_, N>,
) -> (Walked, bool)
    requires tally { tally.now ≡ N.table }
    requires flag { stop.now ≡ N.flag }
    requires part { HasParts N.table 1 [] [] part }
    requires whole { part.holding.whole ≡ 2 + team + plan.now.order.nodes }
    requires fits { FitsTogether plan.now }
    requires meanings { N.meanings ≡ map meaning providers.now }
    requires plan { N.plan ≡ plan_of plan.now }
    requires served { AreServed (map meaning providers.now) (map action_of plan.now.actions.items) }
    requires prepared { IsPrepared N.table team plan.now prepared }
    ensures walked { IsWalked (map meaning providers.now) (plan_of plan.now) result.0 }
    ensures journal { (report_of result.0).journal.graph ≡ plan.now.order }
{
    let PreparedWalk {
        names,
        claims,
        team: Team {
            worker_state,
            others,
            stealers,
        },
        journal,
        keeper,
        result_cells: ResultCells { cells, results },
        buffers,
    } = prepared;
    let journal = Mutex::new(Log::new(journal, keeper));
    let progress = WalkProgress::new();
    let walk_input = BorrowedInput {
        plan,
        names: &names,
        cells: &cells,
    };
    let walk_claims = WalkClaims::of(&claims);
    let walk = SharedWalk {
        alloc,
        stop,
        claims: &walk_claims,
        tally,
        journal: &journal,
        stealers: stealers.as_slice(),
        progress: &progress,
    };
    let WorkerEnd { seat, part: idle } = share_out(
        rt,
        &walk,
        &walk_input,
        providers,
        worker_state,
        others,
    );
    let is_closed = claims.close(seat);
    let (journal, keeper) = journal.into_inner().into_parts();
    tally.merge(&mut part, idle);
    tally.merge(&mut part, keeper);
    let walked = report_walk(
        rt, alloc, plan, &names, providers, buffers, cells, results, journal, tally, part,
    );
    (walked, is_closed)
}
