//! Calls of providers, and their records.

ghost use Rattle.std.specs.Prelude.{◌≡◌, ◌<◌, ◌∷◌, [], map, IsSomeAnd, IsTrue, Some};
ghost use Rattle.tf_provider.specs.Entries.{entry_of};
ghost use Rattle.tf_walk_action.specs.Journal.{op_at};
ghost use Rattle.tf_walk_action.specs.Words.{asked, asks_fully, call_of, call_of_provider, action_result_of, ended_action, HasCause, IsByFlag, IsRun, IsServed, schema_in};
ghost use Rattle.tf_walk_workers.specs.Calls.{HasParts, record_of, reported_by};

use crate::call_record::CallRecord;
use crate::log::{Log, Logged, Unlogged};
use crate::walk_brand::WalkBrand;
use std::sync::{Mutex, Wait};
use std::thread;
use tf_claim::{Finished, Permit};
use tf_provider::{Called, Provider, first_provider};
use tf_tally::{Lane, Part};
use tf_walk_action::{ActionResult, Going, PreparedCall, call_in_time, ended_by};

/// The result of an action, the right to report the action as done, and a part of the walk's tally.
pub(crate) struct ActionEnd {
    pub ended: ActionResult,
    pub finished: Finished,
    pub part: Part<CallRecord>,
}

/// Returns the result of an action together with a part.
pub(crate) fn with_part(end: (ActionResult, Finished), part: Part<CallRecord>) -> ActionEnd
    ensures ended { result.ended ≡ end.0 }
    ensures finished { result.finished ≡ end.1 }
    ensures part { result.part ≡ part }
{
    let (ended, finished) = end;
    ActionEnd {
        ended,
        finished,
        part,
    }
}

/// Calls the first provider that has the type of a request, after a look at the walk's flag, and records the call. Returns a
/// part that reports the call, in place of the given one.
pub(crate) fn serve<N: WalkBrand, R: Wait>(
    rt: &R,
    providers: &[Box<dyn Provider + Sync>],
    log: &Mutex<Log<N>>,
    tally: &Lane<'_, CallRecord>,
    permit: Permit,
    going: Going,
    asking: PreparedCall,
    part: Part<CallRecord>,
) -> ActionEnd
    requires served { IsSomeAnd (schema_in (asked asking.request).type_name (map meaning providers.now)) (λ s. IsTrue (asks_fully (asked asking.request) s)) }
    requires tally { tally.now ≡ N.table }
    requires within { permit < N.plan.order.nodes }
    requires op { op_at N.plan.actions permit ≡ Some (asked asking.request).op }
    requires part { HasParts N.table 1 [] [] part }
    ensures finished { result.finished ≡ permit }
    ensures action { ended_action result.ended ≡ permit }
    ensures cause { HasCause N.plan.order result.ended }
    ensures flag { IsByFlag going result.ended }
    ensures ended { IsRun (call_of (map meaning providers.now) (asked asking.request)) (action_result_of result.ended) }
    ensures part { HasParts N.table 1 [] (reported_by result.ended) result.part }
{
    match first_provider(providers, asking.request.type_name.as_str()) {
        None => unreachable!(),
        Some(provider) => make_call(rt, provider, log, tally, permit, going, asking, part),
    }
}

/// Calls a provider with a request, after a look at the walk's flag, and records the call. No lock is held while the provider works.
fn make_call<N: WalkBrand, R: Wait>(
    rt: &R,
    provider: &Box<dyn Provider + Sync>,
    log: &Mutex<Log<N>>,
    tally: &Lane<'_, CallRecord>,
    permit: Permit,
    going: Going,
    asking: PreparedCall,
    part: Part<CallRecord>,
) -> ActionEnd
    requires served { IsServed (meaning provider.now) (asked asking.request) }
    requires tally { tally.now ≡ N.table }
    requires within { permit < N.plan.order.nodes }
    requires op { op_at N.plan.actions permit ≡ Some (asked asking.request).op }
    requires part { HasParts N.table 1 [] [] part }
    ensures finished { result.finished ≡ permit }
    ensures action { ended_action result.ended ≡ permit }
    ensures cause { HasCause N.plan.order result.ended }
    ensures flag { IsByFlag going result.ended }
    ensures ended { IsRun (call_of_provider (asked asking.request) (meaning provider.now)) (action_result_of result.ended) }
    ensures part { HasParts N.table 1 [] (reported_by result.ended) result.part }
{
    let (called, in_time) = call_in_time(provider, permit, going, asking.request);
    let Logged { recorded, part } = record(rt, log, tally, called, part);
    with_part(ended_by(recorded, asking.message, in_time), part)
}

/// Records a call, and returns a part that reports it, in place of the given one. If the journal refuses the call, this tries
/// again; the journal accepts it once all actions directly before its own are recorded.
fn record<N: WalkBrand, R: Wait>(
    rt: &R,
    log: &Mutex<Log<N>>,
    tally: &Lane<'_, CallRecord>,
    called: Called,
    part: Part<CallRecord>,
) -> Logged
    requires tally { tally.now ≡ N.table }
    requires within { called.action < N.plan.order.nodes }
    requires op { op_at N.plan.actions called.action ≡ Some called.request.op }
    requires part { HasParts N.table 1 [] [] part }
    ensures recorded { result.recorded ≡ called }
    ensures part { HasParts N.table 1 [] (record_of (entry_of called) ∷ []) result.part }
{
    let mut left = Unlogged { called, part };
    for _ in rt.forever() {
        let Unlogged { called, part } = left;
        match log.lock(rt).record(tally, called, part) {
            Ok(logged) => return logged,
            Err(back) => left = back,
        }
        thread::yield_now();
    }
    unreachable!()
}
