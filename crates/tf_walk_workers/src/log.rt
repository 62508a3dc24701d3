//! The journal that workers share.

ghost use Rattle.std.specs.Prelude.{◌≡◌, ◌<◌, ◌++◌, ◌∷◌, [], MatchResult, Some};
ghost use Rattle.std.specs.List.{AllByRecursion};
ghost use Rattle.tf_provider.specs.Entries.{entry_of};
ghost use Rattle.tf_walk_action.specs.Journal.{IsOfAction, op_at};
ghost use Rattle.tf_walk_workers.specs.Calls.{HasParts, record_of, records_of};

use crate::call_record::CallRecord;
use crate::walk_brand::WalkBrand;
use std::marker::{Model, PhantomData};
use std::sync::Mutex;
use tf_provider::{Called, Journal, Recorded};
use tf_tally::{Lane, Part};

/// The journal of a walk, which workers share under a lock, and the part of the walk's tally that keeps what is recorded in
/// it. The journal is over the order of the walk's plan, and each entry says what its action has its provider do. Contracts
/// see the journal.
#[derive(Drop)]
pub struct Log<N: WalkBrand> {
    journal: Journal,
    keeper: Part<CallRecord>,
    of: PhantomData<N>,
}

impl<N: WalkBrand> Model for Log<N> {
    ghost use Rattle.std.specs.List.{AllByRecursion};
    ghost use Rattle.std.specs.Prelude.{◌≡◌, []};
    ghost use Rattle.tf_provider.specs.Entries.{Log};
    ghost use Rattle.tf_walk_action.specs.Journal.{IsOfAction};
    ghost use Rattle.tf_walk_workers.specs.Calls.{HasParts, records_of};

    ghost Value = { Log };

    ghost view = { λ l. l.journal };

    ghost invariant = { λ l. (l.journal.graph ≡ N.plan.order)
        × HasParts N.table 1 (records_of l.journal.entries) [] l.keeper
        × AllByRecursion (IsOfAction N.plan.actions) l.journal.entries };
}

/// A call that was recorded, and the part that reports it.
pub struct Logged {
    /// The call.
    pub recorded: Recorded,
    /// The part.
    pub part: Part<CallRecord>,
}

/// A call that wasn't recorded, and a part that reports none.
pub struct Unlogged {
    /// The call.
    pub called: Called,
    /// The part.
    pub part: Part<CallRecord>,
}

impl<N: WalkBrand> Log<N> {
    /// Builds the log of an empty journal, which is over the order of the walk's plan, with a part of the walk's tally.
    pub fn new(journal: Journal, keeper: Part<CallRecord>) -> Log<N>
        requires order { journal.graph ≡ N.plan.order }
        requires empty { journal.entries ≡ [] }
        requires keeper { HasParts N.table 1 [] [] keeper }
        ensures { result ≡ journal }
    {
        Log {
            journal,
            keeper,
            of: PhantomData,
        }
    }

    /// Returns the journal, and the part that keeps what was recorded in it.
    pub fn into_parts(self) -> (Journal, Part<CallRecord>)
        ensures journal { result.0 ≡ self }
        ensures order { result.0.graph ≡ N.plan.order }
        ensures ops { AllByRecursion (IsOfAction N.plan.actions) result.0.entries }
        ensures keeper { HasParts N.table 1 (records_of result.0.entries) [] result.1 }
    {
        let Self {
            journal,
            keeper,
            of: _,
        } = self;
        (journal, keeper)
    }

    /// Records a call of an action, and returns a part that reports it, in place of the given one. If the journal refuses the
    /// call, it is returned with the part, and nothing changes.
    pub(crate) fn record(
        &mut self,
        tally: &Lane<'_, CallRecord>,
        called: Called,
        part: Part<CallRecord>,
    ) -> Result<Logged, Unlogged>
        requires tally { tally.now ≡ N.table }
        requires within { called.action < N.plan.order.nodes }
        requires op { op_at N.plan.actions called.action ≡ Some called.request.op }
        requires part { HasParts N.table 1 [] [] part }
        ensures { MatchResult result
            (λ logged. (logged.recorded ≡ called) × HasParts N.table 1 [] (record_of (entry_of called) ∷ []) logged.part
            × (self.new.entries ≡ self.old.entries ++ entry_of called ∷ []))
            (λ left. (left.called ≡ called) × HasParts N.table 1 [] [] left.part × (self.new ≡ self.old)) }
    {
        let call = CallRecord {
            action: called.action(),
            verdict: called.verdict(),
        };
        match self.journal.record(called) {
            Ok(recorded) => {
                tally.tally().merge(&mut self.keeper, part);
                tally.add(&mut self.keeper, &call);
                let part = tally.tally().split_off(&mut self.keeper);
                Ok(Logged { recorded, part })
            }
            Err((called, _)) => Err(Unlogged { called, part }),
        }
    }
}

/// Checks that threads may share a log under a lock.
pub fn logs_are_shared<N: WalkBrand + Send + Sync>(log: &Mutex<Log<N>>) {
    share(log);
}

/// Requires a value that threads may share.
fn share<T: Sync>(_shared: &T) {}
