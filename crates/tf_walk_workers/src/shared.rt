//! What the workers of a walk share.

ghost use Rattle.std.specs.Prelude.{◌≡◌, ℕ, List};

use crate::bound::PlanBound;
use crate::call_record::CallRecord;
use crate::cells::Cells;
use crate::hinting::Hinting;
use crate::hints::HintStealer;
use crate::log::Log;
use crate::progress::WalkProgress;
use crate::publishing::WalkClaims;
use crate::walk_brand::WalkBrand;
use std::alloc::Global;
use std::sync::Mutex;
use tf_claim::Seat;
use tf_config_names::Declarations;
use tf_plan_data::Plan;
use tf_tally::{Part, Tally};
use tf_walk_action::Stop;

/// What each worker has for itself.
#[derive(Drop)]
pub struct WorkerState<N: WalkBrand> {
    /// Its seat at the claims.
    pub seat: Seat,
    /// Its part of the tally.
    pub part: Part<CallRecord>,
    /// Its hints.
    pub hinting: Hinting<N>,
    /// The index of its own stealer in the list of all.
    pub place: usize,
}

/// What workers return once all actions have ended.
#[derive(Drop)]
pub struct WorkerEnd {
    /// A seat, which joins all that they have seen and done.
    pub seat: Seat,
    /// Their parts of the tally.
    pub part: Part<CallRecord>,
}

/// What all workers of a walk share, besides the providers and what they read.
#[derive(Drop)]
pub struct SharedWalk<'a, N: WalkBrand> {
    /// The allocator.
    pub alloc: Global,
    /// The flag that stops the walk.
    pub stop: &'a Stop,
    /// The claims on the plan's actions.
    pub claims: &'a WalkClaims<'a>,
    /// The tally of the walk's calls.
    pub tally: &'a Tally<CallRecord>,
    /// The journal, under its lock.
    pub journal: &'a Mutex<Log<N>>,
    /// The stealers of all workers' hints, in the order of the workers.
    pub stealers: &'a [HintStealer<PlanBound<N>>],
    /// The progress of the walk.
    pub progress: &'a WalkProgress,
}

/// What workers read: the plan, the names of its configuration, and the cells. They get it through this trait, so
/// only the start of the threads has to show that it may be shared.
pub trait WalkInput<N: WalkBrand> {
    ghost use Rattle.tf_config_data.specs.Names.{NameView};
    ghost use Rattle.tf_config_names.specs.Table.{names_in};
    ghost use Rattle.tf_plan_data.specs.declared.plan.Plan.{Plan};

    /// The plan.
    ghost planned: { Self → Plan };

    /// The names of its configuration.
    ghost named: { Self → List NameView };

    /// The number of cells.
    ghost count: { Self → ℕ };

    /// Returns the plan.
    fn plan(&self) -> &Plan
        ensures { result.now ≡ planned self.now };

    /// Returns the names of its configuration.
    fn names(&self) -> &Declarations<'_>
        ensures { names_in result.now ≡ named self.now };

    /// Returns the cells.
    fn cells(&self) -> &Cells<N>
        ensures { result.now ≡ count self.now };
}

/// A plan, the names of its configuration, and cells.
#[derive(Drop)]
pub struct BorrowedInput<'a, N: WalkBrand> {
    /// The plan.
    pub plan: &'a Plan,
    /// The names of its configuration.
    pub names: &'a Declarations<'a>,
    /// The cells.
    pub cells: &'a Cells<N>,
}

impl<N: WalkBrand> WalkInput<N> for BorrowedInput<'_, N> {
    ghost use Rattle.tf_config_names.specs.Table.{names_in};

    ghost planned = { λ g. g.plan.now };

    ghost named = { λ g. names_in g.names.now };

    ghost count = { λ g. g.cells.now };

    fn plan(&self) -> &Plan {
        self.plan
    }

    fn names(&self) -> &Declarations<'_> {
        self.names
    }

    fn cells(&self) -> &Cells<N> {
        self.cells
    }
}
