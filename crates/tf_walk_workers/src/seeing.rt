//! What a worker reads of the actions before one.

ghost use Rattle.std.specs.Prelude.{◌≡◌, ◌<◌, All, Contains, IfOk, MatchOption};
ghost use Rattle.tf_walk_action.specs.Words.{names_in, predecessors_of};
ghost use Rattle.tf_walk_workers.specs.Ideal.{IsGoodInEach};
ghost use Rattle.tf_walk_workers.specs.Seen.{AreSeen};

use crate::before::{Before, SeenResult};
use crate::cells::Cells;
use crate::walk_brand::WalkBrand;
use std::alloc::Global;
use std::sync::Wait;
use std::thread;
use tf_config_names::Declarations;
use tf_plan_data::Plan;
use tf_walk_action::{NotGood, Unasked};

/// Returns the evidence that one of some actions isn't good, for the first that isn't; `None` if all are good, and
/// then they are so in every ideal. Waits until the results up to that action can be read. Takes no memory.
pub(crate) fn first_not_good<N: WalkBrand, R: Wait>(
    rt: &R,
    cells: &Cells<N>,
    actions: &[usize],
) -> Option<NotGood>
    requires { All (λ n. n < cells.now) actions.now }
    ensures { MatchOption result
        (All (λ n. IsGoodInEach N.meanings N.plan n) actions.now)
        (λ bad. Contains actions.now bad) }
{
    for action in actions {
        if let Some(bad) = not_good(rt, cells, *action) {
            return Some(bad);
        }
    }
    None
}

/// Returns the evidence that an action isn't good, if it isn't. Waits until its result can be read.
fn not_good<N: WalkBrand, R: Wait>(rt: &R, cells: &Cells<N>, action: usize) -> Option<NotGood>
    requires { action < cells.now }
    ensures { MatchOption result (IsGoodInEach N.meanings N.plan action) (λ bad. bad ≡ action) }
{
    for _ in rt.forever() {
        if let Some(reading) = cells.read(action) {
            return reading.not_good();
        }
        thread::yield_now();
    }
    unreachable!()
}

/// Returns the results of the actions directly before one. Waits until all of them can be read and are good.
///
/// # Errors
///
/// Fails only if memory runs out.
pub(crate) fn good_before<'a, N: WalkBrand, R: Wait>(
    rt: &R,
    alloc: Global,
    plan: &'a Plan,
    names: &'a Declarations<'a>,
    cells: &'a Cells<N>,
    action: usize,
) -> Result<Before<'a, N>, Unasked>
    requires cells { cells.now ≡ plan.now.order.nodes }
    requires within { action < plan.now.order.nodes }
    requires good { All (λ n. IsGoodInEach N.meanings N.plan n) (predecessors_of plan.now.order action) }
    ensures { IfOk result (AreSeen N.meanings N.plan plan.now (names_in names.now) action) }
{
    let actions = plan.actions.as_slice();
    let nodes = plan.order.graph().predecessors(action);
    for _ in rt.forever() {
        match cells.look(alloc, names, &plan.prior, actions, nodes) {
            Ok(SeenResult::Good(before)) => return Ok(before),
            Ok(SeenResult::Waits | SeenResult::Bad) => thread::yield_now(),
            Err(unasked) => return Err(unasked),
        }
    }
    unreachable!()
}
