//! Laws on what may be published. Threads may share cells.

ghost use Rattle.tf_walk_workers.specs.Laws.{CallsAreTrue, ExcusesAreTrue, TrueEndsAreOutcomes, ExcusedHaveNoFault};

use crate::cells::Cells;
use crate::walk_brand::WalkBrand;

/// The result of an action's call, given the results read before it, is true. An excuse during its call is true too,
/// if its request has no fault.
pub fn ends_are_true()
    ensures calls { CallsAreTrue }
    ensures excuses { ExcusesAreTrue }
{}

/// If all results are true, each action is skipped exactly if one directly before it isn't good, and the excuses name
/// exactly the excused actions, then the results are the outcomes with these excuses. The request of an action that
/// was excused during its call has no fault.
pub fn all_are_outcomes()
    ensures outcomes { TrueEndsAreOutcomes }
    ensures during { ExcusedHaveNoFault }
{}

/// Checks that threads may share cells.
pub fn cells_are_shared<N: WalkBrand + Send + Sync>(cells: &Cells<N>) {
    share(cells);
}

/// Requires a value that threads may share.
fn share<T: Sync>(_shared: &T) {}
