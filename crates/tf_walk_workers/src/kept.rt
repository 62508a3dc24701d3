//! The content of a cell.

ghost use Rattle.tf_walk_workers.specs.Calls.{IsCell};

use crate::call_record::CallRecord;
use crate::walk_brand::WalkBrand;
use counted_slot::Fits;
use std::marker::PhantomData;
use tf_tally::Part;
use tf_walk_action::ActionResult;

/// The content of an action's cell: the result of the action, once it is published, and a part of the walk's tally, which
/// reports the action's call.
pub(crate) struct CellResult<N: WalkBrand> {
    pub ended: Option<ActionResult>,
    pub part: Part<CallRecord>,
    pub of: PhantomData<N>,
}

impl<N: WalkBrand> Fits for CellResult<N> {
    type Tag = usize;

    ghost fits = { λ n kept. IsCell N.meanings N.plan N.table n kept.ended kept.part };
}
