//! The store of actions' results.

ghost use Rattle.std.specs.Prelude.{◌≡◌, ◌-◌, ◌<◌, [], None, IfOk, replicate};
ghost use Rattle.tf_walk_workers.specs.Calls.{HasParts};

use crate::call_record::CallRecord;
use crate::cells::Cells;
use crate::walk_brand::WalkBrand;
use std::alloc::{AllocError, Global};
use tf_tally::{Part, Tally};
use tf_walk_action::{ActionResult, Served, not_ended};

/// The cells of some actions, and the list into which results are moved from them. A result can't be dropped, so
/// neither can this.
pub struct ResultCells<N: WalkBrand> {
    /// The cells.
    pub cells: Cells<N>,
    /// The list.
    pub results: Vec<Option<ActionResult>>,
}

impl<N: WalkBrand> ResultCells<N> {
    /// Allocates the given number of empty cells, and the list. Each cell takes one part of the walk's tally, split off the
    /// given part.
    ///
    /// # Errors
    ///
    /// Fails only if memory runs out.
    pub fn new(
        alloc: Global,
        tally: &Tally<CallRecord>,
        part: &mut Part<CallRecord>,
        count: usize,
    ) -> Result<ResultCells<N>, AllocError>
        requires tally { tally.now ≡ N.table }
        requires part { HasParts N.table part.old.holding.parts [] [] part.old }
        requires enough { count < part.old.holding.parts }
        ensures cells { IfOk result (λ result_cells. result_cells.cells ≡ count) }
        ensures results { IfOk result (λ result_cells. result_cells.results.items ≡ replicate count None) }
        ensures part { IfOk result (λ _. HasParts N.table (part.old.holding.parts - count) [] [] part.new) }
        ensures whole { IfOk result (λ _. part.new.holding.whole ≡ part.old.holding.whole) }
    {
        let results = Vec::with_capacity(alloc, count)?;
        match Cells::new(alloc, tally, part, count) {
            Ok(cells) => Ok(ResultCells {
                cells,
                results: not_ended(results, count),
            }),
            Err(AllocError) => {
                results.destroy_empty();
                Err(AllocError)
            }
        }
    }

    /// Discards the cells before any action has a result.
    pub fn discard(self, tally: &Tally<CallRecord>, part: &mut Part<CallRecord>)
        requires tally { tally.now ≡ N.table }
        requires part { part.old.table ≡ N.table }
        requires results { self.results.items ≡ replicate self.cells None }
    {
        let ResultCells { cells, mut results } = self;
        cells.take_out(tally, part, &mut results);
        while let Some(popped) = results.pop() {
            match popped {
                Some(ended) => forget(ended),
                None => {}
            }
        }
        results.destroy_empty();
    }
}

/// Discards the result of an action.
fn forget(ended: ActionResult) {
    match ended {
        ActionResult::Called(
            Served {
                call,
                message: _,
                in_time: _,
            },
        ) => {
            let (_request, _reply) = call.into_report();
        }
        ActionResult::Faulted(_, _) | ActionResult::Left(_, _) => {}
        ActionResult::Skipped(_, _)
        | ActionResult::NotAsked(_, _)
        | ActionResult::NotServed(_, _) => {}
    }
}
