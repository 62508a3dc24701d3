//! The cells of a walk.

ghost use Rattle.std.specs.Prelude.{◌≡◌, ◌+◌, ◌-◌, ◌<◌, ℕ, [], None, IfOk, IfSome, IsTrue, MatchResult, length, replicate, slice_index_or, slice_set, vec_len};
ghost use Rattle.counted_slot.specs.Counting.{IsTurn};
ghost use Rattle.tf_walk_action.specs.ResultViews.{action_results_of, ended_action};
ghost use Rattle.tf_walk_action.specs.Outcome.{done_at};
ghost use Rattle.tf_walk_workers.specs.Calls.{HasParts, IsGathered, reported_by};
ghost use Rattle.tf_walk_workers.specs.Ideal.{IsEndOf, IsTrueTo, IsNumbered};

use crate::call_record::CallRecord;
use crate::kept::CellResult;
use crate::reading::Reading;
use crate::walk_brand::WalkBrand;
use counted_slot::{Counted, FREE, MOST_READERS, ONE_READER, PRESENT, TAKEN};
use std::alloc::{AllocError, Global};
use std::marker::{Model, PhantomData};
use std::mem;
use tf_tally::{Part, Tally};
use tf_walk_action::ActionResult;

/// One cell for each action of a plan. An action's result is published in its cell, and read from there, without a
/// lock. Contracts see the number of cells.
pub struct Cells<N: WalkBrand> {
    cells: Vec<Counted<CellResult<N>>>,
}

impl<N: WalkBrand> Model for Cells<N> {
    ghost Value = { ℕ };

    ghost view = { λ s. vec_len s.cells };

    ghost invariant = { λ s. IsNumbered s.cells.items };
}

impl<N: WalkBrand> Cells<N> {
    /// Allocates the given number of empty cells. Each takes one part of the walk's tally, split off the given part.
    ///
    /// # Errors
    ///
    /// Fails only if memory runs out.
    pub fn new(
        alloc: Global,
        tally: &Tally<CallRecord>,
        part: &mut Part<CallRecord>,
        count: usize,
    ) -> Result<Cells<N>, AllocError>
        requires tally { tally.now ≡ N.table }
        requires part { HasParts N.table part.old.holding.parts [] [] part.old }
        requires enough { count < part.old.holding.parts }
        ensures cells { IfOk result (λ cells. cells ≡ count) }
        ensures part { IfOk result (λ _. HasParts N.table (part.old.holding.parts - count) [] [] part.new) }
        ensures whole { IfOk result (λ _. part.new.holding.whole ≡ part.old.holding.whole) }
    {
        let mut cells = Vec::with_capacity(alloc, count)?;
        for n in 0..count {
            let empty = CellResult {
                ended: None,
                part: tally.split_off(part),
                of: PhantomData,
            };
            cells.push_reserved(Counted::new(empty, &n));
        }
        Ok(Cells { cells })
    }

    /// Returns the cell of an action.
    fn cell(&self, action: usize) -> &Counted<CellResult<N>>
        requires { action < self.now }
        ensures { result.now ≡ action }
    {
        &self.cells[action]
    }

    /// Publishes a result of an action, which is true of it, together with the part that reports the action's call. Returns
    /// the part that the cell had, which reports no call.
    ///
    /// # Errors
    ///
    /// Fails with the result that isn't in the cell, and the part that reports its call, if a result was already published
    /// for the action, or is being published.
    pub fn publish(
        &self,
        action: usize,
        ended: ActionResult,
        part: Part<CallRecord>,
    ) -> Result<Part<CallRecord>, Unpublished>
        requires action { action < self.now }
        requires own { IsEndOf N.meanings N.plan action ended }
        requires part { HasParts N.table 1 [] (reported_by ended) part }
        ensures { MatchResult result
            (HasParts N.table 1 [] [])
            (λ left. IsEndOf N.meanings N.plan action left.ended × HasParts N.table 1 [] (reported_by left.ended) left.part) }
    {
        let (found, claim) = self.cell(action).turn(FREE, TAKEN);
        if found != FREE {
            claim.done();
            return Err(Unpublished { ended, part });
        }
        let kept = CellResult {
            ended: Some(ended),
            part,
            of: PhantomData,
        };
        let CellResult { ended, part, of: _ } = claim.put(kept, PRESENT);
        match ended {
            None => Ok(part),
            Some(ended) => Err(Unpublished { ended, part }),
        }
    }

    /// Reads the result of an action, if it can be read.
    pub fn read(&self, action: usize) -> Option<Reading<'_, N>>
        requires { action < self.now }
        ensures { IfSome result (λ reading. reading.action ≡ action) }
    {
        let cell = self.cell(action);
        for _ in 0..u64::MAX {
            let seen = cell.load();
            if !may_be_read(seen) {
                return None;
            }
            let (found, claim) = cell.turn(seen, seen + ONE_READER);
            if found == seen {
                return Reading::of(action, claim);
            }
            claim.done();
        }
        None
    }

    /// Moves each published result to the place of its action in a list, and merges the parts of all cells into the given
    /// part.
    pub fn take_out(
        self,
        tally: &Tally<CallRecord>,
        part: &mut Part<CallRecord>,
        results: &mut [Option<ActionResult>],
    )
        requires tally { tally.now ≡ N.table }
        requires part { part.old.table ≡ N.table }
        requires results { results.old ≡ replicate self None }
        ensures length { length results.new ≡ self }
        ensures own { (n : ℕ) → IfSome (slice_index_or results.new n None) (λ ended. ended_action ended ≡ n) }
        ensures gathered { IsGathered self results.new part.old part.new }
        ensures fits { (n : ℕ) → IsTrueTo N.meanings N.plan n (done_at (action_results_of results.new) n) }
    {
        let Self { mut cells } = self;
        while let Some(cell) = cells.pop() {
            let CellResult {
                ended,
                part: own,
                of: _,
            } = cell.into_inner();
            tally.merge(part, own);
            place(results, cells.len(), ended);
        }
        cells.destroy_empty();
    }
}

/// A result of an action that couldn't be published, and the part that reports the action's call.
pub struct Unpublished {
    /// The result.
    pub ended: ActionResult,
    /// The part.
    pub part: Part<CallRecord>,
}

/// Returns whether another reader may read a cell with this word.
fn may_be_read(word: u64) -> bool
    ensures { IsTrue result → IsTurn word (word + 4) }
{
    word % ONE_READER == PRESENT && word % 0x1_0000_0000 / ONE_READER < MOST_READERS
}

/// Stores an action's result, if there is one, in its place, which is empty.
fn place(results: &mut [Option<ActionResult>], action: usize, ended: Option<ActionResult>)
    requires action { action < length results.old }
    requires free { slice_index_or results.old action None ≡ None }
    ensures { results.new ≡ slice_set results.old action ended }
{
    match mem::replace(&mut results[action], ended) {
        None => {}
        Some(_) => unreachable!(),
    }
}
