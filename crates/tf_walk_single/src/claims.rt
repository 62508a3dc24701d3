//! Claims on the actions of a book, by one thread.

ghost use Rattle.std.specs.Prelude.{◌≡◌, ◌<◌, ℕ, true, false, IfSome, MatchOption};
ghost use Rattle.tf_claim.specs.Ledger.{IsKept, is_claimable, is_taken, moved, stage_in};
ghost use Rattle.tf_claim.specs.declared.book.Stage.TheVariants as stage;
ghost use Rattle.tf_walk_single.specs.Next.{IsNext};

use tf_claim::{Book, Finished, Permit};

/// Takes the first action from an index on that may be claimed, or else the first one before it, and returns its
/// permit. Returns `None` if no action may be claimed.
pub fn next_permit(book: &mut Book, from: usize) -> Option<Permit>
    ensures claimed { MatchOption result
        ((book.new ≡ book.old) × ((n : ℕ) → n < book.old.graph.nodes → is_claimable book.old n ≡ false))
        (λ permit. (permit < book.old.graph.nodes) × (is_claimable book.old permit ≡ true)
        × (book.new ≡ moved book.old permit stage.Taken)) }
    ensures next { IfSome result (IsNext book.old from) }
    ensures kept { IsKept book.new }
{
    let count = book.graph().nodes();
    let start = from.min(count);
    for action in start..count {
        if let Some(permit) = book.claim(action) {
            return Some(permit);
        }
    }
    for action in 0..start {
        if let Some(permit) = book.claim(action) {
            return Some(permit);
        }
    }
    None
}

/// Reports a taken action as done.
pub fn close(book: &mut Book, finished: Finished)
    requires { is_taken (stage_in book.old.stages finished) ≡ true }
    ensures { book.new ≡ moved book.old finished stage.Done }
{
    match book.finish(finished) {
        Ok(()) => {}
        Err(_) => unreachable!(),
    }
}
