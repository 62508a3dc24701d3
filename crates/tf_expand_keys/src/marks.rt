//! Places that are marked.

ghost use Rattle.std.specs.List.{AllByRecursion};
ghost use Rattle.std.specs.Prelude.{◌≡◌, ◌<◌, ◌↔◌, ◌⊎◌, ℕ, IfOk, true, false, length, replicate, Contains};
ghost use Rattle.tf_graph.specs.NodeSet.{has};

use std::alloc::{AllocError, Global};

/// Returns `count` places without a mark.
///
/// # Errors
///
/// Fails only if memory runs out.
pub fn none_marked(alloc: Global, count: usize) -> Result<Vec<bool>, AllocError>
    ensures { IfOk result (λ marked. marked.items ≡ replicate count false) }
{
    vec![in alloc; false; count]
}

/// Marks places.
pub fn mark(marked: &mut [bool], places: &[usize])
    requires within { AllByRecursion (λ n. n < length marked.old) places.now }
    ensures length { length marked.new ≡ length marked.old }
    ensures marked { (n : ℕ) → (has marked.new n ≡ true) ↔ ((has marked.old n ≡ true) ⊎ Contains places.now n) }
{
    for place in places {
        marked[*place] = true;
    }
}

/// Checks whether a place is marked.
pub fn is_marked(marked: &[bool], place: usize) -> bool
    ensures { result ≡ has marked.now place }
{
    place < marked.len() && marked[place]
}
