//! Adds an index to the lists of all indexes that it reaches in a table.

ghost use Rattle.std.specs.Prelude.{◌≡◌, ◌≤◌, ◌<◌, ◌==◌, ◌&&◌, ◌++◌, ◌∷◌, [], ℕ, IfOk, IfSome, OnOk, length, if◌then◌else◌};
ghost use Rattle.tf_graph.specs.Closure.{reaches};
ghost use Rattle.tf_graph.specs.Lists.{row};
ghost use Rattle.tf_graph.specs.NodeSet.{has, IsFirstFrom};

use std::alloc::{AllocError, Global};
use tf_graph::{Closure, NodeSet};

/// Returns `count` empty lists.
pub(crate) fn empty_lists(alloc: Global, count: usize) -> Result<Vec<Vec<usize>>, AllocError>
    ensures count { IfOk result (λ lists. length lists.items ≡ count) }
    ensures rows { IfOk result (λ lists. (p : ℕ) → row lists.items p ≡ []) }
{
    let mut lists = Vec::with_capacity(alloc, count)?;
    for _ in 0..count {
        lists.push(Vec::new(alloc))?;
    }
    Ok(lists)
}

/// Adds an index to the list of each requested index that it reaches in a table.
pub(crate) fn spread(
    lists: &mut [Vec<usize>],
    table: &Closure,
    asked: &NodeSet,
    place: usize,
) -> Result<(), AllocError>
    requires { length asked.now ≤ length lists.old }
    ensures count { length lists.new ≡ length lists.old }
    ensures rows { OnOk result ((p : ℕ) → row lists.new p
        ≡ row lists.old p ++ (if reaches table.now place p && has asked.now p then place ∷ [] else [])) }
{
    let mut from = 0;
    while let Some(next) = next_common(table, asked, place, from) {
        add(lists, next, place)?;
        from = next + 1;
    }
    Ok(())
}

/// Adds an index to one of the lists.
fn add(lists: &mut [Vec<usize>], at: usize, place: usize) -> Result<(), AllocError>
    requires { at < length lists.old }
    ensures count { length lists.new ≡ length lists.old }
    ensures rows { OnOk result ((p : ℕ) → row lists.new p ≡ (if at == p then row lists.old p ++ place ∷ [] else row lists.old p)) }
{
    let own = &mut lists[at];
    own.push(place)?;
    Ok(())
}

/// Returns the first requested index from `from` on that a node reaches in a table. Skips what is between two requested
/// indexes, and what is between two reached ones.
fn next_common(table: &Closure, asked: &NodeSet, node: usize, from: usize) -> Option<usize>
    ensures first { IsFirstFrom (λ k. reaches table.now node k && has asked.now k) from result }
    ensures below { IfSome result (λ k. k < length asked.now) }
{
    let mut at = from;
    while let Some(reached) = table.first_reached(node, at) {
        let Some(next) = asked.first_from(reached) else {
            return None;
        };
        if next == reached {
            return Some(next);
        }
        at = next;
    }
    None
}
