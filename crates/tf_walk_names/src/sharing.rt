//! The values of names in an apply, computed once for all that share them.

ghost use Rattle.std.specs.List.{AllByRecursion};
ghost use Rattle.std.specs.Prelude.{◌≡◌, ◌<◌, ◌≤◌, ◌&&◌, ℕ, OnOk, true, is_some, length, not};
ghost use Rattle.tf_expand_keys.specs.Words.{entries_view, has, names_in, shapes_of, resolved_names_of};
ghost use Rattle.tf_walk_names.specs.Resolving.{AreResolvedSoFar};

use crate::resolved::RequestObjects;
use crate::resources::{are_resources, past_last};
use crate::results::Results;
use crate::wanted::wanted_by;
use std::alloc::{AllocError, Global};
use tf_expand_keys::{InstanceKeys, Module, Resolved, all_stand};

/// Adds the values of the names at some indexes, and of all names that are wanted for them, to the values so far. A
/// value that is there already isn't computed again. If memory runs out, the values computed by then stay.
pub fn add_resolved_names<R: Results>(
    alloc: Global,
    declared: &Module,
    shapes: &[InstanceKeys],
    others: &[usize],
    results: &R,
    kept: &mut Vec<Resolved>,
) -> Result<(), AllocError>
    requires within { AllByRecursion (λ n. n < length (names_in declared.now.names.now)) others.now }
    requires answered { AreResolvedSoFar (entries_view declared.now.variables.now.entries) (names_in declared.now.names.now)
        (shapes_of shapes.now) (R.objects results.now) (resolved_names_of kept.old.items) }
    ensures answered { AreResolvedSoFar (entries_view declared.now.variables.now.entries) (names_in declared.now.names.now)
        (shapes_of shapes.now) (R.objects results.now) (resolved_names_of kept.new.items) }
    ensures there { OnOk result (AllByRecursion (λ n. is_some (resolved_names_of kept.new.items n) ≡ true) others.now) }
{
    if all_stand(kept.as_slice(), others) {
        return Ok(());
    }
    let applied = RequestObjects {
        alloc,
        declared,
        shapes,
        results,
    };
    if are_resources(declared, others) {
        fill(kept, past_last(others, declared.parts.names.len()))?;
        return applied.add_resources(kept, others);
    }
    let wanted = wanted_by(alloc, declared, others)?;
    fill(kept, declared.parts.names.len())?;
    applied.add_wanted(kept, wanted.as_slice())
}

/// Makes the list at least `count` long. The added places hold no value.
fn fill(kept: &mut Vec<Resolved>, count: usize) -> Result<(), AllocError>
    ensures room { OnOk result (count ≤ length kept.new.items) }
    ensures same { (n : ℕ) → resolved_names_of kept.new.items n ≡ resolved_names_of kept.old.items n }
{
    for _ in kept.len()..count {
        kept.push(Resolved::Nothing)?;
    }
    Ok(())
}

/// Checks whether an index is wanted and has no value.
pub(crate) fn is_missing(kept: &[Resolved], wanted: &[bool], place: usize) -> bool
    ensures { result ≡ has wanted.now place && not (is_some (resolved_names_of kept.now place)) }
{
    contains(wanted, place) && !stands(kept, place)
}

/// Checks whether an index is wanted.
fn contains(wanted: &[bool], place: usize) -> bool
    ensures { result ≡ has wanted.now place }
{
    place < wanted.len() && wanted[place]
}

/// Checks whether there is a value at an index.
pub(crate) fn stands(kept: &[Resolved], place: usize) -> bool
    ensures { result ≡ is_some (resolved_names_of kept.now place) }
{
    match kept.get(place) {
        Some(resolved) => resolved.is_there(),
        None => false,
    }
}
