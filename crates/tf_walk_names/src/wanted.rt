//! Which names are wanted.

ghost use Rattle.std.specs.List.{AllByRecursion};
ghost use Rattle.std.specs.Prelude.{◌≡◌, ◌<◌, ◌↔◌, ◌⊎◌, ℕ, IfOk, true, false, length, replicate, Contains};
ghost use Rattle.tf_expand_keys.specs.Words.{directly_before, has, meant_at, names_in};
ghost use Rattle.tf_walk_names.specs.Wanted.{IsWanted, is_local};

use std::alloc::{AllocError, Global};
use tf_config_names::Declaration;
use tf_expand_keys::{Module, mark, none_marked};

/// Returns for each index whether the name there is wanted: it is at one of these indexes, or the expression of a
/// wanted local names it.
pub(crate) fn wanted_by(
    alloc: Global,
    declared: &Module,
    others: &[usize],
) -> Result<Vec<bool>, AllocError>
    requires within { AllByRecursion (λ n. n < length (names_in declared.now.names.now)) others.now }
    ensures length { IfOk result (λ wanted. length wanted.items ≡ length (names_in declared.now.names.now)) }
    ensures wanted { IfOk result (λ wanted. (n : ℕ) → (has wanted.items n ≡ true) ↔ IsWanted (names_in declared.now.names.now) others.now n) }
{
    let order = declared.parts.dependence.order();
    let mut wanted = none_marked(alloc, declared.parts.names.len())?;
    mark(wanted.as_mut_slice(), others);
    for index in (0..order.len()).rev() {
        mark_named(declared, wanted.as_mut_slice(), order[index]);
    }
    Ok(wanted)
}

/// Marks the names in the expression at an index, if that is the index of a marked local.
fn mark_named(declared: &Module, wanted: &mut [bool], place: usize)
    requires length { length wanted.old ≡ length (names_in declared.now.names.now) }
    requires place { place < length (names_in declared.now.names.now) }
    ensures length { length wanted.new ≡ length wanted.old }
    ensures marked { (n : ℕ) → (has wanted.new n ≡ true) ↔ ((has wanted.old n ≡ true)
        ⊎ ((has wanted.old place ≡ true) × (is_local (meant_at (names_in declared.now.names.now) place) ≡ true) × Contains (directly_before (names_in declared.now.names.now) place) n)) }
{
    if !wanted[place] {
        return;
    }
    match declared.parts.names.at(place) {
        Declaration::Local(_, _) => mark(wanted, declared.parts.dependence.before(place)),
        Declaration::Resource(_, _) => {}
    }
}
