//! Which names are settled.

ghost use Rattle.std.specs.Prelude.{◌≡◌, ◌<◌, ℕ, length, Contains};
ghost use Rattle.tf_expand_keys.specs.Words.{directly_before, has, IsInOrder, names_in, seen_by};
ghost use Rattle.tf_walk_outputs.specs.Settled.{AreSettled, AreSettledAmong, all_settled as all_that_are, settled_rule};

use tf_config_names::Declaration;
use tf_expand_keys::Module;

/// Computes which names are settled, by index. A resource is settled if all its creates and updates are good, and a
/// local if each name that it refers to directly is settled. `good` says for each resource's index whether all its
/// creates and updates are good. A resource without actions counts as good. Takes no memory.
pub fn settle_names(declared: &Module, good: &[bool], settled: &mut [bool])
    requires good { length good.now ≡ length (names_in declared.now.names.now) }
    requires settled { length settled.old ≡ length (names_in declared.now.names.now) }
    ensures { AreSettled (names_in declared.now.names.now) (has good.now) (has settled.new) }
{
    settle_in(declared, declared.parts.dependence.order(), good, settled);
}

/// Like [`settle_names`], for the names in a list in which each comes after all that it refers to.
fn settle_in(declared: &Module, order: &[usize], good: &[bool], settled: &mut [bool])
    requires order { IsInOrder (directly_before (names_in declared.now.names.now)) order.now }
    requires within { (n : ℕ) → Contains order.now n → n < length (names_in declared.now.names.now) }
    requires good { length good.now ≡ length (names_in declared.now.names.now) }
    requires settled { length settled.old ≡ length (names_in declared.now.names.now) }
    ensures { AreSettledAmong (names_in declared.now.names.now) (has good.now) order.now (has settled.new) }
{
    for place in order {
        let is_settled = is_settled(declared, good, settled, *place);
        settled[*place] = is_settled;
    }
}

/// Checks whether the name at an index is settled, by the names that are settled so far.
fn is_settled(declared: &Module, good: &[bool], settled: &[bool], place: usize) -> bool
    requires place { place < length (names_in declared.now.names.now) }
    requires good { length good.now ≡ length (names_in declared.now.names.now) }
    ensures { result ≡ settled_rule (names_in declared.now.names.now) (has good.now) place
        (seen_by (has settled.now) (directly_before (names_in declared.now.names.now) place)) }
{
    match declared.parts.names.at(place) {
        Declaration::Local(_, _) => all_settled(settled, declared.parts.dependence.before(place)),
        Declaration::Resource(_, _) => good[place],
    }
}

/// Checks whether the names at these indexes are settled.
pub(crate) fn all_settled(settled: &[bool], places: &[usize]) -> bool
    ensures { result ≡ all_that_are (seen_by (has settled.now) places.now) }
{
    places.iter().all(|place| contains(settled, *place))
}

/// Checks whether an index is marked.
fn contains(marked: &[bool], place: usize) -> bool
    ensures { result ≡ has marked.now place }
{
    place < marked.len() && marked[place]
}
