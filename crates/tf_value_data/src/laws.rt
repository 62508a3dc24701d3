// Laws of values, proved for every value: each function's contract is a law, and its body does nothing.
ghost use Rattle.tf_value_data.specs.Laws.{RefinementIsReflexive, RefinementIsTransitive, RefinementIsAntisymmetric, KnownStays, PartsRefine, SameIsEquality, LimitsDecide, PutIsFound, PutLeavesOthers, RefinedIsRefinement, NullsAreKnown, KnownKeepsItself, NullsRefine, NullsMeasureTheSame, NullsMayBeStored, ListsAreNoSets, NoSetKeepsItself, ListsAreAsKnown, ListsRefine, ListsMeasureTheSame, ListsMayBePlanned, ListsMayBeStored, StoredIsTested, PutKeepsTable, ScalarIsKnown};

/// Refinement is an order: each value refines to itself, refinements follow one another, and two values that
/// refine to each other are equal. `refined` tests it.
pub fn refinement_is_an_order()
    ensures reflexive { RefinementIsReflexive }
    ensures transitive { RefinementIsTransitive }
    ensures antisymmetric { RefinementIsAntisymmetric }
    ensures tested { RefinedIsRefinement }
{}

/// A known value refines to itself alone.
pub fn known_values_stay()
    ensures { KnownStays }
{}

/// If one value refines to another, a whole with the one as a part refines to that whole with the other as the part.
pub fn parts_refine()
    ensures { PartsRefine }
{}

/// `==` decides whether two values are the same tree.
pub fn equality_is_of_trees()
    ensures { SameIsEquality }
{}

/// A value is beyond the limits exactly if it isn't within them.
pub fn limits_decide()
    ensures { LimitsDecide }
{}

/// A put at a key of a map is found there, and the other keys keep their values.
pub fn puts_are_found()
    ensures found { PutIsFound }
    ensures others { PutLeavesOthers }
{}

/// If null replaces each unknown part of a value, the result is known, and the value refines to the result. A known value isn't
/// changed. The result has the weight and the depth of the value.
pub fn nulls_stand_for_unknowns()
    ensures known { NullsAreKnown }
    ensures stays { KnownKeepsItself }
    ensures refines { NullsRefine }
    ensures measures { NullsMeasureTheSame }
{}

/// If a list replaces each set in a value, the result has no set; a value without sets isn't changed. The result has the weight and the
/// depth of the value, and is known exactly if the value is. If one value refines to another, their results do too. The result of a
/// value within the limits may be planned for an attribute, and stored if it is also known.
pub fn lists_stand_for_sets()
    ensures no_set { ListsAreNoSets }
    ensures stays { NoSetKeepsItself }
    ensures known { ListsAreAsKnown }
    ensures refines { ListsRefine }
    ensures measures { ListsMeasureTheSame }
    ensures planned { ListsMayBePlanned }
    ensures stored { ListsMayBeStored }
{}

/// `may_be_stored` decides whether a value may be stored. A value that may be planned may be stored with null for its
/// unknown parts. A table stays one if a value that may be stored is put in.
pub fn stored_values_are_known()
    ensures tested { StoredIsTested }
    ensures nulls { NullsMayBeStored }
    ensures tables { PutKeepsTable }
{}

/// A value with a scalar text is known.
pub fn scalars_are_known()
    ensures { ScalarIsKnown }
{}
