//! Laws of operations, proved for all operands. Each function's contract is a law, and its body is empty.

ghost use Rattle.tf_expr_operators.specs.Laws.{UnaryGrows, BinaryGrows, AttributeGrows, IndexGrows, ListGrows, MapGrows, JoinedGrows, CallGrows, OperatorsAreWithinLimits, PartsAreWithinLimits, CollectionsAreWithinLimits, CallsAreWithinLimits, LaterMapWins, SetHasTheTexts, OperatorsKeepKnown, PartsKeepKnown, CollectionsKeepKnown, CallsKeepKnown};

/// If the operand of a prefix operator refines to another value, the result for the one refines to the result for the
/// other.
pub fn unary_grows()
    ensures { UnaryGrows }
{}

/// If the operands of a binary operator refine to others, the result for the ones refines to the result for the
/// others.
pub fn binary_grows()
    ensures { BinaryGrows }
{}

/// If a value and an index refine to others, the part at a name or at the index refines to the part of the others.
pub fn parts_grow()
    ensures attribute { AttributeGrows }
    ensures index { IndexGrows }
{}

/// If the items of a list or the entries of a map refine to others, so do the list and the map.
pub fn collections_grow()
    ensures list { ListGrows }
    ensures map { MapGrows }
{}

/// If values refine to others, their joined text refines to that of the others.
pub fn joined_grows()
    ensures { JoinedGrows }
{}

/// If the arguments of a function refine to others, the result for the ones refines to the result for the others.
pub fn calls_grow()
    ensures { CallGrows }
{}

/// The result of an operation on operands within the limits of weight and depth is within the limits.
pub fn answers_are_within_limits()
    ensures operators { OperatorsAreWithinLimits }
    ensures parts { PartsAreWithinLimits }
    ensures collections { CollectionsAreWithinLimits }
    ensures calls { CallsAreWithinLimits }
{}

/// When maps are merged, a later one's values win at its keys, and earlier ones' values remain at the other keys.
pub fn later_map_wins()
    ensures { LaterMapWins }
{}

/// The set of a list has exactly the list's texts, each once and in byte order.
pub fn sets_have_their_texts()
    ensures { SetHasTheTexts }
{}

/// The result of an operation on operands without an unknown part has none.
pub fn known_stays_known()
    ensures operators { OperatorsKeepKnown }
    ensures parts { PartsKeepKnown }
    ensures collections { CollectionsKeepKnown }
    ensures calls { CallsKeepKnown }
{}
