//! Laws on decisions.

ghost use Rattle.tf_plan_decision.specs.Laws.{AnswersStay, BesideEqualNothingIsDone, BesidePlannedNothingIsDone, CreatesAreFirst, FitsExactly, GoodRepliesFit, GoodRepliesStay, NothingIsDoneBesideEqual, PreventedStay, ReplacesHaveACause, UpdatesDiffer};

/// A create has no prior object. An update differs from the prior object in some attribute, and in none whose change
/// replaces the object. A replace asks for what is planned, and either its prior object is tainted, or it names an
/// attribute that differs and whose change replaces the object.
pub fn changes_have_a_cause()
    ensures creates { CreatesAreFirst }
    ensures updates { UpdatesDiffer }
    ensures replaces { ReplacesHaveACause }
{}

/// With `prevent_destroy` no decision replaces an object.
pub fn prevented_objects_stay()
    ensures { PreventedStay }
{}

/// A prior object that fits its schema was written with the schema's version, and has exactly its attributes, each with
/// an allowed value.
pub fn fitting_objects_have_attributes()
    ensures { FitsExactly }
{}

/// Nothing is done exactly if the prior object isn't tainted and equals the planned one with what is kept. So nothing
/// is done if it equals the planned one.
pub fn nothing_is_done_beside_equal()
    ensures only { NothingIsDoneBesideEqual }
    ensures there { BesideEqualNothingIsDone }
    ensures planned { BesidePlannedNothingIsDone }
{}

/// If a requested object got a good reply, the same plan doesn't request it again. The object in the reply fits the schema, and by what
/// was planned before, nothing is done about it, if all of that is known except for what is kept. So the state after a good apply plans
/// nothing again.
pub fn good_replies_stay()
    ensures fits { GoodRepliesFit }
    ensures change { GoodRepliesStay }
    ensures decision { AnswersStay }
{}
