//! What holds of a plan from any prior state.

ghost use Rattle.tf_plan_decision.specs.Locality.{DecidingIsLocal};

/// What a block refers to determines its value, whatever the state has.
pub fn deciding_is_local()
    ensures { DecidingIsLocal }
{}
