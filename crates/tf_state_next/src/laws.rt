//! Laws on the state after an apply, proved for all of them: each function's contract is a law, and its body does nothing.

ghost use Rattle.tf_state_next.specs.Laws.{StateAfterIsOne, StateAfterIsValid};

/// States that at most one state follows from the outcomes of the actions.
pub fn state_after_is_one()
    ensures { StateAfterIsOne }
{}

/// States that the state after a valid state is valid, if what was recorded may be part of a valid state and the
/// outputs may be stored.
pub fn state_after_is_valid()
    ensures { StateAfterIsValid }
{}
