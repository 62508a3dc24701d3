//! The user's approval of a plan.

use tf_plan_diff::Colours;

/// Whether a plan is carried out only if the user approves it, and the question.
pub trait Approval {
    /// Returns the colours in which a plan with old values is shown.
    fn colours(&self) -> Colours;

    /// Returns whether the user is asked.
    fn is_asked(&self) -> bool;

    /// Asks the user, and returns whether the plan is approved.
    fn approves(&self) -> bool;
}

/// The approval where nobody is asked, and plans have no colours.
#[derive(Drop)]
pub struct Unasked;

impl Approval for Unasked {
    fn colours(&self) -> Colours {
        Colours::Plain
    }

    fn is_asked(&self) -> bool {
        false
    }

    fn approves(&self) -> bool {
        true
    }
}
