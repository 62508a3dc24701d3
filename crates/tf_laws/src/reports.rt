//! Laws on reports. Each function's contract is a law that holds for all reports. Its body only calls the laws that its proof
//! uses.

ghost use Rattle.tf_laws.specs.Called.{CalledAfterGood, EnteredAfterGood, JudgedAfterGood};
ghost use Rattle.tf_laws.specs.Excuses.{ExcusedAreNamed, ExcusesAreDue, NamedOnce};
ghost use Rattle.tf_laws.specs.Founded.{FittingPlansAreFounded};
ghost use Rattle.tf_laws.specs.Journals.{JournalsAgree};
ghost use Rattle.tf_laws.specs.One.{ReportsAreOne};
ghost use Rattle.tf_laws.specs.Planned.{PlansAreFounded};

use tf_state_next::laws::state_after_is_one;
use tf_state_next::object_laws::keys_are_free;
use tf_walk_action::laws::requests_exist;
use tf_walk_outputs::output_laws::{outputs_are_one, settled_are_one};

/// A plan meets the premise of the other laws (`IsFounded`) if its parts fit together and its order has no cycle, or if it is
/// planned from a valid state and no name of its configuration needs itself.
pub fn plans_are_founded()
    ensures fitting { FittingPlansAreFounded }
    ensures planned { PlansAreFounded }
{}

/// If two reports on a plan have the same excuses, each action has the same outcome, request, answer and verdict in both, and
/// each output the same result. Their outcomes, state, diagnostics and numbers of good actions are equal.
pub fn reports_are_one()
    ensures { ReportsAreOne }
{
    requests_exist();
    settled_are_one();
    outputs_are_one();
    keys_are_free();
    state_after_is_one();
}

/// If two whole reports on a plan have the same excuses, their journals have the same entries, up to the order.
pub fn journals_agree()
    ensures { JournalsAgree }
{
    reports_are_one();
}

/// Each excuse names an action that was excused at that moment, or an output that was to be evaluated and ran out of memory. No
/// two excuses name the same action or output, and each excused action is named.
pub fn excuses_are_due()
    ensures due { ExcusesAreDue }
    ensures once { NamedOnce }
    ensures named { ExcusedAreNamed }
{}

/// An action is called only after good ones: each action directly before it is good, and has an earlier entry in the journal.
pub fn calls_follow_good_ones()
    ensures called { CalledAfterGood }
    ensures judged { JudgedAfterGood }
    ensures entered { EnteredAfterGood }
{}
