//! Laws on plans and refusals.

ghost use Rattle.tf_laws.specs.Plans.{PlannedOrRefused, PlansAreNotRefused, PlansAreOne, PlanTextsAreOne, RefusalsAreOne};

/// A configuration, values of its variables and a prior state have at most one plan, and that plan has one text.
pub fn plans_are_one()
    ensures plans { PlansAreOne }
    ensures texts { PlanTextsAreOne }
{}

/// If there is a plan, nothing is refused.
pub fn plans_are_not_refused()
    ensures { PlansAreNotRefused }
{}

/// A configuration, values of its variables and a prior state have at most one list of refusals, in one order.
pub fn refusals_are_one()
    ensures { RefusalsAreOne }
{}

/// If no name of a configuration needs itself, there is a plan or a list of refusals.
pub fn planned_or_refused()
    ensures { PlannedOrRefused }
{}
