//! A law on the changes of outputs, proved for all plans: the function's contract is the law, and its body does nothing.

ghost use Rattle.tf_plan_outputs.specs.Laws.{ChangesAreOne};

/// States that a plan has at most one list of changes of outputs.
pub fn changes_are_one()
    ensures { ChangesAreOne }
{}
