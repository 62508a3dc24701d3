//! Laws on settled names and outputs, proved for all of them: each function's contract is a law, and its body does
//! nothing.

ghost use Rattle.tf_walk_outputs.specs.OutputLaws.{EvaluatedWhereGood, OutputsAreOne, SettledAreOne, SettledExist};

/// States that, if no name needs itself, there is exactly one set of settled names.
pub fn settled_are_one()
    ensures one { SettledAreOne }
    ensures exist { SettledExist }
{}

/// States that an output is evaluated exactly if all creates and updates are good of each resource that it names itself
/// or through locals. The output then has at most one outcome, unless memory runs out.
pub fn outputs_are_one()
    ensures good { EvaluatedWhereGood }
    ensures one { OutputsAreOne }
{}
