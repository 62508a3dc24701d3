//! Values within the limits.

ghost use Rattle.tf_value_data.specs.Measure.{IsWithinLimits};
ghost use Rattle.tf_value_data.specs.Tree.{tree_of};

use tf_expr_syntax::EvalFault;
use tf_value_data::{Value, is_within_limits};

/// A value within the limits on weight and depth. It is measured only once.
#[derive(Debug, Drop)]
pub struct Bounded {
    value: Value,
    pub ghost within: { IsWithinLimits (tree_of value) },
}

impl Bounded {
    ghost use Rattle.std.specs.Prelude.{◌≡◌, Ok};
    ghost use Rattle.tf_value_data.specs.Measure.{IsWithinLimits};
    ghost use Rattle.tf_value_data.specs.Tree.{tree_of};
    ghost use Rattle.tf_expr_operators.specs.Answer.{limited};
    ghost use Rattle.tf_expr_operators.specs.Bounded.{AnswersBounded, bounded_tree};

    /// Wraps a value. Fails with `TooLarge` exactly if it is above the limits.
    pub fn new(value: Value) -> Result<Bounded, EvalFault>
        ensures { AnswersBounded (limited (tree_of value)) result }
    {
        if is_within_limits(&value) {
            Ok(Bounded { value })
        } else {
            Err(EvalFault::TooLarge)
        }
    }

    /// Wraps a value without measuring it. Requires that it is within the limits.
    pub fn of(value: Value) -> Bounded
        requires { IsWithinLimits (tree_of value) }
        ensures { bounded_tree result ≡ tree_of value }
    {
        Bounded { value }
    }

    /// Returns a reference to the value.
    pub fn value(&self) -> &Value
        ensures same { tree_of result.now ≡ bounded_tree self.now }
        ensures within { limited (bounded_tree self.now) ≡ Ok (tree_of result.now) }
    {
        &self.value
    }
}
