//! Laws of the definitions.

ghost use Rattle.tf_expr_json.specs.Laws.{ExpressionIsFaultless, ExpressionIsOne, FaultlessIsExpression, FaultyIsNone, FirstPlaceIsOne};

/// A JSON tree is an expression exactly if all its checks are met, and it is at most one expression.
#[tactic(auto, using(crate::proofs::Faultless::expr_met, crate::proofs::Faultless::expr_from_met, crate::proofs::Faultless::expr_one))]
pub fn faultless_trees_are_expressions()
    ensures faultless { ExpressionIsFaultless }
    ensures stands { FaultlessIsExpression }
    ensures one { ExpressionIsOne }
{}

/// A JSON tree with a first fault is no expression, and the first fault is at one place.
pub fn faulty_trees_are_none()
    ensures none { FaultyIsNone }
    ensures place { FirstPlaceIsOne }
{}
