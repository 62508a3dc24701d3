//! Laws of expressions and their meaning.

ghost use Rattle.tf_expr.specs.WithinLimits.{ExpressionsKeepLimits, TemplatesKeepLimits};

pub use tf_expr_eval::{
    expr_knowledge_grows, knowledge_grows, meaning_is_local, values_are_within_limits,
};
pub use tf_expr_json::laws::{faultless_trees_are_expressions, faulty_trees_are_none};

/// A template and an expression mean the same if each value above the limits is replaced by `TooLarge` before they name it.
pub fn limits_keep_meanings()
    ensures templates { TemplatesKeepLimits }
    ensures expressions { ExpressionsKeepLimits }
{}
