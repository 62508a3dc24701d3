//! Lists and maps of values, and the limits on values.

ghost use Rattle.tf_value_data.specs.Tree.{tree_of, items_view, entries_view};
ghost use Rattle.tf_expr_operators.specs.Answer.{Answers, Shows, limited as limited_value, list_value, map_value};

use std::collections::BTreeMap;
use tf_expr_syntax::EvalFault;
use tf_value_data::{Value, is_within_limits};

/// Returns the value itself. Fails with `TooLarge` exactly if it is above the limits on weight or depth.
pub fn limited(value: Value) -> Result<Value, EvalFault>
    ensures { Answers (limited_value (tree_of value)) result }
{
    if is_within_limits(&value) {
        Ok(value)
    } else {
        Err(EvalFault::TooLarge)
    }
}

/// Like `limited`, for a borrowed value.
pub fn limited_at(value: &Value) -> Result<&Value, EvalFault>
    ensures { Shows (limited_value (tree_of value.now)) result }
{
    if is_within_limits(value) {
        Ok(value)
    } else {
        Err(EvalFault::TooLarge)
    }
}

/// Makes a list of values, which may be unknown. Fails with `TooLarge` exactly if it is above the limits.
pub fn list(items: Vec<Value>) -> Result<Value, EvalFault>
    ensures { Answers (list_value (items_view items.items)) result }
{
    limited(Value::List(items))
}

/// Makes a map of values, which may be unknown. Fails with `TooLarge` exactly if it is above the limits.
pub fn map(entries: BTreeMap<String, Value>) -> Result<Value, EvalFault>
    ensures { Answers (map_value (entries_view entries.entries)) result }
{
    limited(Value::Map(entries))
}
