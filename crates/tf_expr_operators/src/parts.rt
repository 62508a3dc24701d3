//! Attributes and indices.

ghost use Rattle.tf_value_data.specs.Tree.{list, map, tree_of, items_view, entries_view, get};
ghost use Rattle.tf_expr_operators.specs.Answer.{Answers, present_value};
ghost use Rattle.tf_expr_operators.specs.Parts.{attribute_value, index_value, item_at_whole};

use std::collections::BTreeMap;
use tf_expr_syntax::EvalFault;
use tf_value_data::Value;

/// Returns the value at a name of a map, and `Unknown` for `Unknown`. Fails with `WrongKind` exactly if the value is
/// of another kind, and with `Missing` exactly if the map lacks the name.
pub fn attribute(value: Value, name: &str) -> Result<Value, EvalFault>
    ensures { Answers (attribute_value (tree_of value) name.now) result }
{
    match value {
        Value::Unknown => Ok(Value::Unknown),
        Value::Map(entries) => at_key(entries, name),
        _ => Err(EvalFault::WrongKind),
    }
}

/// Returns the value at a text of a map, or at a whole number, from 0 on, of a list. Returns `Unknown` if either
/// operand is `Unknown`. Fails with `WrongKind` exactly if the operands are of other kinds, and with `Missing`
/// exactly if there is no such key or item. A negative number isn't counted from the end.
pub fn index(value: Value, place: &Value) -> Result<Value, EvalFault>
    ensures { Answers (index_value (tree_of value) (tree_of place.now)) result }
{
    match value {
        Value::Unknown => Ok(Value::Unknown),
        Value::Map(entries) => in_map(entries, place),
        Value::List(items) => in_list(items, place),
        _ => match place {
            Value::Unknown => Ok(Value::Unknown),
            _ => Err(EvalFault::WrongKind),
        },
    }
}

fn in_map(entries: BTreeMap<String, Value>, place: &Value) -> Result<Value, EvalFault>
    ensures { Answers (index_value (map (entries_view entries.entries)) (tree_of place.now)) result }
{
    match place {
        Value::Unknown => Ok(Value::Unknown),
        Value::Text(key) => at_key(entries, key.as_str()),
        _ => Err(EvalFault::WrongKind),
    }
}

fn in_list(items: Vec<Value>, place: &Value) -> Result<Value, EvalFault>
    ensures { Answers (index_value (list (items_view items.items)) (tree_of place.now)) result }
{
    match place {
        Value::Unknown => Ok(Value::Unknown),
        Value::Int(number) => at_number(items, *number),
        _ => Err(EvalFault::WrongKind),
    }
}

fn at_key(entries: BTreeMap<String, Value>, key: &str) -> Result<Value, EvalFault>
    ensures { Answers (present_value (get key.now (entries_view entries.entries))) result }
{
    let mut entries = entries;
    match entries.remove(key) {
        Some(value) => Ok(value),
        None => Err(EvalFault::Missing),
    }
}

fn at_number(items: Vec<Value>, number: i64) -> Result<Value, EvalFault>
    ensures { Answers (present_value (item_at_whole number (items_view items.items))) result }
{
    let mut items = items;
    let Ok(position) = usize::try_from(number) else {
        return Err(EvalFault::Missing);
    };
    if position < items.len() {
        Ok(items.swap_remove(position))
    } else {
        Err(EvalFault::Missing)
    }
}
