//! The parts of values that are unknown, and those that are sets.

ghost use Rattle.std.specs.Prelude.{◌≡◌};
ghost use Rattle.tf_value_data.specs.Parts.{has_only, items_have_only, entries_have_only};
ghost use Rattle.tf_value_data.specs.Tree.{tree_of, items_view, entries_view};

use crate::value::{Entries, Value};

/// Which parts of a value are meant: unknown parts, sets, both or neither.
#[derive(Clone, Copy)]
pub(crate) struct Parts {
    pub(crate) unknowns: bool,
    pub(crate) sets: bool,
}

/// Returns whether a value has unknown parts only if `allowed` names these, and sets only if it names those.
#[cycle(only)]
pub(crate) fn has_only(value: &Value, allowed: Parts) -> bool
    ensures { result ≡ has_only allowed.unknowns allowed.sets (tree_of value.now) }
{
    match value {
        Value::Null | Value::Bool(_) | Value::Int(_) | Value::Text(_) => true,
        Value::List(items) => items_have_only(items, allowed),
        Value::Map(entries) => entries_have_only(entries, allowed),
        Value::Set(_) => allowed.sets,
        Value::Unknown => allowed.unknowns,
    }
}

#[cycle(only)]
fn items_have_only(items: &Vec<Value>, allowed: Parts) -> bool
    ensures { result ≡ items_have_only allowed.unknowns allowed.sets (items_view items.now.items) }
{
    for item in items {
        if !has_only(item, allowed) {
            return false;
        }
    }
    true
}

/// Like `has_only`, for each value of a map's entries.
#[cycle(only)]
pub(crate) fn entries_have_only(entries: &Entries, allowed: Parts) -> bool
    ensures { result ≡ entries_have_only allowed.unknowns allowed.sets (entries_view entries.now.entries) }
{
    for (_, value) in entries.iter() {
        if !has_only(value, allowed) {
            return false;
        }
    }
    true
}
