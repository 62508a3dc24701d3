//! Values with null for what is unknown.

ghost use Rattle.std.specs.Prelude.{◌≡◌, true, false};
ghost use Rattle.tf_value_data.specs.Nulls.{with_nulls, entries_with_nulls};
ghost use Rattle.tf_value_data.specs.Parts.{items_rewritten};
ghost use Rattle.tf_value_data.specs.Tree.{tree_of, items_view, entries_view};

use crate::value::{Entries, Value};
use std::mem;

/// Replaces each unknown part of a value by null. Allocates nothing.
#[cycle(nulls)]
pub fn with_nulls(value: Value) -> Value
    ensures { tree_of result ≡ with_nulls (tree_of value) }
{
    match value {
        Value::Null => Value::Null,
        Value::Bool(truth) => Value::Bool(truth),
        Value::Int(number) => Value::Int(number),
        Value::Text(text) => Value::Text(text),
        Value::List(items) => Value::List(items_with_nulls(items)),
        Value::Map(entries) => Value::Map(entries_with_nulls(entries)),
        Value::Set(texts) => Value::Set(texts),
        Value::Unknown => Value::Null,
    }
}

#[cycle(nulls)]
fn items_with_nulls(mut items: Vec<Value>) -> Vec<Value>
    ensures { items_view result.items ≡ items_rewritten true false (items_view items.items) }
{
    for index in 0..items.len() {
        let item = mem::replace(&mut items[index], Value::Null);
        items[index] = with_nulls(item);
    }
    items
}

/// Replaces each value and keeps the entries in place.
#[cycle(nulls)]
fn entries_with_nulls(mut entries: Entries) -> Entries
    ensures { entries_view result.entries ≡ entries_with_nulls (entries_view entries.entries) }
{
    entries.retain(
        |_, value|
            ensures kept { result ≡ true }
            ensures nulls { tree_of value.new ≡ with_nulls (tree_of value.old) }
        {
            let known = with_nulls(mem::replace(value, Value::Null));
            *value = known;
            true
        },
    );
    entries
}
