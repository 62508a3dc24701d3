//! The values that a type takes, and their conversion to it.

ghost use Rattle.std.specs.Prelude.{◌≡◌, IfOk, option_map};
ghost use Rattle.tf_value_data.specs.Tree.{entries_view, items_view, tree_of};
ghost use Rattle.tf_config_json.specs.Types.{element_as, entries_as, fits, fitted, items_as, takes, takes_entries, takes_items, value_as};

use std::alloc::{AllocError, Global};
use std::collections::BTreeMap;
use tf_config_data::{Element, VariableType};
use tf_value_data::{Value, scalar_text};

/// Converts a value to a type. Returns `None` if the value doesn't fit. Fails only if memory runs out.
pub(crate) fn fitted(
    alloc: Global,
    value_type: VariableType,
    value: Value,
) -> Result<Option<Value>, AllocError>
    ensures { IfOk result (λ found. option_map tree_of found ≡ fitted value_type (tree_of value)) }
{
    if fits(value_type, &value) {
        Ok(Some(value_as(alloc, value_type, value)?))
    } else {
        Ok(None)
    }
}

fn fits(value_type: VariableType, value: &Value) -> bool
    ensures { result ≡ fits value_type (tree_of value.now) }
{
    match value_type {
        VariableType::One(element) => takes(element, value),
        VariableType::List(element) => match value {
            Value::Null => true,
            Value::List(items) => takes_items(element, items),
            _ => false,
        },
        VariableType::Map(element) => match value {
            Value::Null => true,
            Value::Map(entries) => takes_entries(element, entries),
            _ => false,
        },
    }
}

fn takes(element: Element, value: &Value) -> bool
    ensures { result ≡ takes element (tree_of value.now) }
{
    match element {
        Element::Any => true,
        Element::String => matches!(
            value,
            Value::Null | Value::Text(_) | Value::Int(_) | Value::Bool(_)
        ),
        Element::Number => matches!(value, Value::Null | Value::Int(_)),
        Element::Bool => matches!(value, Value::Null | Value::Bool(_)),
    }
}

fn takes_items(element: Element, items: &Vec<Value>) -> bool
    ensures { result ≡ takes_items element (items_view items.now.items) }
{
    for item in items {
        if !takes(element, item) {
            return false;
        }
    }
    true
}

fn takes_entries(element: Element, entries: &BTreeMap<String, Value>) -> bool
    ensures { result ≡ takes_entries element (entries_view entries.now.entries) }
{
    for (_, value) in entries.iter() {
        if !takes(element, value) {
            return false;
        }
    }
    true
}

fn value_as(alloc: Global, value_type: VariableType, value: Value) -> Result<Value, AllocError>
    ensures { IfOk result (λ made. tree_of made ≡ value_as value_type (tree_of value)) }
{
    match value_type {
        VariableType::One(element) => element_as(alloc, element, value),
        VariableType::List(element) => match value {
            Value::List(items) => Ok(Value::List(items_as(alloc, element, items)?)),
            other => Ok(other),
        },
        VariableType::Map(element) => match value {
            Value::Map(entries) => Ok(Value::Map(entries_as(alloc, element, entries)?)),
            other => Ok(other),
        },
    }
}

fn element_as(alloc: Global, element: Element, value: Value) -> Result<Value, AllocError>
    ensures { IfOk result (λ made. tree_of made ≡ element_as element (tree_of value)) }
{
    match element {
        Element::String => match scalar_text(alloc, &value)? {
            Some(text) => Ok(Value::Text(text)),
            None => Ok(value),
        },
        Element::Any | Element::Number | Element::Bool => Ok(value),
    }
}

fn items_as(alloc: Global, element: Element, items: Vec<Value>) -> Result<Vec<Value>, AllocError>
    ensures { IfOk result (λ made. items_view made.items ≡ items_as element (items_view items.items)) }
{
    let mut made = Vec::with_capacity(alloc, items.len())?;
    for item in items {
        made.push(element_as(alloc, element, item)?)?;
    }
    Ok(made)
}

fn entries_as(
    alloc: Global,
    element: Element,
    entries: BTreeMap<String, Value>,
) -> Result<BTreeMap<String, Value>, AllocError>
    ensures { IfOk result (λ made. entries_view made.entries ≡ entries_as element (entries_view entries.entries)) }
{
    let mut made = BTreeMap::new(alloc);
    for (name, value) in entries {
        drop(made.insert(name, element_as(alloc, element, value)?)?);
    }
    Ok(made)
}
