//! Values that are borrowed, and values that were made.

ghost use Rattle.std.specs.Prelude.{◌≡◌, IfOk, map as each};
ghost use Rattle.tf_value_data.specs.Tree.{list, map, tree_of, items_view, entries_view, get};
ghost use Rattle.tf_expr_operators.specs.Answer.{Answer, Answers, Gives, Shows, list_value, present_value};
ghost use Rattle.tf_expr_operators.specs.Found.{found_items, found_tree, Finds, FindsExactly};
ghost use Rattle.tf_expr_operators.specs.Operators.{unary_value, binary_value};
ghost use Rattle.tf_expr_operators.specs.Parts.{attribute_value, index_value, item_at_whole};

use crate::building::list;
use crate::operators::{binary, unary};
use crate::parts::{attribute, index};
use std::alloc::{AllocError, Global};
use std::collections::BTreeMap;
use tf_expr_syntax::{EvalFault, Operator, Prefix};
use tf_value_data::{Value, find};

/// A value: borrowed, and so not copied, or made.
#[derive(Drop)]
pub enum Found<'a> {
    /// A borrowed value.
    At(&'a Value),
    /// A value that was made.
    Made(Value),
}

impl<'a> Found<'a> {
    /// Returns a reference to the value.
    pub fn value(&self) -> &Value
        ensures { tree_of result.now ≡ found_tree self.now }
    {
        match self {
            Found::At(value) => value,
            Found::Made(value) => value,
        }
    }
}

/// Returns the value as an owned one, and copies a borrowed value. Fails only if memory runs out.
pub fn owned(found: Found<'_>) -> Result<Value, AllocError>
    ensures { IfOk result (λ v. tree_of v ≡ found_tree found.entry) }
{
    match found {
        Found::At(value) => value.clone(),
        Found::Made(value) => Ok(value),
    }
}

/// Like `owned`, for several values.
pub fn all_owned(alloc: Global, found: Vec<Found<'_>>) -> Result<Vec<Value>, AllocError>
    ensures { IfOk result (λ v. each tree_of v.items ≡ each found_tree found.entry.items) }
{
    let mut values = Vec::with_capacity(alloc, found.len())?;
    for one in found {
        values.push(owned(one)?)?;
    }
    Ok(values)
}

/// Wraps the answer of an operation.
pub fn made<'a>(answer: Result<Value, EvalFault>) -> Result<Found<'a>, EvalFault>
    ensures exact { (a : Answer) → Answers a answer → FindsExactly a result }
    ensures or_no_memory { (a : Answer) → Gives a answer → Finds a result }
{
    match answer {
        Ok(value) => Ok(Found::Made(value)),
        Err(fault) => Err(fault),
    }
}

/// Returns the value at a name of a map, borrowed if the map is. Otherwise does as `attribute`.
pub fn attribute_of<'a>(found: Found<'a>, name: &str) -> Result<Found<'a>, EvalFault>
    ensures { FindsExactly (attribute_value (found_tree found.entry) name.now) result }
{
    match found {
        Found::At(value) => seen(attribute_at(value, name)),
        Found::Made(value) => made(attribute(value, name)),
    }
}

/// Returns the value at a text of a map or at a whole number of a list, borrowed if that is. Otherwise does as
/// `index`.
pub fn index_of<'a>(found: Found<'a>, place: Found<'_>) -> Result<Found<'a>, EvalFault>
    ensures { FindsExactly (index_value (found_tree found.entry) (found_tree place.entry)) result }
{
    match found {
        Found::At(value) => index_at(value, place.value()),
        Found::Made(value) => made(index(value, place.value())),
    }
}

/// Applies `unary` to a value.
pub fn unary_of<'a>(prefix: Prefix, operand: Found<'_>) -> Result<Found<'a>, EvalFault>
    ensures { FindsExactly (unary_value prefix (found_tree operand.entry)) result }
{
    made(unary(prefix, operand.value()))
}

/// Applies `binary` to two values.
pub fn binary_of<'a>(
    operator: Operator,
    left: Found<'_>,
    right: Found<'_>,
) -> Result<Found<'a>, EvalFault>
    ensures { FindsExactly (binary_value operator (found_tree left.entry) (found_tree right.entry)) result }
{
    made(binary(operator, left.value(), right.value()))
}

/// Applies `list` to values. Fails also if memory runs out.
pub fn list_of<'a>(alloc: Global, items: Vec<Found<'_>>) -> Result<Found<'a>, EvalFault>
    ensures { Finds (list_value (found_items items.entry.items)) result }
{
    let items = all_owned(alloc, items)?;
    made(list(items))
}

// Wraps the answer of an operation that borrows.
fn seen(answer: Result<&Value, EvalFault>) -> Result<Found<'_>, EvalFault>
    ensures { (a : Answer) → Shows a answer.entry → FindsExactly a result }
{
    match answer {
        Ok(value) => Ok(Found::At(value)),
        Err(fault) => Err(fault),
    }
}

fn attribute_at<'a>(value: &'a Value, name: &str) -> Result<&'a Value, EvalFault>
    ensures { Shows (attribute_value (tree_of value.now) name.now) result }
{
    match value {
        Value::Unknown => Ok(value),
        Value::Map(entries) => at_key(entries, name),
        _ => Err(EvalFault::WrongKind),
    }
}

fn index_at<'a>(value: &'a Value, place: &Value) -> Result<Found<'a>, EvalFault>
    ensures { FindsExactly (index_value (tree_of value.now) (tree_of place.now)) result }
{
    match value {
        Value::Unknown => Ok(Found::At(value)),
        Value::Map(entries) => in_map(entries, place),
        Value::List(items) => in_list(items, place),
        _ => match place {
            Value::Unknown => Ok(Found::Made(Value::Unknown)),
            _ => Err(EvalFault::WrongKind),
        },
    }
}

fn in_map<'a>(entries: &'a BTreeMap<String, Value>, place: &Value) -> Result<Found<'a>, EvalFault>
    ensures { FindsExactly (index_value (map (entries_view entries.now.entries)) (tree_of place.now)) result }
{
    match place {
        Value::Unknown => Ok(Found::Made(Value::Unknown)),
        Value::Text(key) => seen(at_key(entries, key.as_str())),
        _ => Err(EvalFault::WrongKind),
    }
}

fn in_list<'a>(items: &'a Vec<Value>, place: &Value) -> Result<Found<'a>, EvalFault>
    ensures { FindsExactly (index_value (list (items_view items.now.items)) (tree_of place.now)) result }
{
    match place {
        Value::Unknown => Ok(Found::Made(Value::Unknown)),
        Value::Int(number) => Ok(Found::At(at_number(items, *number)?)),
        _ => Err(EvalFault::WrongKind),
    }
}

fn at_key<'a>(entries: &'a BTreeMap<String, Value>, key: &str) -> Result<&'a Value, EvalFault>
    ensures { Shows (present_value (get key.now (entries_view entries.now.entries))) result }
{
    match find(entries, key) {
        Some(value) => Ok(value),
        None => Err(EvalFault::Missing),
    }
}

fn at_number(items: &Vec<Value>, number: i64) -> Result<&Value, EvalFault>
    ensures { Shows (present_value (item_at_whole number (items_view items.now.items))) result }
{
    let Ok(position) = usize::try_from(number) else {
        return Err(EvalFault::Missing);
    };
    if position < items.len() {
        Ok(&items[position])
    } else {
        Err(EvalFault::Missing)
    }
}
