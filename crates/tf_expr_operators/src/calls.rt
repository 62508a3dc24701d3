//! Calls of functions.

ghost use Rattle.std.specs.Prelude.{◌≡◌, IsTrue, pos, vec_len};
ghost use Rattle.tf_value_data.specs.Tree.{list, tree_of, items_view};
ghost use Rattle.tf_expr_operators.specs.Answer.{Answers, Gives, whole_value};
ghost use Rattle.tf_expr_operators.specs.Found.{found_items};
ghost use Rattle.tf_expr_operators.specs.Functions.{call_value, length_value, join_value, merge_value, concat_value, spaced, spaced_value};
ghost use Rattle.tf_expr_syntax.specs.Function.{takes};
ghost use Rattle.tf_expr_syntax.specs.declared.function.Function.TheVariants.{Merge, Concat};
ghost use Rattle.tf_expr_operators.specs.Joining.{joined_value};

use crate::collections::{concat, has_unknown, keys, merge, toset, values};
use crate::found::{Found, all_owned, owned};
use crate::joining::Joiner;
use std::alloc::Global;
use tf_expr_syntax::{EvalFault, Function};
use tf_value_data::{Value, is_known};

/// Calls a function with as many arguments as it takes. Returns `Unknown` if an argument is `Unknown`, and for `join`
/// and `toset` if any part of an argument is unknown. An argument that is only read isn't copied.
///
/// # Errors
///
/// Fails with `WrongKind` exactly if the function doesn't take an argument of that kind, with `TooLarge` exactly if
/// the result is above the limits, and otherwise only if memory runs out.
pub fn call(
    alloc: Global,
    function: Function,
    arguments: Vec<Found<'_>>,
) -> Result<Value, EvalFault>
    requires { IsTrue (takes function (vec_len arguments)) }
    ensures { Gives (call_value function (found_items arguments.entry.items)) result }
{
    match function {
        Function::Merge | Function::Concat => {
            return in_one(alloc, function, all_owned(alloc, arguments)?);
        }
        _ => {}
    }
    let mut arguments = arguments;
    let Some(last) = arguments.pop() else {
        return Err(EvalFault::Arity);
    };
    match function {
        Function::Length => length(last.value()),
        Function::Keys => keys(alloc, last.value()),
        Function::Values => values(alloc, owned(last)?),
        Function::ToSet => toset(alloc, owned(last)?),
        _ => match arguments.pop() {
            Some(separator) => join(alloc, separator.value(), last.value()),
            None => Err(EvalFault::Arity),
        },
    }
}

// Merges maps, or concatenates lists.
fn in_one(alloc: Global, function: Function, arguments: Vec<Value>) -> Result<Value, EvalFault>
    ensures merge { function ≡ Merge → Gives (merge_value (items_view arguments.items)) result }
    ensures concat { function ≡ Concat → Gives (concat_value (items_view arguments.items)) result }
{
    if has_unknown(&arguments) {
        return Ok(Value::Unknown);
    }
    match function {
        Function::Merge => merge(alloc, arguments),
        _ => concat(alloc, arguments),
    }
}

// Returns how many elements a list, a map or a set has.
fn length(argument: &Value) -> Result<Value, EvalFault>
    ensures { Answers (length_value (tree_of argument.now)) result }
{
    match argument {
        Value::Unknown => Ok(Value::Unknown),
        Value::List(items) => count(items.len()),
        Value::Map(entries) => count(entries.len()),
        Value::Set(texts) => count(texts.len()),
        _ => Err(EvalFault::WrongKind),
    }
}

fn count(elements: usize) -> Result<Value, EvalFault>
    ensures { Answers (whole_value (pos elements)) result }
{
    match i64::try_from(elements) {
        Ok(number) => Ok(Value::Int(number)),
        Err(_) => Err(EvalFault::Overflow),
    }
}

// Joins the items of a list, with a separator between each two.
fn join(alloc: Global, separator: &Value, list: &Value) -> Result<Value, EvalFault>
    ensures { Gives (join_value (tree_of separator.now) (tree_of list.now)) result }
{
    if !is_known(separator) || !is_known(list) {
        return Ok(Value::Unknown);
    }
    join_list(alloc, separator, list)
}

fn join_list(alloc: Global, separator: &Value, list: &Value) -> Result<Value, EvalFault>
    ensures { Gives (spaced_value (tree_of separator.now) (tree_of list.now)) result }
{
    match list {
        Value::List(items) => join_spaced(alloc, separator, items),
        _ => Err(EvalFault::WrongKind),
    }
}

fn join_spaced(alloc: Global, separator: &Value, items: &Vec<Value>) -> Result<Value, EvalFault>
    ensures { Gives (spaced_value (tree_of separator.now) (list (items_view items.now.items))) result }
{
    match separator {
        Value::Text(_) | Value::Int(_) | Value::Bool(_) => join_items(alloc, separator, items),
        _ => Err(EvalFault::WrongKind),
    }
}

fn join_items(alloc: Global, separator: &Value, items: &Vec<Value>) -> Result<Value, EvalFault>
    ensures { Gives (joined_value (spaced (tree_of separator.now) (items_view items.now.items))) result }
{
    let mut joiner = Joiner::new(alloc);
    let Some((first, others)) = items.split_first() else {
        return joiner.finish();
    };
    joiner.push_value(first)?;
    for item in others {
        joiner.push_value(separator)?;
        joiner.push_value(item)?;
    }
    joiner.finish()
}
