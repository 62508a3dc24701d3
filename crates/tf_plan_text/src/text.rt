//! The text of a plan.

ghost use Rattle.std.specs.Prelude.{◌≡◌, ◌++◌, false, map, count_by, OnOk, IfOk, slice_index_or, string_bytes};
ghost use Rattle.std.specs.List.{flat_map};
ghost use Rattle.tf_plan_data.specs.Action.{action_of, names_of, step_of};
ghost use Rattle.tf_value_data.specs.Tree.{tree_of, entries_view};
ghost use Rattle.tf_plan_text.specs.Text.{action_lines, adds, attribute_line, attribute_lines, changed_line, changes, count_of, destroys, object_lines, plan_text, replace_symbol, step_lines, summary_line, value_line};

use crate::shown::show_value;
use std::alloc::{AllocError, Global};
use std::collections::BTreeMap;
use tf_plan_data::{Action, Step, address_text};
use tf_value_data::Value;

/// Returns the text of a plan's actions for the user. It has a line for each instance that is changed and for each
/// deposed object that is destroyed, with a symbol and the address. The lines below it show the attributes of a new
/// object that aren't null, or those that are changed. A replace has one line. `late` gives for each resource, by its
/// number, whether the old object is destroyed after the new one is created. The last line counts the objects that are
/// added, changed and destroyed. Without actions the text is `No changes.`.
///
/// # Errors
///
/// Fails only if memory runs out.
pub fn plan_text(alloc: Global, actions: &[Action], late: &[bool]) -> Result<String, AllocError>
    ensures { IfOk result (λ text. string_bytes text ≡ plan_text (λ n. slice_index_or late.now n false) (map action_of actions.now)) }
{
    if actions.is_empty() {
        return String::from_str(alloc, "No changes.\n");
    }
    let mut text = String::new(alloc);
    for action in actions {
        show_action(alloc, &mut text, action, late)?;
    }
    show_summary(&mut text, actions)?;
    Ok(text)
}

fn show_action(
    alloc: Global,
    text: &mut String,
    action: &Action,
    late: &[bool],
) -> Result<(), AllocError>
    ensures { OnOk result (string_bytes text.new ≡ string_bytes text.old ++ action_lines (λ n. slice_index_or late.now n false) (action_of action.now)) }
{
    let address = address_text(alloc, &action.addr, &action.key)?;
    let is_late = late.get(action.resource).copied().unwrap_or(false);
    show_step(alloc, text, address.as_str(), &action.step, is_late)
}

fn show_step(
    alloc: Global,
    text: &mut String,
    address: &str,
    step: &Step,
    is_late: bool,
) -> Result<(), AllocError>
    ensures { OnOk result (string_bytes text.new ≡ string_bytes text.old ++ step_lines is_late address.now (step_of step.now)) }
{
    match step {
        Step::Create(asked) => {
            write!(text, "+ {address}\n")?;
            show_object(alloc, text, asked)
        }
        Step::Update(_, asked, names) => {
            write!(text, "~ {address}\n")?;
            show_changes(alloc, text, asked, names.as_slice())
        }
        Step::CreateReplacement(asked, _) => {
            text.push_str(replace_symbol(is_late))?;
            write!(text, "{address}\n")?;
            show_object(alloc, text, asked)
        }
        Step::DestroyReplaced(_) => Ok(()),
        Step::Destroy(_) => write!(text, "- {address}\n"),
        Step::DestroyDeposed(key, _) => write!(text, "- {address} (deposed {key})\n"),
    }
}

/// Returns the symbol before the address of an object that is replaced.
pub(crate) fn replace_symbol(is_late: bool) -> &'static str
    ensures { result.now ≡ replace_symbol is_late }
{
    if is_late { "+/- " } else { "-/+ " }
}

/// Shows the attributes of a new object.
fn show_object(alloc: Global, text: &mut String, object: &Value) -> Result<(), AllocError>
    ensures { OnOk result (string_bytes text.new ≡ string_bytes text.old ++ object_lines (tree_of object.now)) }
{
    match object {
        Value::Map(attributes) => show_attributes(alloc, text, attributes),
        _ => Ok(()),
    }
}

fn show_attributes(
    alloc: Global,
    text: &mut String,
    attributes: &BTreeMap<String, Value>,
) -> Result<(), AllocError>
    ensures { OnOk result (string_bytes text.new ≡ string_bytes text.old ++ attribute_lines (entries_view attributes.now.entries)) }
{
    for (name, value) in attributes.iter() {
        show_attribute(alloc, text, name.as_str(), value)?;
    }
    Ok(())
}

fn show_attribute(
    alloc: Global,
    text: &mut String,
    name: &str,
    value: &Value,
) -> Result<(), AllocError>
    ensures { OnOk result (string_bytes text.new ≡ string_bytes text.old ++ attribute_line name.now (tree_of value.now)) }
{
    match value {
        Value::Null => Ok(()),
        _ => show_line(alloc, text, name, value),
    }
}

/// Shows the attributes of these names, with their new values.
fn show_changes(
    alloc: Global,
    text: &mut String,
    asked: &Value,
    names: &[String],
) -> Result<(), AllocError>
    ensures { OnOk result (string_bytes text.new ≡ string_bytes text.old ++ flat_map (changed_line (tree_of asked.now)) (names_of names.now)) }
{
    for name in names {
        show_change(alloc, text, asked, name.as_str())?;
    }
    Ok(())
}

fn show_change(
    alloc: Global,
    text: &mut String,
    asked: &Value,
    name: &str,
) -> Result<(), AllocError>
    ensures { OnOk result (string_bytes text.new ≡ string_bytes text.old ++ changed_line (tree_of asked.now) name.now) }
{
    match asked.get(name) {
        Some(value) => show_line(alloc, text, name, value),
        None => Ok(()),
    }
}

/// Shows a name and a value.
fn show_line(alloc: Global, text: &mut String, name: &str, value: &Value) -> Result<(), AllocError>
    ensures { OnOk result (string_bytes text.new ≡ string_bytes text.old ++ value_line name.now (tree_of value.now)) }
{
    write!(text, "    {name} = ")?;
    show_value(alloc, text, value)?;
    text.push('\n')
}

/// Shows how many objects are added, changed and destroyed.
///
/// # Errors
///
/// Fails only if memory runs out.
pub fn show_summary(text: &mut String, actions: &[Action]) -> Result<(), AllocError>
    ensures { OnOk result (string_bytes text.new ≡ string_bytes text.old
        ++ summary_line (count_of adds (map action_of actions.now)) (count_of changes (map action_of actions.now)) (count_of destroys (map action_of actions.now))) }
{
    let (add, change, destroy) = counts(actions);
    summarize(text, add, change, destroy)
}

fn summarize(text: &mut String, add: usize, change: usize, destroy: usize) -> Result<(), AllocError>
    ensures { OnOk result (string_bytes text.new ≡ string_bytes text.old ++ summary_line add change destroy) }
{
    write!(
        text,
        "Plan: {add} to add, {change} to change, {destroy} to destroy.\n"
    )
}

/// Counts the actions that create, update and destroy an object.
fn counts(actions: &[Action]) -> (usize, usize, usize)
    ensures add { result.0 ≡ count_by (λ a. adds (step_of a.step)) actions.now }
    ensures change { result.1 ≡ count_by (λ a. changes (step_of a.step)) actions.now }
    ensures destroy { result.2 ≡ count_by (λ a. destroys (step_of a.step)) actions.now }
{
    let mut add = 0;
    let mut change = 0;
    let mut destroy = 0;
    for action in actions {
        add += usize::from(adds(action));
        change += usize::from(changes(action));
        destroy += usize::from(destroys(action));
    }
    (add, change, destroy)
}

/// Checks whether the action creates an object.
fn adds(action: &Action) -> bool
    ensures { result ≡ adds (step_of action.now.step) }
{
    matches!(action.step, Step::Create(_) | Step::CreateReplacement(_, _))
}

/// Checks whether the action is an update.
fn changes(action: &Action) -> bool
    ensures { result ≡ changes (step_of action.now.step) }
{
    matches!(action.step, Step::Update(_, _, _))
}

/// Checks whether the action destroys an object.
fn destroys(action: &Action) -> bool
    ensures { result ≡ destroys (step_of action.now.step) }
{
    !adds(action) && !changes(action)
}
