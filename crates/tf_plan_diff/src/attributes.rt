//! The lines of a change's attributes.

ghost use Rattle.std.specs.List.{list_any};
ghost use Rattle.std.specs.Prelude.{◌≡◌, ◌++◌, ◌≤◌, ◌+◌, IfOk, OnOk, option_map, string_bytes};
ghost use Rattle.std.specs.Str.{bytes_eq};
ghost use Rattle.tf_plan_data.specs.Action.{names_of};
ghost use Rattle.tf_plan_diff.specs.Diff.{between, changed_line, changed_lines, forced, gone_line, gone_lines, gone_object, hidden_count, hidden_line, hidden_words, is_hidden, new_line, new_lines, new_object, old_at, or_null, shown_change, shown_gone, shown_new};
ghost use Rattle.tf_plan_diff.specs.Safe.{line};
ghost use Rattle.tf_value_data.specs.Tree.{entries_view, same, tree_of};

use crate::safe::push_line;
use std::alloc::{AllocError, Global};
use std::collections::BTreeMap;
use tf_plan_text::show_value;
use tf_value_data::Value;

/// Shows the attributes of a new object that aren't null.
pub(crate) fn show_new(alloc: Global, text: &mut String, object: &Value) -> Result<(), AllocError>
    ensures { OnOk result (string_bytes text.new ≡ string_bytes text.old ++ new_object (tree_of object.now)) }
{
    match object {
        Value::Map(attributes) => show_new_attributes(alloc, text, attributes),
        _ => Ok(()),
    }
}

fn show_new_attributes(
    alloc: Global,
    text: &mut String,
    attributes: &BTreeMap<String, Value>,
) -> Result<(), AllocError>
    ensures { OnOk result (string_bytes text.new ≡ string_bytes text.old ++ new_lines (entries_view attributes.now.entries)) }
{
    for (name, value) in attributes.iter() {
        show_new_attribute(alloc, text, name.as_str(), value)?;
    }
    Ok(())
}

fn show_new_attribute(
    alloc: Global,
    text: &mut String,
    name: &str,
    value: &Value,
) -> Result<(), AllocError>
    ensures { OnOk result (string_bytes text.new ≡ string_bytes text.old ++ new_line name.now (tree_of value.now)) }
{
    match value {
        Value::Null => Ok(()),
        _ => {
            let line = new_text(alloc, name, value)?;
            push_line(text, line.as_str())
        }
    }
}

/// Returns the name and the value of an attribute.
fn new_text(alloc: Global, name: &str, value: &Value) -> Result<String, AllocError>
    ensures { IfOk result (λ line. string_bytes line ≡ shown_new name.now (tree_of value.now)) }
{
    let mut line = String::new(alloc);
    write!(line, "    {name} = ")?;
    show_value(alloc, &mut line, value)?;
    Ok(line)
}

/// Shows the attributes of an object that is destroyed, if they aren't null.
pub(crate) fn show_gone(alloc: Global, text: &mut String, object: &Value) -> Result<(), AllocError>
    ensures { OnOk result (string_bytes text.new ≡ string_bytes text.old ++ gone_object (tree_of object.now)) }
{
    match object {
        Value::Map(attributes) => show_gone_attributes(alloc, text, attributes),
        _ => Ok(()),
    }
}

fn show_gone_attributes(
    alloc: Global,
    text: &mut String,
    attributes: &BTreeMap<String, Value>,
) -> Result<(), AllocError>
    ensures { OnOk result (string_bytes text.new ≡ string_bytes text.old ++ gone_lines (entries_view attributes.now.entries)) }
{
    for (name, value) in attributes.iter() {
        show_gone_attribute(alloc, text, name.as_str(), value)?;
    }
    Ok(())
}

fn show_gone_attribute(
    alloc: Global,
    text: &mut String,
    name: &str,
    value: &Value,
) -> Result<(), AllocError>
    ensures { OnOk result (string_bytes text.new ≡ string_bytes text.old ++ gone_line name.now (tree_of value.now)) }
{
    match value {
        Value::Null => Ok(()),
        _ => {
            let line = gone_text(alloc, name, value)?;
            push_line(text, line.as_str())
        }
    }
}

/// Returns the name of an attribute, its value, and that it goes.
fn gone_text(alloc: Global, name: &str, value: &Value) -> Result<String, AllocError>
    ensures { IfOk result (λ line. string_bytes line ≡ shown_gone name.now (tree_of value.now)) }
{
    let mut line = new_text(alloc, name, value)?;
    line.push_str(" -> null")?;
    Ok(line)
}

/// Shows the attributes in which an object differs from the one before, and how many others there are. `names` are the
/// attributes that force a replacement.
pub(crate) fn show_between(
    alloc: Global,
    text: &mut String,
    before: Option<&Value>,
    after: &Value,
    names: &[String],
) -> Result<(), AllocError>
    ensures { OnOk result (string_bytes text.new ≡ string_bytes text.old ++ between (names_of names.now) (option_map (λ v. tree_of v.now) before.entry) (tree_of after.now)) }
{
    match after {
        Value::Map(attributes) => {
            show_changed(alloc, text, before, attributes, names)?;
            show_hidden(alloc, text, hidden_count(before, attributes))
        }
        _ => Ok(()),
    }
}

fn show_changed(
    alloc: Global,
    text: &mut String,
    before: Option<&Value>,
    attributes: &BTreeMap<String, Value>,
    names: &[String],
) -> Result<(), AllocError>
    ensures { OnOk result (string_bytes text.new ≡ string_bytes text.old ++ changed_lines (names_of names.now) (option_map (λ v. tree_of v.now) before.entry) (entries_view attributes.now.entries)) }
{
    for (name, value) in attributes.iter() {
        let old = old_at(before, name.as_str());
        show_change(alloc, text, name.as_str(), old, value, names)?;
    }
    Ok(())
}

/// Returns the value that an attribute had, if it had one.
fn old_at<'a>(before: Option<&'a Value>, name: &str) -> Option<&'a Value>
    ensures { or_null (option_map (λ v. tree_of v.now) result) ≡ old_at (option_map (λ v. tree_of v.now) before.entry) name.now }
{
    match before {
        Some(object) => object.get(name),
        None => None,
    }
}

fn show_change(
    alloc: Global,
    text: &mut String,
    name: &str,
    old: Option<&Value>,
    new: &Value,
    names: &[String],
) -> Result<(), AllocError>
    ensures { OnOk result (string_bytes text.new ≡ string_bytes text.old ++ changed_line (names_of names.now) name.now (or_null (option_map (λ v. tree_of v.now) old.entry)) (tree_of new.now)) }
{
    if is_same(old, new) {
        return Ok(());
    }
    let line = change_text(alloc, name, old, new, names)?;
    push_line(text, line.as_str())
}

/// Checks whether an attribute has the value that it had; no value counts as null.
fn is_same(old: Option<&Value>, new: &Value) -> bool
    ensures { result ≡ same (or_null (option_map (λ v. tree_of v.now) old.entry)) (tree_of new.now) }
{
    match old {
        Some(old) => old == new,
        None => Value::Null == *new,
    }
}

/// Returns the name of an attribute, its old and its new value, and whether that forces a replacement.
fn change_text(
    alloc: Global,
    name: &str,
    old: Option<&Value>,
    new: &Value,
    names: &[String],
) -> Result<String, AllocError>
    ensures { IfOk result (λ line. string_bytes line ≡ shown_change (names_of names.now) name.now (or_null (option_map (λ v. tree_of v.now) old.entry)) (tree_of new.now)) }
{
    let mut line = old_text(alloc, name, old)?;
    line.push_str(" -> ")?;
    show_value(alloc, &mut line, new)?;
    line.push_str(forced(names, name))?;
    Ok(line)
}

/// Returns the name of an attribute and its old value; no value counts as null.
fn old_text(alloc: Global, name: &str, old: Option<&Value>) -> Result<String, AllocError>
    ensures { IfOk result (λ line. string_bytes line ≡ shown_new name.now (or_null (option_map (λ v. tree_of v.now) old.entry))) }
{
    match old {
        Some(value) => new_text(alloc, name, value),
        None => new_text(alloc, name, &Value::Null),
    }
}

/// Returns the remark after an attribute that forces a replacement.
fn forced(names: &[String], name: &str) -> &'static str
    ensures { result.now ≡ forced (names_of names.now) name.now }
{
    if is_among(names, name) {
        " # forces replacement"
    } else {
        ""
    }
}

fn is_among(names: &[String], name: &str) -> bool
    ensures { result ≡ list_any (bytes_eq name.now) (names_of names.now) }
{
    for other in names {
        if name == other.as_str() {
            return true;
        }
    }
    false
}

/// Counts the attributes that aren't null and don't change.
fn hidden_count(before: Option<&Value>, attributes: &BTreeMap<String, Value>) -> usize
    ensures { result ≡ hidden_count (option_map (λ v. tree_of v.now) before.entry) (entries_view attributes.now.entries) }
{
    let mut count = attributes.len();
    for (name, value) in attributes.iter() {
        count -= usize::from(!stays(before, name.as_str(), value));
    }
    count
}

/// Checks whether the attribute of a name isn't null and doesn't change.
fn stays(before: Option<&Value>, name: &str, value: &Value) -> bool
    ensures { result ≡ is_hidden (old_at (option_map (λ v. tree_of v.now) before.entry) name.now) (tree_of value.now) }
{
    is_hidden(old_at(before, name), value)
}

/// Checks whether an attribute isn't null and doesn't change.
fn is_hidden(old: Option<&Value>, new: &Value) -> bool
    ensures { result ≡ is_hidden (or_null (option_map (λ v. tree_of v.now) old.entry)) (tree_of new.now) }
{
    match new {
        Value::Null => false,
        _ => is_same(old, new),
    }
}

fn show_hidden(alloc: Global, text: &mut String, count: usize) -> Result<(), AllocError>
    ensures { OnOk result (string_bytes text.new ≡ string_bytes text.old ++ hidden_line count) }
{
    if count == 0 {
        return Ok(());
    }
    if count == 1 {
        return push_line(text, "    # (1 unchanged attribute hidden)");
    }
    show_several(alloc, text, count)
}

fn show_several(alloc: Global, text: &mut String, count: usize) -> Result<(), AllocError>
    ensures { OnOk result (string_bytes text.new ≡ string_bytes text.old ++ line (hidden_words count)) }
{
    let words = hidden_words(alloc, count)?;
    push_line(text, words.as_str())
}

fn hidden_words(alloc: Global, count: usize) -> Result<String, AllocError>
    ensures { IfOk result (λ words. string_bytes words ≡ hidden_words count) }
{
    let mut words = String::new(alloc);
    write!(words, "    # ({count} unchanged attributes hidden)")?;
    Ok(words)
}
