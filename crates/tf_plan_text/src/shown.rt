//! How a plan's text shows a value.

ghost use Rattle.json.specs.Print.{escape};
ghost use Rattle.std.specs.List.{list_all};
ghost use Rattle.std.specs.Prelude.{◌≡◌, ◌++◌, ◌∷◌, false, true, OnOk, string_bytes};
ghost use Rattle.tf_plan_data.specs.Words.{boolean, comma_if, entries_view, items_view, quoted, texts_view, tree_of, unknown};
ghost use Rattle.tf_plan_text.specs.Plain.{is_plain};
ghost use Rattle.tf_plan_text.specs.Shown.{shown, shown_items, shown_entries, shown_texts};

use serde_json::Value as Json;
use std::alloc::{AllocError, Global};
use std::collections::{BTreeMap, BTreeSet};
use tf_value_data::Value;

/// Writes a value's compact JSON text at the end of a text, with `(known after apply)` for each part that isn't known
/// yet.
///
/// # Errors
///
/// Fails only if memory runs out.
#[cycle(show)]
pub fn show_value(alloc: Global, text: &mut String, value: &Value) -> Result<(), AllocError>
    ensures { OnOk result (string_bytes text.new ≡ string_bytes text.old ++ shown (tree_of value.now)) }
{
    match value {
        Value::Null => text.push_str("null"),
        Value::Bool(truth) => show_truth(text, *truth),
        Value::Int(number) => write!(text, "{number}"),
        Value::Text(content) => show_text(alloc, text, content.as_str()),
        Value::List(items) => show_items(alloc, text, items),
        Value::Map(entries) => show_entries(alloc, text, entries),
        Value::Set(texts) => show_texts(alloc, text, texts),
        Value::Unknown => show_unknown(text),
    }
}

#[cycle(show)]
fn show_items(alloc: Global, text: &mut String, items: &Vec<Value>) -> Result<(), AllocError>
    ensures { OnOk result (string_bytes text.new ≡ string_bytes text.old ++ 91 ∷ shown_items false (items_view items.now.items)) }
{
    text.push('[')?;
    let mut later = false;
    for item in items {
        comma(text, later)?;
        show_value(alloc, text, item)?;
        later = true;
    }
    text.push(']')
}

#[cycle(show)]
fn show_entries(
    alloc: Global,
    text: &mut String,
    entries: &BTreeMap<String, Value>,
) -> Result<(), AllocError>
    ensures { OnOk result (string_bytes text.new ≡ string_bytes text.old ++ 123 ∷ shown_entries false (entries_view entries.now.entries)) }
{
    text.push('{')?;
    let mut later = false;
    for (key, value) in entries.iter() {
        comma(text, later)?;
        show_text(alloc, text, key.as_str())?;
        text.push(':')?;
        show_value(alloc, text, value)?;
        later = true;
    }
    text.push('}')
}

fn show_texts(
    alloc: Global,
    text: &mut String,
    contents: &BTreeSet<String>,
) -> Result<(), AllocError>
    ensures { OnOk result (string_bytes text.new ≡ string_bytes text.old ++ 91 ∷ shown_texts false (texts_view contents.now.keys)) }
{
    text.push('[')?;
    let mut later = false;
    for content in contents.iter() {
        comma(text, later)?;
        show_text(alloc, text, content.as_str())?;
        later = true;
    }
    text.push(']')
}

fn show_truth(text: &mut String, truth: bool) -> Result<(), AllocError>
    ensures { OnOk result (string_bytes text.new ≡ string_bytes text.old ++ shown (boolean truth)) }
{
    if truth {
        text.push_str("true")
    } else {
        text.push_str("false")
    }
}

fn show_unknown(text: &mut String) -> Result<(), AllocError>
    ensures { OnOk result (string_bytes text.new ≡ string_bytes text.old ++ shown unknown) }
{
    text.push_str("(known after apply)")
}

/// Adds a comma if an element comes before.
fn comma(text: &mut String, later: bool) -> Result<(), AllocError>
    ensures { OnOk result (string_bytes text.new ≡ string_bytes text.old ++ comma_if later) }
{
    if later { text.push(',') } else { Ok(()) }
}

/// Adds a text in quotes, with JSON's escapes. A text that needs no escapes is copied.
fn show_text(alloc: Global, text: &mut String, content: &str) -> Result<(), AllocError>
    ensures { OnOk result (string_bytes text.new ≡ string_bytes text.old ++ quoted content.now) }
{
    if stands_for_itself(content) {
        text.push('"')?;
        text.push_str(content)?;
        text.push('"')
    } else {
        show_escaped(alloc, text, content)
    }
}

/// Checks whether each byte of a text is written as it is between quotes.
fn stands_for_itself(content: &str) -> bool
    ensures { result ≡ true → escape content.now ≡ content.now }
{
    all_plain(content.as_bytes())
}

fn all_plain(bytes: &[u8]) -> bool
    ensures { result ≡ list_all is_plain bytes.now }
{
    bytes.iter().all(|byte| is_plain(*byte))
}

fn is_plain(byte: u8) -> bool
    ensures { result ≡ is_plain byte }
{
    byte >= b' ' && byte != b'"' && byte != b'\\'
}

fn show_escaped(alloc: Global, text: &mut String, content: &str) -> Result<(), AllocError>
    ensures { OnOk result (string_bytes text.new ≡ string_bytes text.old ++ quoted content.now) }
{
    let json = Json::String(String::from_str(alloc, content)?);
    let quoted = json.to_string(alloc)?;
    text.push_str(quoted.as_str())
}
