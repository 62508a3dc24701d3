//! A request as a user reads it.

use std::alloc::{AllocError, Global};
use tf_plan_text::show_value;
use tf_provider_protocol::Request;
use tf_value_data::Value;

/// Returns the lines of a request: the key of its deposed object, if it is about one, and its attributes, each as `name = value`.
/// Shows what isn't known as `(known after apply)`, and an attribute that an update changes as `name = old -> new`. Leaves out
/// attributes that are null, and were before.
pub(crate) fn request_text(alloc: Global, request: &Request) -> Result<String, AllocError> {
    let mut text = String::new(alloc);
    if let Some(key) = &request.deposed {
        write!(text, "  (deposed {key})\n")?;
    }
    match (&request.prior, &request.object) {
        (prior, Some(object)) => add_attributes(alloc, &mut text, prior.as_ref(), object)?,
        (Some(prior), None) => add_attributes(alloc, &mut text, None, prior)?,
        (None, None) => {}
    }
    Ok(text)
}

/// Adds a line for each attribute of an object that was `prior`, if there was one.
fn add_attributes(
    alloc: Global,
    text: &mut String,
    prior: Option<&Value>,
    object: &Value,
) -> Result<(), AllocError> {
    let Value::Map(attributes) = object else {
        return Ok(());
    };
    for (name, value) in attributes.iter() {
        add_attribute(
            alloc,
            text,
            name.as_str(),
            value_before(prior, name.as_str()),
            value,
        )?;
    }
    Ok(())
}

/// Adds the line of an attribute, unless it is null and was.
fn add_attribute(
    alloc: Global,
    text: &mut String,
    name: &str,
    before: Option<&Value>,
    value: &Value,
) -> Result<(), AllocError> {
    let is_changed = matches!(before, Some(before) if before != value);
    if *value == Value::Null && !is_changed {
        return Ok(());
    }
    write!(text, "  {name} = ")?;
    if let Some(before) = before
        && is_changed
    {
        show_value(alloc, text, before)?;
        text.push_str(" -> ")?;
    }
    show_value(alloc, text, value)?;
    text.push('\n')
}

/// Returns the value that an attribute had.
fn value_before<'a>(prior: Option<&'a Value>, name: &str) -> Option<&'a Value> {
    match prior {
        Some(Value::Map(attributes)) => attributes.get(name),
        _ => None,
    }
}
