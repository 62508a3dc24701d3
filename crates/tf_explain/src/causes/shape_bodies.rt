//! What the format doesn't allow in the bodies of blocks.

use crate::blocks::add_names;
use crate::causes::arguments::say_mistyped;
use crate::causes::shape::{Spot, explain_no_object, explain_number, named_shape, object_shape};
use crate::decoding::text_in;
use crate::near::Nearest;
use crate::page::Page;
use crate::positions::member_named;
use std::alloc::AllocError;
use tf_config_address::is_name;

/// A kind of object in a configuration.
#[derive(Clone, Copy)]
struct Body<'a> {
    /// What it is, with its article.
    what: &'a str,
    /// The properties that it may have.
    allowed: &'static [&'static str],
    /// The properties of Terraform that aren't supported.
    unsupported: &'static [&'static str],
}

/// The settings of a resource in Terraform's `lifecycle`.
const LIFECYCLE: Body<'static> = Body {
    what: "`lifecycle`",
    allowed: &["create_before_destroy", "prevent_destroy", "ignore_changes"],
    unsupported: &["replace_triggered_by", "precondition", "postcondition"],
};

const VARIABLE: Body<'static> = Body {
    what: "A variable",
    allowed: &["type", "default", "description"],
    unsupported: &UNSUPPORTED,
};

const OUTPUT: Body<'static> = Body {
    what: "An output",
    allowed: &["value", "description"],
    unsupported: &UNSUPPORTED,
};

/// The properties of Terraform's variables and outputs that aren't supported.
const UNSUPPORTED: [&str; 7] = [
    "sensitive",
    "ephemeral",
    "nullable",
    "validation",
    "deprecated",
    "depends_on",
    "precondition",
];

/// The properties of a resource that aren't supported.
const UNSUPPORTED_IN_RESOURCE: [&str; 3] = ["provider", "provisioner", "connection"];

/// The names of types.
const TYPES: [&str; 12] = [
    "any",
    "string",
    "number",
    "bool",
    "list(any)",
    "list(string)",
    "list(number)",
    "list(bool)",
    "map(any)",
    "map(string)",
    "map(number)",
    "map(bool)",
];

/// Explains a fault in the block of a resource, at one of its properties if there is one, and deeper in that.
///
/// # Errors
///
/// Fails only if memory runs out.
pub(crate) fn body_shape(
    page: &mut Page,
    name: &str,
    property: &str,
    deeper: &str,
    spot: Spot<'_>,
) -> Result<(), AllocError> {
    match property {
        "" => block_shape(page, name, spot),
        "lifecycle" => lifecycle_shape(page, deeper, spot),
        "depends_on" => depends_shape(page, deeper, spot),
        _ if !deeper.is_empty() => explain_number(page, spot),
        _ => argument_shape(page, property, spot),
    }
}

/// Explains a fault of a block as a whole.
fn block_shape(page: &mut Page, name: &str, spot: Spot<'_>) -> Result<(), AllocError> {
    let count = member_named(spot.file.bytes, spot.value, "count");
    let for_each = member_named(spot.file.bytes, spot.value, "for_each");
    match (count, for_each) {
        (Some(count), Some(for_each)) if is_name(name) => {
            page.show(spot.file, count.name)?;
            page.show(spot.file, for_each.name)?;
            page.say(&["A block has `count` or `for_each`, and not both."])
        }
        _ => object_shape(page, "A block", name, spot),
    }
}

/// Explains a fault of an argument.
fn argument_shape(page: &mut Page, name: &str, spot: Spot<'_>) -> Result<(), AllocError> {
    if UNSUPPORTED_IN_RESOURCE.contains(&name) {
        spot.show_name(page)?;
        return page.say(&[
            "`",
            name,
            "` isn't supported in a resource (docs/DIFFERENCES.md).",
        ]);
    }
    named_shape(page, name, spot)
}

/// Explains a fault in `depends_on`.
fn depends_shape(page: &mut Page, rest: &str, spot: Spot<'_>) -> Result<(), AllocError> {
    spot.show(page)?;
    page.say(&[if rest.is_empty() {
        "`depends_on` has to be an array of addresses: [\"TYPE.NAME\"]."
    } else {
        "An element of `depends_on` is the address of a resource, \"TYPE.NAME\", without an index and without ${ }."
    }])
}

/// Explains a fault in `lifecycle`.
fn lifecycle_shape(page: &mut Page, rest: &str, spot: Spot<'_>) -> Result<(), AllocError> {
    let (name, item) = rest.split_once(".").unwrap_or((rest, ""));
    match name {
        "" => explain_no_object(page, LIFECYCLE.what, spot),
        "create_before_destroy" | "prevent_destroy" => {
            spot.show(page)?;
            page.say(&["`", name, "` has to be true or false."])
        }
        "ignore_changes" => ignored_shape(page, item, spot),
        _ => unknown_property(page, LIFECYCLE, name, spot),
    }
}

/// Explains a fault in `ignore_changes`.
fn ignored_shape(page: &mut Page, item: &str, spot: Spot<'_>) -> Result<(), AllocError> {
    spot.show(page)?;
    page.say(&[if item.is_empty() {
        "`ignore_changes` has to be an array of attributes' names. `all` isn't supported (docs/DIFFERENCES.md)."
    } else {
        "An element of `ignore_changes` is the name of an attribute, as a text."
    }])
}

/// Explains that an object has no such property, with the nearest of those that it may have.
fn unknown_property<'a>(
    page: &mut Page,
    body: Body<'a>,
    name: &'a str,
    spot: Spot<'_>,
) -> Result<(), AllocError> {
    spot.show_name(page)?;
    if body.unsupported.contains(&name) {
        return page.say(&["`", name, "` isn't supported here (docs/DIFFERENCES.md)."]);
    }
    page.suggest_among(
        &[body.what, " has no property `", name, "`."],
        name,
        body.allowed,
    )
}

/// Explains a fault in a variable, at one of its properties if there is one.
///
/// # Errors
///
/// Fails only if memory runs out.
pub(crate) fn variable_shape(
    page: &mut Page,
    name: &str,
    property: &str,
    spot: Spot<'_>,
) -> Result<(), AllocError> {
    let (first, deeper) = property.split_once(".").unwrap_or((property, ""));
    match first {
        "" => object_shape(page, VARIABLE.what, name, spot),
        "type" => variable_type_shape(page, spot),
        "default" if deeper.is_empty() => explain_default(page, spot),
        "default" => explain_number(page, spot),
        "description" => explain_description(page, spot),
        _ => unknown_property(page, VARIABLE, first, spot),
    }
}

/// Explains that a variable's type doesn't exist.
fn variable_type_shape(page: &mut Page, spot: Spot<'_>) -> Result<(), AllocError> {
    spot.show(page)?;
    let name = text_in(page.alloc, spot.file.bytes, spot.value)?;
    say_no_type(page, name.as_str())
}

/// Says that a type doesn't exist, with the nearest one.
fn say_no_type(page: &mut Page, name: &str) -> Result<(), AllocError> {
    page.suggest_among(&["`", name, "` isn't a type here."], name, &TYPES)?;
    page.say(&[
        "The types are any, string, number, bool, list(T) and map(T), with one of the first four as T.",
    ])
}

/// Explains that a default is too large, or a number.
fn explain_default(page: &mut Page, spot: Spot<'_>) -> Result<(), AllocError> {
    match spot.first() {
        b'-' | b'0'..=b'9' => explain_number(page, spot),
        _ => {
            spot.show(page)?;
            page.say(&["The default is too large or too deep (docs/LIMITS.md)."])
        }
    }
}

/// Explains that a description is no text.
fn explain_description(page: &mut Page, spot: Spot<'_>) -> Result<(), AllocError> {
    spot.show(page)?;
    page.say(&["A description has to be a text."])
}

/// Explains a fault in an output, at one of its properties if there is one.
///
/// # Errors
///
/// Fails only if memory runs out.
pub(crate) fn output_shape(
    page: &mut Page,
    name: &str,
    property: &str,
    spot: Spot<'_>,
) -> Result<(), AllocError> {
    let (first, _) = property.split_once(".").unwrap_or((property, ""));
    match first {
        "" => output_body_shape(page, name, spot),
        "value" => explain_number(page, spot),
        "description" => explain_description(page, spot),
        _ => unknown_property(page, OUTPUT, first, spot),
    }
}

/// Explains a fault of an output as a whole.
fn output_body_shape(page: &mut Page, name: &str, spot: Spot<'_>) -> Result<(), AllocError> {
    if is_name(name) && spot.first() == b'{' {
        spot.show_name(page)?;
        page.say(&["The output `", name, "` needs a `value`."])?;
        return suggest_value(page, spot);
    }
    object_shape(page, OUTPUT.what, name, spot)
}

/// Suggests `value` in place of a near name in an output.
fn suggest_value(page: &mut Page, spot: Spot<'_>) -> Result<(), AllocError> {
    let mut written: Vec<String> = Vec::new(page.alloc);
    add_names(page.alloc, &mut written, spot.file.bytes, spot.value)?;
    let mut nearest = Nearest::to(page.alloc, "value");
    for other in &written {
        nearest.consider(other.as_str())?;
    }
    match nearest.best() {
        Some(other) => say_mistyped(page, "value", other, spot.file, spot.value),
        None => Ok(()),
    }
}
