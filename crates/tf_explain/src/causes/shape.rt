//! What the format doesn't allow.

use crate::blocks::section;
use crate::causes::shape_bodies::{body_shape, output_shape, variable_shape};
use crate::page::Page;
use crate::positions::{find, member_named, split_name, top};
use crate::sources::{SourceFile, Sources};
use crate::span::{Span, byte_at, find_bytes, first_byte};
use std::alloc::{AllocError, Global};
use tf_config_address::is_name;

/// What a name is.
const NAMES: &str =
    "A name begins with a letter or `_`, and has only letters, digits, `_` and `-`.";

/// The blocks of a configuration.
const BLOCKS: [&str; 4] = ["resource", "variable", "locals", "output"];

/// The blocks of Terraform that aren't supported.
const UNSUPPORTED_BLOCKS: [&str; 10] = [
    "module",
    "data",
    "import",
    "moved",
    "removed",
    "check",
    "provider",
    "terraform",
    "ephemeral",
    "provisioner",
];

/// The words that are no types.
const RESERVED_TYPES: [&str; 12] = [
    "var",
    "local",
    "each",
    "count",
    "data",
    "module",
    "path",
    "self",
    "terraform",
    "true",
    "false",
    "null",
];

/// Where a fault is in a file.
#[derive(Clone, Copy)]
pub(crate) struct Spot<'f> {
    pub(crate) file: SourceFile<'f>,
    /// The value.
    pub(crate) value: Span,
    /// The name of the property, with the quotes, if it is a property.
    pub(crate) name: Option<Span>,
}

impl Spot<'_> {
    /// Returns the first byte of the value.
    pub(crate) fn first(self) -> u8 {
        byte_at(self.file.bytes, self.value.start)
    }

    /// Shows the value.
    ///
    /// # Errors
    ///
    /// Fails only if memory runs out.
    pub(crate) fn show(self, page: &mut Page) -> Result<(), AllocError> {
        page.show(self.file, self.value)
    }

    /// Shows the name of the property, or its value if it has none.
    ///
    /// # Errors
    ///
    /// Fails only if memory runs out.
    pub(crate) fn show_name(self, page: &mut Page) -> Result<(), AllocError> {
        page.show(self.file, self.name.unwrap_or(self.value))
    }
}

/// Explains what the format doesn't allow at a place.
///
/// # Errors
///
/// Fails only if memory runs out.
pub(crate) fn explain_shape(
    page: &mut Page,
    place: &str,
    sources: Sources<'_>,
) -> Result<(), AllocError> {
    let config = sources.config;
    if place == "configuration" {
        page.show(config, first_byte(top(config.bytes)))?;
        return page.say(&["A configuration is one object: { .. }."]);
    }
    if let Some(name) = empty_name(page.alloc, config, place)? {
        page.show(config, name)?;
        return page.say(&["A name can't be empty. ", NAMES]);
    }
    let (first, rest) = split_name(page.alloc, config.bytes, top(config.bytes), place)?;
    let Some(found) = section(config.bytes, first) else {
        return variables_shape(page, place, sources);
    };
    let spot = spot_at(page.alloc, config, place)?;
    if rest.is_empty() {
        return section_shape(page, first, spot);
    }
    match first {
        "resource" => resource_shape(page, rest, found.value, spot),
        "variable" | "output" | "locals" => declared_shape(page, first, rest, found.value, spot),
        _ => explain_number(page, spot),
    }
}

/// Explains a fault below a section of declarations.
fn declared_shape(
    page: &mut Page,
    first: &str,
    rest: &str,
    names: Span,
    spot: Spot<'_>,
) -> Result<(), AllocError> {
    let (name, property) = split_name(page.alloc, spot.file.bytes, names, rest)?;
    match first {
        "variable" => variable_shape(page, name, property, spot),
        "output" => output_shape(page, name, property, spot),
        _ if property.is_empty() => named_shape(page, name, spot),
        _ => explain_number(page, spot),
    }
}

/// Returns where the last name of a path is, if it is an empty one that has to be a name.
fn empty_name(
    alloc: Global,
    config: SourceFile<'_>,
    place: &str,
) -> Result<Option<Span>, AllocError> {
    if place.is_empty() {
        return Ok(section(config.bytes, "").map(|member| member.name));
    }
    let Some(outer) = place.strip_suffix(".") else {
        return Ok(None);
    };
    let found = find(alloc, config.bytes, outer)?;
    if !found.rest.is_empty() {
        return Ok(None);
    }
    Ok(member_named(config.bytes, found.value, "").map(|member| member.name))
}

/// Finds a place in a file.
fn spot_at<'f>(alloc: Global, file: SourceFile<'f>, place: &str) -> Result<Spot<'f>, AllocError> {
    let found = find(alloc, file.bytes, place)?;
    Ok(Spot {
        file,
        value: found.value,
        name: found.name,
    })
}

/// Explains a fault in the variables file.
fn variables_shape(page: &mut Page, place: &str, sources: Sources<'_>) -> Result<(), AllocError> {
    let Some(vars) = sources.vars else {
        return Ok(());
    };
    if place == "variables" {
        page.show(vars, first_byte(top(vars.bytes)))?;
        return page.say(&[
            "The variables file is one object: names of variables, with their values.",
        ]);
    }
    let spot = spot_at(page.alloc, vars, place)?;
    explain_number(page, spot)
}

/// Explains a fault at a property of the configuration itself.
fn section_shape(page: &mut Page, name: &str, spot: Spot<'_>) -> Result<(), AllocError> {
    if BLOCKS.contains(&name) {
        spot.show(page)?;
        return page.say(&["`", name, "` has to be an object: { \"NAME\": .. }."]);
    }
    spot.show_name(page)?;
    if UNSUPPORTED_BLOCKS.contains(&name) {
        return page.say(&[
            "Blocks of the kind `",
            name,
            "` aren't supported here (docs/DIFFERENCES.md).",
        ]);
    }
    page.suggest_among(
        &["A configuration has no blocks of the kind `", name, "`."],
        name,
        &BLOCKS,
    )
}

/// Explains that a name is none.
fn say_no_name(page: &mut Page, name: &str, spot: Spot<'_>) -> Result<(), AllocError> {
    spot.show_name(page)?;
    page.say(&["`", name, "` isn't a name. ", NAMES])
}

/// Explains that a name is none, or else that a value is no object.
///
/// # Errors
///
/// Fails only if memory runs out.
pub(crate) fn object_shape<'a>(
    page: &mut Page,
    what: &'a str,
    name: &'a str,
    spot: Spot<'_>,
) -> Result<(), AllocError> {
    if !is_name(name) {
        return say_no_name(page, name, spot);
    }
    explain_no_object(page, what, spot)
}

/// Explains that a name is none, or else a fault in a value.
///
/// # Errors
///
/// Fails only if memory runs out.
pub(crate) fn named_shape(page: &mut Page, name: &str, spot: Spot<'_>) -> Result<(), AllocError> {
    if !is_name(name) {
        return say_no_name(page, name, spot);
    }
    explain_number(page, spot)
}

/// Explains that a value is no object.
///
/// # Errors
///
/// Fails only if memory runs out.
pub(crate) fn explain_no_object(
    page: &mut Page,
    what: &str,
    spot: Spot<'_>,
) -> Result<(), AllocError> {
    spot.show(page)?;
    if spot.first() == b'[' {
        return page.say(&[
            what,
            " is one object here. Arrays of objects aren't supported (docs/DIFFERENCES.md).",
        ]);
    }
    page.say(&[what, " has to be an object: { .. }."])
}

/// Explains a number that isn't whole, or a property's name that looks like a template.
///
/// # Errors
///
/// Fails only if memory runs out.
pub(crate) fn explain_number(page: &mut Page, spot: Spot<'_>) -> Result<(), AllocError> {
    let is_number = matches!(spot.first(), b'-' | b'0'..=b'9');
    if is_number && !is_interpolated(spot.file.bytes, spot.name) {
        spot.show(page)?;
        return page.say(&[
            "A number has to be whole, within 64 bits with a sign, and without a fraction, an exponent or -0.",
        ]);
    }
    spot.show_name(page)?;
    page.say(&[
        "The format doesn't allow this here. The name of a property is literal: it can't have ${ or %{.",
    ])
}

/// Returns whether the name of a property looks like a template.
fn is_interpolated(text: &[u8], name: Option<Span>) -> bool {
    match name {
        Some(span) => {
            find_bytes(text, span, "${").is_some() || find_bytes(text, span, "%{").is_some()
        }
        None => false,
    }
}

/// Explains a fault below `resource`.
fn resource_shape(
    page: &mut Page,
    rest: &str,
    types: Span,
    spot: Spot<'_>,
) -> Result<(), AllocError> {
    let text = spot.file.bytes;
    let (type_name, rest) = split_name(page.alloc, text, types, rest)?;
    let Some(found) = member_named(text, types, type_name) else {
        return type_shape(page, type_name, spot);
    };
    if rest.is_empty() {
        return type_shape(page, type_name, spot);
    }
    let (name, property) = split_name(page.alloc, text, found.value, rest)?;
    let Some(block) = member_named(text, found.value, name) else {
        return body_shape(page, name, "", "", spot);
    };
    if property.is_empty() {
        return body_shape(page, name, "", "", spot);
    }
    let (argument, deeper) = split_name(page.alloc, text, block.value, property)?;
    body_shape(page, name, argument, deeper, spot)
}

/// Explains a fault at a type.
fn type_shape(page: &mut Page, type_name: &str, spot: Spot<'_>) -> Result<(), AllocError> {
    if RESERVED_TYPES.contains(&type_name) {
        spot.show_name(page)?;
        return page.say(&[
            "`",
            type_name,
            "` can't be a type, since it means something else in expressions.",
        ]);
    }
    object_shape(page, "A type", type_name, spot)
}
