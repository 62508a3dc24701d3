//! Arguments that don't fit the schema of their type, and values of variables.

use crate::blocks::{add_declared, add_names, block, declaration, lifecycle_setting, read_address};
use crate::causes::values::{show_value, value_of_variable};
use crate::decoding::{is_text, text_in};
use crate::near::Nearest;
use crate::page::Page;
use crate::positions::{Member, items, member_named, top};
use crate::sources::{SourceFile, Sources};
use crate::span::{Span, byte_at, find_bytes};
use std::alloc::{AllocError, Global};
use tf_provider_protocol::{Attribute, Kind, Mode, Schema, schema_for};

/// Explains a bad argument, or the bad value of a variable.
///
/// # Errors
///
/// Fails only if memory runs out.
pub(crate) fn explain_argument(
    page: &mut Page,
    place: &str,
    sources: Sources<'_>,
) -> Result<(), AllocError> {
    if let Some(name) = place.strip_prefix("var.") {
        return explain_variable(page, name, sources);
    }
    let Some(address) = read_address(place) else {
        return Ok(());
    };
    let config = sources.config;
    let Some(found) = block(config.bytes, address.type_name, address.name) else {
        return Ok(());
    };
    let Some(schema) = schema_for(sources.providers, address.type_name) else {
        return Ok(());
    };
    let argument = member_named(config.bytes, found.value, address.attribute);
    match schema.attribute(address.attribute) {
        None => {
            let span = match argument {
                Some(argument) => argument.name,
                None => ignored_at(page.alloc, config.bytes, found, address.attribute)?,
            };
            page.show(config, span)?;
            say_no_argument(page, address.type_name, address.attribute, schema)
        }
        Some(attribute) => explain_attribute(
            page,
            address.type_name,
            schema,
            attribute,
            config,
            found,
            argument,
        ),
    }
}

/// What the programs call the values of several files and options.
const MERGED: &str = "the merged variables";

/// The properties of each block that are no arguments.
const PROPERTIES: [&str; 4] = ["count", "for_each", "depends_on", "lifecycle"];

/// Says that a type has no attribute, with the nearest one or the nearest other property of a block.
fn say_no_argument<'a>(
    page: &mut Page,
    type_name: &'a str,
    name: &'a str,
    schema: &Schema,
) -> Result<(), AllocError> {
    let mut nearest = Nearest::to(page.alloc, name);
    for attribute in schema.attributes() {
        nearest.consider(attribute.name.as_str())?;
    }
    nearest.consider_all(&PROPERTIES)?;
    page.suggest(
        &["The type `", type_name, "` has no attribute `", name, "`."],
        &nearest,
    )
}

/// Returns where a name is in `ignore_changes`, or where its block's name is.
fn ignored_at(alloc: Global, text: &[u8], block: Member, name: &str) -> Result<Span, AllocError> {
    let Some(ignored) = lifecycle_setting(text, block, "ignore_changes") else {
        return Ok(block.name);
    };
    for item in &items(alloc, text, ignored.value)? {
        if is_text(text, *item, name) {
            return Ok(*item);
        }
    }
    Ok(block.name)
}

/// Explains a bad value of an attribute that the type has.
fn explain_attribute<'a>(
    page: &mut Page,
    type_name: &'a str,
    schema: &Schema,
    attribute: &'a Attribute,
    config: SourceFile<'_>,
    block: Member,
    argument: Option<Member>,
) -> Result<(), AllocError> {
    let name = attribute.name.as_str();
    let Some(argument) = argument else {
        page.show(config, block.name)?;
        return say_required(page, type_name, name, config, block, schema);
    };
    if let Mode::Computed = attribute.mode {
        page.show(config, argument.name)?;
        return say_computed(page, name);
    }
    page.show(config, argument.value)?;
    let given = Given::of(config.bytes, argument.value);
    say_kind(page, name, kind_text(attribute.kind), given)?;
    match (attribute.mode, given) {
        (Mode::Required, Given::Null | Given::Expression) => {
            page.say(&["It is required, so it can't be null."])
        }
        _ => Ok(()),
    }
}

/// Says that a provider sets an attribute.
fn say_computed(page: &mut Page, name: &str) -> Result<(), AllocError> {
    page.say(&[
        "The provider sets `",
        name,
        "`. A configuration can't: remove it.",
    ])
}

/// Says which values an argument takes, and what is given.
fn say_kind<'a>(
    page: &mut Page,
    name: &'a str,
    kind: &'a str,
    given: Given,
) -> Result<(), AllocError> {
    page.say(&["`", name, "` takes ", kind, "."])?;
    page.say(&[given.text()])
}

/// Says that an argument is required, with a near name in the block that isn't an attribute.
fn say_required<'a>(
    page: &mut Page,
    type_name: &'a str,
    name: &'a str,
    config: SourceFile<'_>,
    block: Member,
    schema: &Schema,
) -> Result<(), AllocError> {
    page.say(&[
        "The argument `",
        name,
        "` is required in a block of the type `",
        type_name,
        "`.",
    ])?;
    let mut written: Vec<String> = Vec::new(page.alloc);
    add_names(page.alloc, &mut written, config.bytes, block.value)?;
    let mut nearest = Nearest::to(page.alloc, name);
    for other in &written {
        if schema.attribute(other.as_str()).is_none() {
            nearest.consider(other.as_str())?;
        }
    }
    match nearest.best() {
        Some(other) => say_mistyped(page, name, other, config, block.value),
        None => Ok(()),
    }
}

/// Says that a property has a near name.
///
/// # Errors
///
/// Fails only if memory runs out.
pub(crate) fn say_mistyped<'a>(
    page: &mut Page,
    name: &'a str,
    written: &'a str,
    config: SourceFile<'_>,
    object: Span,
) -> Result<(), AllocError> {
    if let Some(member) = member_named(config.bytes, object, written) {
        page.show(config, member.name)?;
    }
    page.say(&["Did you mean `", name, "` in place of `", written, "`?"])
}

/// Returns the values of a kind, in words.
fn kind_text(kind: Kind) -> &'static str {
    match kind {
        Kind::String => "a text",
        Kind::Number => "a whole number",
        Kind::Bool => "true or false",
        Kind::Any => "any value",
    }
}

/// What is given for an argument.
#[derive(Clone, Copy)]
pub(crate) enum Given {
    List,
    Object,
    Truth,
    Null,
    Number,
    Text,
    /// A text with an interpolation.
    Expression,
}

impl Given {
    /// Returns what is given in a range of a file.
    pub(crate) fn of(text: &[u8], value: Span) -> Given {
        match byte_at(text, value.start) {
            b'[' => Given::List,
            b'{' => Given::Object,
            b't' | b'f' => Given::Truth,
            b'n' => Given::Null,
            b'"' if find_bytes(text, value, "${").is_some() => Given::Expression,
            b'"' => Given::Text,
            _ => Given::Number,
        }
    }

    /// Returns that it is given, in words.
    pub(crate) fn text(self) -> &'static str {
        match self {
            Given::List => "A list is given.",
            Given::Object => "An object is given.",
            Given::Truth => "A truth value is given.",
            Given::Null => "`null` is given.",
            Given::Number => "A number is given.",
            Given::Text => "A text is given.",
            Given::Expression => "The value of this expression isn't one.",
        }
    }
}

/// Explains a variable without a value, or with one that doesn't fit its type.
fn explain_variable(page: &mut Page, name: &str, sources: Sources<'_>) -> Result<(), AllocError> {
    let config = sources.config;
    let Some(variable) = declaration(config.bytes, "variable", name) else {
        return Ok(());
    };
    match value_of_variable(name, sources) {
        Some(shown) => {
            show_value(page, shown)?;
            explain_misfit(page, name, config, variable)?;
            say_merged(page, name, shown.file)
        }
        None => {
            page.show(config, variable.name)?;
            explain_no_value(page, name, sources)
        }
    }
}

/// Says where a value comes from, if the values of several files and options were merged.
fn say_merged(page: &mut Page, name: &str, file: SourceFile<'_>) -> Result<(), AllocError> {
    if file.name != MERGED {
        return Ok(());
    }
    page.say(&[
        "The last --vars or --var on the command line that has `",
        name,
        "` gives this value.",
    ])
}

/// Explains that a variable's value doesn't fit its type.
fn explain_misfit(
    page: &mut Page,
    name: &str,
    config: SourceFile<'_>,
    variable: Member,
) -> Result<(), AllocError> {
    match member_named(config.bytes, variable.value, "type") {
        Some(member) => {
            let type_name = text_in(page.alloc, config.bytes, member.value)?;
            say_misfit(page, name, type_name.as_str())?;
            page.say(&["The type is declared here:"])?;
            page.show(config, member.value)
        }
        None => say_misfit(page, name, "any"),
    }
}

/// Says that a variable's value doesn't fit its type.
fn say_misfit(page: &mut Page, name: &str, type_name: &str) -> Result<(), AllocError> {
    page.say(&[
        "This value of `var.",
        name,
        "` doesn't fit its type, ",
        type_name,
        ".",
    ])
}

/// Explains that a variable has no value, with a near name of the variables file.
fn explain_no_value(page: &mut Page, name: &str, sources: Sources<'_>) -> Result<(), AllocError> {
    let Some(vars) = sources.vars else {
        return page.say(&[
            "`var.",
            name,
            "` has no value. Give it one in a variables file (--vars FILE), or a `default`.",
        ]);
    };
    page.say(&[
        "`var.",
        name,
        "` has no value. Give it one in ",
        vars.name,
        ", or a `default`.",
    ])?;
    let mut nearest = Nearest::to(page.alloc, name);
    consider_undeclared(&mut nearest, sources.config.bytes, vars.bytes)?;
    match nearest.best() {
        Some(given) => explain_mistyped(page, name, given, vars),
        None => Ok(()),
    }
}

/// Looks for a near name among those in a variables file that the configuration doesn't declare.
fn consider_undeclared(
    nearest: &mut Nearest<'_>,
    config: &[u8],
    vars: &[u8],
) -> Result<(), AllocError> {
    let alloc = nearest.alloc;
    let mut declared: Vec<String> = Vec::new(alloc);
    add_declared(alloc, &mut declared, config, "variable")?;
    let mut given: Vec<String> = Vec::new(alloc);
    add_names(alloc, &mut given, vars, top(vars))?;
    consider_others(nearest, &given, &declared)
}

/// Considers each of some names that isn't among others.
fn consider_others(
    nearest: &mut Nearest<'_>,
    names: &[String],
    others: &[String],
) -> Result<(), AllocError> {
    for name in names {
        if !others.contains(name) {
            nearest.consider(name.as_str())?;
        }
    }
    Ok(())
}

/// Explains that a variables file has a near name that isn't declared.
fn explain_mistyped<'a>(
    page: &mut Page,
    name: &'a str,
    given: &'a str,
    vars: SourceFile<'_>,
) -> Result<(), AllocError> {
    if let Some(member) = member_named(vars.bytes, top(vars.bytes), given) {
        page.show(vars, member.name)?;
    }
    page.say(&["`", given, "` isn't declared. Did you mean `", name, "`?"])
}
