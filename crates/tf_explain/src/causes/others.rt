//! Types, states, limits and diagnostics.

use crate::blocks::{
    Address, block_at, block_count, declaration, declared_count, read_address, resource_type,
};
use crate::causes::json::{Expected, explain_json};
use crate::causes::recorded::resource_record;
use crate::causes::values::number_at;
use crate::json_fault::json_fault;
use crate::line::ErrorLine;
use crate::near::Nearest;
use crate::page::Page;
use crate::positions::{Member, find, items, member_named, top};
use crate::sources::{SourceFile, Sources};
use crate::span::{Span, bytes_in, first_byte};
use std::alloc::{AllocError, Global};
use tf_provider_protocol::schema_for;

/// The types that providers may have.
const TYPES: [&str; 3] = ["sim_net", "sim_host", "local_file"];

/// How many bytes a file may have.
const MOST_BYTES: usize = 4_194_304;

/// The version of a state's format that is read.
const STATE_VERSION: u64 = 4;

/// What is said of a state that isn't JSON.
const STATE: Expected = Expected {
    native: "A state is one JSON object.",
    empty: "A state is one JSON object. Remove an empty file if nothing exists yet.",
};

/// How many declarations of each kind a configuration may have.
const MOST_DECLARED: usize = 2000;

/// Explains that no provider has a type.
///
/// # Errors
///
/// Fails only if memory runs out.
pub(crate) fn explain_no_provider(
    page: &mut Page,
    place: &str,
    sources: Sources<'_>,
) -> Result<(), AllocError> {
    let Some(address) = read_address(place) else {
        return Ok(());
    };
    let type_name = address.type_name;
    let config = sources.config;
    let Some(found) = resource_type(config.bytes, type_name) else {
        return page.say(&[
            "The state has an object of the type `",
            type_name,
            "`, and no provider has this type.",
        ]);
    };
    page.show(config, found.name)?;
    say_type(page, type_name, sources)
}

/// Says that no provider has a type, with the nearest one.
fn say_type(page: &mut Page, type_name: &str, sources: Sources<'_>) -> Result<(), AllocError> {
    let mut nearest = Nearest::to(page.alloc, type_name);
    for known in TYPES {
        if schema_for(sources.providers, known).is_some() {
            nearest.consider(known)?;
        }
    }
    page.suggest(&["No provider has the type `", type_name, "`."], &nearest)
}

/// Explains a state that is none, or an object in it that doesn't fit its type.
///
/// # Errors
///
/// Fails only if memory runs out.
pub(crate) fn explain_state(
    page: &mut Page,
    place: &str,
    sources: Sources<'_>,
) -> Result<(), AllocError> {
    let Some(state) = sources.state else {
        return Ok(());
    };
    if place != "state" {
        return explain_record(page, place, state);
    }
    if json_fault(page.alloc, state.bytes)?.is_some() {
        explain_json(page, state, STATE)?;
    } else if explain_version(page, state)? {
        return Ok(());
    } else {
        explain_format(page, state)?;
    }
    page.say(&[
        "Restore the state, for example from ",
        state.name,
        ".backup, if there is one.",
    ])
}

/// Explains that a state has another version than the one that is read. Returns whether it has.
fn explain_version(page: &mut Page, state: SourceFile<'_>) -> Result<bool, AllocError> {
    let Some(version) = member_named(state.bytes, top(state.bytes), "version") else {
        return Ok(false);
    };
    let found = match number_at(state.bytes, version.value) {
        Some(number) if number != STATE_VERSION => number,
        _ => return Ok(false),
    };
    page.show(state, version.value)?;
    let sentence = format!(in page.alloc;
        "The version of this state is {found}. Only version {STATE_VERSION} is read here."
    )?;
    page.say(&[sentence.as_str()])?;
    page.say(&[if found > STATE_VERSION {
        "Another program wrote it, or a newer version of this one. Use that one, or the state of another file (--state FILE)."
    } else {
        "An old version of Terraform wrote it. A newer one that reads it also writes version 4."
    }])?;
    Ok(true)
}

/// Explains which property of a state isn't as the format has it, as far as that is easy to see.
fn explain_format(page: &mut Page, state: SourceFile<'_>) -> Result<(), AllocError> {
    let whole = top(state.bytes);
    for name in ["version", "serial", "lineage"] {
        let Some(member) = member_named(state.bytes, whole, name) else {
            return page.say(&["The state has no property `", name, "` (docs/STATE.md)."]);
        };
        if name == "version" && bytes_in(state.bytes, member.value) != b"4".as_slice() {
            page.show(state, member.value)?;
            return page.say(&["The `version` of a state has to be 4."]);
        }
    }
    page.say(&["This isn't a state in the format of docs/STATE.md."])
}

/// Explains an object of the state that doesn't fit the schema of its type.
fn explain_record(page: &mut Page, place: &str, state: SourceFile<'_>) -> Result<(), AllocError> {
    let Some(address) = read_address(place) else {
        return Ok(());
    };
    if let Some(span) = record_at(page.alloc, address, state)? {
        page.show(state, span)?;
    }
    page.say(&[
        "An object in the state doesn't fit the schema of the type `",
        address.type_name,
        "`.",
    ])
}

/// Finds the attribute of an address in the text of a state. If no instance has the attribute, returns the start of the resource's
/// record.
fn record_at(
    alloc: Global,
    address: Address<'_>,
    state: SourceFile<'_>,
) -> Result<Option<Span>, AllocError> {
    match resource_record(alloc, address.type_name, address.name, state)? {
        Some(record) => {
            let found = attribute_at(alloc, state.bytes, record, address.attribute)?;
            Ok(Some(found))
        }
        None => Ok(None),
    }
}

/// Finds an attribute in a record: in the first instance that has it. If none has it, returns the first byte of the record.
fn attribute_at(alloc: Global, text: &[u8], record: Span, name: &str) -> Result<Span, AllocError> {
    if let Some(instances) = member_named(text, record, "instances") {
        for instance in &items(alloc, text, instances.value)? {
            if let Some(found) = attribute_of(text, *instance, name) {
                return Ok(found.value);
            }
        }
    }
    Ok(first_byte(record))
}

/// Returns an attribute of an instance in a state.
fn attribute_of(text: &[u8], instance: Span, name: &str) -> Option<Member> {
    let attributes = member_named(text, instance, "attributes")?;
    member_named(text, attributes.value, name)
}

/// Explains which limit is exceeded.
///
/// # Errors
///
/// Fails only if memory runs out.
pub(crate) fn explain_limit(
    page: &mut Page,
    place: &str,
    sources: Sources<'_>,
) -> Result<(), AllocError> {
    match place {
        "configuration" => explain_config_limit(page, sources.config),
        "variables" => page.say(&[
            "A variables file has at most 4,194,304 bytes (docs/LIMITS.md).",
        ]),
        "state" => page.say(&[
            "A state has records of at most 4,000 resources, and a serial of at most 4,294,967,294 (docs/LIMITS.md).",
        ]),
        "workers" => page.say(&["The number of workers is 1 to 64."]),
        _ => {
            let found = find(page.alloc, sources.config.bytes, place)?;
            page.show(sources.config, found.value)?;
            page.say(&["The template of this text is deeper than 64 (docs/LIMITS.md)."])
        }
    }
}

/// Explains which limit of a configuration is exceeded.
fn explain_config_limit(page: &mut Page, config: SourceFile<'_>) -> Result<(), AllocError> {
    if config.bytes.len() > MOST_BYTES {
        return page.say(&["A configuration has at most 4,194,304 bytes (docs/LIMITS.md)."]);
    }
    for (section_name, what) in [
        ("variable", "variables"),
        ("locals", "locals"),
        ("output", "outputs"),
    ] {
        let count = declared_count(config.bytes, section_name);
        if count > MOST_DECLARED {
            return say_count(page, what, count);
        }
    }
    let count = block_count(page.alloc, config.bytes)?;
    if count > MOST_DECLARED {
        return say_count(page, "resource blocks", count);
    }
    page.say(&[
        "A configuration has at most 2,000 instances, a plan at most 2,000 actions, and 200,000 pairs of which one comes first.",
    ])?;
    page.say(&["Divide it into several, each with its own state (docs/LIMITS.md)."])
}

/// Says that there are more declarations than allowed.
fn say_count(page: &mut Page, what: &str, count: usize) -> Result<(), AllocError> {
    let sentence = format!(in page.alloc;
        "The configuration has {count} {what}. At most 2000 are allowed (docs/LIMITS.md)."
    )?;
    page.say(&[sentence.as_str()])
}

/// Shows the attribute of a diagnostic, or else the block or the output.
///
/// # Errors
///
/// Fails only if memory runs out.
pub(crate) fn explain_diagnostic(
    page: &mut Page,
    line: ErrorLine<'_>,
    sources: Sources<'_>,
) -> Result<(), AllocError> {
    if let Some(span) = diagnosed_at(line, sources.config.bytes) {
        page.show(sources.config, span)?;
    }
    match line.code {
        21 => page.say(&[
            "The provider failed with this message. Correct the cause, and apply again.",
        ]),
        22 => page.say(&[
            "The provider's reply has another value than the plan. The object is saved.",
        ]),
        23 => page.say(&["The provider's reply doesn't follow the schema of its type."]),
        24 => page.say(&["With the values that are known now, an expression has a fault."]),
        26 => page.say(&["Memory ran out, or a file couldn't be written. Nothing was done."]),
        27 => page.say(&["A stop came before this action began. Apply again to carry it out."]),
        _ => Ok(()),
    }
}

/// Finds the argument that a diagnostic names, or else the name of its block or output.
fn diagnosed_at(line: ErrorLine<'_>, config: &[u8]) -> Option<Span> {
    if let Some(name) = line.place.strip_prefix("output.") {
        return Some(declaration(config, "output", name)?.name);
    }
    let found = block_at(config, line.place)?;
    let argument = match attribute_in(line) {
        Some(name) => member_named(config, found.value, name),
        None => None,
    };
    Some(argument.map_or(found.name, |member| member.value))
}

/// Returns the attribute that a diagnostic names: the one that a reply contradicts, or the one whose value has a fault.
fn attribute_in(line: ErrorLine<'_>) -> Option<&str> {
    match line.code {
        22 => line.message.strip_prefix("contradicts "),
        24 => Some(line.message.split_once(": ")?.0),
        _ => None,
    }
}
