//! Warnings on what is likely to be a mistake, although nothing is refused.

use crate::blocks::{add_declared, block_has, resource_type, section};
use crate::decoding::text_in;
use crate::json_fault::json_fault;
use crate::near::Nearest;
use crate::page::Page;
use crate::positions::{Member, is_comment, member_named, members, name_of, top};
use crate::repeated::{ObjectKind, Repeated, repeated_properties, repeated_texts};
use crate::sources::{SourceFile, Sources};
use crate::span::{Span, is_literal};
use std::alloc::{AllocError, Global};
use std::env::{Env, FillError};

/// The most warnings of one kind.
const MOST_WARNINGS: usize = 10;

/// The most variables that are looked up in the environment, and the most names that are compared for a suggestion.
const MOST_NAMES: usize = 2_000;

/// Returns warnings on the files that a program read, and on its environment: a property that an object has twice; a file that
/// several blocks write; a name in the variables file that isn't declared; a variable without a value in that file for which the environment has one, which isn't read.
/// Each is a line, and indented lines that show the place. A file that isn't JSON has none.
///
/// # Errors
///
/// Fails only if memory runs out.
pub fn warnings<R: Env>(alloc: Global, rt: &R, sources: Sources<'_>) -> Result<String, AllocError> {
    let mut page = Page::new(alloc);
    warn(&mut page, rt, sources)?;
    Ok(page.into_text())
}

/// Adds the warnings to a page.
fn warn<R: Env>(page: &mut Page, rt: &R, sources: Sources<'_>) -> Result<(), AllocError> {
    if json_fault(page.alloc, sources.config.bytes)?.is_some() {
        return Ok(());
    }
    warn_repeated(page, sources.config, true)?;
    warn_files(page, sources.config)?;
    let vars = match sources.vars {
        Some(vars) if json_fault(page.alloc, vars.bytes)?.is_none() => Some(vars),
        _ => None,
    };
    if let Some(vars) = vars {
        warn_repeated(page, vars, false)?;
        warn_undeclared(page, sources.config, vars)?;
    }
    warn_environment(page, rt, sources.config, vars)
}

/// Warns of each property that an object of a file has twice. The file is the configuration, or it has values.
fn warn_repeated(
    page: &mut Page,
    file: SourceFile<'_>,
    is_configuration: bool,
) -> Result<(), AllocError> {
    let found = repeated_properties(page.alloc, file.bytes)?;
    warn_groups(page, file, is_configuration, &found)
}

/// Warns of each group of properties of one name in an object.
fn warn_groups(
    page: &mut Page,
    file: SourceFile<'_>,
    is_configuration: bool,
    found: &[Repeated],
) -> Result<(), AllocError> {
    for group in found.iter().take(MOST_WARNINGS) {
        let kind = if is_configuration {
            group.kind
        } else {
            ObjectKind::Other
        };
        let name = name_in(page.alloc, file.bytes, kind, group)?;
        warn_group(page, file, kind, group, name.as_str())?;
    }
    let more = found.len().saturating_sub(MOST_WARNINGS);
    if more > 0 {
        return page.count(
            "warning: properties that are written twice and not shown: ",
            more,
        );
    }
    Ok(())
}

/// Returns the name of a property that is written twice. The name of a resource begins with its type.
fn name_in(
    alloc: Global,
    text: &[u8],
    kind: ObjectKind,
    group: &Repeated,
) -> Result<String, AllocError> {
    let name = text_in(alloc, text, group.last)?;
    match group.object {
        Some(object) if kind == ObjectKind::Resources => {
            let mut address = text_in(alloc, text, object)?;
            address.push('.')?;
            address.push_str(name.as_str())?;
            Ok(address)
        }
        _ => Ok(name),
    }
}

/// Warns of a property that an object has twice.
fn warn_group(
    page: &mut Page,
    file: SourceFile<'_>,
    kind: ObjectKind,
    group: &Repeated,
    name: &str,
) -> Result<(), AllocError> {
    page.warn(&["`", name, "` is written twice in one object"])?;
    page.show(file, group.last)?;
    page.say(&[if group.others.len() > 1 {
        "The last one counts. Before it there are these:"
    } else {
        "The last one counts. Before it there is this one:"
    }])?;
    for other in &group.others {
        page.show(file, *other)?;
    }
    page.say(&[consequence(kind, name)])
}

/// Returns what a property that is written twice leads to.
fn consequence(kind: ObjectKind, name: &str) -> &'static str {
    match kind {
        ObjectKind::Top if name == "resource" => RESOURCES_LOST,
        ObjectKind::Types => RESOURCES_LOST,
        ObjectKind::Top =>
            "What only the earlier one declares isn't declared. Write one property with all of it.",
        ObjectKind::Resources =>
            "Only the last of these resources is declared. Give each resource a name of its own.",
        ObjectKind::Other => "The earlier value isn't used.",
    }
}

const RESOURCES_LOST: &str =
    "The resources in the earlier one aren't declared: a plan destroys those that exist. Write one property with all of them.";

/// Warns of each file that several blocks of the type `local_file` write.
fn warn_files(page: &mut Page, config: SourceFile<'_>) -> Result<(), AllocError> {
    let Some(files) = resource_type(config.bytes, "local_file") else {
        return Ok(());
    };
    let mut names: Vec<Span> = Vec::new(page.alloc);
    for block in &members(page.alloc, config.bytes, files.value)? {
        if let Some(name) = filename_in(config.bytes, *block) {
            names.push(name)?;
        }
    }
    let found = repeated_texts(page.alloc, config.bytes, names.as_slice())?;
    for group in found.iter().take(MOST_WARNINGS) {
        warn_file(page, config, group)?;
    }
    let more = found.len().saturating_sub(MOST_WARNINGS);
    if more > 0 {
        return page.count(
            "warning: files of several blocks that are not shown: ",
            more,
        );
    }
    Ok(())
}

/// Returns where the `filename` of a block is, if it is literal and the block has one instance.
fn filename_in(text: &[u8], block: Member) -> Option<Span> {
    if is_comment(text, block)
        || block_has(text, block, "count")
        || block_has(text, block, "for_each")
    {
        return None;
    }
    let name = member_named(text, block.value, "filename")?;
    if is_literal(text, name.value) {
        Some(name.value)
    } else {
        None
    }
}

/// Warns of a file that several blocks write.
fn warn_file(page: &mut Page, config: SourceFile<'_>, group: &Repeated) -> Result<(), AllocError> {
    let name = text_in(page.alloc, config.bytes, group.last)?;
    page.warn(&["`", name.as_str(), "` is the `filename` of several blocks"])?;
    for other in &group.others {
        page.show(config, *other)?;
    }
    page.show(config, group.last)?;
    page.say(&["Each of them writes this file, and replaces what another one wrote."])
}

/// Warns of each name in a variables file that the configuration doesn't declare.
fn warn_undeclared(
    page: &mut Page,
    config: SourceFile<'_>,
    vars: SourceFile<'_>,
) -> Result<(), AllocError> {
    let mut declared: Vec<String> = Vec::new(page.alloc);
    add_declared(page.alloc, &mut declared, config.bytes, "variable")?;
    declared.sort_unstable();
    let given = members(page.alloc, vars.bytes, top(vars.bytes))?;
    warn_given(page, vars, &given, &declared)
}

/// Warns of each of some properties of a variables file whose name isn't among those that are declared.
fn warn_given(
    page: &mut Page,
    vars: SourceFile<'_>,
    given: &[Member],
    declared: &[String],
) -> Result<(), AllocError> {
    let mut count = 0usize;
    for member in given {
        let name = name_of(page.alloc, vars.bytes, member)?;
        if is_comment(vars.bytes, *member) || declared.binary_search(&name).is_ok() {
            continue;
        }
        if count >= MOST_WARNINGS {
            return page.warn(&["there are more variables that are not declared"]);
        }
        count = count.saturating_add(1);
        warn_name(page, vars, *member, name.as_str(), declared)?;
    }
    Ok(())
}

/// Warns of a name in a variables file that isn't declared.
fn warn_name(
    page: &mut Page,
    vars: SourceFile<'_>,
    member: Member,
    name: &str,
    declared: &[String],
) -> Result<(), AllocError> {
    page.warn(&["the variable `", name, "` is not declared"])?;
    page.show(vars, member.name)?;
    let mut nearest = Nearest::to(page.alloc, name);
    for other in declared.iter().take(MOST_NAMES) {
        nearest.consider(other.as_str())?;
    }
    page.suggest(
        &["The configuration declares no such variable, and its value isn't used."],
        &nearest,
    )
}

/// Warns of each variable for which the environment has a value and the variables file has none.
fn warn_environment<R: Env>(
    page: &mut Page,
    rt: &R,
    config: SourceFile<'_>,
    vars: Option<SourceFile<'_>>,
) -> Result<(), AllocError> {
    let Some(variables) = section(config.bytes, "variable") else {
        return Ok(());
    };
    let mut count = 0usize;
    let declared = members(page.alloc, config.bytes, variables.value)?;
    for member in declared.iter().take(MOST_NAMES) {
        if warn_unread(page, rt, config, vars, *member, count)? {
            count = count.saturating_add(1);
        }
        if count > MOST_WARNINGS {
            break;
        }
    }
    Ok(())
}

/// Warns of a variable if the environment has a value for it and the variables file has none. Returns whether it did. After the most
/// warnings, it says that there are more.
fn warn_unread<R: Env>(
    page: &mut Page,
    rt: &R,
    config: SourceFile<'_>,
    vars: Option<SourceFile<'_>>,
    member: Member,
    count: usize,
) -> Result<bool, AllocError> {
    let name = name_of(page.alloc, config.bytes, &member)?;
    let mut unread = String::from_str(page.alloc, "TF_VAR_")?;
    unread.push_str(name.as_str())?;
    if !is_set(rt, unread.as_str()) || has_value(vars, name.as_str()) {
        return Ok(false);
    }
    if count >= MOST_WARNINGS {
        page.warn(&["more variables of the environment are not read"])?;
    } else {
        warn_variable(page, config, member, unread.as_str())?;
    }
    Ok(true)
}

/// Returns whether the environment has a variable.
fn is_set<R: Env>(rt: &R, name: &str) -> bool {
    let mut buffer = [0u8; 1];
    !matches!(rt.var(name, &mut buffer), Err(FillError::NotPresent))
}

/// Returns whether a variables file has a value for a variable.
fn has_value(vars: Option<SourceFile<'_>>, name: &str) -> bool {
    match vars {
        Some(vars) => member_named(vars.bytes, top(vars.bytes), name).is_some(),
        None => false,
    }
}

/// Warns of a variable of the environment that isn't read.
fn warn_variable(
    page: &mut Page,
    config: SourceFile<'_>,
    member: Member,
    unread: &str,
) -> Result<(), AllocError> {
    page.warn(&["`", unread, "` is not read"])?;
    page.show(config, member.name)?;
    page.say(&[
        "The environment has `",
        unread,
        "`, but values of variables aren't read from there. Write this one into the file of --vars.",
    ])
}
