//! The blocks that a configuration declares.

use crate::near::Nearest;
use crate::positions::{Member, is_comment, member_count, member_named, members, name_of, top};
use crate::span::Span;
use std::alloc::{AllocError, Global};

/// An address of a resource or of one of its instances, and what follows it.
#[derive(Clone, Copy)]
pub(crate) struct Address<'a> {
    /// The resource type, such as `sim_net`.
    pub(crate) type_name: &'a str,
    /// The name.
    pub(crate) name: &'a str,
    /// The attribute after it, or nothing.
    pub(crate) attribute: &'a str,
}

/// Reads an address such as `sim_net.a`, `sim_net.a[0].cidr` or `sim_net.a["k"].cidr`.
pub(crate) fn read_address(place: &str) -> Option<Address<'_>> {
    let (type_name, rest) = place.split_once(".")?;
    let Some((name, keyed)) = rest.split_once("[") else {
        let (name, attribute) = rest.split_once(".").unwrap_or((rest, ""));
        return Some(Address {
            type_name,
            name,
            attribute,
        });
    };
    let (_, after) = keyed.rsplit_once("]")?;
    Some(Address {
        type_name,
        name,
        attribute: after.strip_prefix(".").unwrap_or(""),
    })
}

/// Returns the key of an instance in an address, as JSON spells it.
pub(crate) fn key_in(place: &str) -> Option<&str> {
    let (_, rest) = place.split_once("[")?;
    let (key, _) = rest.rsplit_once("]")?;
    Some(key)
}

/// Returns the property of a name in the top object of a text.
pub(crate) fn section(text: &[u8], name: &str) -> Option<Member> {
    member_named(text, top(text), name)
}

/// Returns the declaration of a variable, a local or an output, by the name of its section.
pub(crate) fn declaration(text: &[u8], section_name: &str, name: &str) -> Option<Member> {
    let found = section(text, section_name)?;
    member_named(text, found.value, name)
}

/// Returns the types of the blocks of resources, with their blocks.
pub(crate) fn resource_type(text: &[u8], type_name: &str) -> Option<Member> {
    declaration(text, "resource", type_name)
}

/// Returns the block of a resource.
pub(crate) fn block(text: &[u8], type_name: &str, name: &str) -> Option<Member> {
    let found = resource_type(text, type_name)?;
    member_named(text, found.value, name)
}

/// Returns the block that an address names.
pub(crate) fn block_at(text: &[u8], place: &str) -> Option<Member> {
    let address = read_address(place)?;
    block(text, address.type_name, address.name)
}

/// Returns whether the block of a resource has a property.
pub(crate) fn block_has(text: &[u8], block: Member, name: &str) -> bool {
    member_named(text, block.value, name).is_some()
}

/// Returns a setting in the `lifecycle` of a block.
pub(crate) fn lifecycle_setting(text: &[u8], block: Member, name: &str) -> Option<Member> {
    let lifecycle = member_named(text, block.value, "lifecycle")?;
    member_named(text, lifecycle.value, name)
}

/// Returns how many names a section of a configuration declares.
pub(crate) fn declared_count(text: &[u8], section_name: &str) -> usize {
    match section(text, section_name) {
        Some(found) => member_count(text, found.value),
        None => 0,
    }
}

/// Returns how many blocks of resources a configuration has.
///
/// # Errors
///
/// Fails only if memory runs out.
pub(crate) fn block_count(alloc: Global, text: &[u8]) -> Result<usize, AllocError> {
    let Some(resources) = section(text, "resource") else {
        return Ok(0);
    };
    let mut count = 0usize;
    for kind in &members(alloc, text, resources.value)? {
        count = count.saturating_add(member_count(text, kind.value));
    }
    Ok(count)
}

/// Adds the names of the properties in an object to some, but for comments.
///
/// # Errors
///
/// Fails only if memory runs out.
pub(crate) fn add_names(
    alloc: Global,
    names: &mut Vec<String>,
    text: &[u8],
    object: Span,
) -> Result<(), AllocError> {
    for member in &members(alloc, text, object)? {
        if !is_comment(text, *member) {
            names.push(name_of(alloc, text, member)?)?;
        }
    }
    Ok(())
}

/// Adds the names that a section of a configuration declares to some.
///
/// # Errors
///
/// Fails only if memory runs out.
pub(crate) fn add_declared(
    alloc: Global,
    names: &mut Vec<String>,
    text: &[u8],
    section_name: &str,
) -> Result<(), AllocError> {
    match section(text, section_name) {
        Some(found) => add_names(alloc, names, text, found.value),
        None => Ok(()),
    }
}

/// Looks for a near name among those of the properties in an object, each after a prefix such as `var.`.
///
/// # Errors
///
/// Fails only if memory runs out.
pub(crate) fn consider_members(
    nearest: &mut Nearest<'_>,
    text: &[u8],
    object: Span,
    prefix: &str,
) -> Result<(), AllocError> {
    let alloc = nearest.alloc;
    for member in &members(alloc, text, object)? {
        if !is_comment(text, *member) {
            consider_member(nearest, text, *member, prefix)?;
        }
    }
    Ok(())
}

/// Considers the name of a property, after a prefix.
fn consider_member(
    nearest: &mut Nearest<'_>,
    text: &[u8],
    member: Member,
    prefix: &str,
) -> Result<(), AllocError> {
    let name = name_of(nearest.alloc, text, &member)?;
    nearest.consider_after(prefix, name.as_str())
}

/// Looks for a near name among the addresses of all resources of a configuration.
///
/// # Errors
///
/// Fails only if memory runs out.
pub(crate) fn consider_addresses(nearest: &mut Nearest<'_>, text: &[u8]) -> Result<(), AllocError> {
    let Some(resources) = section(text, "resource") else {
        return Ok(());
    };
    let alloc = nearest.alloc;
    for kind in &members(alloc, text, resources.value)? {
        consider_type(nearest, text, *kind)?;
    }
    Ok(())
}

/// Looks for a near name among the addresses of the resources of a type.
fn consider_type(nearest: &mut Nearest<'_>, text: &[u8], kind: Member) -> Result<(), AllocError> {
    let mut prefix = name_of(nearest.alloc, text, &kind)?;
    prefix.push('.')?;
    consider_members(nearest, text, kind.value, prefix.as_str())
}
