//! Objects in the text of a state.

use crate::blocks::{key_in, read_address};
use crate::decoding::is_text;
use crate::positions::{find, items, member_named};
use crate::sources::SourceFile;
use crate::span::{Span, bytes_in};
use std::alloc::{AllocError, Global};

/// Returns whether a property of an object is a text.
pub(crate) fn has_text(text: &[u8], object: Span, name: &str, wanted: &str) -> bool {
    match member_named(text, object, name) {
        Some(member) => is_text(text, member.value, wanted),
        None => false,
    }
}

/// Finds the record of a resource in the text of a state.
///
/// # Errors
///
/// Fails only if memory runs out.
pub(crate) fn resource_record(
    alloc: Global,
    type_name: &str,
    name: &str,
    state: SourceFile<'_>,
) -> Result<Option<Span>, AllocError> {
    let resources = find(alloc, state.bytes, "resources")?;
    for record in &items(alloc, state.bytes, resources.value)? {
        if has_text(state.bytes, *record, "type", type_name)
            && has_text(state.bytes, *record, "name", name)
        {
            return Ok(Some(*record));
        }
    }
    Ok(None)
}

/// Finds the record of the current object of an instance in the text of a state.
///
/// # Errors
///
/// Fails only if memory runs out.
pub(crate) fn current_object(
    alloc: Global,
    place: &str,
    state: SourceFile<'_>,
) -> Result<Option<Span>, AllocError> {
    let Some(address) = read_address(place) else {
        return Ok(None);
    };
    let found = resource_record(alloc, address.type_name, address.name, state)?;
    let Some(record) = found else {
        return Ok(None);
    };
    let Some(instances) = member_named(state.bytes, record, "instances") else {
        return Ok(None);
    };
    for instance in &items(alloc, state.bytes, instances.value)? {
        let is_deposed = member_named(state.bytes, *instance, "deposed").is_some();
        if !is_deposed && has_key(state.bytes, *instance, key_in(place)) {
            return Ok(Some(*instance));
        }
    }
    Ok(None)
}

/// Returns whether a record has the key of an address, or none if that has none.
fn has_key(text: &[u8], instance: Span, key: Option<&str>) -> bool {
    match (member_named(text, instance, "index_key"), key) {
        (None, None) => true,
        (Some(member), Some(key)) => bytes_in(text, member.value) == key.as_bytes(),
        _ => false,
    }
}
