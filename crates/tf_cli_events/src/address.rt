//! The address of an object, as JSON.

use crate::event::Members;
use serde_json::Value as Json;
use std::alloc::{AllocError, Global};

/// Returns the parts of an address such as `sim_host.web[0]`: its type, its name and its key.
pub(crate) fn resource_json(alloc: Global, address: &str) -> Result<Json, AllocError> {
    let (resource, key) = match address.split_once('[') {
        Some((resource, key)) => (resource, key.strip_suffix(']')),
        None => (address, None),
    };
    let (type_name, name) = resource.split_once('.').unwrap_or((resource, ""));
    let mut members = Members::new(alloc);
    members.add_text("addr", address)?;
    members.add_text("implied_provider", provider_of(type_name))?;
    members.add_text("module", "")?;
    members.add_text("resource", address)?;
    members.add("resource_key", key_json(alloc, key))?;
    members.add_text("resource_name", name)?;
    members.add_text("resource_type", type_name)?;
    Ok(members.into_json())
}

/// Returns the name of the provider that a type's name begins with.
fn provider_of(type_name: &str) -> &str {
    match type_name.split_once('_') {
        Some((provider, _)) => provider,
        None => type_name,
    }
}

/// Returns a key, which is a number or a text in quotes, or null without one.
fn key_json(alloc: Global, key: Option<&str>) -> Json {
    match key {
        Some(key) => Json::from_str(alloc, key).unwrap_or(Json::Null),
        None => Json::Null,
    }
}
