//! Names that the provider doesn't write to.

use crate::folders::folder_of;
use std::fs;
use std::os::unix::fs::MetadataExt;
use std::rt::Files;

/// Returns whether a file has one of the reserved names, however its folder is spelled.
pub fn is_reserved<R: Files>(rt: &R, reserved: &[String], name: &str) -> bool {
    for other in reserved {
        if is_same_name(rt, other.as_str(), name) {
            return true;
        }
    }
    false
}

/// Returns whether two names have the same last part and lead to the same folder.
fn is_same_name<R: Files>(rt: &R, name: &str, other: &str) -> bool {
    last_part(name) == last_part(other) && is_same_folder(rt, folder_of(name), folder_of(other))
}

/// Returns the last part of a name.
fn last_part(name: &str) -> &str {
    match name.rsplit_once('/') {
        Some((_, last)) => last,
        None => name,
    }
}

/// Returns whether two names lead to one folder.
fn is_same_folder<R: Files>(rt: &R, name: &str, other: &str) -> bool {
    match (fs::metadata(rt, name), fs::metadata(rt, other)) {
        (Ok(one), Ok(other)) => one.dev() == other.dev() && one.ino() == other.ino(),
        _ => false,
    }
}
