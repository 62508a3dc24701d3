//! A file that stops an apply.

use std::fs;

/// A file that stops an apply: once it exists, no further call begins.
#[derive(Drop)]
pub struct StopFile {
    rt: HostRuntime,
    name: String,
}

impl StopFile {
    /// Returns the file of this name, which needn't exist.
    pub fn new(rt: HostRuntime, name: String) -> StopFile {
        StopFile { rt, name }
    }

    /// Returns whether the file exists.
    pub(crate) fn exists(&self) -> bool {
        fs::metadata(&self.rt, self.name.as_str()).is_ok()
    }
}
