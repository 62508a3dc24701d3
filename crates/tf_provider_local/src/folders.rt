//! The folders that a file needs.

use std::fs::OpenFile;
use std::rt::Files;
use std::{fs, io};

/// The folders that were created for a file. If `from` is `None`, no folder was created so far.
#[derive(Drop)]
pub struct Made<'a> {
    /// The folder of the file.
    folder: &'a str,
    /// The length of the part of `folder` that names the outermost folder that was created.
    from: Option<usize>,
}

impl<'a> Made<'a> {
    /// Returns a value without created folders, for a file of this name.
    pub fn none(name: &'a str) -> Made<'a> {
        Made {
            folder: folder_of(name),
            from: None,
        }
    }

    /// Creates the folders that don't exist.
    pub fn make<R: Files>(&mut self, rt: &R) -> io::Result<()> {
        for end in 1..=self.folder.len() {
            if let Some(folder) = outer_at(self.folder, end)
                && is_made(rt, folder)?
                && self.from.is_none()
            {
                self.from = Some(end);
            }
        }
        Ok(())
    }

    /// Removes the created folders that are empty.
    pub fn remove<R: Files>(&self, rt: &R) {
        let Some(from) = self.from else {
            return;
        };
        for end in (from..=self.folder.len()).rev() {
            if let Some(folder) = outer_at(self.folder, end) {
                let _ = fs::remove_dir(rt, folder);
            }
        }
    }

    /// Syncs the names of the created folders to the disk.
    pub fn sync<R: Files>(&self, rt: &R) {
        let Some(from) = self.from else {
            return;
        };
        for end in from..=self.folder.len() {
            if let Some(folder) = outer_at(self.folder, end) {
                sync_folder(rt, folder);
            }
        }
    }
}

/// Returns the first `end` bytes of a name, if a folder's name ends there.
fn outer_at(name: &str, end: usize) -> Option<&str> {
    match name.split_at_checked(end) {
        Some((folder, rest)) if rest.is_empty() || rest.starts_with('/') => Some(folder),
        _ => None,
    }
}

/// Creates a folder, and returns whether it didn't exist before.
fn is_made<R: Files>(rt: &R, folder: &str) -> io::Result<bool> {
    match fs::create_dir(rt, folder) {
        Ok(()) => Ok(true),
        Err(_) if is_folder(rt, folder) => Ok(false),
        Err(error) => Err(error),
    }
}

fn is_folder<R: Files>(rt: &R, name: &str) -> bool {
    match fs::metadata(rt, name) {
        Ok(metadata) => metadata.is_dir(),
        Err(_) => false,
    }
}

/// Syncs the folder of a file or a folder to the disk, if it can be opened.
pub fn sync_folder<R: Files>(rt: &R, name: &str) {
    if let Ok(folder) = fs::open(rt, folder_of(name)) {
        let _ = folder.sync_all();
    }
}

/// Returns the folder of a file or a folder.
pub fn folder_of(name: &str) -> &str {
    match name.rsplit_once('/') {
        Some(("", _)) => "/",
        Some((folder, _)) => folder,
        None => ".",
    }
}
