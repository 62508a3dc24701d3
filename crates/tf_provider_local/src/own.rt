//! Checks whether a file is the one that was made for an object.

ghost use Rattle.std.specs.Prelude.{◌≡◌, ◌↔◌, IfOk, IfSome, IsTrue};
ghost use Rattle.hex.specs.Hex.{encode_lower};
ghost use Rattle.sha2.specs.Sha256.{sha256};

use crate::wanted::UnwantedFile;
use sha2::{Digest as _, Sha256};
use std::alloc::Global;
use std::fs::{Metadata, Permissions};
use std::io::{ErrorKind, Read};
use std::os::unix::fs::{MetadataExt, PermissionsExt};
use std::rt::Files;
use std::{fs, io};
use tf_value_data::MAX_WEIGHT;

/// The bits of a file's mode that are permissions.
const PERMISSIONS: u32 = 0o7777;

/// The bit of a mode that lets the owner read.
const OWNER_READS: u32 = 0o400;

/// Returns whether a file, with this metadata, has the content that was written for the object. A link counts as what it leads to.
///
/// A file that is longer than any text in a state isn't read.
///
/// # Errors
///
/// Fails if the file can't be read, or if memory runs out.
pub fn is_own<R: Files>(
    alloc: Global,
    rt: &R,
    file: &UnwantedFile<'_>,
    metadata: &Metadata,
) -> io::Result<bool> {
    match file.sha256 {
        Some(sha256) if metadata.is_file() && metadata.len() < MAX_WEIGHT => {
            has_sha256(alloc, &mut open(rt, file.name, metadata)?, sha256)
        }
        _ => Ok(false),
    }
}

/// Opens a file to read it. If its mode forbids that to its owner, the mode is changed while the file is opened.
fn open<R: Files>(rt: &R, name: &str, metadata: &Metadata) -> io::Result<R::File> {
    match fs::open(rt, name) {
        Err(error) if error.kind() == ErrorKind::PermissionDenied => {
            let mode = metadata.mode() & PERMISSIONS;
            let readable = Permissions::from_mode(mode | OWNER_READS);
            if fs::set_permissions(rt, name, readable).is_err() {
                return Err(error);
            }
            let opened = fs::open(rt, name);
            let _ = fs::set_permissions(rt, name, Permissions::from_mode(mode));
            opened
        }
        opened => opened,
    }
}

/// Reads to the end, and returns whether what was read has this SHA-256, in hexadecimal.
fn has_sha256<F: Read>(alloc: Global, reader: &mut F, expected: &str) -> io::Result<bool>
    ensures { IfOk result (λ so. IfSome (F.remaining reader.old) (λ bytes. IsTrue so ↔ (expected.now ≡ encode_lower (sha256 bytes)))) }
{
    let mut bytes = Vec::new(alloc);
    reader.read_to_end(&mut bytes)?;
    let found = hex::encode(alloc, Sha256::digest(bytes.as_slice()))?;
    Ok(found.as_str() == expected)
}
