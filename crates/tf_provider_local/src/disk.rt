//! Writing and removing files.

ghost use Rattle.std.specs.Io.KnownBytes.{Appends};
ghost use Rattle.std.specs.Prelude.{OnOk};

use crate::answers::sha1_of;
use crate::folders::{Made, folder_of, sync_folder};
use crate::own::is_own;
use crate::reserved::is_reserved;
use crate::wanted::{UnwantedFile, Wanted, WantedFile};
use std::alloc::{AllocError, Global};
use std::fs::{OpenFile, OpenOptions};
use std::io::{ErrorKind, Write};
use std::os::unix::fs::OpenOptionsExt;
use std::rt::Files;
use std::{fs, io};

/// What `fulfil` did.
#[derive(Clone, Copy, Debug, PartialEq, Eq)]
pub enum Ending {
    /// The wanted file is written, or the file is removed or wasn't there.
    Wanted,
    /// The file at the name isn't the one that was made for the object, so it stays.
    Kept,
    /// The name of the wanted file is reserved, so it isn't written.
    Reserved,
}

/// Writes or removes the wanted file, for the object at an address. Doesn't write a file of a reserved name; everything is then as
/// it was before.
///
/// # Errors
///
/// Fails if the disk refuses, or if memory runs out. Everything is then as it was before.
pub fn fulfil<R: Files>(
    alloc: Global,
    rt: &R,
    reserved: &[String],
    address: &str,
    wanted: &Wanted<'_>,
) -> io::Result<Ending> {
    match wanted {
        Wanted::File(file) => put(alloc, rt, reserved, address, file),
        Wanted::NoFile(file) => remove(alloc, rt, file),
    }
}

/// Writes a new file in the same folder, and renames it to the wanted name when all of it is on the disk. Removes an
/// earlier file at the new one's name, which a killed program left.
fn put<R: Files>(
    alloc: Global,
    rt: &R,
    reserved: &[String],
    address: &str,
    file: &WantedFile<'_>,
) -> io::Result<Ending> {
    let name = new_name(alloc, address, file.name)?;
    let new = name.as_str();
    let _ = fs::remove_file(rt, new);
    let mut made = Made::none(file.name);
    match write_new(rt, new, reserved, file, &mut made) {
        Ok(Ending::Wanted) => {
            sync_folder(rt, file.name);
            made.sync(rt);
            Ok(Ending::Wanted)
        }
        unwritten => {
            let _ = fs::remove_file(rt, new);
            made.remove(rt);
            unwritten
        }
    }
}

/// Writes a file at a new name, creates folders as needed, syncs the file to the disk, and renames it. Doesn't if the wanted name
/// is reserved, which can be seen only once the folders exist: `missing/../vars.json` is `vars.json` then.
fn write_new<R: Files>(
    rt: &R,
    new: &str,
    reserved: &[String],
    file: &WantedFile<'_>,
    made: &mut Made<'_>,
) -> io::Result<Ending> {
    if is_reserved(rt, reserved, file.name) {
        return Ok(Ending::Reserved);
    }
    let mut written = match create(rt, new, file.mode) {
        Err(error) if error.kind() == ErrorKind::NotFound => {
            made.make(rt)?;
            if is_reserved(rt, reserved, file.name) {
                return Ok(Ending::Reserved);
            }
            create(rt, new, file.mode)?
        }
        opened => opened?,
    };
    fill(&mut written, file)?;
    fs::rename(rt, new, file.name)?;
    Ok(Ending::Wanted)
}

/// Creates an empty file.
fn create<R: Files>(rt: &R, new: &str, mode: u32) -> io::Result<R::File> {
    let mut options = OpenOptions::new();
    options.write(true).create_new(true).mode(mode);
    options.open(rt, new)
}

/// Writes the content of a file, and syncs it to the disk.
fn fill<F: Write + OpenFile>(written: &mut F, file: &WantedFile<'_>) -> io::Result<()>
    ensures { OnOk result (Appends (F.contents written.old) (F.contents written.new) file.now.content.now) }
{
    written.write_all(file.content.as_bytes())?;
    written.sync_all()
}

/// Removes a file if it is the one that was made for the object. Succeeds if there is no such file.
fn remove<R: Files>(alloc: Global, rt: &R, file: &UnwantedFile<'_>) -> io::Result<Ending> {
    match remove_own(alloc, rt, file) {
        Err(error) if is_missing(error.kind()) => Ok(Ending::Wanted),
        ending => ending,
    }
}

/// Removes a file, or a link to one, if its content is what was written for the object. Fails for a folder.
fn remove_own<R: Files>(alloc: Global, rt: &R, file: &UnwantedFile<'_>) -> io::Result<Ending> {
    let metadata = fs::metadata(rt, file.name)?;
    if !metadata.is_dir() && !is_own(alloc, rt, file, &metadata)? {
        return Ok(Ending::Kept);
    }
    fs::remove_file(rt, file.name)?;
    sync_folder(rt, file.name);
    Ok(Ending::Wanted)
}

/// Returns whether the file or its folder doesn't exist.
fn is_missing(kind: ErrorKind) -> bool {
    kind == ErrorKind::NotFound || kind == ErrorKind::NotADirectory
}

/// Returns the name at which a file is written before it is renamed: in the same folder, and unique to the object's
/// address.
fn new_name(alloc: Global, address: &str, name: &str) -> Result<String, AllocError> {
    let own = sha1_of(alloc, address)?;
    format!(in alloc; "{}/.{own}.new", folder_of(name))
}
