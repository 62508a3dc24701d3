//! Replacing the state file.

ghost use Rattle.std.specs.Prelude.{◌≡◌, IfOk, OnErr, OnOk, string_bytes};
ghost use Rattle.tf_cli_files.specs.Kept.{text_in_place};
ghost use Rattle.tf_cli_lines.specs.Lines.{unwritten_line};
ghost use Rattle.tf_cli_lines.specs.Saved.{AppendsStart};

use crate::keeping::{print_unwritten, write_to};
use crate::log_file::OWNER_ALONE;
use crate::place::Place;
use std::fs::{Metadata, OpenFile, OpenOptions, Permissions};
use std::io::{ErrorKind, Write};
use std::os::unix::fs::{MetadataExt, OpenOptionsExt, PermissionsExt, lchown};
use std::rt::Files;
use std::{fs, io};
use tf_cli_lines::SaveFault;

/// The bits of a file's mode that are its permissions.
const PERMISSIONS: u32 = 0o7777;

/// A new file that is to replace a state's. A flush syncs all that was written to the disk, keeps the existing state
/// as the backup next to it, and then renames the new file. So nothing may be written after a flush.
#[derive(Drop)]
struct Replacement<'a, R: Files> {
    rt: &'a R,
    written: R::File,
    place: &'a Place,
}

impl<'a, R: Files> Replacement<'a, R> {
    /// Creates the new file, which is no link. Removes an earlier file of its name, which a killed program left.
    fn create(rt: &'a R, place: &'a Place) -> io::Result<Replacement<'a, R>> {
        let _ = fs::remove_file(rt, place.new.as_str());
        let mut options = OpenOptions::new();
        options.write(true).create_new(true).mode(OWNER_ALONE);
        let written = options.open(rt, place.new.as_str())?;
        keep_permissions(rt, place, &written)?;
        Ok(Replacement { rt, written, place })
    }
}

impl<R: Files> Write for Replacement<'_, R> {
    ghost contents = { λ replacement. R.File.contents replacement.written };

    fn write(&mut self, buf: &[u8]) -> io::Result<usize> {
        self.written.write(buf)
    }

    fn flush(&mut self) -> io::Result<()> {
        self.written.sync_all()?;
        keep_backup(self.rt, self.place)?;
        fs::rename(self.rt, self.place.new.as_str(), self.place.state.as_str())?;
        sync_folder(self.rt, self.place)
    }
}

/// Tries whether the new state file can be created, and removes it. Returns whether the log belongs to the user who can create
/// it, or to the owner of the state. If there is something else of that name, nothing is known of the user, and the answer is true.
///
/// # Errors
///
/// Fails if the folder can't be written to.
pub(crate) fn check_new_file<R: Files>(rt: &R, place: &Place, log: &R::File) -> io::Result<bool> {
    let new = place.new.as_str();
    let _ = fs::remove_file(rt, new);
    let mut options = OpenOptions::new();
    options.write(true).create_new(true).mode(OWNER_ALONE);
    let user = match options.open(rt, new) {
        Ok(file) => file.metadata()?.uid(),
        Err(error) if is_refused(&error) => return Err(error),
        Err(_) => return Ok(true),
    };
    fs::remove_file(rt, new)?;
    let owner = log.metadata()?.uid();
    Ok(owner == user || is_owner(rt, place.state.as_str(), owner))
}

/// Returns whether an error says that a folder can't be written to.
fn is_refused(error: &io::Error) -> bool {
    matches!(
        error.kind(),
        ErrorKind::PermissionDenied | ErrorKind::ReadOnlyFilesystem | ErrorKind::NotFound
    )
}

/// Returns whether a file exists and has this owner.
fn is_owner<R: Files>(rt: &R, name: &str, owner: u32) -> bool {
    match fs::metadata(rt, name) {
        Ok(metadata) => metadata.uid() == owner,
        Err(_) => false,
    }
}

/// Gives a new file the mode of the existing state and, if the system allows it, its owner and group.
fn keep_permissions<R: Files>(rt: &R, place: &Place, written: &R::File) -> io::Result<()> {
    match fs::metadata(rt, place.state.as_str()) {
        Ok(old) => {
            keep_owner(rt, place.new.as_str(), &old, &written.metadata()?);
            written.set_permissions(Permissions::from_mode(old.mode() & PERMISSIONS))
        }
        Err(error) if error.kind() == ErrorKind::NotFound => Ok(()),
        Err(error) => Err(error),
    }
}

fn keep_owner<R: Files>(rt: &R, new: &str, old: &Metadata, now: &Metadata) {
    if (now.uid() != old.uid() || now.gid() != old.gid())
        && lchown(rt, new, Some(old.uid()), Some(old.gid())).is_err()
    {
        let _ = lchown(rt, new, None, Some(old.gid()));
    }
}

/// Syncs the names of a state's files to the disk.
pub fn sync_folder<R: Files>(rt: &R, place: &Place) -> io::Result<()> {
    fs::open(rt, place.folder())?.sync_all()
}

/// Keeps the existing state, if there is one, under the backup's name.
fn keep_backup<R: Files>(rt: &R, place: &Place) -> io::Result<()> {
    let (state, new) = (place.state.as_str(), place.new_backup.as_str());
    let _ = fs::remove_file(rt, new);
    match fs::hard_link(rt, state, new) {
        Ok(()) => {}
        Err(error) if error.kind() == ErrorKind::NotFound => return Ok(()),
        Err(_) => {
            fs::copy(rt, state, new)?;
        }
    }
    let renamed = fs::rename(rt, new, place.backup.as_str());
    let _ = fs::remove_file(rt, new);
    renamed
}

/// The evidence that the state file has a text: the text was written to a new file, synced, and renamed into place.
/// Only [`write_state`] makes one.
#[derive(Debug, Drop)]
pub struct InPlace {
    text: String,
}

impl InPlace {
    /// Returns the text.
    pub fn into_text(self) -> String
        ensures { string_bytes result ≡ text_in_place self }
    {
        self.text
    }
}

/// The state file doesn't have the text that was to be written. Standard error reports that, and standard output has
/// the text.
#[derive(Drop)]
pub struct NotInPlace {
    /// The error because of which the file isn't replaced. It isn't printed.
    pub cause: io::Error,
}

impl From<io::Error> for NotInPlace {
    fn from(cause: io::Error) -> NotInPlace {
        NotInPlace { cause }
    }
}

impl From<SaveFault> for NotInPlace {
    fn from(fault: SaveFault) -> NotInPlace {
        match fault {
            SaveFault::Write(cause) => NotInPlace { cause },
            SaveFault::TookNothing => NotInPlace::from(io::Error::from(ErrorKind::WriteZero)),
        }
    }
}

/// Replaces the state file by one with this text: writes a new file next to it, and renames it when all of it is on
/// the disk. The old file stays as the backup.
///
/// # Errors
///
/// If any of that fails, the state file stays as it was, the new file is removed, standard error reports that the state
/// isn't written, and standard output gets its text. (If only the sync of the folder fails, the state file is the new
/// one, and the rest is the same.)
pub fn write_state<R: Files, O: Write, E: Write>(
    rt: &R,
    place: &Place,
    text: String,
    out: &mut O,
    err: &mut E,
) -> Result<InPlace, NotInPlace>
    ensures kept { IfOk result (λ in_place. (text_in_place in_place ≡ string_bytes text) × (O.contents out.new ≡ O.contents out.old) × (E.contents err.new ≡ E.contents err.old)) }
    ensures not_kept { OnErr result (AppendsStart (O.contents out.old) (O.contents out.new) (string_bytes text) × AppendsStart (E.contents err.old) (E.contents err.new) unwritten_line) }
{
    match write_new(rt, place, text.as_str(), out, err) {
        Ok(()) => Ok(InPlace { text }),
        Err(fault) => {
            let _ = fs::remove_file(rt, place.new.as_str());
            Err(fault)
        }
    }
}

/// Writes a new file with this text, which replaces the state file. If that fails, prints that the state isn't written, and the text.
fn write_new<R: Files, O: Write, E: Write>(
    rt: &R,
    place: &Place,
    text: &str,
    out: &mut O,
    err: &mut E,
) -> Result<(), NotInPlace>
    ensures kept { OnOk result ((O.contents out.new ≡ O.contents out.old) × (E.contents err.new ≡ E.contents err.old)) }
    ensures not_kept { OnErr result (AppendsStart (O.contents out.old) (O.contents out.new) text.now × AppendsStart (E.contents err.old) (E.contents err.new) unwritten_line) }
{
    match Replacement::create(rt, place) {
        Ok(mut file) => Ok(write_to(&mut file, text, out, err)?),
        Err(cause) => {
            print_unwritten(text, out, err);
            Err(NotInPlace { cause })
        }
    }
}
