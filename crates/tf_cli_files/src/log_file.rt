//! The file of a log. An apply locks it, and appends the log's lines to it.

use crate::replacing::InPlace;
use std::fs::{File, OpenFile, OpenOptions, Permissions, TryLockError};
use std::io::{ErrorKind, Read, Write};
use std::os::unix::fs::{OpenOptionsExt, PermissionsExt};
use std::rt::Files;
use std::{fs, io};

/// The permissions of a log and of a new state: only their owner may read and write them, because configurations and
/// states contain secrets.
pub const OWNER_ALONE: u32 = 0o600;

/// The file of a log, which can be locked.
pub trait LogFile: OpenFile + Drop {
    /// Locks the file until it is closed, in whatever way. Returns false if somebody else holds the lock.
    fn try_lock(&self) -> io::Result<bool>;
}

/// The operations of a file that a log's lines need.
pub trait LineFile: Drop {
    /// Writes at the file's end, by one call, and returns how many bytes were taken.
    fn append(&self, bytes: &[u8]) -> io::Result<usize>;

    /// Puts all that was written on the disk.
    fn sync_lines(&self) -> io::Result<()>;
}

impl LogFile for File {
    fn try_lock(&self) -> io::Result<bool> {
        match File::try_lock(self) {
            Ok(()) => Ok(true),
            Err(TryLockError::WouldBlock) => Ok(false),
            Err(TryLockError::Error(error)) => Err(error),
        }
    }
}

impl LineFile for File {
    fn append(&self, bytes: &[u8]) -> io::Result<usize> {
        let mut file = self;
        file.write(bytes)
    }

    fn sync_lines(&self) -> io::Result<()> {
        self.sync_data()
    }
}

/// Why the lines of a log aren't needed any more.
#[derive(Debug, Drop)]
pub enum Settled {
    /// The log has no whole line, so no call was made.
    NoCalls,
    /// The state file already has the state that the calls led to.
    UpToDate,
    /// The state file was replaced by one with that state.
    Replaced(InPlace),
}

/// Removes all lines of a log, which aren't needed any more.
pub fn empty<F: LogFile>(file: &F, _why: &Settled) -> io::Result<()> {
    file.set_len(0)?;
    file.sync_all()
}

/// Opens the file of a log, creates it if it doesn't exist, and locks it. Returns `None` if somebody else holds the
/// lock. Only its owner can read and write a file that this creates; an existing one stays as it is. Fails if the name
/// is a link, or of anything else but a file.
pub fn open_log<R: Files>(rt: &R, name: &str) -> io::Result<Option<R::File>>
where
    R::File: LogFile,
{
    let file = match fs::symlink_metadata(rt, name) {
        Ok(metadata) if metadata.is_file() => existing_log(rt, name)?,
        Ok(_) => return Err(io::Error::from(ErrorKind::InvalidInput)),
        Err(_) => new_log(rt, name)?,
    };
    if LogFile::try_lock(&file)? {
        Ok(Some(file))
    } else {
        Ok(None)
    }
}

/// Creates the file of a log. Opens it if somebody else created it in the meantime.
fn new_log<R: Files>(rt: &R, name: &str) -> io::Result<R::File> {
    let mut options = OpenOptions::new();
    options
        .read(true)
        .append(true)
        .create_new(true)
        .mode(OWNER_ALONE);
    match options.open(rt, name) {
        Ok(file) => {
            file.set_permissions(Permissions::from_mode(OWNER_ALONE))?;
            Ok(file)
        }
        Err(error) if error.kind() == ErrorKind::AlreadyExists => existing_log(rt, name),
        Err(error) => Err(error),
    }
}

/// Opens the existing file of a log.
fn existing_log<R: Files>(rt: &R, name: &str) -> io::Result<R::File> {
    let mut options = OpenOptions::new();
    options.read(true).append(true);
    options.open(rt, name)
}

/// How many bytes are read of a file that doesn't begin as a log does.
const BEGINNING: u64 = 0x1_0000;

/// Reads a log. If the file doesn't begin as a log does, reads only its beginning, in which the first line is refused.
pub(crate) fn read_log_file<R: Files + AllocGlobal>(rt: &R, name: &str) -> io::Result<Vec<u8>> {
    let mut file = fs::open(rt, name)?;
    let mut bytes = Vec::new(rt.alloc());
    Read::by_ref(&mut file)
        .take(BEGINNING)
        .read_to_end(&mut bytes)?;
    if bytes.first() == Some(&b'{') {
        file.read_to_end(&mut bytes)?;
    }
    Ok(bytes)
}

/// How the first line of a log begins.
const FIRST_LINE: &[u8] = b"{\"config\":\"";

/// Returns whether bytes without a whole line may be the beginning of a log.
pub(crate) fn may_begin_log(bytes: &[u8]) -> bool {
    bytes.starts_with(FIRST_LINE) || FIRST_LINE.starts_with(bytes)
}
