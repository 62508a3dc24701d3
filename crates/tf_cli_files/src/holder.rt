//! The process that holds a lock.

use std::alloc::{AllocError, Global};
use std::fs::Metadata;
use std::io::Write;
use std::os::unix::fs::MetadataExt;
use std::rt::Files;
use std::{fs, io};

/// The list of the locks that the system has given.
const LOCKS: &str = "/proc/locks";

/// How many ticks a second has, in which the system says when a process began.
const TICKS: u64 = 100;

/// Which word behind the name of a process says when it began.
const BEGAN: usize = 19;

/// Prints which process holds the lock of a log, and for how long the process has been running, if the system says so. An apply takes
/// the lock when it begins.
pub(crate) fn print_holder<R: Files + AllocGlobal, E: Write>(rt: &R, log: &str, err: &mut E) {
    let Ok(Some(process)) = holder_of(rt, log) else {
        return;
    };
    let _ = match seconds_of(rt, process) {
        Ok(Some(seconds)) => writeln!(
            err,
            "  Process {process} has held the lock for {seconds} s."
        ),
        _ => writeln!(err, "  Process {process} holds the lock."),
    };
}

/// Returns the process that holds the lock of a file, if the system lists it.
fn holder_of<R: Files + AllocGlobal>(rt: &R, name: &str) -> io::Result<Option<u64>> {
    let file = inode_text(rt.alloc(), &fs::metadata(rt, name)?)?;
    let locks = fs::read_to_string(rt, LOCKS)?;
    for line in locks.lines() {
        if let Some(process) = process_in(line, file.as_str()) {
            return Ok(Some(process));
        }
    }
    Ok(None)
}

/// Returns how the list of locks names a file: the major and the minor number of its device, and its inode.
fn inode_text(alloc: Global, file: &Metadata) -> Result<String, AllocError> {
    let device = file.dev();
    let major = device >> 8 & 0xfff;
    let minor = device & 0xff | device >> 12 & 0xf_ff00;
    let inode = file.ino();
    format!(in alloc; "{major:02x}:{minor:02x}:{inode}")
}

/// Returns the process that holds the lock in a line of the list, if that is a lock of this file: `1: FLOCK ADVISORY WRITE PROCESS
/// FILE 0 EOF`.
fn process_in(line: &str, file: &str) -> Option<u64> {
    let mut words = line.split_ascii_whitespace().skip(1);
    if words.next()? != "FLOCK" {
        return None;
    }
    let process = words.nth(2)?;
    if words.next()? != file {
        return None;
    }
    process.parse::<u64>().ok()
}

/// Returns for how many seconds a process has been running.
fn seconds_of<R: Files + AllocGlobal>(rt: &R, process: u64) -> io::Result<Option<u64>> {
    let status = fs::read_to_string(rt, format!(in rt.alloc(); "/proc/{process}/stat")?.as_str())?;
    let uptime = fs::read_to_string(rt, "/proc/uptime")?;
    Ok(running_for(status.as_str(), uptime.as_str()))
}

/// Returns for how many seconds a process with this status has been running, by the number of seconds for which the system has.
fn running_for(status: &str, uptime: &str) -> Option<u64> {
    let (_, words) = status.rsplit_once(')')?;
    let began = words
        .split_ascii_whitespace()
        .nth(BEGAN)?
        .parse::<u64>()
        .ok()?;
    let (now, _) = uptime.split_once('.')?;
    now.parse::<u64>().ok()?.checked_sub(began / TICKS)
}
