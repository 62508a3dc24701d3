//! Reading a program's files, and the log of an interrupted apply.

ghost use Rattle.std.specs.Prelude.{IfErr};
ghost use Rattle.tf_cli_files.specs.Program.{Fails};

use crate::ending::Ending;
use crate::given::ProgramInput;
use crate::holder::print_holder;
use crate::log_file::{LogFile, Settled, empty, open_log, read_log_file};
use crate::messages::{print_locked, print_no_log, print_special, print_unwritable};
use crate::place::Place;
use crate::reading::{print_unread, read_files, read_input, read_optional};
use crate::replacing::check_new_file;
use crate::unfinished::{UnfinishedApply, unfinished_apply_in};
use std::fs::OpenFile;
use std::io::Write;
use std::rt::Files;
use std::{fs, io};
use tf_cli_options::Options;
use tf_provider_log::LogEntry;

/// A program's input, the files of its state, and an interrupted apply of this state.
#[derive(Drop)]
pub struct Loaded {
    /// The program's input.
    pub given: ProgramInput,
    /// The files of its state.
    pub place: Place,
    /// The interrupted apply, if there is one, and the entries of its log.
    pub unfinished: Option<(UnfinishedApply, Vec<LogEntry>)>,
}

/// Reads the files that the options name, and the log. If one can't be read, prints that and returns the program's
/// exit status.
pub fn load<R: Files + AllocGlobal, E: Write>(
    rt: &R,
    options: Options,
    err: &mut E,
) -> Result<Loaded, Ending>
    ensures { IfErr result Fails }
{
    let given = read_files(rt.alloc(), options, &|file| read_input(rt, file), err)?;
    let place = place_of(rt, &given, err)?;
    load_state(rt, given, place, err)
}

/// Like [`load`], but takes the state's lock before reading the state. The lock is held until the log is closed. If
/// somebody else holds it, prints that and returns the program's exit status.
pub fn load_locked<R: Files + AllocGlobal, E: Write>(
    rt: &R,
    options: Options,
    err: &mut E,
) -> Result<(Loaded, R::File), Ending>
where
    R::File: LogFile,
    ensures { IfErr result Fails }
{
    let given = read_files(rt.alloc(), options, &|file| read_input(rt, file), err)?;
    let place = place_of(rt, &given, err)?;
    let log = lock(rt, &given, &place, err)?;
    check_owner(rt, &place, &log, err)?;
    let loaded = load_state(rt, given, place, err)?;
    if loaded.unfinished.is_none() {
        if let Err(error) = take_torn_away(&log) {
            return Err(Ending::by(print_no_log(loaded.place.log.as_str(), err), error));
        }
    }
    Ok((loaded, log))
}

/// Returns the files of the state that the options name. If its name leads nowhere, prints that the file can't be
/// read. If the state or the log is a pipe, a device or a socket, prints that.
fn place_of<R: Files + AllocGlobal, E: Write>(
    rt: &R,
    given: &ProgramInput,
    err: &mut E,
) -> Result<Place, Ending>
    ensures { IfErr result Fails }
{
    let state = given.options.state.as_str();
    let place = match Place::of(rt, state) {
        Ok(place) => place,
        Err(error) => return Err(Ending::by(print_unread(state, err), error)),
    };
    for name in [place.state.as_str(), place.log.as_str()] {
        if is_special(rt, name) {
            return Err(Ending::from(print_special(name, err)));
        }
    }
    Ok(place)
}

/// Returns whether a name leads to a pipe, a device or a socket.
fn is_special<R: Files>(rt: &R, name: &str) -> bool {
    match fs::metadata(rt, name) {
        Ok(metadata) => !metadata.is_file() && !metadata.is_dir(),
        Err(_) => false,
    }
}

/// Checks that the new state file can be created, and that the log belongs to the user of this program or to the owner of
/// the state: whoever owns the log can read what is written to it. If not, prints that.
fn check_owner<R: Files, E: Write>(
    rt: &R,
    place: &Place,
    log: &R::File,
    err: &mut E,
) -> Result<(), Ending>
    ensures { IfErr result Fails }
{
    match check_new_file(rt, place, log) {
        Ok(true) => Ok(()),
        Ok(false) => Err(Ending::from(print_no_log(place.log.as_str(), err))),
        Err(error) => Err(Ending::by(print_unwritable(place.state.as_str(), err), error)),
    }
}

/// Opens the log and locks it. If that fails, prints that; if errors are explained, also who holds the lock.
fn lock<R: Files + AllocGlobal, E: Write>(
    rt: &R,
    given: &ProgramInput,
    place: &Place,
    err: &mut E,
) -> Result<R::File, Ending>
where
    R::File: LogFile,
    ensures { IfErr result Fails }
{
    match open_log(rt, place.log.as_str()) {
        Ok(Some(file)) => Ok(file),
        Ok(None) => {
            let status = print_locked(given.options.state.as_str(), err);
            if given.options.explain {
                print_holder(rt, place.log.as_str(), err);
            }
            Err(Ending::from(status))
        }
        Err(error) => Err(Ending::by(print_no_log(place.log.as_str(), err), error)),
    }
}

/// Empties a log that has no whole line.
fn take_torn_away<F: LogFile>(log: &F) -> io::Result<()> {
    if log.metadata()?.len() == 0 {
        return Ok(());
    }
    empty(log, &Settled::NoCalls)
}

/// Reads the state, if there is one, and the log.
fn load_state<R: Files + AllocGlobal, E: Write>(
    rt: &R,
    mut given: ProgramInput,
    place: Place,
    err: &mut E,
) -> Result<Loaded, Ending>
    ensures { IfErr result Fails }
{
    let read = |file: &str| -> io::Result<Vec<u8>> { fs::read(rt, file) };
    given.state = read_optional(place.state.as_str(), &read, err)?;
    let unfinished = read_unfinished_apply(rt, &place, err)?;
    Ok(Loaded {
        given,
        place,
        unfinished,
    })
}

/// Reads the log, if there is one, and returns the interrupted apply that it records. If it isn't a log or can't be read,
/// prints that and returns the program's exit status.
pub fn read_unfinished_apply<R: Files + AllocGlobal, E: Write>(
    rt: &R,
    place: &Place,
    err: &mut E,
) -> Result<Option<(UnfinishedApply, Vec<LogEntry>)>, Ending>
    ensures { IfErr result Fails }
{
    let read_log = |file: &str| -> io::Result<Vec<u8>> { read_log_file(rt, file) };
    match read_optional(place.log.as_str(), &read_log, err)? {
        Some(log) => Ok(unfinished_apply_in(rt.alloc(), place.log.as_str(), log.as_slice(), err)?),
        None => Ok(None),
    }
}
