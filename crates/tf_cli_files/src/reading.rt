//! Reading of the files that a program's options name.

ghost use Rattle.std.specs.Fn.{FnReturnsAt};
ghost use Rattle.std.specs.IoError.{error_kind};
ghost use Rattle.std.specs.Prelude.{◌≡◌, ◌≢◌, IfErr, IfOk, IfSome, None, Ok, string_bytes};
ghost use Rattle.tf_cli_lines.specs.Saved.{AppendsStart};
ghost use Rattle.tf_cli_files.specs.Program.{AreReads, FailsReading, GoesOn, HasRead, IsFailure, MayFailReading, ReadsOptional, PrintsUnread, unread_line};

use crate::ending::Ending;
use crate::given::ProgramInput;
use crate::sources::{merged, named, read_sources};
use std::alloc::Global;
use std::io::{ErrorKind, Read, Write};
use std::process::ExitCode;
use std::rt::Files;
use std::{fs, io};
use tf_cli_lines::save_all;
use tf_cli_options::Options;
use tf_cli_variables::Variables;

/// The most bytes that are read of a configuration or a variables file: one more than either may have.
const MOST_BYTES: u64 = 4_194_305;

/// Reads a configuration or a variables file, which may be a pipe. Of a file that is larger than allowed, reads one byte
/// too many, and no more.
pub(crate) fn read_input<R: Files + AllocGlobal>(rt: &R, name: &str) -> io::Result<Vec<u8>> {
    let mut bytes = Vec::new(rt.alloc());
    fs::open(rt, name)?
        .take(MOST_BYTES)
        .read_to_end(&mut bytes)?;
    Ok(bytes)
}

/// Reads the files that the options name, the configuration and then those with variables' values, and [merges](variables_of) the
/// values. The state is `None` for now. If a file can't be read, or an assignment of a variable is refused, prints that, reads no
/// other file, and returns the program's exit status.
pub fn read_files<F: Fn(&str) -> io::Result<Vec<u8>>, E: Write>(
    alloc: Global,
    options: Options,
    read: &F,
    err: &mut E,
) -> Result<ProgramInput, Ending>
    requires { F.IsAlwaysCallable read.now }
    ensures status { IfErr result (MayFailReading (FnReturnsAt F.Fn read.now)) }
    ensures cause { IfErr result (HasRead (FnReturnsAt F.Fn read.now) (string_bytes options.config)) }
    ensures options { IfOk result (λ given. given.options ≡ options) }
    ensures files { IfOk result (λ given. AreReads (FnReturnsAt F.Fn read.now) (string_bytes options.config) options.variables.items given.config given.vars) }
    ensures stateless { IfOk result (λ given. given.state ≡ None) }
{
    let config = read_file(options.config.as_str(), read, err)?;
    let names = options.variables.as_slice();
    let sources = read_sources(alloc, names, read, err)?;
    let found = merged(alloc, config.as_slice(), names, sources, err)?;
    let vars_name = named(alloc, names, &found, err)?;
    let Variables { bytes, .. } = found;
    Ok(ProgramInput {
        options,
        config,
        vars: bytes,
        vars_name,
        state: None,
    })
}

/// Reads a file. If it can't be read, prints that.
pub(crate) fn read_file<F: Fn(&str) -> io::Result<Vec<u8>>, E: Write>(
    file: &str,
    read: &F,
    err: &mut E,
) -> Result<Vec<u8>, Ending>
    requires { F.IsAlwaysCallable read.now }
    ensures status { IfErr result (FailsReading (FnReturnsAt F.Fn read.now) file.now) }
    ensures read { IfOk result (λ bytes. FnReturnsAt F.Fn read.now file.now (Ok bytes)) }
{
    read_or_print(read(file), file, err)
}

/// Reads a file that may be absent, such as a state's. If it exists and can't be read, prints that and returns the
/// program's exit status.
pub fn read_optional<F: Fn(&str) -> io::Result<Vec<u8>>, E: Write>(
    file: &str,
    read: &F,
    err: &mut E,
) -> Result<Option<Vec<u8>>, Ending>
    requires { F.IsAlwaysCallable read.now }
    ensures status { IfErr result (FailsReading (FnReturnsAt F.Fn read.now) file.now) }
    ensures present { IfErr result (λ ending. IfSome ending.cause (λ error. error_kind error ≢ ErrorKind.NotFound)) }
    ensures read { IfOk result (λ state. ReadsOptional (λ e. error_kind e ≡ ErrorKind.NotFound) (FnReturnsAt F.Fn read.now) file.now state) }
{
    match read(file) {
        Ok(bytes) => Ok(Some(bytes)),
        Err(error) if error.kind() == ErrorKind::NotFound => Ok(None),
        Err(error) => Err(Ending::by(print_unread(file, err), error)),
    }
}

/// Returns what was read of a file. If it can't be read, prints that and returns the program's exit status.
fn read_or_print<T: Drop, E: Write>(
    read: io::Result<T>,
    file: &str,
    err: &mut E,
) -> Result<T, Ending>
    ensures read { GoesOn read result }
    ensures told { PrintsUnread read file.now (E.contents err.old) (E.contents err.new) }
{
    match read {
        Ok(bytes) => Ok(bytes),
        Err(error) => Err(Ending::by(print_unread(file, err), error)),
    }
}

/// Prints that a file can't be read, and returns the program's exit status.
pub fn print_unread<E: Write>(file: &str, err: &mut E) -> ExitCode
    ensures status { IsFailure result }
    ensures told { AppendsStart (E.contents err.old) (E.contents err.new) (unread_line file.now) }
{
    let _ = save_all(err, &["error: cannot read ", file, "\n"]);
    ExitCode::FAILURE
}
