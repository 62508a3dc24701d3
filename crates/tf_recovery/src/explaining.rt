//! Explained errors.

use std::fs;
use std::fs::File;
use std::io::{ErrorKind, IsTerminal, Write};
use std::process::ExitCode;
use tf_cli_files::{CallControl, Ending, Place, ProgramInput, print_cause};
use tf_cli_options::Options;
use tf_explain::{SourceFile, Sources, warnings};
use tf_provider::Provider;

/// Returns whether errors are explained: if that is asked for, or if standard error is a terminal.
pub(crate) fn explains(rt: &HostRuntime, options: &Options) -> bool {
    options.explain || rt.stderr().is_terminal()
}

/// Returns the status of a program that ends before its work. If errors are explained, prints the error of the system below the
/// program's.
pub(crate) fn end_early<E: Write>(ending: Ending, explains: bool, err: &mut E) -> ExitCode {
    if let Some(cause) = &ending.cause {
        print_cause(cause, explains, err);
    }
    ending.status
}

/// Returns whether errors are explained and the configuration doesn't exist.
pub(crate) fn lacks_configuration(rt: &HostRuntime, options: &Options) -> bool {
    options.explain
        && match fs::metadata(rt, options.config.as_str()) {
            Ok(_) => false,
            Err(error) => error.kind() == ErrorKind::NotFound,
        }
}

/// Prints the error of the system and how to mend that the configuration doesn't exist. Returns the program's end.
pub(crate) fn explain_missing<E: Write>(ending: Ending, err: &mut E) -> Ending {
    if let Some(cause) = &ending.cause {
        print_cause(cause, true, err);
    }
    let _ = writeln!(
        err,
        "  Create the configuration, or name another file with `--config`. Files in HCL (`.tf`) aren't read."
    );
    Ending::from(ending.status)
}

/// Prints the error of the system because of which the log of an apply can't be written, if there is one and errors are explained.
pub(crate) fn print_log_cause<E: Write>(
    control: &CallControl<File>,
    given: &ProgramInput,
    err: &mut E,
) {
    if let Some(cause) = control.log_cause() {
        print_cause(&cause, given.options.explain, err);
    }
}

/// Returns the files that a program read, with their names, and its providers.
pub(crate) fn sources<'a>(
    given: &'a ProgramInput,
    place: &'a Place,
    providers: &'a [Box<dyn Provider + Sync>],
) -> Sources<'a> {
    Sources {
        config: SourceFile {
            name: given.options.config.as_str(),
            bytes: given.config.as_slice(),
        },
        vars: file(given.vars_name.as_ref(), given.vars_bytes()),
        state: file(Some(&place.state), given.state_bytes()),
        providers,
    }
}

/// Prints the warnings on the files that a program read and on its environment, if errors are explained.
pub(crate) fn warn<E: Write>(
    rt: &HostRuntime,
    given: &ProgramInput,
    files: Sources<'_>,
    err: &mut E,
) {
    if given.options.explain {
        if let Ok(text) = warnings(rt.alloc(), rt, files) {
            let _ = err.write_all(text.as_bytes());
        }
    }
}

/// Returns a file, if it has a name and was read.
fn file<'a>(name: Option<&'a String>, bytes: Option<&'a [u8]>) -> Option<SourceFile<'a>> {
    match (name, bytes) {
        (Some(name), Some(bytes)) => Some(SourceFile {
            name: name.as_str(),
            bytes,
        }),
        _ => None,
    }
}
