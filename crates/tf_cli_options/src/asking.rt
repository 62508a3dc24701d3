//! The options on a program's command line.

ghost use Rattle.std.specs.Prelude.{◌≤◌, IfErr, IfOk};
ghost use Rattle.std.specs.Process.{exit_status};

use crate::reading::options;
use crate::words::{Options, Program};
use std::alloc::Global;
use std::io::Write;
use std::process::ExitCode;
use std::rt::Env;
use std::{env, io};

/// Reads the options on the program's command line. If they are refused, or ask for help or the version, prints that and returns the
/// program's exit status: 1 or 0.
///
/// # Errors
///
/// Fails if a word isn't UTF-8, or if memory runs out.
pub fn asked_of<R: Env + AllocGlobal, O: Write, E: Write>(
    rt: &R,
    program: Program,
    out: &mut O,
    err: &mut E,
) -> io::Result<Result<Options, ExitCode>>
    ensures { IfOk result (λ asked. IfErr asked (λ status. exit_status status ≤ 1)) }
{
    let words: Vec<String> = env::args(rt)?.collect(rt.alloc())?;
    Ok(read_options(rt.alloc(), program, words.as_slice(), out, err))
}

/// Reads options from words. If they are refused, or ask for help or the version, prints that and returns the exit status.
fn read_options<O: Write, E: Write>(
    alloc: Global,
    program: Program,
    words: &[String],
    out: &mut O,
    err: &mut E,
) -> Result<Options, ExitCode>
    ensures workers { IfOk result (λ o. (1 ≤ o.parallelism) × (o.parallelism ≤ 64)) }
    ensures status { IfErr result (λ status. exit_status status ≤ 1) }
{
    match options(alloc, program, words) {
        Ok(options) => Ok(options),
        Err(error) => {
            if error.use_stderr() {
                let _ = write!(err, "{error}");
                Err(ExitCode::FAILURE)
            } else {
                let _ = write!(out, "{error}");
                Err(ExitCode::SUCCESS)
            }
        }
    }
}
