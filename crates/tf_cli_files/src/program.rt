//! The common part of both programs: reading the options, and reporting out of memory.

ghost use Rattle.std.specs.IoError.{error_kind};
ghost use Rattle.std.specs.Prelude.{◌≡◌, ◌⊎◌};
ghost use Rattle.tf_cli_files.specs.Program.{Ends, IsEarly, PrintsEnd};

use std::io;
use std::io::{ErrorKind, Write};
use std::process::ExitCode;
use std::rt::Env;
use tf_cli_lines::print_refusal;
use tf_cli_options::{Options, Program, asked_of};
use tf_config_refusal::Refusal;

/// Runs a program: reads its options and does its work with them. If the options are refused or ask for help, prints
/// that instead of doing the work. If memory runs out anywhere, reports that.
///
/// # Errors
///
/// Fails if a word isn't UTF-8, and with the errors of the work.
pub fn run<
    R: Env + AllocGlobal,
    O: Write,
    E: Write,
    W: FnOnce(Options, &mut O, &mut E) -> io::Result<ExitCode>,
>(rt: &R, program: Program, out: &mut O, err: &mut E, work: W) -> io::Result<ExitCode>
    requires { W.IsAlwaysCallable work }
    ensures { (answer : _) × Ends (λ e. error_kind e ≡ ErrorKind.OutOfMemory) answer result × (IsEarly answer ⊎ ((options : _) × (o : _) × (e : _) × (o_after : _) × (e_after : _) × W.post work options o e answer o_after e_after)) }
{
    match asked_of(rt, program, out, err) {
        Ok(Ok(options)) => {
            let answer = work(options, out, err);
            end(answer, err)
        }
        Ok(Err(status)) => Ok(status),
        Err(error) => end(Err(error), err),
    }
}

/// Ends a program. Prints out of memory as a refusal.
fn end<E: Write>(answer: io::Result<ExitCode>, err: &mut E) -> io::Result<ExitCode>
    ensures status { Ends (λ e. error_kind e ≡ ErrorKind.OutOfMemory) answer result }
    ensures told { PrintsEnd (λ e. error_kind e ≡ ErrorKind.OutOfMemory) answer (E.contents err.old) (E.contents err.new) }
{
    match answer {
        Err(error) if error.kind() == ErrorKind::OutOfMemory => {
            let _ = print_refusal(&Refusal::OutOfMemory, err);
            Ok(ExitCode::FAILURE)
        }
        answered => answered,
    }
}
