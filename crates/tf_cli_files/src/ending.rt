//! The end of a program before its work.

ghost use Rattle.std.specs.Prelude.{◌≡◌, None, Some};

use std::io;
use std::process::ExitCode;

/// The end of a program before its work, after its error was printed.
#[derive(Drop)]
pub struct Ending {
    /// The program's exit status.
    pub status: ExitCode,
    /// The error of the system, if there is one. It isn't printed.
    pub cause: Option<io::Error>,
}

impl Ending {
    /// Builds an end that an error of the system causes.
    pub(crate) fn by(status: ExitCode, cause: io::Error) -> Ending
        ensures { (result.status ≡ status) × (result.cause ≡ Some cause) }
    {
        Ending {
            status,
            cause: Some(cause),
        }
    }
}

/// Builds an end without an error of the system.
impl From<ExitCode> for Ending {
    ghost from_gives = { λ status ending. (ending.status ≡ status) × (ending.cause ≡ None) };

    fn from(status: ExitCode) -> Ending
        ensures { (result.status ≡ status) × (result.cause ≡ None) }
    {
        Ending {
            status,
            cause: None,
        }
    }
}
