//! Why a line isn't written, and why a log isn't read.

use std::alloc::AllocError;
use std::error::Error;
use std::fmt;

/// Why an entry isn't written.
#[derive(Clone, Copy, Debug, PartialEq, Eq)]
pub enum Unwritten {
    /// A value of the entry can't be written: it holds a set, or is nested more than 100 deep.
    Unfit,
    /// Memory ran out.
    OutOfMemory,
}

impl From<AllocError> for Unwritten {
    ghost use Rattle.std.specs.Prelude.{◌≡◌};
    ghost use Rattle.tf_provider_log.specs.declared.fault.Unwritten.TheVariants.{OutOfMemory};

    ghost from_gives = { λ _ fault. fault ≡ OutOfMemory };

    fn from(_: AllocError) -> Unwritten {
        Unwritten::OutOfMemory
    }
}

/// The fault of a whole line.
#[derive(Clone, Copy, Debug, PartialEq, Eq)]
pub enum LineFault {
    /// It isn't the first line of a log.
    NotAHeader,
    /// It is the first line of a log of an unknown version.
    UnknownVersion,
    /// It isn't the line of an entry.
    NotAnEntry,
}

/// Why a log isn't read.
#[derive(Clone, Copy, Debug, PartialEq, Eq)]
pub enum LogFault {
    /// The first whole line with a fault, by its number, and the fault. The first line has the number 1.
    Line(usize, LineFault),
    /// Memory ran out.
    OutOfMemory,
}

impl From<AllocError> for LogFault {
    ghost use Rattle.std.specs.Prelude.{◌≡◌};
    ghost use Rattle.tf_provider_log.specs.declared.fault.LogFault.TheVariants.{OutOfMemory};

    ghost from_gives = { λ _ fault. fault ≡ OutOfMemory };

    fn from(_: AllocError) -> LogFault {
        LogFault::OutOfMemory
    }
}

impl fmt::Display for LineFault {
    ghost use Rattle.std.specs.Prelude.{Some};
    ghost use Rattle.tf_provider_log.specs.Fault.{line_fault_text};

    ghost output = { λ fault. Some (line_fault_text fault) };

    fn fmt<W: fmt::Write>(&self, f: &mut fmt::Formatter<W>) -> fmt::Result {
        match self {
            LineFault::NotAHeader => write!(f, "not the first line of a log"),
            LineFault::UnknownVersion => write!(f, "a log of another version"),
            LineFault::NotAnEntry => write!(f, "not a line of a log"),
        }
    }
}

impl Error for LineFault {}

impl fmt::Display for LogFault {
    ghost use Rattle.std.specs.Prelude.{Some};
    ghost use Rattle.tf_provider_log.specs.Fault.{log_fault_text};

    ghost output = { λ fault. Some (log_fault_text fault) };

    fn fmt<W: fmt::Write>(&self, f: &mut fmt::Formatter<W>) -> fmt::Result {
        match self {
            LogFault::Line(number, fault) => write!(f, "line {number}: {fault}"),
            LogFault::OutOfMemory => write!(f, "out of memory"),
        }
    }
}

impl Error for LogFault {}

impl fmt::Display for Unwritten {
    ghost use Rattle.std.specs.Prelude.{Some};
    ghost use Rattle.tf_provider_log.specs.Fault.{unwritten_text};

    ghost output = { λ fault. Some (unwritten_text fault) };

    fn fmt<W: fmt::Write>(&self, f: &mut fmt::Formatter<W>) -> fmt::Result {
        match self {
            Unwritten::Unfit => write!(f, "a value with a set in it, or nested too deep"),
            Unwritten::OutOfMemory => write!(f, "out of memory"),
        }
    }
}

impl Error for Unwritten {}
