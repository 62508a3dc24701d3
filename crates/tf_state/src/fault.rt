ghost use Rattle.std.specs.Prelude.{◌≡◌, Some};
ghost use Rattle.tf_state.specs.Fault.{fault_text};
ghost use Rattle.tf_state.specs.declared.fault.StateFault.TheVariants.{OutOfMemory};

use std::alloc::{AllocError, AllocFailed};
use std::error::Error;
use std::fmt;

/// Why a text isn't read as a state.
#[derive(Debug, Clone, Copy, PartialEq, Eq)]
pub enum StateFault {
    /// The text is not the text of a state.
    BadState,
    /// The state has more than 4,000 resources with records, or the last serial, 4294967295.
    Limit,
    /// Memory ran out.
    OutOfMemory,
}

impl From<AllocError> for StateFault {
    ghost from_gives = { λ _ e. e ≡ OutOfMemory };

    fn from(_error: AllocError) -> StateFault {
        StateFault::OutOfMemory
    }
}

impl fmt::Display for StateFault {
    ghost output = { λ fault. Some (fault_text fault) };

    fn fmt<W: fmt::Write>(&self, f: &mut fmt::Formatter<W>) -> fmt::Result {
        f.write_str(match self {
            StateFault::BadState => "the text is no state's",
            StateFault::Limit => "the state is beyond the limits",
            StateFault::OutOfMemory => "out of memory",
        })
    }
}

impl Error for StateFault {}

impl<T: Drop> From<AllocFailed<T>> for StateFault {
    ghost from_gives = { λ _ e. e ≡ OutOfMemory };

    fn from(_error: AllocFailed<T>) -> StateFault {
        StateFault::OutOfMemory
    }
}
