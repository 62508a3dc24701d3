//! The sources of variables' values, and why they aren't merged.

ghost use Rattle.std.specs.Prelude.{◌≡◌};
ghost use Rattle.tf_cli_variables.specs.declared.source.MergeFault.TheVariants.{OutOfMemory};

use std::alloc::AllocError;

/// A source of variables' values, as it was read.
#[derive(Debug, Drop)]
pub enum Source {
    /// The bytes of a variables file.
    File(Vec<u8>),
    /// An assignment, `NAME=VALUE`.
    Assignment(String),
}

/// Why a source gives no values.
#[derive(Clone, Copy, Debug, PartialEq, Eq)]
pub enum Cause {
    /// The file is longer than 4,194,304 bytes, or isn't one JSON object.
    NotAFile,
    /// The assignment has no `=`.
    NoEqualsSign,
    /// The configuration doesn't declare a variable of this name.
    Undeclared,
    /// The value isn't JSON, and the variable's type isn't `string`.
    NotJson,
}

/// Why sources aren't merged.
#[derive(Clone, Copy, Debug, PartialEq, Eq)]
pub enum MergeFault {
    /// Memory runs out.
    OutOfMemory,
    /// The configuration isn't JSON.
    Configuration,
    /// The source at this position, counted from 0, gives no values. Those before it do.
    BadSource(usize, Cause),
}

impl From<AllocError> for MergeFault {
    ghost from_gives = { λ _ fault. fault ≡ OutOfMemory };

    fn from(_error: AllocError) -> MergeFault {
        MergeFault::OutOfMemory
    }
}
