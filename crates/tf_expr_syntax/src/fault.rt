//! The faults of an evaluation.

ghost use Rattle.std.specs.Prelude.{◌≡◌, Some};
ghost use Rattle.tf_expr_syntax.specs.EvalFault.{eval_fault_name};
ghost use Rattle.tf_expr_syntax.specs.declared.fault.EvalFault.TheVariants.{OutOfMemory};

use std::alloc::{AllocError, AllocFailed};
use std::fmt;

/// Why an expression has no value.
#[derive(Clone, Copy, Debug, PartialEq, Eq, Drop)]
pub enum EvalFault {
    /// A whole number is beyond 64 signed bits.
    Overflow,
    /// The operation doesn't take a value of this kind.
    WrongKind,
    /// An index, a key or an attribute doesn't exist.
    Missing,
    /// A function has too few or too many arguments.
    Arity,
    /// A value is beyond the limits on weight or depth.
    TooLarge,
    /// An allocation failed.
    OutOfMemory,
}

impl From<AllocError> for EvalFault {
    ghost from_gives = { λ _ fault. fault ≡ OutOfMemory };

    fn from(_error: AllocError) -> EvalFault {
        EvalFault::OutOfMemory
    }
}

/// The name of the fault, as refusals print it.
impl fmt::Display for EvalFault {
    ghost output = { λ fault. Some (eval_fault_name fault) };

    fn fmt<W: fmt::Write>(&self, f: &mut fmt::Formatter<W>) -> fmt::Result {
        let name = match self {
            EvalFault::Overflow => "Overflow",
            EvalFault::WrongKind => "WrongKind",
            EvalFault::Missing => "Missing",
            EvalFault::Arity => "Arity",
            EvalFault::TooLarge => "TooLarge",
            EvalFault::OutOfMemory => "OutOfMemory",
        };
        f.write_str(name)
    }
}

impl<T: Drop> From<AllocFailed<T>> for EvalFault {
    ghost from_gives = { λ _ fault. fault ≡ OutOfMemory };

    fn from(_error: AllocFailed<T>) -> EvalFault {
        EvalFault::OutOfMemory
    }
}
