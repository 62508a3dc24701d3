//! The faults of a JSON tree that is no expression.

ghost use Rattle.std.specs.Prelude.{◌≡◌, Some};
ghost use Rattle.tf_expr_json.specs.Fault.{told};
ghost use Rattle.tf_expr_json.specs.FaultText.{cause_text, fault_text};
ghost use Rattle.tf_expr_json.specs.declared.fault.ExprFault.TheVariants.{OutOfMemory};

use std::alloc::{AllocError, AllocFailed};
use std::error::Error;
use std::fmt;

/// Why a JSON tree isn't read as an expression.
#[derive(Debug, Drop)]
pub enum ExprFault {
    /// Memory ran out.
    OutOfMemory,
    /// Something in the tree is refused.
    Refused {
        /// Where: names of properties and positions in arrays from the top down, joined by dots.
        place: String,
        /// What is wrong there.
        cause: ExprCause,
    },
}

impl From<AllocError> for ExprFault {
    ghost from_gives = { λ _ fault. fault ≡ OutOfMemory };

    fn from(_error: AllocError) -> ExprFault {
        ExprFault::OutOfMemory
    }
}

/// What is wrong at a place of a JSON tree.
#[derive(Clone, Copy, Debug, PartialEq, Eq, Drop)]
pub enum ExprCause {
    /// The property's name has `${` or `%{` in it, or the number isn't whole and of 64 signed bits.
    BadShape,
    /// The text is no template. No template begins with it up to and with the token at this byte.
    At(usize),
    /// The text's template is deeper than `MAX_DEPTH`.
    TooDeep,
}

/// Prints what is wrong and where, on one line, without a newline.
impl fmt::Display for ExprFault {
    ghost output = { λ fault. Some (fault_text (told fault)) };

    fn fmt<W: fmt::Write>(&self, f: &mut fmt::Formatter<W>) -> fmt::Result {
        match self {
            ExprFault::OutOfMemory => write!(f, "out of memory"),
            ExprFault::Refused { place, cause } => write!(f, "{cause} at {place}"),
        }
    }
}

/// Prints what is wrong, on one line, without a newline.
impl fmt::Display for ExprCause {
    ghost output = { λ cause. Some (cause_text cause) };

    fn fmt<W: fmt::Write>(&self, f: &mut fmt::Formatter<W>) -> fmt::Result {
        match self {
            ExprCause::BadShape => write!(f, "no expression"),
            ExprCause::At(offset) => write!(f, "no template from byte {offset} on"),
            ExprCause::TooDeep => write!(f, "a template that is too deep"),
        }
    }
}

impl Error for ExprFault {}

impl<T: Drop> From<AllocFailed<T>> for ExprFault {
    ghost from_gives = { λ _ fault. fault ≡ OutOfMemory };

    fn from(_error: AllocFailed<T>) -> ExprFault {
        ExprFault::OutOfMemory
    }
}
