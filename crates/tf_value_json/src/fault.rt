ghost use Rattle.std.specs.Prelude.{◌≡◌, Some};
ghost use Rattle.tf_value_json.specs.Fault.{fault_text};
ghost use Rattle.tf_value_json.specs.declared.fault.JsonFault.TheVariants.{OutOfMemory};

use std::alloc::AllocError;
use std::error::Error;
use std::fmt;

/// Why a value has no JSON form, or a JSON tree is no value.
#[derive(Debug, Clone, Copy, PartialEq, Eq)]
pub enum JsonFault {
    /// A value with an unknown part has no JSON form.
    UnknownInside,
    /// A number in the JSON tree isn't held as a whole number of 64 bits with a sign.
    NotWhole,
    /// The JSON tree is the form of a value beyond the limits of weight or depth.
    TooLarge,
    /// Memory ran out.
    OutOfMemory,
}

impl fmt::Display for JsonFault {
    ghost output = { λ fault. Some (fault_text fault) };

    fn fmt<W: fmt::Write>(&self, f: &mut fmt::Formatter<W>) -> fmt::Result {
        f.write_str(match self {
            JsonFault::UnknownInside => "a part of the value is unknown",
            JsonFault::NotWhole => "a number isn't a whole number of 64 bits",
            JsonFault::TooLarge => "the value is too large",
            JsonFault::OutOfMemory => "out of memory",
        })
    }
}

impl Error for JsonFault {}

impl From<AllocError> for JsonFault {
    ghost from_gives = { λ _ e. e ≡ OutOfMemory };

    fn from(_error: AllocError) -> JsonFault {
        JsonFault::OutOfMemory
    }
}
