//! The diagnostics of an apply.

use tf_config_refusal::Code;
use tf_provider::Op;

/// What went wrong at an address.
#[derive(Debug, Drop)]
pub struct Diagnostic {
    /// `Failed`, `Contradiction` or `Malformed` of a call, `ArgumentFault` if `for_each`, an argument or an output has
    /// a fault, `NoMemory`, or `Left` because of a stop.
    pub code: Code,
    /// The address of the instance, followed by ` (deposed KEY)` for a deposed object; or `output.NAME`.
    pub place: String,
    /// The operation that was to be done there; `None` for an output.
    pub verb: Option<Op>,
    /// What happened, in one line.
    pub message: String,
}
