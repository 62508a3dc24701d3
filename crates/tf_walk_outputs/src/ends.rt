//! The outcomes of outputs.

use tf_expr_eval::EvalFault;
use tf_state_data::Object;

/// The outcome of one output.
#[derive(Clone, Copy, Debug, PartialEq, Eq, Drop)]
pub enum OutputResult {
    /// It wasn't evaluated, because a name in it isn't settled.
    NotEvaluated,
    /// Memory ran out for its value or its entry.
    NoMemory,
    /// Its expression has a fault, or its value is beyond the limits.
    Faulted(EvalFault),
    /// It has a value, and an entry unless the value is null.
    Valued,
}

/// The outcome of one output, with its value.
#[derive(Drop)]
pub(crate) enum EvaluatedOutput {
    NotEvaluated,
    NoMemory,
    Faulted(EvalFault),
    Valued(Object),
}
