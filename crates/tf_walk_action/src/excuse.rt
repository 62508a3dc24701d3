//! How actions end, and which are excused.

use tf_provider_protocol::Verdict;

/// How an action ended.
#[derive(Clone, Copy, Debug, PartialEq, Eq)]
pub enum Outcome {
    /// An action directly before it isn't good, so no provider was called.
    Skipped,
    /// Memory ran out before the call or during it, or a stop left the action, so nothing was done.
    Excused,
    /// Its `for_each` or an argument has a fault, evaluated with what the providers answered, so no provider was
    /// called.
    ArgumentFault,
    /// The provider was called, and its reply has this verdict.
    Judged(Verdict),
}

/// An excuse of an action, by its place in the plan's list of actions, or of an output, by its place in byte order of
/// names.
#[derive(Clone, Copy, Debug, PartialEq, Eq)]
pub enum Excuse {
    /// Memory for the request ran out, before the provider was called.
    Before(usize),
    /// The provider was called, and answered that it had no memory.
    During(usize),
    /// The walk was stopped before the request was built.
    Left(usize),
    /// Memory for the output's value ran out.
    Output(usize),
}
