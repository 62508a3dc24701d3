//! Laws of logs, proved for every log: each function's contract is a law, and its body does nothing.
ghost use Rattle.tf_provider_log.specs.ReplayLaws.{BeginningsAreTrue, ReplayedAreThemselves, SameIsEquality};

/// Requests that `is_same` compares as the same are equal.
pub fn same_requests_are_one()
    ensures { SameIsEquality }
{}

/// Providers that answer from their own true entries of a log are equal to the providers themselves.
pub fn replayed_providers_are_themselves()
    ensures { ReplayedAreThemselves }
{}

/// Entries that are true of providers stay so in each beginning of a log.
pub fn beginnings_of_logs_are_true()
    ensures { BeginningsAreTrue }
{}
