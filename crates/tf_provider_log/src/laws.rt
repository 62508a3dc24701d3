// Laws of logs, proved for every log: each function's contract is a law, and its body does nothing.
ghost use Rattle.tf_provider_log.specs.Laws.{BeginningsAreRead};

/// If a log was written line by line, each of its beginnings, cut at any byte, either is less than the first line and
/// has no whole line, or reads as the header and the entries that are whole in it.
pub fn beginnings_are_read()
    ensures { BeginningsAreRead }
{}
