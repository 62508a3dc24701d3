//! The laws of recovery. Each function's contract is a law; its body does nothing.

ghost use Rattle.tf_cli_program.specs.Laws.{CutLogsAreRecovered, KeptLinesAreRecovered, RecoveredIsApplied};

/// If the entries of a log are true of some providers, the result of recovering from it, with each provider answering from its
/// own entries, is an apply of the same texts by those providers.
pub fn what_is_recovered_is_applied()
    ensures { RecoveredIsApplied }
{}

/// A log whose entries are true of some providers may be cut at any byte. Then it has no whole line, or it reads as exactly its
/// whole lines, and the result of recovering from these is an apply of the same texts by those providers.
pub fn what_a_cut_log_leaves_is_recovered()
    ensures { CutLogsAreRecovered }
{}

/// A log whose entries are true of some providers may lose any lines after the first in a loss of power, and be cut at any byte.
/// Then it has no whole line, or it reads as exactly the whole lines that are left, and the result of recovering from these is an
/// apply of the same texts by those providers.
pub fn what_lines_are_kept_is_recovered()
    ensures { KeptLinesAreRecovered }
{}
