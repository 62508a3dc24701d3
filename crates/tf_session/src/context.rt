//! What the calls of an apply need.

use std::fs::File;
use tf_cli_files::{LogSink, ProgramInput};
use tf_provider::Provider;
use tf_provider_log::OpenLog;

/// The log of an apply.
pub type ApplyLog = OpenLog<LogSink<File>>;

/// What the calls of an apply with providers outside the program need, beside its session.
#[derive(Clone, Copy, Drop)]
pub struct ApplyContext<'a> {
    /// The host, for files and pipes.
    pub rt: &'a HostRuntime,
    /// The log.
    pub log: &'a ApplyLog,
    /// The providers of the program, for the types that no provider outside it has.
    pub providers: &'a [Box<dyn Provider + Sync>],
    /// The options and texts of the apply.
    pub given: &'a ProgramInput,
}
