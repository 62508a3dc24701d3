//! The content of a log.

use std::marker::Model;
use tf_provider_protocol::{Reply, Request};

/// The inputs of an apply, as its log's first line has them. Contracts see a `HeaderView`.
#[derive(Debug, Drop)]
pub struct Header {
    /// The text of the configuration.
    pub config: String,
    /// The text of the variables file, if there was one.
    pub vars: Option<String>,
    /// The text of the prior state, if there was one.
    pub state: Option<String>,
    /// The lineage of a new state.
    pub lineage: String,
}

impl Model for Header {
    ghost use Rattle.std.specs.Prelude.{string_bytes, option_map};
    ghost use Rattle.tf_provider_log.specs.Header.{HeaderView};

    ghost Value = { HeaderView };

    ghost view = { λ h. record { config = string_bytes h.config; vars = option_map string_bytes h.vars; state = option_map string_bytes h.state; lineage = string_bytes h.lineage } };
}

/// What a line of a log after the first says.
#[derive(Debug, Drop)]
pub enum LogEntry {
    /// A provider is about to be called with this request.
    Begun(Request),
    /// A provider was called with this request, and this is its reply.
    Answered(Request, Reply),
}

/// The content of a log: the inputs of the apply, and the entries in the order of their lines.
#[derive(Debug, Drop)]
pub struct Log {
    /// The inputs of the apply.
    pub header: Header,
    /// The entries.
    pub entries: Vec<LogEntry>,
}
