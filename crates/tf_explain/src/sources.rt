//! The files that a program read, and its providers.

use tf_provider_protocol::Provider;

/// A file: its name and its bytes.
#[derive(Clone, Copy)]
pub struct SourceFile<'a> {
    /// The name by which it was read.
    pub name: &'a str,
    /// What was read.
    pub bytes: &'a [u8],
}

/// The files that a program read, and its providers.
#[derive(Clone, Copy)]
pub struct Sources<'a> {
    /// The configuration.
    pub config: SourceFile<'a>,
    /// The variables file, if one is named.
    pub vars: Option<SourceFile<'a>>,
    /// The state, if there is one.
    pub state: Option<SourceFile<'a>>,
    /// The providers, for the schemas of their types.
    pub providers: &'a [Box<dyn Provider + Sync>],
}
