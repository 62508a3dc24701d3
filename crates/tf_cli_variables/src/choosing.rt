//! The text of the variables' values, from any number of sources.

ghost use Rattle.std.specs.Prelude.{◌≡◌, IfErr, IfOk, option_map};
ghost use Rattle.tf_cli_variables.specs.Choice.{AreVariables, IsChosen, IsRefused, file_at, is_one_file};

use crate::merging::merge;
use crate::source::{Cause, MergeFault, Source};
use std::alloc::Global;

/// The text of the variables' values.
#[derive(Debug, Drop)]
pub struct Variables {
    /// The text, as of one variables file; `None` is no file.
    pub bytes: Option<Vec<u8>>,
    /// The position, counted from 0, of the source that is the file with these bytes. `None` if the text is merged, or if there is
    /// none.
    pub position: Option<usize>,
}

/// Which text is that of the variables' values.
#[derive(Debug, Drop)]
pub(crate) enum Choice {
    Nothing,
    /// The bytes of the source at this position, which is a file.
    File(usize),
    Merged(Vec<u8>),
}

/// Returns the text of the variables' values that sources give together. Without a source there is none. If a file is the only
/// source, the text is that of the file, whatever it is. Otherwise the sources are [merged](merge), with two exceptions:
/// if the configuration isn't JSON, there is no text, since the configuration is refused before its variables; and if the first
/// source without values is a file, the text is that of this file, which is refused then as if it were the only source.
///
/// # Errors
///
/// - `BadSource`: the first source without values is an assignment; its position, and why.
/// - `OutOfMemory`.
pub fn variables_of(
    alloc: Global,
    config: &[u8],
    sources: Vec<Source>,
) -> Result<Variables, MergeFault>
    ensures text { IfOk result (λ variables. AreVariables config.now sources.items (option_map (λ bytes. bytes.items) variables.bytes)) }
    ensures fault { IfErr result (IsRefused config.now sources.items) }
{
    match choose(alloc, config, sources.as_slice())? {
        Choice::Nothing => Ok(Variables {
            bytes: None,
            position: None,
        }),
        Choice::File(position) => Ok(Variables {
            bytes: take_file(sources, position),
            position: Some(position),
        }),
        Choice::Merged(bytes) => Ok(Variables {
            bytes: Some(bytes),
            position: None,
        }),
    }
}

/// Chooses the text of the variables' values.
fn choose(alloc: Global, config: &[u8], sources: &[Source]) -> Result<Choice, MergeFault>
    ensures text { IfOk result (IsChosen config.now sources.now) }
    ensures fault { IfErr result (IsRefused config.now sources.now) }
{
    if sources.is_empty() {
        return Ok(Choice::Nothing);
    }
    if is_one_file(sources) {
        return Ok(Choice::File(0));
    }
    match merge(alloc, config, sources) {
        Ok(bytes) => Ok(Choice::Merged(bytes)),
        Err(MergeFault::Configuration) => Ok(Choice::Nothing),
        Err(MergeFault::BadSource(position, Cause::NotAFile)) => Ok(Choice::File(position)),
        Err(fault) => Err(fault),
    }
}

/// Returns whether a file is the only source.
fn is_one_file(sources: &[Source]) -> bool
    ensures { result ≡ is_one_file sources.now }
{
    sources.len() == 1 && matches!(sources.first(), Some(Source::File(_)))
}

/// Returns the bytes of the file at a position.
fn take_file(sources: Vec<Source>, position: usize) -> Option<Vec<u8>>
    ensures { result ≡ file_at sources.items position }
{
    match sources.into_iter().nth(position) {
        Some(Source::File(bytes)) => Some(bytes),
        _other => None,
    }
}
