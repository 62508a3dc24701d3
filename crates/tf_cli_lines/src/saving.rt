//! Writing a text to a writer.

ghost use Rattle.std.specs.Io.KnownBytes.{Appends};
ghost use Rattle.std.specs.List.{flat_map};
ghost use Rattle.std.specs.Prelude.{OnOk};
ghost use Rattle.tf_cli_lines.specs.Saved.{AppendsStart};

use std::io;
use std::io::Write;
use thiserror::Error;

/// Why a text isn't written completely.
#[derive(Debug, Drop, Error)]
pub enum SaveFault {
    /// A write failed.
    #[error("a write failed: {0}")]
    Write(#[from] io::Error),
    /// A write took nothing.
    #[error("a write took nothing")]
    TookNothing,
}

/// Writes a text. If this fails, the writer has the beginning that it took.
pub fn save<W: Write>(writer: &mut W, text: &str) -> Result<(), SaveFault>
    ensures whole { OnOk result (Appends (W.contents writer.old) (W.contents writer.new) text.now) }
    ensures part { AppendsStart (W.contents writer.old) (W.contents writer.new) text.now }
{
    let bytes = text.as_bytes();
    let mut at = 0;
    while at < bytes.len() {
        match writer.write(&bytes[at..]) {
            Ok(0) => return Err(SaveFault::TookNothing),
            Ok(count) => at += count,
            Err(error) => return Err(SaveFault::Write(error)),
        }
    }
    Ok(())
}

/// Writes texts one after another. If this fails, the writer has the beginning that it took.
pub fn save_all<W: Write>(writer: &mut W, texts: &[&str]) -> Result<(), SaveFault>
    ensures whole { OnOk result (Appends (W.contents writer.old) (W.contents writer.new) (flat_map (λ t. t.now) texts.now)) }
    ensures part { AppendsStart (W.contents writer.old) (W.contents writer.new) (flat_map (λ t. t.now) texts.now) }
{
    for text in texts {
        save(writer, *text)?;
    }
    Ok(())
}
