//! Writing the state's text to its file or, if that fails, to standard output.

ghost use Rattle.std.specs.Io.KnownBytes.{Appends};
ghost use Rattle.std.specs.Prelude.{◌≡◌, OnErr, OnOk};
ghost use Rattle.tf_cli_files.specs.Kept.{EndsKept, TakesStart, TakesWhole};
ghost use Rattle.tf_cli_lines.specs.Saved.{AppendsStart};
ghost use Rattle.tf_cli_lines.specs.Lines.{unwritten_line};

use std::io::Write;
use tf_cli_lines::{SaveFault, save};

/// The exit status if the state isn't written.
pub const EXIT_STATE_NOT_WRITTEN: u8 = 3;

/// Writes the state's text to its file and returns 0. Returns 3 if the file couldn't be opened, which is `None`; if a
/// write to it fails or takes nothing; or if its `flush` fails, which puts the file in its place. Then it prints on
/// standard error that the state isn't written, and the state's text on standard output, so that it isn't lost.
/// Errors of these two writes are ignored.
pub fn keep<W: Write, O: Write, E: Write>(
    file: Option<&mut W>,
    text: &str,
    out: &mut O,
    err: &mut E,
) -> u8
    ensures ends { EndsKept 0 result text.now (O.contents out.old) (O.contents out.new) (E.contents err.old) (E.contents err.new) }
    ensures whole { result ≡ 0 → TakesWhole W.contents file.entry file.exit text.now }
    ensures part { TakesStart W.contents file.entry file.exit text.now }
{
    match file {
        Some(file) => write_status(file, text, out, err),
        None => {
            print_unwritten(text, out, err);
            EXIT_STATE_NOT_WRITTEN
        }
    }
}

/// Writes the state's text to its open file, and returns the status.
fn write_status<W: Write, O: Write, E: Write>(
    file: &mut W,
    text: &str,
    out: &mut O,
    err: &mut E,
) -> u8
    ensures ends { EndsKept 0 result text.now (O.contents out.old) (O.contents out.new) (E.contents err.old) (E.contents err.new) }
    ensures whole { result ≡ 0 → Appends (W.contents file.old) (W.contents file.new) text.now }
    ensures part { AppendsStart (W.contents file.old) (W.contents file.new) text.now }
{
    match write_to(file, text, out, err) {
        Ok(()) => 0,
        Err(_) => EXIT_STATE_NOT_WRITTEN,
    }
}

/// Writes the state's text to its open file. If that fails, prints that the state isn't written, and its text.
pub(crate) fn write_to<W: Write, O: Write, E: Write>(
    file: &mut W,
    text: &str,
    out: &mut O,
    err: &mut E,
) -> Result<(), SaveFault>
    ensures kept { OnOk result ((O.contents out.new ≡ O.contents out.old) × (E.contents err.new ≡ E.contents err.old)) }
    ensures not_kept { OnErr result (AppendsStart (O.contents out.old) (O.contents out.new) text.now × AppendsStart (E.contents err.old) (E.contents err.new) unwritten_line) }
    ensures whole { OnOk result (Appends (W.contents file.old) (W.contents file.new) text.now) }
    ensures part { AppendsStart (W.contents file.old) (W.contents file.new) text.now }
{
    let written = write_and_flush(file, text);
    if written.is_err() {
        print_unwritten(text, out, err);
    }
    written
}

/// Writes a text, and flushes the writer, which puts the text in its place.
fn write_and_flush<W: Write>(writer: &mut W, text: &str) -> Result<(), SaveFault>
    ensures whole { OnOk result (Appends (W.contents writer.old) (W.contents writer.new) text.now) }
    ensures part { AppendsStart (W.contents writer.old) (W.contents writer.new) text.now }
{
    save(writer, text)?;
    writer.flush()?;
    Ok(())
}

/// Prints that the state isn't written, and its text.
pub(crate) fn print_unwritten<O: Write, E: Write>(text: &str, out: &mut O, err: &mut E)
    ensures output { AppendsStart (O.contents out.old) (O.contents out.new) text.now }
    ensures errors { AppendsStart (E.contents err.old) (E.contents err.new) unwritten_line }
{
    let _ = save(err, "error: state not written\n");
    let _ = save(out, text);
}
