//! A writer that explains the lines that pass through it.

ghost use Rattle.std.specs.Io.{WritesAtMost};
ghost use Rattle.std.specs.Io.KnownBytes.{WriteAppends};
ghost use Rattle.tf_explain.specs.Passing.{Adds, PassesOn, known_contents};
ghost use Rattle.std.specs.Prelude.{◌≡◌, ◌≤◌, ℕ, length, take};

use crate::causes::explanation;
use crate::line::read_line;
use crate::sources::Sources;
use std::alloc::Global;
use std::io;
use std::io::Write;
use tf_cli_lines::save;

/// The longest line that is explained, in bytes.
const LONGEST_LINE: usize = 65_536;

/// The most lines that are explained.
const MOST_LINES: usize = 100;

/// The most bytes of configurations that are read for explanations. So a large configuration has fewer of them.
const MOST_BYTES: usize = 33_554_432;

/// Standard error, or another writer, with explanations. It passes on what is written to it unchanged. If it explains, it also
/// writes an explanation after each whole line of a refusal or a diagnostic: indented lines that say where in the files the fault
/// is, and what is wrong. An explanation that can't be built or written is left out.
#[derive(Drop)]
pub struct Explained<'w, 'a, E: Write> {
    alloc: Global,
    err: &'w mut E,
    explains: bool,
    sources: Sources<'a>,
    /// The beginning of the line that isn't complete yet.
    line: Vec<u8>,
    /// Whether the line is too long, or there was no memory for it.
    is_cut: bool,
    /// How many lines were explained.
    count: usize,
}

impl<'w, 'a, E: Write> Explained<'w, 'a, E> {
    /// Wraps a writer, with the files that were read and the providers. Without `explains`, everything passes through and nothing
    /// is added.
    pub fn new(
        alloc: Global,
        err: &'w mut E,
        explains: bool,
        sources: Sources<'a>,
    ) -> Explained<'w, 'a, E> {
        Explained {
            alloc,
            err,
            explains,
            sources,
            line: Vec::new(alloc),
            is_cut: false,
            count: 0,
        }
    }

    /// Passes bytes on, up to the end of the first line, and explains that line if it is complete.
    fn pass(&mut self, buf: &[u8]) -> io::Result<usize>
        ensures bound { WritesAtMost result buf.now }
        ensures explains { self.new.explains ≡ self.old.explains }
        ensures passes { PassesOn (E.contents self.old.err.now) (E.contents self.new.err.now) result buf.now }
    {
        let part = first_line(buf);
        let count = self.err.write(part)?;
        self.collect(part.get(..count).unwrap_or(b""));
        Ok(count)
    }

    /// Adds bytes to the line, and explains it if they end it.
    fn collect(&mut self, bytes: &[u8])
        ensures explains { self.new.explains ≡ self.old.explains }
        ensures adds { Adds (E.contents self.old.err.now) (E.contents self.new.err.now) }
    {
        if self.line.len().saturating_add(bytes.len()) > LONGEST_LINE
            || self.line.extend_from_slice(bytes).is_err()
        {
            self.is_cut = true;
        }
        if bytes.last().copied() == Some(b'\n') {
            if !self.is_cut && self.may_explain() {
                self.explain();
            }
            self.line.clear();
            self.is_cut = false;
        }
    }

    /// Returns whether one more line may be explained.
    fn may_explain(&self) -> bool {
        let read = self.count.saturating_mul(self.sources.config.bytes.len());
        self.count < MOST_LINES && read < MOST_BYTES
    }

    /// Writes the explanation of the line, if there is one.
    fn explain(&mut self)
        ensures explains { self.new.explains ≡ self.old.explains }
        ensures adds { Adds (E.contents self.old.err.now) (E.contents self.new.err.now) }
    {
        let Ok(text) = str::from_utf8(self.line.as_slice()) else {
            return;
        };
        let Some(line) = read_line(text.trim_end()) else {
            return;
        };
        self.count = self.count.saturating_add(1);
        if let Ok(explained) = explanation(self.alloc, line, self.sources) {
            let _ = save(self.err, explained.as_str());
        }
    }
}

impl<E: Write> Write for Explained<'_, '_, E> {
    // What was written to it, as far as that is known. If it doesn't explain, that is what the wrapped writer has, so each
    // contract on printed text holds of the wrapped writer. If it explains, the wrapped writer has explanations too, and the
    // clause `passes` says how it grows.
    ghost contents = { λ explained. known_contents explained.explains (E.contents explained.err.now) };

    fn write(&mut self, buf: &[u8]) -> io::Result<usize>
        ensures bound { WritesAtMost result buf.now }
        ensures bytes { WriteAppends (known_contents self.old.explains (E.contents self.old.err.now)) (known_contents self.new.explains (E.contents self.new.err.now)) result buf.now }
        ensures passes { PassesOn (E.contents self.old.err.now) (E.contents self.new.err.now) result buf.now }
    {
        if self.explains {
            return self.pass(buf);
        }
        self.err.write(buf)
    }

    fn flush(&mut self) -> io::Result<()> {
        self.err.flush()
    }
}

/// Returns the beginning of some bytes up to and with the first end of a line, or all of them.
fn first_line(bytes: &[u8]) -> &[u8]
    ensures { (n : ℕ) × (n ≤ length bytes.now) × (result.now ≡ take n bytes.now) }
{
    for (at, byte) in bytes.iter().enumerate() {
        if *byte == b'\n' {
            return &bytes[..at + 1];
        }
    }
    bytes
}
