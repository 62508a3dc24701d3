//! The lines of what is written.

ghost use Rattle.std.specs.Prelude.{◌≡◌, ◌≤◌, ℕ, length, take};

/// Returns the beginning of some bytes up to and with the first end of a line, or all of them.
pub(crate) fn first_line(bytes: &[u8]) -> &[u8]
    ensures { (n : ℕ) × (n ≤ length bytes.now) × (result.now ≡ take n bytes.now) }
{
    for (at, byte) in bytes.iter().enumerate() {
        if *byte == b'\n' {
            return &bytes[..at + 1];
        }
    }
    bytes
}

/// Returns whether some bytes end a line.
pub(crate) fn ends_line(bytes: &[u8]) -> bool {
    bytes.last().copied() == Some(b'\n')
}

/// Returns the text of a line, without its end. Returns `None` if it isn't UTF-8.
pub(crate) fn text_of(line: &[u8]) -> Option<&str> {
    let text = str::from_utf8(line).ok()?;
    Some(text.strip_suffix('\n').unwrap_or(text))
}
