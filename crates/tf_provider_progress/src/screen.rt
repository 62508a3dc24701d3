//! The screen that progress lines are shown on.

use std::io::{Stderr, Write};

/// A place where lines are shown to a user.
pub trait Screen: Drop {
    /// Shows a text by one write, so that lines of threads don't mix: a line, which ends with a newline, or at a terminal
    /// lines and the status line below them. Skips a text that can't be shown.
    fn show(&self, text: &str);
}

/// Writes lines to standard error.
impl Screen for Stderr {
    fn show(&self, text: &str) {
        let mut writer = self;
        let _ = writer.write(text.as_bytes());
    }
}
