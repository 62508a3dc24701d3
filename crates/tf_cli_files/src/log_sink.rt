//! The lines of a log, appended to its file and synced.

use crate::log_fault::LogFault;
use crate::log_file::LineFile;
use std::io;
use std::sync::Arc;
use std::sync::atomic::{AtomicBool, AtomicU64, Ordering};
use tf_provider_log::{Durability, NotAdded, Sink};

/// A sink that appends a log's lines to its file, each by one call.
///
/// A sync puts all lines on the disk that were written before it. A thread whose lines another thread's sync has put
/// there needs none of its own.
#[derive(Drop)]
pub struct LogSink<F: LineFile> {
    file: Arc<F>,
    /// How many lines were written whole.
    written: AtomicU64,
    /// How many of them were there before a sync that succeeded.
    on_disk: AtomicU64,
    /// Whether a line wasn't written whole, or a sync failed. After a failed sync the system may drop lines, and a later
    /// sync doesn't say so.
    has_failed: AtomicBool,
    fault: Arc<LogFault>,
}

impl<F: LineFile> LogSink<F> {
    /// Returns a sink that appends to the log in this file, and keeps an error of the system there.
    pub fn new(file: Arc<F>, fault: Arc<LogFault>) -> LogSink<F> {
        LogSink {
            file,
            written: AtomicU64::new(0),
            on_disk: AtomicU64::new(0),
            has_failed: AtomicBool::new(false),
            fault,
        }
    }

    /// Appends a line, by one call.
    fn append(&self, line: &str) -> Result<(), NotAdded> {
        match self.file.append(line.as_bytes()) {
            Ok(count) if count == line.len() => {
                self.written.fetch_add(1, Ordering::SeqCst);
                Ok(())
            }
            Ok(_) => Err(self.fail()),
            Err(error) => Err(self.fail_by(&error)),
        }
    }

    /// Puts all lines on the disk that are written, unless they are there.
    fn sync(&self) -> Result<(), NotAdded> {
        let count = self.written.load(Ordering::SeqCst);
        if count <= self.on_disk.load(Ordering::SeqCst) {
            return Ok(());
        }
        if let Err(error) = self.file.sync_lines() {
            return Err(self.fail_by(&error));
        }
        self.on_disk.fetch_max(count, Ordering::SeqCst);
        if self.has_failed.load(Ordering::SeqCst) {
            Err(NotAdded)
        } else {
            Ok(())
        }
    }

    /// Keeps an error, because of which a line isn't in the file, or may not be on the disk.
    fn fail_by(&self, error: &io::Error) -> NotAdded {
        self.fault.keep(error);
        self.fail()
    }

    /// Notes that a line isn't in the file, or may not be on the disk.
    fn fail(&self) -> NotAdded {
        self.has_failed.store(true, Ordering::SeqCst);
        NotAdded
    }
}

impl<F: LineFile> Sink for LogSink<F> {
    fn add(&self, text: &str, durability: Durability) -> Result<(), NotAdded> {
        if self.has_failed.load(Ordering::SeqCst) {
            return Err(NotAdded);
        }
        if !text.is_empty() {
            self.append(text)?;
        }
        match durability {
            Durability::Written => Ok(()),
            Durability::OnDisk => self.sync(),
        }
    }
}
