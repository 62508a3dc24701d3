//! The error of the system because of which a log can't be written.

use std::io;
use std::sync::atomic::{AtomicI32, Ordering};

/// The code of no error: the system has no error with this number.
const NONE: i32 = 0;

/// An error of the system because of which a line of a log couldn't be written or synced. The log's sink keeps it here, and the program
/// prints it.
#[derive(Drop)]
pub struct LogFault {
    code: AtomicI32,
}

impl LogFault {
    /// Returns that there is no error.
    pub fn new() -> LogFault {
        LogFault {
            code: AtomicI32::new(NONE),
        }
    }

    /// Keeps an error, if it is one of the system.
    pub(crate) fn keep(&self, error: &io::Error) {
        if let Some(code) = error.raw_os_error() {
            self.code.store(code, Ordering::SeqCst);
        }
    }

    /// Returns the error that was kept last, if there is one.
    pub fn cause(&self) -> Option<io::Error> {
        let code = self.code.load(Ordering::SeqCst);
        if code == NONE {
            None
        } else {
            Some(io::Error::from_raw_os_error(code))
        }
    }
}
