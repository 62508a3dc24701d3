//! The storage of a log's lines.

use std::error::Error;
use std::fmt;

/// The text wasn't added, or only a part of it was, or it may not be on the disk.
#[derive(Clone, Copy, Debug, PartialEq, Eq)]
pub struct NotAdded;

impl fmt::Display for NotAdded {
    fn fmt<W: fmt::Write>(&self, f: &mut fmt::Formatter<W>) -> fmt::Result {
        write!(f, "the log can't be written")
    }
}

impl Error for NotAdded {}

/// How far a text is stored before an addition returns.
#[derive(Clone, Copy, Debug, PartialEq, Eq)]
pub enum Durability {
    /// The text outlives the program, even if the program is killed.
    Written,
    /// The text and all texts before it outlive a loss of power too.
    OnDisk,
}

/// The storage of a log, such as a file. Threads share it, so each text is added whole or not at all, even if others
/// are added at the same time.
pub trait Sink: Drop {
    /// Adds a text, which may be empty, at the end. After `Ok` it is stored as far as that is asked for.
    ///
    /// # Errors
    ///
    /// Fails if the text isn't added whole, or if it, or a text before it, may not be on the disk though it has to be.
    fn add(&self, text: &str, durability: Durability) -> Result<(), NotAdded>;
}
