//! What one part has.

use std::collections::LinkedList;

/// What one part has: a number of the tally's parts, the entries that it keeps, and those that it reports. It is for contracts
/// alone: no value of it is made.
pub struct Holding<E> {
    /// How many parts the tally has in all.
    pub whole: u64,
    /// How many of them these are.
    pub parts: u64,
    /// The entries that are kept here, in the order in which they were added.
    pub kept: LinkedList<E>,
    /// The entries that are reported here, in the order in which they were added.
    pub reported: LinkedList<E>,
}
