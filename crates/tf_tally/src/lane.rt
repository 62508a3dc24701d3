//! A tally as one thread uses it.

ghost use Rattle.std.specs.Prelude.{◌≡◌, ◌<◌};
ghost use Rattle.tf_tally.specs.Holdings.{added};
ghost use Rattle.tf_tally.specs.declared.tally.TheConstants.{WORDS};

use crate::part::Part;
use crate::rule::Add;
use crate::tally::Tally;
use std::marker::Model;

/// A tally as one thread uses it. Adding an entry is a step on a word, and each lane has its own word on a cache line of its own: so
/// threads that add entries don't wait for each other's cache lines. Contracts see which tally it is of.
#[derive(Drop)]
pub struct Lane<'a, E> {
    tally: &'a Tally<E>,
    word: usize,
}

impl<'a, E> Model for Lane<'a, E> {
    ghost use Rattle.std.specs.Prelude.{◌≡◌, ◌<◌};
    ghost use Rattle.atomic_table.specs.Seated.{TableId};
    ghost use Rattle.tf_tally.specs.declared.tally.TheConstants.{WORDS};

    ghost Value = { TableId };

    ghost view = { λ l. l.tally.now };

    ghost invariant = { λ l. l.word < WORDS };
}

impl<'a, E> Lane<'a, E> {
    /// Returns the tally as a thread with this word uses it.
    pub(crate) fn of(tally: &'a Tally<E>, word: usize) -> Lane<'a, E>
        requires { word < WORDS }
        ensures { result ≡ tally.now }
    {
        Lane { tally, word }
    }

    /// Returns the tally.
    pub fn tally(&self) -> &'a Tally<E>
        ensures { result.now ≡ self.now }
    {
        self.tally
    }

    /// Adds an entry to a part, which keeps it and reports it.
    pub fn add(&self, part: &mut Part<E>, entry: &E)
        requires part { part.old.table ≡ self.now }
        ensures same { part.new.table ≡ self.now }
        ensures added { part.new.holding ≡ added entry.now part.old.holding }
    {
        self.tally.add_at(self.word, part, entry);
    }
}
