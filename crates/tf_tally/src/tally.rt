//! The tally.

ghost use Rattle.std.specs.Prelude.{◌≡◌, ◌<◌, IfOk};
ghost use Rattle.tf_tally.specs.declared.tally.TheConstants.{WORDS};
ghost use Rattle.tf_tally.specs.Holdings.{first_holding, staying, going, merged, added, IsAll, IsBalanced};

use crate::holding::Holding;
use crate::lane::Lane;
use crate::part::Part;
use crate::rule::{Add, Audit, Away, Law, Together};
use atomic_table::Table;
use std::alloc::{AllocError, Global};
use std::marker::Model;

/// How many words a cache line has.
const LINE: usize = 8;

/// How many threads can add entries on cache lines of their own.
const LANES: usize = 64;

/// The words: the first is only read, and each of the others that is used is on a line of its own.
pub(crate) const WORDS: usize = LINE + LINE * LANES;

/// A tally, which deals out parts and adds entries to them. Its parts are used only with it. Contracts see which tally it is.
#[derive(Drop)]
pub struct Tally<E> {
    table: Table<E, Holding<E>, u64, Law, Global>,
}

impl<E> Model for Tally<E> {
    ghost use Rattle.std.specs.Prelude.{◌≡◌};
    ghost use Rattle.tf_tally.specs.declared.tally.TheConstants.{WORDS};
    ghost use Rattle.atomic_table.specs.Seated.{TableId};

    ghost Value = { TableId };

    ghost view = { λ t. t.table.shared.table_id };

    ghost invariant = { λ t. t.table.shared.table_id.words ≡ WORDS };
}

impl<E> Tally<E> {
    /// Makes a tally of the given number of parts, at least one, and returns it with all of them, which keep and report nothing yet.
    ///
    /// # Errors
    ///
    /// Only where memory runs out.
    pub fn new(alloc: Global, parts: u64) -> Result<(Tally<E>, Part<E>), AllocError>
        requires { 0 < parts }
        ensures part { IfOk result (λ made. made.1.table ≡ made.0) }
        ensures holding { IfOk result (λ made. made.1.holding ≡ first_holding parts) }
    {
        let (table, seat) = Table::of_words(alloc, &[0; WORDS], &parts)?;
        Ok((Tally { table }, Part { seat }))
    }

    /// Splits one part off, of two at least. All that was reported goes with it, and all that was kept stays.
    pub fn split_off(&self, part: &mut Part<E>) -> Part<E>
        requires part { part.old.table ≡ self.now }
        requires two { 1 < part.old.holding.parts }
        ensures same { part.new.table ≡ self.now }
        ensures staying { part.new.holding ≡ staying part.old.holding }
        ensures new { result.table ≡ self.now }
        ensures going { result.holding ≡ going part.old.holding }
    {
        let seat = self.table.shared.split_seat::<Away>(&mut part.seat);
        Part { seat }
    }

    /// Merges another part into this one: appends its kept entries to those of this part, and its reported entries likewise.
    pub fn merge(&self, part: &mut Part<E>, other: Part<E>)
        requires part { part.old.table ≡ self.now }
        requires other { other.table ≡ self.now }
        ensures same { part.new.table ≡ self.now }
        ensures merged { part.new.holding ≡ merged part.old.holding other.holding }
    {
        let Part { seat } = other;
        self.table
            .shared
            .join_seat::<Together>(&mut part.seat, seat);
    }

    /// Returns the tally as the thread with this number uses it. If there are more than 64 threads, some share a cache line.
    pub fn lane(&self, thread: usize) -> Lane<'_, E>
        ensures { result ≡ self.now }
    {
        Lane::of(self, LINE + LINE * (thread % LANES))
    }

    /// Adds an entry to a part, by a step on the given word.
    pub(crate) fn add_at(&self, word: usize, part: &mut Part<E>, entry: &E)
        requires word { word < WORDS }
        requires part { part.old.table ≡ self.now }
        ensures same { part.new.table ≡ self.now }
        ensures added { part.new.holding ≡ added entry.now part.old.holding }
    {
        self.table
            .shared
            .compare_exchange_with::<Add>(&mut part.seat, word, 0, 0, entry);
    }

    /// Looks at a part, and changes nothing. Where it has all parts, what it reports is what it keeps, however entries are
    /// weighed.
    pub fn audit(&self, part: &mut Part<E>)
        requires part { part.old.table ≡ self.now }
        ensures same { part.new ≡ part.old }
        ensures balanced { IsAll part.old.holding → IsBalanced part.old.holding }
    {
        self.table.shared.load::<Audit>(&mut part.seat, 0);
    }
}
