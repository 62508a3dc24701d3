//! A worker's access to the shared book of claims, and what it has seen and done there.

ghost use Rattle.std.specs.Prelude.{◌≡◌};

use std::collections::LinkedList;
use std::marker::Model;

/// What a seat has seen and done, the latest first, and its part of the whole. It is for contracts alone: no value of
/// it is created.
pub struct View {
    /// Actions that it found done.
    pub seen: LinkedList<usize>,
    /// Actions that it tried to claim and found taken or done.
    pub known: LinkedList<usize>,
    /// Actions for which it found each edge into them released.
    pub let_through: LinkedList<usize>,
    /// Actions that it claimed.
    pub claimed: LinkedList<usize>,
    /// Actions that it finished.
    pub finished: LinkedList<usize>,
    /// Edges that it released, by their index in the graph's list.
    pub let_go: LinkedList<usize>,
    /// Its part of the whole that all seats share, in pieces: a number d is a 2^d-th of the whole. The first seat
    /// begins with the whole, a split halves each piece, and a join puts two parts together.
    pub part: LinkedList<usize>,
}

/// A worker's access to the claims that it came from, with which it makes its steps. Contracts see which claims these
/// are, and a `View`.
#[derive(Drop)]
pub struct Seat {
    pub(crate) place: atomic_table::Seat<(), View>,
    pub(crate) steps: u64,
}

impl Model for Seat {
    ghost use Rattle.std.specs.Prelude.{◌≡◌, ◌<◌, [], length};
    ghost use Rattle.tf_claim.specs.Views.{Seated, steps_of};

    ghost Value = { Seated };

    ghost view = { λ s. record { table = s.place.table_id; view = s.place.me.0 } };

    ghost invariant = { λ s. (s.place.me.1 ≡ []) × (s.steps ≡ steps_of s.place.me.0)
        × (0 < length s.place.me.0.part) };
}
