//! A part of a tally.

use crate::holding::Holding;
use std::marker::Model;

/// One part or more of the tally that it came from, with the entries that it keeps and reports. It takes no bytes, and can't be
/// copied. One that is dropped is lost: nobody has all parts from then on. Contracts see which tally it is of, and a
/// `Holding`, which has a part at least.
#[derive(Drop)]
pub struct Part<E> {
    pub(crate) seat: atomic_table::Seat<E, Holding<E>>,
}

impl<E> Model for Part<E> {
    ghost use Rattle.std.specs.Prelude.{◌≡◌, ◌<◌, []};
    ghost use Rattle.tf_tally.specs.Holdings.{HeldPart};

    ghost Value = { HeldPart E };

    ghost view = { λ p. record { table = p.seat.table_id; holding = p.seat.me.0 } };

    ghost invariant = { λ p. (p.seat.me.1 ≡ []) × (0 < p.seat.me.0.parts) };
}
