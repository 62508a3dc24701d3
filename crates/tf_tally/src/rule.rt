//! The rule that the table of a tally keeps, and what its steps do.

use crate::holding::Holding;
use atomic_table::{Join, Play, Split, TableRule};

/// The rule that the table keeps: no part is lost, and what is reported is what is kept.
pub(crate) struct Law;

impl<E> TableRule<E, Holding<E>, u64> for Law {
    ghost use Rattle.tf_tally.specs.Holdings.{first_holding};
    ghost use Rattle.tf_tally.specs.Plays.{Holds};

    ghost holds = { λ whole. Holds whole };

    ghost first = { first_holding };
}

/// The exchange that adds its step's entry to the holding.
pub(crate) struct Add;

impl<E> Play<E, Holding<E>> for Add {
    ghost use Rattle.tf_tally.specs.Plays.{Adds};

    ghost then = { Adds };
}

/// A load that changes no holding. To one that has all parts it shows that what is reported is what is kept.
pub(crate) struct Audit;

impl<E> Play<E, Holding<E>> for Audit {
    ghost use Rattle.tf_tally.specs.Plays.{Audits};

    ghost then = { Audits };
}

/// One part goes, with all that was reported.
pub(crate) struct Away;

impl<E> Split<Holding<E>> for Away {
    ghost use Rattle.tf_tally.specs.Holdings.{staying, going};

    ghost left = { staying };

    ghost right = { going };
}

/// Two holdings are put together.
pub(crate) struct Together;

impl<E> Join<Holding<E>> for Together {
    ghost use Rattle.tf_tally.specs.Holdings.{merged, blank};

    ghost both = { merged };

    ghost spent = { blank };
}
