//! Laws of the shared claims, over all seats: each is the contract of a function that does nothing.

ghost use Rattle.tf_claim.specs.Seats.{ClaimsAreApart, EndsAreApart, ReleasesAreApart, SeatsActOnce, SeenIsDone, BeforeClaimedIsDone, TakenIsClaimed, HeldBackIsFree, JoinedAreApart, SoleIsAll, SoleKnows, PartsAddUp};

/// No two seats have claimed or finished the same action, or released the same edge. What one has finished, the other
/// hasn't even claimed.
pub fn seats_are_apart()
    ensures claims { ClaimsAreApart }
    ensures ends { EndsAreApart }
    ensures releases { ReleasesAreApart }
{}

/// A seat claims an action at most once, and finishes only what it claimed, once. It releases only edges whose source
/// it finished, each once.
pub fn seats_act_once()
    ensures { SeatsActOnce }
{}

/// What a seat has seen done or has finished is done, and what it has claimed or known isn't free. Every action that
/// reaches one of these by edges is done.
pub fn before_is_done()
    ensures seen { SeenIsDone }
    ensures claimed { BeforeClaimedIsDone }
{}

/// Some seat has claimed each action that isn't free, once. An action with an edge into it that no seat has released
/// is free.
pub fn taken_is_claimed()
    ensures claimed { TakenIsClaimed }
    ensures held { HeldBackIsFree }
{}

/// If one view holds what two seats have done, as `Claims::join_seat` leaves it, the two have claimed or finished no
/// action, and released no edge, in common.
pub fn joined_are_apart()
    ensures { JoinedAreApart }
{}

/// A seat whose part is the whole is the only one: every other view is empty, and its own lists say the stage of each
/// action and whether each edge is released. So its view determines what `Claims::see` and `Claims::claim` will
/// return.
pub fn sole_seats_know()
    ensures all { SoleIsAll }
    ensures known { SoleKnows }
{}

/// A split halves a seat's part between two seats: in a unit half as large, each of the two has as much as the one
/// had. A join adds the parts of two seats.
pub fn parts_add_up()
    ensures { PartsAddUp }
{}
