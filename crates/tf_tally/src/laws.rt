//! Laws on tallies, and that a tally and its parts may be shared by threads.

ghost use Rattle.tf_tally.specs.Laws.{AllKnow, BalancedAgree};

use crate::part::Part;
use crate::tally::Tally;

/// If the rule holds and one holding has all parts, every other holding has no part, keeps nothing and reports nothing, and what the
/// one reports is balanced with what it keeps.
pub fn all_know<E>()
    ensures { AllKnow E }
{}

/// A balanced holding reports as many entries as it keeps, in all and of those that pass a test, whatever the test is.
pub fn balanced_agree<E>()
    ensures { BalancedAgree E }
{}

/// Checks that threads may share a part, though only who owns it can use it.
pub fn parts_are_shared<E: Send + Sync>(part: &Part<E>) {
    share(part);
}

/// Checks that threads may share a tally.
pub fn tallies_are_shared<E: Send + Sync>(tally: &Tally<E>) {
    share(tally);
}

/// Checks that a part may go to another thread, and drops it.
pub fn parts_are_sent<E: Send + Drop>(part: Part<E>) {
    send(part);
}

/// Takes what threads may share.
fn share<T: Sync>(_shared: &T) {}

/// Takes what may go to another thread.
fn send<T: Send + Drop>(_sent: T) {}
