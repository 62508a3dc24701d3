//! Which calls a report says were made.

ghost use Rattle.std.specs.Prelude.{◌≡◌, ◌↔◌, IsTrue, All, Some, false, is_some, length};
ghost use Rattle.tf_claim.specs.Claims.{how_many};
ghost use Rattle.tf_walk_action.specs.Excuse.{excuse_of};
ghost use Rattle.tf_walk_report.specs.Told.{is_during, verdict_told};

use tf_provider::{Entry, Verdict};
use tf_walk_action::{Excuse, Outcome};

/// Checks whether each entry has the verdict that is reported of its action.
pub fn are_told(entries: &[Entry], outcomes: &[Outcome], excused: &[Excuse]) -> bool
    ensures told { IsTrue result
        → All (λ entry. verdict_told outcomes.now excused.now entry.action ≡ Some entry.verdict) entries.now }
    ensures missed { result ≡ false
        → All (λ entry. verdict_told outcomes.now excused.now entry.action ≡ Some entry.verdict) entries.now → ⊥ }
{
    for entry in entries {
        let told = is_told(entry, outcomes, excused);
        if !told {
            return false;
        }
    }
    true
}

/// Checks whether an entry has the verdict that is reported of its action.
fn is_told(entry: &Entry, outcomes: &[Outcome], excused: &[Excuse]) -> bool
    ensures { IsTrue result
        ↔ (verdict_told outcomes.now excused.now entry.now.action ≡ Some entry.now.verdict) }
{
    verdict_told(outcomes, excused, entry.action) == Some(entry.verdict)
}

/// Returns the number of actions that are reported as called.
pub fn count_told(outcomes: &[Outcome], excused: &[Excuse]) -> usize
    ensures { result
        ≡ how_many (λ n. is_some (verdict_told outcomes.now excused.now n)) (length outcomes.now) }
{
    let mut count = 0;
    for action in 0..outcomes.len() {
        if verdict_told(outcomes, excused, action).is_some() {
            count += 1;
        }
    }
    count
}

/// Returns the verdict on the call of an action, if the action is reported as called.
fn verdict_told(outcomes: &[Outcome], excused: &[Excuse], action: usize) -> Option<Verdict>
    ensures { result ≡ verdict_told outcomes.now excused.now action }
{
    match outcomes.get(action) {
        Some(Outcome::Judged(verdict)) => Some(*verdict),
        Some(Outcome::Excused) => {
            if was_called(excused, action) {
                Some(Verdict::Excused)
            } else {
                None
            }
        }
        _ => None,
    }
}

/// Checks whether an action was excused during its call.
fn was_called(excused: &[Excuse], action: usize) -> bool
    ensures { result ≡ is_during (excuse_of excused.now action) }
{
    for excuse in excused {
        match excuse {
            Excuse::Before(place) if *place == action => return false,
            Excuse::During(place) if *place == action => return true,
            Excuse::Left(place) if *place == action => return false,
            _ => {}
        }
    }
    false
}
