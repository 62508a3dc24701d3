//! The operations of a plan's actions.

ghost use Rattle.std.specs.List.{AllByRecursion};
ghost use Rattle.std.specs.Prelude.{◌≡◌, ◌↔◌, IsTrue, false, map};
ghost use Rattle.tf_walk_action.specs.Words.{action_of, IsOfAction, op_at};

use tf_plan_data::Action;
use tf_provider::Entry;
use tf_provider_protocol::Op;

/// Checks whether each entry has the operation of its action.
pub fn are_of_actions(entries: &[Entry], actions: &[Action]) -> bool
    ensures told { IsTrue result → AllByRecursion (IsOfAction (map action_of actions.now)) entries.now }
    ensures missed { result ≡ false → AllByRecursion (IsOfAction (map action_of actions.now)) entries.now → ⊥ }
{
    for entry in entries {
        let told = is_of_action(entry, actions);
        if !told {
            return false;
        }
    }
    true
}

/// Checks whether an entry has the operation of its action.
fn is_of_action(entry: &Entry, actions: &[Action]) -> bool
    ensures { IsTrue result ↔ IsOfAction (map action_of actions.now) entry.now }
{
    op_at(actions, entry.action) == Some(entry.op)
}

/// Returns the operation of the action at an index, if there is one.
fn op_at(actions: &[Action], place: usize) -> Option<Op>
    ensures { result ≡ op_at (map action_of actions.now) place }
{
    match actions.get(place) {
        Some(action) => Some(action.step.op()),
        None => None,
    }
}
