//! Which resources have only good creates and updates.

ghost use Rattle.std.specs.Prelude.{◌≡◌, ◌<◌, ◌&&◌, ◌||◌, ℕ, length, map, not, true};
ghost use Rattle.tf_walk_action.specs.Words.{action_of, result_or_skipped, action_results_of, has, is_good};
ghost use Rattle.tf_walk_report.specs.Good.{are_good_at, is_apply_of};

use crate::gather::is_good;
use tf_plan_data::Action;
use tf_walk_action::ActionResult;

/// Writes for each resource, by its name's index, whether all its creates and updates are good.
pub fn note_good(good: &mut [bool], actions: &[Action], results: &[Option<ActionResult>])
    requires { length results.now ≡ length actions.now }
    ensures length { length good.new ≡ length good.old }
    ensures good { (n : ℕ) → n < length good.old → has good.new n ≡ are_good_at (map action_of actions.now) (action_results_of results.now) n }
{
    mark_all(good);
    for index in 0..actions.len() {
        note_end(good, &actions[index], &results[index]);
    }
}

/// Marks all indexes.
fn mark_all(good: &mut [bool])
    ensures length { length good.new ≡ length good.old }
    ensures marked { (n : ℕ) → n < length good.old → has good.new n ≡ true }
{
    for place in 0..good.len() {
        good[place] = true;
    }
}

/// Unmarks the action's resource if the action is a create or an update that isn't good. Destroys don't count.
fn note_end(good: &mut [bool], action: &Action, ended: &Option<ActionResult>)
    ensures length { length good.new ≡ length good.old }
    ensures good { (n : ℕ) → n < length good.old → has good.new n
        ≡ (has good.old n && (not (is_apply_of n (action_of action.now)) || is_good (result_or_skipped ended.now))) }
{
    let number = action.resource;
    if action.step.is_apply() && !is_good(ended) && number < good.len() {
        good[number] = false;
    }
}
