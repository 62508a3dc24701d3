//! The outcomes of actions, collected without taking memory.

ghost use Rattle.std.specs.Prelude.{◌≡◌, ◌-◌, ◌<◌, ◌≤◌, ◌^◌, [], length, map, vec_capacity};
ghost use Rattle.tf_walk_action.specs.Words.{action_of, result_or_skipped, action_results_of, is_good, op_of, step_of};
ghost use Rattle.tf_walk_report.specs.ActionReport.{listed};
ghost use Rattle.tf_walk_report.specs.Outcomes.{counted_one, excuses_at, excuses_from, good_totals, outcome_of};

use tf_plan_data::{Action, Step};
use tf_provider::Verdict;
use tf_walk_action::{ActionResult, Excuse, Outcome};

/// Adds the outcome of each action, in action order.
pub fn tell_outcomes(outcomes: &mut Vec<Outcome>, results: &[Option<ActionResult>])
    requires none { outcomes.old.items ≡ [] }
    requires room { length results.now ≤ vec_capacity outcomes.old }
    ensures { outcomes.new.items ≡ map outcome_of (action_results_of results.now) }
{
    for ended in results {
        outcomes.push(outcome(ended)).unwrap();
    }
}

fn outcome(ended: &Option<ActionResult>) -> Outcome
    ensures { result ≡ outcome_of (result_or_skipped ended.now) }
{
    match ended {
        None | Some(ActionResult::Skipped(_, _)) => Outcome::Skipped,
        Some(
            ActionResult::NotAsked(_, _) | ActionResult::NotServed(_, _) | ActionResult::Left(_, _),
        ) => Outcome::Excused,
        Some(ActionResult::Faulted(_, _)) => Outcome::ArgumentFault,
        Some(ActionResult::Called(served)) => Outcome::Judged(served.call.verdict()),
    }
}

/// Adds the excuses of the excused actions, in action order.
pub fn tell_excuses(excused: &mut Vec<Excuse>, results: &[Option<ActionResult>])
    requires none { excused.old.items ≡ [] }
    requires room { length results.now ≤ vec_capacity excused.old }
    ensures told { excused.new.items ≡ excuses_from 0 (action_results_of results.now) }
    ensures few { length excused.new.items ≤ length results.now }
    ensures capacity { vec_capacity excused.old ≤ vec_capacity excused.new }
{
    for (place, ended) in results.iter().enumerate() {
        if let Some(excuse) = excuse(place, ended) {
            excused.push(excuse).unwrap();
        }
    }
}

fn excuse(place: usize, ended: &Option<ActionResult>) -> Option<Excuse>
    ensures { listed result ≡ excuses_at place (result_or_skipped ended.now) }
{
    match ended {
        Some(ActionResult::NotAsked(_, _)) => Some(Excuse::Before(place)),
        Some(ActionResult::NotServed(_, _)) => Some(Excuse::During(place)),
        Some(ActionResult::Left(_, _)) => Some(Excuse::Left(place)),
        _ => None,
    }
}

/// Counts the good creates, updates and destroys.
pub fn count_good(actions: &[Action], results: &[Option<ActionResult>]) -> (u32, u32, u32)
    requires few { length actions.now < 2 ^ 32 }
    requires sized { length results.now ≡ length actions.now }
    ensures { result ≡ good_totals (map action_of actions.now) (action_results_of results.now) }
{
    let mut totals = (0, 0, 0);
    for index in (0..actions.len()).rev() {
        totals = counted(totals, &actions[index].step, is_good(&results[index]));
    }
    totals
}

/// Returns the numbers with one more action, if that is good.
fn counted(totals: (u32, u32, u32), step: &Step, is_good: bool) -> (u32, u32, u32)
    requires { (totals.0 < 2 ^ 32 - 1) × (totals.1 < 2 ^ 32 - 1) × (totals.2 < 2 ^ 32 - 1) }
    ensures { result ≡ counted_one totals (op_of (step_of step.now)) is_good }
{
    let (creates, updates, destroys) = totals;
    match step {
        _ if !is_good => totals,
        Step::Create(_) | Step::CreateReplacement(_, _) => (creates + 1, updates, destroys),
        Step::Update(_, _, _) => (creates, updates + 1, destroys),
        Step::DestroyReplaced(_) | Step::Destroy(_) | Step::DestroyDeposed(_, _) => {
            (creates, updates, destroys + 1)
        }
    }
}

/// Checks whether an action is good. One that hasn't ended isn't.
pub fn is_good(ended: &Option<ActionResult>) -> bool
    ensures { result ≡ is_good (result_or_skipped ended.now) }
{
    match ended {
        Some(ActionResult::Called(served)) => served.call.verdict() == Verdict::Good,
        _ => false,
    }
}
