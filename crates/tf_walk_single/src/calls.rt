//! Calls of providers.

ghost use Rattle.std.specs.List.{list_all};
ghost use Rattle.std.specs.Prelude.{◌≡◌, ◌<◌, ◌++◌, ◌∷◌, [], None, Some, All, is_none, is_some, length, map, option_map, true};
ghost use Rattle.tf_walk_action.specs.Words.{asked, call_of_provider, action_result_of, result_or_skipped, ended_action, entered_verdict, fault_of, is_good, IsByFlag, IsRun, IsServed};
ghost use Rattle.tf_provider.specs.declared.journal.Entry.{Entry};
ghost use Rattle.tf_walk_single.specs.Ends.{done_in, end_at};

use tf_claim::{Finished, Permit};
use tf_provider::{Journal, Provider};
use tf_walk_action::{ActionResult, Going, NotGood, PreparedCall, call_in_time, ended_by};

/// Calls a provider with a request, after a look at the walk's flag, and records the call.
pub fn make_call(
    provider: &Box<dyn Provider + Sync>,
    journal: &mut Journal,
    permit: Permit,
    going: Going,
    asking: PreparedCall,
) -> (ActionResult, Finished)
    requires served { IsServed (meaning provider.now) (asked asking.request) }
    requires within { permit < journal.old.graph.nodes }
    requires fits { fault_of journal.old permit ≡ None }
    ensures finished { result.1 ≡ permit }
    ensures action { ended_action result.0 ≡ permit }
    ensures flag { IsByFlag going result.0 }
    ensures ended { IsRun (call_of_provider (asked asking.request) (meaning provider.now)) (action_result_of result.0) }
    ensures entered { (e : Entry) × (e.action ≡ permit) × (e.op ≡ (asked asking.request).op) × (Some e.verdict ≡ entered_verdict (action_result_of result.0))
        × (journal.new.entries ≡ journal.old.entries ++ e ∷ []) }
    ensures graph { journal.new.graph ≡ journal.old.graph }
{
    let PreparedCall { request, message } = asking;
    let (called, in_time) = call_in_time(provider, permit, going, request);
    match journal.record(called) {
        Ok(recorded) => ended_by(recorded, message, in_time),
        Err(_) => unreachable!(),
    }
}

/// Returns the evidence for the first of some actions that isn't good, or `None` if all are good. All of them have
/// ended.
pub fn first_not_good(results: &[Option<ActionResult>], actions: &[usize]) -> Option<NotGood>
    requires within { All (λ n. n < length results.now) actions.now }
    requires ended { list_all (λ n. is_some (end_at (map (option_map action_result_of) results.now) n)) actions.now ≡ true }
    ensures { is_none result ≡ list_all (λ n. is_good (done_in (map (option_map action_result_of) results.now) n)) actions.now }
{
    for action in actions {
        if let Some(bad) = not_good(&results[*action]) {
            return Some(bad);
        }
    }
    None
}

/// Returns the evidence that an action isn't good, or `None` if it is good. It has ended.
fn not_good(ended: &Option<ActionResult>) -> Option<NotGood>
    requires { is_some ended.now ≡ true }
    ensures { is_none result ≡ is_good (result_or_skipped ended.now) }
{
    match ended {
        Some(ended) => ended.not_good(),
        None => unreachable!(),
    }
}
