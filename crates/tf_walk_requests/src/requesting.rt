//! The request of an action.

ghost use Rattle.std.specs.Prelude.{◌≡◌, ◌<◌, IfOk, IsSomeAnd, IsTrue, length, map};
ghost use Rattle.tf_graph.specs.Digraph.{predecessors_of};
ghost use Rattle.tf_plan_data.specs.Words.{AreServed, FitsTogether, action_of, config_of, names_in, names_of, plan_of, seen_by, state_of};
ghost use Rattle.tf_provider_protocol.specs.Meaning.{asked, schema_in};
ghost use Rattle.tf_provider_protocol.specs.Verdict.{asks_fully};
ghost use Rattle.tf_walk_action.specs.AskedBy.{asked_by};
ghost use Rattle.tf_walk_action.specs.Outcome.{objects_by, objects_seen};
ghost use Rattle.tf_walk_action.specs.SoFar.{ResolvedSoFar};
ghost use Rattle.tf_walk_requests.specs.Asks.{IsAskedOf, results_with};

use crate::instances::InstanceObjects;
use crate::results::Results;
use std::alloc::{AllocError, Global};
use tf_config_names::Declarations;
use tf_expand_keys::Resolved;
use tf_plan_data::Plan;
use tf_provider_protocol::Provider;
use tf_walk_action::{Faulted, PreparedCall, ask_provider};

/// Builds the request of the action of a plan with this number, or its fault, as an apply does in which the earlier actions made the
/// objects of `results`. `names` are those of the plan's configuration. An instance that a create or an update directly before the
/// action is of has that one's object. Any other instance has its prior object. The providers have to have the types of the plan's
/// actions.
///
/// `kept` holds values of names by these objects. It is empty at first, and gains the values of the names in the action's block, for
/// requests of other actions with the same actions directly before them.
///
/// # Errors
///
/// Fails only if memory runs out. The values in `kept` are right then too.
pub fn request_of<R: Results>(
    alloc: Global,
    plan: &Plan,
    names: &Declarations<'_>,
    action: usize,
    providers: &[Box<dyn Provider + Sync>],
    results: &R,
    kept: &mut Vec<Resolved>,
) -> Result<Result<PreparedCall, Faulted>, AllocError>
    requires fits { FitsTogether plan.now }
    requires names { names_in names.now ≡ names_of (config_of plan.now.config) }
    requires inside { action < length plan.now.actions.items }
    requires served { AreServed (map meaning providers.now) (map action_of plan.now.actions.items) }
    requires so_far { ResolvedSoFar (plan_of plan.now) (objects_by (plan_of plan.now) (seen_by (results_with (R.objects results.now)) (predecessors_of plan.now.order action))) kept.old.items }
    ensures asked { IfOk result (λ made. IsAskedOf (map meaning providers.now) (plan_of plan.now) action (R.objects results.now) (asked_by made)) }
    ensures fully { IfOk result (λ made. IfOk made (λ asking. IsSomeAnd (schema_in (asked asking.request).type_name (map meaning providers.now)) (λ s. IsTrue (asks_fully (asked asking.request) s)))) }
    ensures so_far { ResolvedSoFar (plan_of plan.now) (objects_by (plan_of plan.now) (seen_by (results_with (R.objects results.now)) (predecessors_of plan.now.order action))) kept.new.items }
{
    let actions = plan.actions.as_slice();
    let objects = objects_before(plan, names, action, results);
    match ask_provider(
        alloc,
        plan,
        names,
        providers,
        &actions[action],
        &objects,
        kept,
    ) {
        Ok(made) => Ok(made),
        Err(_) => Err(AllocError),
    }
}

/// Returns the objects of instances after the actions directly before an action.
fn objects_before<'a, R: Results>(
    plan: &'a Plan,
    names: &'a Declarations<'a>,
    action: usize,
    results: &'a R,
) -> InstanceObjects<'a, R>
    requires names { names_in names.now ≡ names_of (config_of plan.now.config) }
    requires within { action < plan.now.order.nodes }
    ensures { objects_seen (names_in result.names.now) (state_of result.prior.now) (map action_of result.actions.now) (seen_by (results_with (R.objects result.results.now)) result.before.now)
        ≡ objects_by (plan_of plan.now) (seen_by (results_with (R.objects results.now)) (predecessors_of plan.now.order action)) }
{
    InstanceObjects {
        names,
        prior: &plan.prior,
        actions: plan.actions.as_slice(),
        before: plan.order.graph().predecessors(action),
        results,
    }
}
