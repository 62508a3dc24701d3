//! The request of an action.

ghost use Rattle.std.specs.Prelude.{◌≡◌, ◌<◌, Err, IfErr, IfOk, Ok, length, map};
ghost use Rattle.tf_plan.specs.Fault.{TellsFault};
ghost use Rattle.tf_plan_data.specs.Words.{AreServed, FitsTogether, action_of, plan_of};
ghost use Rattle.tf_provider_protocol.specs.Meaning.{asked};
ghost use Rattle.tf_walk_action.specs.AskedBy.{asked_by};
ghost use Rattle.tf_walk_requests.specs.Asks.{IsAskedOf};

use crate::fault::{RequestFault, request_fault};
use std::alloc::{AllocError, Global};
use tf_config_names::Declarations;
use tf_plan_data::{Plan, Planned};
use tf_provider_protocol::{Provider, Request};
use tf_walk_action::{Faulted, PreparedCall};
use tf_walk_requests::{Results, request_of};

/// Builds the request of the action with a number, as an apply does in which the earlier actions made the objects of
/// `results`. An instance that a create or an update directly before the action is of has that one's object; these include each
/// that the action's block needs. Any other instance has its prior object. The providers have to have the types of the plan's
/// actions, as those do that it was planned with.
///
/// # Errors
///
/// Fails with `Argument` if `for_each` or an argument of the action's block has a fault with these objects, and with
/// `OutOfMemory`.
pub fn request<R: Results>(
    alloc: Global,
    plan: &Planned,
    action: usize,
    providers: &[Box<dyn Provider + Sync>],
    results: &R,
) -> Result<Request, RequestFault>
    requires inside { action < length plan.now.actions.items }
    requires served { AreServed (map meaning providers.now) (map action_of plan.now.actions.items) }
    ensures request { IfOk result (λ request. IsAskedOf (map meaning providers.now) (plan_of plan.now) action (R.objects results.now) (Ok (asked request))) }
    ensures fault { IfErr result (TellsFault (λ why. IsAskedOf (map meaning providers.now) (plan_of plan.now) action (R.objects results.now) (Err why))) }
{
    let parts = &plan.plan;
    match prepared_call(alloc, parts, action, providers, results)? {
        Ok(prepared) => {
            let PreparedCall { request, .. } = prepared;
            Ok(request)
        }
        Err(faulted) => {
            let Faulted { fault, .. } = faulted;
            Err(request_fault(alloc, fault)?)
        }
    }
}

/// Builds the request of an action of a plan, or its fault.
fn prepared_call<R: Results>(
    alloc: Global,
    plan: &Plan,
    action: usize,
    providers: &[Box<dyn Provider + Sync>],
    results: &R,
) -> Result<Result<PreparedCall, Faulted>, AllocError>
    requires fits { FitsTogether plan.now }
    requires inside { action < length plan.now.actions.items }
    requires served { AreServed (map meaning providers.now) (map action_of plan.now.actions.items) }
    ensures { IfOk result (λ made. IsAskedOf (map meaning providers.now) (plan_of plan.now) action (R.objects results.now) (asked_by made)) }
{
    let names = Declarations::new(alloc, &plan.config, &plan.dependence)?;
    let mut kept = Vec::new(alloc);
    request_of(alloc, plan, &names, action, providers, results, &mut kept)
}
