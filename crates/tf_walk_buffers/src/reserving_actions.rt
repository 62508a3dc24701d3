//! Buffers for the report on each action.

ghost use Rattle.std.specs.Prelude.{◌≡◌, ◌+◌, ◌<◌, ◌^◌, ◌++◌, true, IfOk, codes, length, map, option_map, string_bytes};
ghost use Rattle.std.specs.List.{AllByRecursion};
ghost use Rattle.tf_plan_data.specs.Words.{action_of, IsDeclared, IsDependence, names_in, plan_names, plan_of, record_of};
ghost use Rattle.tf_state_next.specs.DeposedKey.{IsDeposedKey};
ghost use Rattle.tf_state_next.specs.Ends.{record_input_of};
ghost use Rattle.tf_walk_buffers.specs.Head.{AreHeads, IsHeadOf, IsKeyFor, IsTargetOf, given_with, is_replacement};
ghost use Rattle.tf_walk_buffers.specs.Needed.{IsListed, IsListedFor};
ghost use Rattle.tf_walk_buffers.specs.Place.{place_of};
ghost use Rattle.tf_walk_buffers.specs.BuffersHead.{buffers_head, target_of};

use crate::buffers::{ActionBuffers, Target};
use crate::dependencies::dependencies_listed;
use crate::needed::needed_for;
use std::alloc::{AllocError, Global};
use tf_config_address::ObjectId;
use tf_config_names::Declarations;
use tf_plan_data::{Action, Plan, Step, address_text};
use tf_state_data::Record;
use tf_state_next::{RecordInput, deposed_key};

/// Returns buffers for the report on each action of a plan, in action order, by the names of the plan's configuration.
///
/// # Errors
///
/// Fails with `AllocError` if memory runs out.
pub fn reserve_actions<'p>(
    alloc: Global,
    plan: &'p Plan,
    names: &Declarations<'_>,
) -> Result<Vec<ActionBuffers<'p>>, AllocError>
    requires names { names_in names.now ≡ plan_names (plan_of plan.now) }
    requires dependence { IsDependence (plan_names (plan_of plan.now)) plan.now.dependence }
    requires declared { AllByRecursion (IsDeclared (plan_names (plan_of plan.now))) (map action_of plan.now.actions.items) }
    requires serial { (plan_of plan.now).prior.serial + 1 < 2 ^ 32 }
    ensures { IfOk result (λ rooms. AreHeads (plan_of plan.now) (map action_of plan.now.actions.items) (map buffers_head rooms.items)) }
{
    let lists = needed_for(alloc, plan, names)?;
    let mut rooms = Vec::with_capacity(alloc, plan.actions.len())?;
    for action in plan.actions.iter() {
        rooms.push(reserve_action(alloc, plan, names, lists.as_slice(), action)?)?;
    }
    Ok(rooms)
}

/// Returns the buffers for the report on an action, by the lists of the resources that others need.
fn reserve_action<'p>(
    alloc: Global,
    plan: &'p Plan,
    names: &Declarations<'_>,
    lists: &[Vec<usize>],
    action: &'p Action,
) -> Result<ActionBuffers<'p>, AllocError>
    requires names { names_in names.now ≡ plan_names (plan_of plan.now) }
    requires listed { IsListedFor (plan_of plan.now) lists.now (action_of action.now) }
    requires serial { (plan_of plan.now).prior.serial + 1 < 2 ^ 32 }
    ensures { IfOk result (λ room. IsHeadOf (plan_of plan.now) (action_of action.now) (buffers_head room)) }
{
    Ok(ActionBuffers {
        place: place_for(alloc, action)?,
        op: action.step.op(),
        addr: &action.addr,
        target: target_for(alloc, plan, names, lists, action)?,
        message: String::with_capacity(alloc, 15)?,
    })
}

/// Returns the place of an action's diagnostics.
fn place_for(alloc: Global, action: &Action) -> Result<String, AllocError>
    ensures { IfOk result (λ place. string_bytes place ≡ place_of (action_of action.now)) }
{
    let address = address_text(alloc, &action.addr, &action.key)?;
    match &action.step {
        Step::DestroyDeposed(key, _) => with_key(alloc, address.as_str(), key.as_str()),
        _ => Ok(address),
    }
}

/// Returns an address, followed by ` (deposed KEY)`.
fn with_key(alloc: Global, address: &str, key: &str) -> Result<String, AllocError>
    ensures { IfOk result (λ place. string_bytes place ≡ address.now ++ (codes " (deposed " ++ (key.now ++ codes ")"))) }
{
    format!(in alloc; "{address} (deposed {key})")
}

/// Returns the target of an action.
fn target_for(
    alloc: Global,
    plan: &Plan,
    names: &Declarations<'_>,
    lists: &[Vec<usize>],
    action: &Action,
) -> Result<Target, AllocError>
    requires names { names_in names.now ≡ plan_names (plan_of plan.now) }
    requires listed { IsListedFor (plan_of plan.now) lists.now (action_of action.now) }
    requires serial { (plan_of plan.now).prior.serial + 1 < 2 ^ 32 }
    ensures { IfOk result (λ target. IsTargetOf (plan_of plan.now) (action_of action.now) (target_of target)) }
{
    match &action.step {
        Step::Create(_) => {
            let given = given_for(alloc, plan, names, lists, action, None)?;
            Ok(Target::Instance(given))
        }
        Step::Update(_, _, _) => {
            let given = given_for(alloc, plan, names, lists, action, None)?;
            Ok(Target::Instance(given))
        }
        Step::CreateReplacement(_, _) => {
            let key = key_for(alloc, plan, action)?;
            let given = given_for(alloc, plan, names, lists, action, key)?;
            Ok(Target::Instance(given))
        }
        Step::DestroyReplaced(_) | Step::Destroy(_) => {
            let key = action.key.clone()?;
            Ok(Target::Object(ObjectId { key, deposed: None }))
        }
        Step::DestroyDeposed(deposed, _) => {
            let key = action.key.clone()?;
            let deposed = Some(deposed.clone()?);
            Ok(Target::Object(ObjectId { key, deposed }))
        }
    }
}

/// Returns the input for the record of an action's object, with the key of the old object if that becomes deposed.
fn given_for(
    alloc: Global,
    plan: &Plan,
    names: &Declarations<'_>,
    lists: &[Vec<usize>],
    action: &Action,
    deposed_key: Option<String>,
) -> Result<RecordInput, AllocError>
    requires names { names_in names.now ≡ plan_names (plan_of plan.now) }
    requires listed { IsListed (plan_of plan.now).needs (plan_names (plan_of plan.now)) action.now.resource lists.now }
    ensures { IfOk result (λ given. record_input_of given ≡ given_with (plan_of plan.now) (action_of action.now) (option_map string_bytes deposed_key)) }
{
    let resource = action.resource;
    Ok(RecordInput {
        key: action.key.clone()?,
        schema_version: action.version,
        dependencies: dependencies_listed(alloc, names, lists, resource)?,
        create_before_destroy: is_late(plan, resource),
        deposed_key,
    })
}

/// Returns the key that the old object of a replace gets if it becomes deposed. It can become deposed only if the
/// resource is late.
fn key_for(alloc: Global, plan: &Plan, action: &Action) -> Result<Option<String>, AllocError>
    requires replacement { is_replacement (action_of action.now).step ≡ true }
    requires serial { (plan_of plan.now).prior.serial + 1 < 2 ^ 32 }
    ensures { IfOk result (λ key. IsKeyFor (plan_of plan.now) (action_of action.now) (option_map string_bytes key)) }
{
    if !is_late(plan, action.resource) {
        return Ok(None);
    }
    let key = match plan.prior.resource(&action.addr) {
        Some(resource) => key_among(alloc, plan, action, resource.records())?,
        None => key_among(alloc, plan, action, &[])?,
    };
    Ok(Some(key))
}

/// Returns the first key from the new serial on that no deposed object of an action's instance has, by the records of
/// its resource. No memory holds as many records as there are serials.
fn key_among(
    alloc: Global,
    plan: &Plan,
    action: &Action,
    records: &[Record],
) -> Result<String, AllocError>
    requires { (plan_of plan.now).prior.serial + 1 < 2 ^ 32 }
    ensures { IfOk result (λ key. IsDeposedKey ((plan_of plan.now).prior.serial + 1) (action_of action.now).key (map record_of records.now) (string_bytes key)) }
{
    if records.len() > u32::MAX as usize {
        return Err(AllocError);
    }
    deposed_key(alloc, plan.prior.serial() + 1, &action.key, records)
}

/// Checks whether the resource with a number is late.
pub(crate) fn is_late(plan: &Plan, resource: usize) -> bool
    ensures { result ≡ (plan_of plan.now).late resource }
{
    match plan.late.get(resource) {
        Some(is_late) => *is_late,
        None => false,
    }
}
