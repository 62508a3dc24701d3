//! The objects of instances while a plan is carried out, for the requests and outputs that need them.

ghost use Rattle.std.specs.Prelude.{◌≡◌, IfOk, map, option_map, slice_get};
ghost use Rattle.tf_plan_data.specs.Words.{action_of, instance_key_of, addr_of, meant_at, names_in, null, seen_by, state_of, tree_of};
ghost use Rattle.tf_walk_action.specs.ResultViews.{result_or_skipped, action_results_of};
ghost use Rattle.tf_walk_action.specs.Objects.{current_object, is_of, object_of, objects_seen, prior_object};
ghost use Rattle.tf_walk_action.specs.Outcome.{done_at};

use crate::action_result::ActionResult;
use std::alloc::{AllocError, Global};
use tf_config_address::{InstanceKey, ObjectId, ResourceAddr};
use tf_config_names::{Declaration, Declarations};
use tf_plan_data::Action;
use tf_provider_protocol::Reply;
use tf_state_data::State;
use tf_value_data::{Value, copy};
use tf_walk_names::Results;

/// The objects of instances after some actions of a plan: those that providers answered to these actions, and the
/// prior objects of all other instances. Requests and outputs are evaluated with it.
#[derive(Drop)]
pub struct ResultObjects<'a> {
    /// The names of the plan's configuration.
    pub names: &'a Declarations<'a>,
    /// The state that the plan starts from.
    pub prior: &'a State,
    /// All actions of the plan.
    pub actions: &'a [Action],
    /// The actions that count, by their places.
    pub seen: &'a [usize],
    /// The result of each action, if it is known.
    pub results: &'a [Option<ActionResult>],
}

impl Results for ResultObjects<'_> {
    ghost objects = { λ s. objects_seen (names_in s.names.now) (state_of s.prior.now) (map action_of s.actions.now) (seen_by (done_at (action_results_of s.results.now)) s.seen.now) };

    fn object(&self, alloc: Global, place: usize, key: &InstanceKey) -> Result<Value, AllocError> {
        for action in self.seen {
            if applies_to(self.actions, *action, place, key) {
                return object_at(alloc, self.results, *action);
            }
        }
        prior_object(self.names, self.prior, place, key)
    }
}

/// Returns whether the action at a place of the list creates or updates the instance of a key of the resource that is
/// declared at a place.
pub fn applies_to(actions: &[Action], action: usize, place: usize, key: &InstanceKey) -> bool
    ensures { result ≡ is_of (slice_get (map action_of actions.now) action) place (instance_key_of key.now) }
{
    is_of(action_at(actions, action), place, key)
}

/// Returns a copy of the current object in the prior state of the instance of a key of the resource that is declared
/// at a place. Returns null if there is none.
///
/// # Errors
///
/// Fails only if memory runs out.
pub fn prior_object(
    names: &Declarations<'_>,
    prior: &State,
    place: usize,
    key: &InstanceKey,
) -> Result<Value, AllocError>
    ensures { IfOk result (λ value. tree_of value ≡ prior_object (state_of prior.now) (instance_key_of key.now) (meant_at (names_in names.now) place)) }
{
    if place >= names.len() {
        return Ok(no_object());
    }
    match names.at(place) {
        Declaration::Resource(addr, _) => current_object(prior, addr, key),
        Declaration::Local(_, _) => Ok(Value::Null),
    }
}

/// Returns the value of an instance without an object.
fn no_object() -> Value
    ensures { tree_of result ≡ null }
{
    Value::Null
}

/// Returns a copy of the current object of an instance of the resource at an address; null if the state has none.
fn current_object(
    prior: &State,
    addr: &ResourceAddr,
    key: &InstanceKey,
) -> Result<Value, AllocError>
    ensures { IfOk result (λ value. tree_of value ≡ current_object (state_of prior.now) (addr_of addr.now) (instance_key_of key.now)) }
{
    let id = ObjectId {
        key: key.clone()?,
        deposed: None,
    };
    match prior.record(addr, &id) {
        Some(kept) => copy(&kept.attributes.value),
        None => Ok(Value::Null),
    }
}

/// Returns the action at a place of the list, if there is one.
fn action_at(actions: &[Action], place: usize) -> Option<&Action>
    ensures { option_map (λ a. action_of a.now) result ≡ slice_get (map action_of actions.now) place }
{
    if place < actions.len() {
        Some(&actions[place])
    } else {
        None
    }
}

/// Returns whether an action creates or updates an instance of the resource that is declared at a place.
fn is_of(action: Option<&Action>, place: usize, key: &InstanceKey) -> bool
    ensures { result ≡ is_of (option_map (λ a. action_of a.now) action.entry) place (instance_key_of key.now) }
{
    match action {
        Some(action) => action.step.is_apply() && action.resource == place && action.key == *key,
        None => false,
    }
}

/// Returns a copy of the object that a provider answered to the action at a place; null if there is none.
fn object_at(
    alloc: Global,
    results: &[Option<ActionResult>],
    action: usize,
) -> Result<Value, AllocError>
    ensures { IfOk result (λ value. tree_of value ≡ object_of (done_at (action_results_of results.now) action)) }
{
    match results.get(action) {
        Some(ended) => answered_object(alloc, ended),
        None => Ok(Value::Null),
    }
}

/// Returns a copy of the object that a provider answered; null if there is none.
fn answered_object(alloc: Global, ended: &Option<ActionResult>) -> Result<Value, AllocError>
    ensures { IfOk result (λ value. tree_of value ≡ object_of (result_or_skipped ended.now)) }
{
    match ended {
        Some(ActionResult::Called(served)) => match served.call.reply() {
            Reply::Object(object) => copy(object),
            _ => Ok(Value::Null),
        },
        _ => Ok(Value::Null),
    }
}
