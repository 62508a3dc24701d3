//! The objects that a plan gives to instances.

ghost use Rattle.std.specs.Prelude.{◌≡◌, IfOk, map, option_map};
ghost use Rattle.tf_config_address.specs.ObjectId.{instance_key_of};
ghost use Rattle.tf_config_names.specs.Table.{names_in};
ghost use Rattle.tf_plan_data.specs.Action.{action_of, step_of};
ghost use Rattle.tf_plan_outputs.specs.Objects.{asked_by, asked_for, asked_in, planned_object};
ghost use Rattle.tf_state_data.specs.State.{state_of};
ghost use Rattle.tf_value_data.specs.Tree.{tree_of};

use std::alloc::{AllocError, Global};
use tf_config_address::InstanceKey;
use tf_config_names::Declarations;
use tf_plan_data::{Action, Step};
use tf_state_data::State;
use tf_value_data::{Value, copy};
use tf_walk_action::prior_object;
use tf_walk_names::Results;

/// The objects that a plan gives to instances. An instance that an action creates or updates has the object that the
/// action asks for. Any other one has its prior object.
#[derive(Drop)]
pub(crate) struct PlannedObjects<'a> {
    /// The names of the plan's configuration.
    pub(crate) names: &'a Declarations<'a>,
    /// The state that the plan starts from.
    pub(crate) prior: &'a State,
    /// The actions of the plan.
    pub(crate) actions: &'a [Action],
}

impl Results for PlannedObjects<'_> {
    ghost objects = { λ s. planned_object (names_in s.names.now) (state_of s.prior.now) (map action_of s.actions.now) };

    fn object(&self, _alloc: Global, place: usize, key: &InstanceKey) -> Result<Value, AllocError> {
        match asked_by(self.actions, place, key) {
            Some(asked) => copy(asked),
            None => prior_object(self.names, self.prior, place, key),
        }
    }
}

/// Returns the object that an action asks for, for the instance of a key of the resource that is declared at a place.
fn asked_by<'a>(actions: &'a [Action], place: usize, key: &InstanceKey) -> Option<&'a Value>
    ensures { option_map (λ v. tree_of v.now) result ≡ asked_by place (instance_key_of key.now) (map action_of actions.now) }
{
    for action in actions {
        if let Some(asked) = asked_for(action, place, key) {
            return Some(asked);
        }
    }
    None
}

/// Returns the object that an action asks for, if it is about this instance.
fn asked_for<'a>(action: &'a Action, place: usize, key: &InstanceKey) -> Option<&'a Value>
    ensures { option_map (λ v. tree_of v.now) result ≡ asked_for place (instance_key_of key.now) (action_of action.now) }
{
    if action.resource == place && action.key == *key {
        asked_in(&action.step)
    } else {
        None
    }
}

/// Returns the object that a step asks for.
fn asked_in(step: &Step) -> Option<&Value>
    ensures { option_map (λ v. tree_of v.now) result ≡ asked_in (step_of step.now) }
{
    match step {
        Step::Create(asked) | Step::Update(_, asked, _) | Step::CreateReplacement(asked, _) => Some(
            asked,
        ),
        Step::DestroyReplaced(_) | Step::Destroy(_) | Step::DestroyDeposed(_, _) => None,
    }
}
