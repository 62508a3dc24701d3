//! The objects of instances, by the objects of actions.

ghost use Rattle.std.specs.Prelude.{map};
ghost use Rattle.tf_walk_requests.specs.Asks.{results_with};
ghost use Rattle.tf_plan_data.specs.Words.{action_of, names_in, seen_by, state_of};
ghost use Rattle.tf_walk_action.specs.Objects.{objects_seen};

use crate::results::Results;
use std::alloc::{AllocError, Global};
use tf_config_address::InstanceKey;
use tf_config_names::Declarations;
use tf_plan_data::Action;
use tf_state_data::State;
use tf_value_data::Value;
use tf_walk_action::{applies_to, prior_object};
use tf_walk_names::Results as InstanceResults;

/// The objects of instances after some actions of a plan: those that these actions made, and the prior objects of all other
/// instances.
#[derive(Drop)]
pub(crate) struct InstanceObjects<'a, R> {
    /// The names of the plan's configuration.
    pub(crate) names: &'a Declarations<'a>,
    /// The state that the plan starts from.
    pub(crate) prior: &'a State,
    /// All actions of the plan.
    pub(crate) actions: &'a [Action],
    /// The actions that count, by their numbers.
    pub(crate) before: &'a [usize],
    /// The objects of actions.
    pub(crate) results: &'a R,
}

impl<R: Results> InstanceResults for InstanceObjects<'_, R> {
    ghost objects = { λ s. objects_seen (names_in s.names.now) (state_of s.prior.now) (map action_of s.actions.now) (seen_by (results_with (R.objects s.results.now)) s.before.now) };

    fn object(&self, alloc: Global, place: usize, key: &InstanceKey) -> Result<Value, AllocError> {
        for action in self.before {
            if applies_to(self.actions, *action, place, key) {
                return self.results.object(alloc, *action);
            }
        }
        prior_object(self.names, self.prior, place, key)
    }
}
