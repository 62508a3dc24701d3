//! An action of a plan.

ghost use Rattle.std.specs.Prelude.{◌≡◌};
ghost use Rattle.tf_plan_data.specs.Action.{action_of};
ghost use Rattle.tf_plan_data.specs.Precedence.{ordered};

use crate::step::Step;
use tf_config_address::{InstanceKey, ResourceAddr};

/// An action of a plan from any prior state.
#[derive(Debug, Drop)]
pub struct Action {
    /// The number of its resource, over configuration and state together (`tf_plan_order`).
    pub resource: usize,
    /// The number of its instance, among the members of the resource (`tf_plan_order`).
    pub instance: usize,
    /// The resource.
    pub addr: ResourceAddr,
    /// The instance.
    pub key: InstanceKey,
    /// Its step.
    pub step: Step,
    /// The version of the schema that its objects follow.
    pub version: u32,
}

impl Action {
    /// Returns the action as the order of actions sees it.
    pub fn ordered(&self) -> tf_plan_order::OrderedAction
        ensures { result ≡ ordered (action_of self.now) }
    {
        tf_plan_order::OrderedAction {
            resource: self.resource,
            instance: self.instance,
            kind: self.step.kind(),
            replaces: self.step.is_half(),
        }
    }
}
