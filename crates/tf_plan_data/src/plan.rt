//! A plan: its actions, their order, and what it is planned from.

ghost use Rattle.std.specs.Prelude.{◌≡◌, vec_len};

use crate::action::Action;
use std::collections::BTreeMap;
use tf_config_data::Config;
use tf_config_names::Dependence;
use tf_expand_keys::InstanceKeys;
use tf_plan_order::Order;
use tf_state_data::State;
use tf_value_data::Value;

/// A plan. An action is named by its place in the list of actions, which are in address order. The plan keeps what it
/// is planned from, because requests and outputs are evaluated from it when the plan is carried out.
#[derive(Drop)]
pub struct Plan {
    /// The state that the plan starts from.
    pub prior: State,
    /// The configuration.
    pub config: Config,
    /// The variables' values by name.
    pub variables: BTreeMap<String, Value>,
    /// Which name of the configuration needs which.
    pub dependence: Dependence,
    /// The instance keys of each resource, by the place of its name.
    pub shapes: Vec<InstanceKeys>,
    /// For each resource of configuration and prior state together, by its number (`tf_plan_order`), whether it is
    /// late: the replacement of an object of it is created before that object is destroyed.
    pub late: Vec<bool>,
    /// The actions, in address order.
    pub actions: Vec<Action>,
    /// Which action is before which.
    pub order: Order,
    pub ghost counted: { order.nodes ≡ vec_len actions },
}
