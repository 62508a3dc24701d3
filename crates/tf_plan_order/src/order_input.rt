//! The dependencies and lateness of resources, from which the order of actions follows.

ghost use Rattle.std.specs.Prelude.{◌≡◌};
ghost use Rattle.tf_plan_order.specs.OrderInput.{order_input_of};

use tf_graph::Closure;

/// The dependencies and lateness of resources. Each resource is given by its number over configuration and state
/// together. A table leads from what is needed to what needs it. A resource that isn't in a table has no dependencies
/// by it.
#[derive(Clone, Copy)]
pub struct OrderInput<'a> {
    /// What needs what by the configuration.
    pub by_configuration: &'a Closure,
    /// What needed what when it was made, by the dependencies that the state has stored.
    pub by_state: &'a Closure,
    /// For each resource whether it is late.
    pub late: &'a [bool],
}

impl OrderInput<'_> {
    /// Checks whether a resource needs another by the configuration.
    pub fn needs(&self, resource: usize, other: usize) -> bool
        ensures { result ≡ (order_input_of self.now).needs resource other }
    {
        self.by_configuration.reaches(other, resource)
    }

    /// Checks whether a resource needed another when it was made, by what the state has stored.
    pub fn needed(&self, resource: usize, other: usize) -> bool
        ensures { result ≡ (order_input_of self.now).needed resource other }
    {
        self.by_state.reaches(other, resource)
    }

    /// Checks whether a resource is late.
    pub fn is_late(&self, resource: usize) -> bool
        ensures { result ≡ (order_input_of self.now).late resource }
    {
        resource < self.late.len() && self.late[resource]
    }
}
