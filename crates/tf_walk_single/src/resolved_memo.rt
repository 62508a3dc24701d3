//! The values of names that a walk by one thread keeps from one request to the next.

ghost use Rattle.std.specs.Prelude.{◌≡◌, ◌<◌, ◌↔◌, [], None, Some, IfSome, IsSomeAnd, IsTrue};
ghost use Rattle.tf_walk_action.specs.Words.{predecessors_of};

use std::alloc::Global;
use tf_expand_keys::Resolved;
use tf_graph::Graph;

/// The values of names by the actions before one, as far as they were computed. They hold for each action that has the
/// same actions before it, as the instances of a resource mostly have. So each local is evaluated once for all of them,
/// and each resource's objects are collected once.
#[derive(Drop)]
pub(crate) struct ResolvedMemo {
    /// The action that it was last for, or `None` at first.
    pub(crate) action: Option<usize>,
    /// The values so far.
    pub(crate) kept: Vec<Resolved>,
}

impl ResolvedMemo {
    /// Returns an empty memo.
    pub(crate) fn new(alloc: Global) -> ResolvedMemo
        ensures { result.action ≡ None }
    {
        ResolvedMemo {
            action: None,
            kept: Vec::new(alloc),
        }
    }

    /// Checks whether the memo holds for another action too, which it does exactly if the same actions are directly
    /// before both.
    pub(crate) fn is_reusable_for(&self, order: &Graph, action: usize) -> bool
        requires own { IfSome self.now.action (λ own. own < order.now.nodes) }
        requires other { action < order.now.nodes }
        ensures { IsTrue result ↔ IsSomeAnd self.now.action (λ own. predecessors_of order.now own ≡ predecessors_of order.now action) }
    {
        match self.action {
            Some(own) => order.predecessors(own) == order.predecessors(action),
            None => false,
        }
    }

    /// Drops the values. The memo is for this action from now on.
    pub(crate) fn begin(&mut self, action: usize)
        ensures action { self.new.action ≡ Some action }
        ensures kept { self.new.kept.items ≡ [] }
    {
        self.action = Some(action);
        self.kept.clear();
    }
}
