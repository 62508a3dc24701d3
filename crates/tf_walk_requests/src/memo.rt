//! The values of names that requests have in common.

ghost use Rattle.std.specs.Prelude.{◌≡◌, ◌<◌, ◌↔◌, None, Some, IfSome, IsSomeAnd, IsTrue, ℕ};
ghost use Rattle.tf_graph.specs.Digraph.{predecessors_of};
ghost use Rattle.tf_plan_data.specs.Words.{plan_of};
ghost use Rattle.tf_value_data.specs.Tree.{Tree};
ghost use Rattle.tf_walk_requests.specs.Memo.{IsTrueOf};

use std::alloc::Global;
use tf_expand_keys::Resolved;
use tf_graph::Graph;
use tf_plan_data::Plan;

/// The values of names by the actions directly before one. They hold for each action with the same actions directly before it, so each
/// local is evaluated once for all instances of a resource.
#[derive(Drop)]
pub(crate) struct Memo {
    /// The action that the values are for, or `None` at first.
    action: Option<usize>,
    /// The values so far.
    pub(crate) kept: Vec<Resolved>,
}

impl Memo {
    /// Builds a memo without values.
    pub(crate) fn new(alloc: Global) -> Memo
        ensures { result.action ≡ None }
    {
        Memo {
            action: None,
            kept: Vec::new(alloc),
        }
    }

    /// Makes the memo one for another action. Drops the values unless the same actions are directly before that one.
    pub(crate) fn begin(&mut self, plan: &Plan, action: usize)
        requires within { action < plan.now.order.nodes }
        requires own { IfSome self.old.action (λ own. own < plan.now.order.nodes) }
        ensures action { self.new.action ≡ Some action }
        ensures holds { (objects : ℕ → Tree) → IsTrueOf (plan_of plan.now) objects self.old → IsTrueOf (plan_of plan.now) objects self.new }
    {
        if !self.holds_for(plan.order.graph(), action) {
            self.kept.clear();
        }
        self.action = Some(action);
    }

    /// Returns whether the values hold for an action too, since the same actions are directly before it.
    fn holds_for(&self, order: &Graph, action: usize) -> bool
        requires own { IfSome self.now.action (λ own. own < order.now.nodes) }
        requires other { action < order.now.nodes }
        ensures { IsTrue result ↔ IsSomeAnd self.now.action (λ own. predecessors_of order.now own ≡ predecessors_of order.now action) }
    {
        match self.action {
            Some(own) => order.predecessors(own) == order.predecessors(action),
            None => false,
        }
    }
}
