//! The order of a plan's actions.

ghost use Rattle.std.specs.Prelude.{◌≡◌, ◌≤◌, ◌<◌, ◌+◌, ◌++◌, ◌∷◌, [], ◌||◌, ◌&&◌, IfOk, OnOk, IsErrOf, length, map, if◌then◌else◌};
ghost use Rattle.tf_plan_order.specs.Before.{are_halves, is_before, is_dependent, is_destroyed_first};
ghost use Rattle.tf_plan_order.specs.Near.{HoldsBefore, IsKept};
ghost use Rattle.tf_plan_order.specs.Order.{IsOrder, pairs, pairs_into};
ghost use Rattle.tf_plan_order.specs.OrderInput.{AreSound, order_input_of};

use crate::action::{ActionKind, OrderedAction};
use crate::near::Near;
use crate::order_input::OrderInput;
use std::alloc::Global;
use std::marker::Model;
use tf_graph::{Graph, MAX_NODES, NodeSet};

/// The most pairs of actions, the first before the second, that a plan may have.
pub const MAX_PAIRS: usize = 200_000;

/// Why the order of a plan's actions can't be built.
#[derive(Clone, Copy, Debug, PartialEq, Eq)]
pub enum OrderFault {
    /// There are more pairs than `MAX_PAIRS`.
    TooMany,
    /// Memory ran out.
    OutOfMemory,
}

/// The order of a plan's actions, as a graph whose nodes are their places in the plan. An edge `(a, b)` says that
/// action a is before action b, and no chain of edges leads back.
#[derive(Drop)]
pub struct Order {
    graph: Graph,
}

impl Model for Order {
    ghost use Rattle.tf_graph.specs.Digraph.{Digraph};
    ghost use Rattle.tf_plan_order.specs.Order.{IsOrder};

    ghost Value = { Digraph };

    ghost view = { λ o. o.graph };

    ghost invariant = { λ o. IsOrder o.graph };
}

impl Order {
    /// Builds the order of these actions, which are given by their places in the list. It has each pair whose first is
    /// before the second, once.
    ///
    /// # Errors
    ///
    /// Fails with `TooMany` if there are more such pairs than `MAX_PAIRS`, and with `OutOfMemory`.
    pub fn new(
        alloc: Global,
        ties: &OrderInput<'_>,
        actions: &[OrderedAction],
    ) -> Result<Order, OrderFault>
        requires few { length actions.now ≤ MAX_NODES }
        requires sound { AreSound (order_input_of ties.now) }
        ensures nodes { IfOk result (λ o. o.nodes ≡ length actions.now) }
        ensures edges { IfOk result (λ o. o.edges ≡ pairs (order_input_of ties.now) actions.now) }
        ensures few { IfOk result (λ o. length o.edges ≤ MAX_PAIRS) }
        ensures too_many { IsErrOf result OrderFault.TooMany → MAX_PAIRS < length (pairs (order_input_of ties.now) actions.now) }
    {
        let pairs = all_pairs(alloc, ties, actions)?;
        match Graph::of(alloc, actions.len(), pairs) {
            Ok(graph) => Ok(Order { graph }),
            Err(_) => Err(OrderFault::OutOfMemory),
        }
    }

    /// Returns the graph. No chain of its edges leads back, and some rank rises along each.
    pub fn graph(&self) -> &Graph
        ensures graph { result.now ≡ self.now }
        ensures order { IsOrder self.now }
    {
        &self.graph
    }
}

/// Returns all pairs of actions whose first is before the second.
fn all_pairs(
    alloc: Global,
    ties: &OrderInput<'_>,
    actions: &[OrderedAction],
) -> Result<Vec<(usize, usize)>, OrderFault>
    ensures pairs { IfOk result (λ found. found.items ≡ pairs (order_input_of ties.now) actions.now) }
    ensures few { IfOk result (λ found. length found.items ≤ MAX_PAIRS) }
    ensures too_many { IsErrOf result OrderFault.TooMany → MAX_PAIRS < length (pairs (order_input_of ties.now) actions.now) }
{
    let Ok(near) = Near::new(alloc, ties, actions) else {
        return Err(OrderFault::OutOfMemory);
    };
    let Ok(mut found) = Vec::with_capacity(alloc, listed(&near, actions)) else {
        return Err(OrderFault::OutOfMemory);
    };
    for second in 0..actions.len() {
        add_pairs_into(alloc, &mut found, &near, ties, actions, second)?;
    }
    Ok(found)
}

/// Returns how many pairs are copied from the index's lists, at most `MAX_PAIRS`. The list of all pairs is allocated
/// with that capacity.
fn listed(near: &Near, actions: &[OrderedAction]) -> usize
    ensures { result ≤ MAX_PAIRS }
{
    let mut count = 0usize;
    for action in actions {
        if let Some(early) = near.early_for(action) {
            count = count.saturating_add(early.len());
        }
    }
    count.min(MAX_PAIRS)
}

/// Adds the pairs of an action with those that are before it.
fn add_pairs_into(
    alloc: Global,
    found: &mut Vec<(usize, usize)>,
    near: &Near,
    ties: &OrderInput<'_>,
    actions: &[OrderedAction],
    second: usize,
) -> Result<(), OrderFault>
    requires inside { second < length actions.now }
    requires kept { IsKept ties.now actions.now (length actions.now) near.now.own.items near.now.early.items }
    requires few { length found.old.items ≤ MAX_PAIRS }
    ensures pairs { OnOk result (found.new.items ≡ found.old.items ++ pairs_into (order_input_of ties.now) actions.now second) }
    ensures few { OnOk result (length found.new.items ≤ MAX_PAIRS) }
    ensures too_many { IsErrOf result OrderFault.TooMany
        → MAX_PAIRS < length (found.old.items ++ pairs_into (order_input_of ties.now) actions.now second) }
{
    if let Some(early) = near.early_for(&actions[second]) {
        return add_listed(found, early, second);
    }
    let Ok(set) = near.before(alloc, ties, actions, second) else {
        return Err(OrderFault::OutOfMemory);
    };
    add_before(found, ties, actions, second, &set)
}

/// Adds the pairs of an action with those in a list.
fn add_listed(
    found: &mut Vec<(usize, usize)>,
    before: &[usize],
    second: usize,
) -> Result<(), OrderFault>
    requires { length found.old.items ≤ MAX_PAIRS }
    ensures pairs { OnOk result (found.new.items ≡ found.old.items ++ map (λ first. (first, second)) before.now) }
    ensures few { OnOk result (length found.new.items ≤ MAX_PAIRS) }
    ensures too_many { IsErrOf result OrderFault.TooMany → MAX_PAIRS < length found.old.items + length before.now }
{
    if before.len() > MAX_PAIRS - found.len() {
        return Err(OrderFault::TooMany);
    }
    for first in before {
        if found.push((*first, second)).is_err() {
            return Err(OrderFault::OutOfMemory);
        }
    }
    Ok(())
}

/// Adds the pairs of an action with those that are before it. These are members of the set `near`.
fn add_before(
    found: &mut Vec<(usize, usize)>,
    ties: &OrderInput<'_>,
    actions: &[OrderedAction],
    second: usize,
    near: &NodeSet,
) -> Result<(), OrderFault>
    requires inside { second < length actions.now }
    requires long { length near.now ≡ length actions.now }
    requires near { HoldsBefore (order_input_of ties.now) actions.now second near.now }
    requires few { length found.old.items ≤ MAX_PAIRS }
    ensures pairs { OnOk result (found.new.items ≡ found.old.items ++ pairs_into (order_input_of ties.now) actions.now second) }
    ensures few { OnOk result (length found.new.items ≤ MAX_PAIRS) }
    ensures too_many { IsErrOf result OrderFault.TooMany
        → MAX_PAIRS < length (found.old.items ++ pairs_into (order_input_of ties.now) actions.now second) }
{
    let mut from = 0;
    while let Some(first) = near.first_from(from) {
        let holds = is_before(ties, &actions[first], &actions[second]);
        add_if(found, holds, (first, second))?;
        from = first + 1;
    }
    Ok(())
}

/// Adds a pair if its first action is before the second.
fn add_if(
    found: &mut Vec<(usize, usize)>,
    holds: bool,
    pair: (usize, usize),
) -> Result<(), OrderFault>
    requires { length found.old.items ≤ MAX_PAIRS }
    ensures pairs { OnOk result (found.new.items ≡ found.old.items ++ (if holds then pair ∷ [] else [])) }
    ensures few { OnOk result (length found.new.items ≤ MAX_PAIRS) }
    ensures too_many { IsErrOf result OrderFault.TooMany
        → MAX_PAIRS < length (found.old.items ++ (if holds then pair ∷ [] else [])) }
{
    if !holds {
        return Ok(());
    }
    if found.len() == MAX_PAIRS {
        return Err(OrderFault::TooMany);
    }
    found.push(pair).map_err(|_| OrderFault::OutOfMemory)
}

/// Checks whether an action is before another.
fn is_before(ties: &OrderInput<'_>, first: &OrderedAction, second: &OrderedAction) -> bool
    ensures { result ≡ is_before (order_input_of ties.now) first.now second.now }
{
    match (first.kind, second.kind) {
        (ActionKind::Apply, ActionKind::Apply) => ties.needs(second.resource, first.resource),
        (ActionKind::Apply, ActionKind::Destroy) => {
            ties.is_late(second.resource)
                && (are_halves(first, second) || is_dependent(ties, first, second))
        }
        (ActionKind::Apply, ActionKind::DestroyDeposed) => {
            ties.is_late(second.resource) && is_dependent(ties, first, second)
        }
        (ActionKind::Destroy, ActionKind::Apply) => {
            are_halves(first, second) && !ties.is_late(first.resource)
        }
        (ActionKind::DestroyDeposed, ActionKind::Apply) => false,
        (
            ActionKind::Destroy | ActionKind::DestroyDeposed,
            ActionKind::Destroy | ActionKind::DestroyDeposed,
        ) => { is_destroyed_first(ties, first, second) }
    }
}

/// Checks whether two actions, of which one creates and the other destroys an object, are the halves of one replace.
pub(crate) fn are_halves(action: &OrderedAction, other: &OrderedAction) -> bool
    ensures { result ≡ are_halves action.now other.now }
{
    action.replaces
        && other.replaces
        && action.resource == other.resource
        && action.instance == other.instance
}

/// Checks whether what the first destroys needed what the second does, and not the other way round.
fn is_destroyed_first(ties: &OrderInput<'_>, first: &OrderedAction, second: &OrderedAction) -> bool
    ensures { result ≡ is_destroyed_first (order_input_of ties.now) first.now second.now }
{
    ties.needed(first.resource, second.resource) && !ties.needed(second.resource, first.resource)
}

/// Checks whether the resource of one action needs the other's, or needed it when it was made.
fn is_dependent(ties: &OrderInput<'_>, action: &OrderedAction, other: &OrderedAction) -> bool
    ensures { result ≡ is_dependent (order_input_of ties.now) action.now other.now }
{
    ties.needs(action.resource, other.resource) || ties.needed(action.resource, other.resource)
}
