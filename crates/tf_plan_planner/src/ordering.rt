//! Which resources of a plan are late, and which of its actions is before which.

ghost use Rattle.std.specs.List.{list_all, list_any};
ghost use Rattle.std.specs.Prelude.{◌≡◌, ◌≤◌, IfOk, IfErr, false, length, map, slice_index_or};
ghost use Rattle.tf_plan_data.specs.Words.{action_of, AreSound, names_in, needs_in, numbered, numbered_in, ordered, resources_in};
ghost use Rattle.tf_plan_planner.specs.Ordered.{IsOrdered, action_pairs, by_needs, is_applied, max_pairs, ties_by};
ghost use Rattle.tf_plan_planner.specs.Refused.{AreManyPairsBy, HasManyPairs, Tells};

use crate::faults::{alone, limit_refusal};
use crate::refused::Refused;
use std::alloc::{AllocError, Global};
use tf_config_names::Dependence;
use tf_expand_keys::Module;
use tf_graph::MAX_NODES;
use tf_plan_data::Action;
use tf_plan_order::{Order, OrderFault, OrderInput, ResourceIndex, StoredDependencies, lateness};

/// The order of a plan's actions.
#[derive(Drop)]
pub(crate) struct Ordered {
    /// For each resource whether it is late.
    pub(crate) late: Vec<bool>,
    /// Which action is before which.
    pub(crate) order: Order,
}

/// Orders these actions, or refuses them because there are too many pairs.
pub(crate) fn order_actions(
    alloc: Global,
    declared: &Module,
    resource_index: &ResourceIndex<'_>,
    actions: &[Action],
) -> Result<Ordered, Refused>
    requires numbered { numbered_in resource_index.now ≡ numbered (names_in declared.now.names.now) (resources_in resource_index.now) }
    requires few_numbers { length (numbered_in resource_index.now) ≤ MAX_NODES }
    requires few { length actions.now ≤ MAX_NODES }
    ensures ordered { IfOk result (λ o. IsOrdered (names_in declared.now.names.now) (resources_in resource_index.now) (needs_in declared.now.dependence.now)
        (λ n. slice_index_or o.late.items n false) (map action_of actions.now) o.order) }
    ensures refused { IfErr result (Tells (HasManyPairs (names_in declared.now.names.now) (resources_in resource_index.now) (map action_of actions.now))) }
{
    let marked = resource_index.marked(alloc)?;
    if are_applied(actions) && !is_any_marked(marked.as_slice()) {
        return order_applied(alloc, declared.parts.dependence, marked, actions);
    }
    let stored = resource_index.stored(alloc)?;
    let needs = declared.parts.dependence.graph();
    let late = lateness(alloc, needs, stored.graph(), marked.as_slice())?;
    let order = order_by(
        alloc,
        declared.parts.dependence,
        &stored,
        late.as_slice(),
        actions,
    )?;
    Ok(Ordered { late, order })
}

/// Orders actions that destroy nothing, if no resource is marked, or refuses them because there are too many pairs. In
/// that case what the state has stored orders no actions and makes no resource late, so it isn't used.
fn order_applied(
    alloc: Global,
    dependence: &Dependence,
    marked: Vec<bool>,
    actions: &[Action],
) -> Result<Ordered, Refused>
    requires strict { AreSound (by_needs (needs_in dependence.now)) }
    requires unmarked { list_any (λ m. m) marked.items ≡ false }
    requires few { length actions.now ≤ MAX_NODES }
    ensures late { IfOk result (λ o. o.late ≡ marked) }
    ensures nodes { IfOk result (λ o. o.order.nodes ≡ length actions.now) }
    ensures edges { IfOk result (λ o. o.order.edges ≡ action_pairs (by_needs (needs_in dependence.now)) (map action_of actions.now)) }
    ensures few { IfOk result (λ o. length o.order.edges ≤ max_pairs) }
    ensures refused { IfErr result (Tells (AreManyPairsBy (by_needs (needs_in dependence.now)) (map action_of actions.now))) }
{
    let nothing = StoredDependencies::new(alloc, 0, &[])?;
    let order = order_by(alloc, dependence, &nothing, marked.as_slice(), actions)?;
    Ok(Ordered {
        late: marked,
        order,
    })
}

/// Checks whether each of these actions creates or updates an object.
fn are_applied(actions: &[Action]) -> bool
    ensures { result ≡ list_all is_applied (map action_of actions.now) }
{
    for action in actions {
        if !action.step.is_apply() {
            return false;
        }
    }
    true
}

/// Checks whether any resource is marked.
fn is_any_marked(marked: &[bool]) -> bool
    ensures { result ≡ list_any (λ m. m) marked.now }
{
    marked.iter().any(|mark| *mark)
}

/// Orders these actions by the relations of their resources, or refuses them because there are too many pairs.
fn order_by(
    alloc: Global,
    dependence: &Dependence,
    stored: &StoredDependencies,
    late: &[bool],
    actions: &[Action],
) -> Result<Order, Refused>
    requires few { length actions.now ≤ MAX_NODES }
    requires sound { AreSound (ties_by dependence.now stored.now late.now) }
    ensures nodes { IfOk result (λ o. o.nodes ≡ length actions.now) }
    ensures edges { IfOk result (λ o. o.edges ≡ action_pairs (ties_by dependence.now stored.now late.now) (map action_of actions.now)) }
    ensures few { IfOk result (λ o. length o.edges ≤ max_pairs) }
    ensures refused { IfErr result (Tells (AreManyPairsBy (ties_by dependence.now stored.now late.now) (map action_of actions.now))) }
{
    let ties = OrderInput {
        by_configuration: dependence.table(),
        by_state: stored.table(),
        late,
    };
    let ordered = ordered_of(alloc, actions)?;
    match Order::new(alloc, &ties, ordered.as_slice()) {
        Ok(order) => Ok(order),
        Err(OrderFault::OutOfMemory) => Err(Refused::NoMemory),
        Err(OrderFault::TooMany) => {
            let beyond = limit_refusal(alloc)?;
            Err(alone(alloc, beyond)?)
        }
    }
}

/// Returns the actions as their order sees them.
fn ordered_of(
    alloc: Global,
    actions: &[Action],
) -> Result<Vec<tf_plan_order::OrderedAction>, AllocError>
    ensures { IfOk result (λ seen. seen.items ≡ map ordered (map action_of actions.now)) }
{
    let mut seen = Vec::with_capacity(alloc, actions.len())?;
    for action in actions {
        seen.push(action.ordered())?;
    }
    Ok(seen)
}
