//! An index of the actions that may be before an action.

ghost use Rattle.std.specs.Prelude.{◌≡◌, ◌≤◌, ◌<◌, ◌+◌, ◌++◌, ◌∷◌, ◌&&◌, ◌==◌, ◌⊎◌, [], ℕ, true, false, Contains, IfOk, IfSome, OnOk, length, if◌then◌else◌};
ghost use Rattle.tf_graph.specs.Closure.{reaches};
ghost use Rattle.tf_graph.specs.Lists.{row};
ghost use Rattle.tf_graph.specs.NodeSet.{has};
ghost use Rattle.tf_plan_order.specs.Before.{are_halves, IsApply};
ghost use Rattle.tf_plan_order.specs.Near.{HasGrown, HoldsBefore, IsKept, applies};
ghost use Rattle.tf_plan_order.specs.Order.{action_at};
ghost use Rattle.tf_plan_order.specs.OrderInput.{order_input_of};

use crate::action::{ActionKind, OrderedAction};
use crate::order::are_halves;
use crate::order_input::OrderInput;
use std::alloc::{AllocError, Global};
use tf_graph::{Closure, NodeSet};

/// An index of a list of actions, by which the candidates for being before one are found. Two actions of unrelated
/// resources are in no order.
#[derive(Drop)]
pub struct Near {
    /// For each resource the places of its actions.
    own: Vec<Vec<usize>>,
    /// For each resource the places of the creates and updates of all that it needs, in order.
    early: Vec<Vec<usize>>,
}

impl Near {
    /// Builds the index of these actions.
    ///
    /// # Errors
    ///
    /// Fails only if memory runs out.
    pub fn new(
        alloc: Global,
        ties: &OrderInput<'_>,
        actions: &[OrderedAction],
    ) -> Result<Near, AllocError>
        ensures { IfOk result (λ near. IsKept ties.now actions.now (length actions.now) near.own.items near.early.items) }
    {
        let count = resources(ties);
        let mut own = empty_lists(alloc, count)?;
        let mut early = empty_lists(alloc, count)?;
        for place in 0..actions.len() {
            let action = &actions[place];
            list(&mut own, action.resource, place)?;
            note(&mut early, ties.by_configuration, action, place)?;
        }
        Ok(Near { own, early })
    }

    /// Returns the places of all that is before an action that creates or updates an object and isn't half of a
    /// replace, in order. Returns `None` for other actions, and if the index doesn't have the resource.
    pub fn early_for(&self, action: &OrderedAction) -> Option<&[usize]>
        ensures places { IfSome result (λ places. places.now ≡ row self.now.early.items action.now.resource) }
        ensures applies { IfSome result (λ _. IsApply action.now) }
        ensures whole { IfSome result (λ _. action.now.replaces ≡ false) }
    {
        if action.replaces || action.resource >= self.early.len() {
            return None;
        }
        match action.kind {
            ActionKind::Apply => Some(self.early[action.resource].as_slice()),
            ActionKind::Destroy | ActionKind::DestroyDeposed => None,
        }
    }

    /// Returns a set of places that has each action that is before the one at a place, and maybe others.
    ///
    /// # Errors
    ///
    /// Fails only if memory runs out.
    pub fn before(
        &self,
        alloc: Global,
        ties: &OrderInput<'_>,
        actions: &[OrderedAction],
        second: usize,
    ) -> Result<NodeSet, AllocError>
        requires inside { second < length actions.now }
        requires kept { IsKept ties.now actions.now (length actions.now) self.now.own.items self.now.early.items }
        ensures length { IfOk result (λ set. length set ≡ length actions.now) }
        ensures before { IfOk result (λ set. HoldsBefore (order_input_of ties.now) actions.now second set) }
    {
        let mut set = NodeSet::new(alloc, actions.len())?;
        let action = &actions[second];
        let own = self.own.as_slice();
        if action.resource >= own.len() {
            fill(&mut set, actions.len());
            return Ok(set);
        }
        add_halves(&mut set, actions, action, own[action.resource].as_slice());
        if let ActionKind::Apply = action.kind {
            add_places(&mut set, self.early[action.resource].as_slice());
            return Ok(set);
        }
        add_reached(&mut set, own, ties.by_configuration, action.resource);
        add_reached(&mut set, own, ties.by_state, action.resource);
        Ok(set)
    }
}

/// Returns a number that is at least the number of nodes of each table.
fn resources(ties: &OrderInput<'_>) -> usize
    ensures by_configuration { ties.now.by_configuration.now.nodes ≤ result }
    ensures by_state { ties.now.by_state.now.nodes ≤ result }
{
    ties.by_configuration.nodes().max(ties.by_state.nodes())
}

/// Returns an empty list for each resource.
fn empty_lists(alloc: Global, count: usize) -> Result<Vec<Vec<usize>>, AllocError>
    ensures count { IfOk result (λ lists. length lists.items ≡ count) }
    ensures rows { IfOk result (λ lists. (n : ℕ) → row lists.items n ≡ []) }
{
    let mut lists = Vec::with_capacity(alloc, count)?;
    for _ in 0..count {
        lists.push(Vec::new(alloc))?;
    }
    Ok(lists)
}

/// Adds a place to the list of a resource, if that list exists.
fn list(lists: &mut [Vec<usize>], resource: usize, place: usize) -> Result<(), AllocError>
    ensures count { length lists.new ≡ length lists.old }
    ensures kept { OnOk result ((r k : ℕ) → Contains (row lists.old r) k → Contains (row lists.new r) k) }
    ensures led { OnOk result ((r k : ℕ) → Contains (row lists.new r) k → Contains (row lists.old r) k ⊎ (k ≡ place)) }
    ensures added { OnOk result (resource < length lists.old → Contains (row lists.new resource) place) }
{
    if resource < lists.len() {
        let own = &mut lists[resource];
        own.push(place)?;
    }
    Ok(())
}

/// Adds the place of a create or update to the lists of all that needs its resource.
fn note(
    early: &mut [Vec<usize>],
    table: &Closure,
    action: &OrderedAction,
    place: usize,
) -> Result<(), AllocError>
    requires { table.now.nodes ≤ length early.old }
    ensures count { length early.new ≡ length early.old }
    ensures rows { OnOk result ((s : ℕ) → row early.new s
        ≡ row early.old s ++ (if applies action.now.kind && reaches table.now action.now.resource s then place ∷ [] else [])) }
{
    match action.kind {
        ActionKind::Apply => spread(early, table, action.resource, place),
        ActionKind::Destroy | ActionKind::DestroyDeposed => Ok(()),
    }
}

/// Adds a place to the list of each resource that a table leads to from the given one.
fn spread(
    lists: &mut [Vec<usize>],
    table: &Closure,
    resource: usize,
    place: usize,
) -> Result<(), AllocError>
    requires { table.now.nodes ≤ length lists.old }
    ensures count { length lists.new ≡ length lists.old }
    ensures rows { OnOk result ((s : ℕ) → row lists.new s
        ≡ row lists.old s ++ (if reaches table.now resource s then place ∷ [] else [])) }
{
    let mut from = 0;
    while let Some(other) = table.first_reached(resource, from) {
        add(lists, other, place)?;
        from = other + 1;
    }
    Ok(())
}

/// Adds a place to the list at an index.
fn add(lists: &mut [Vec<usize>], at: usize, place: usize) -> Result<(), AllocError>
    requires { at < length lists.old }
    ensures count { length lists.new ≡ length lists.old }
    ensures rows { OnOk result ((n : ℕ) → row lists.new n
        ≡ (if at == n then row lists.old n ++ place ∷ [] else row lists.old n)) }
{
    let list = &mut lists[at];
    list.push(place)?;
    Ok(())
}

/// Adds all places below a count.
fn fill(set: &mut NodeSet, count: usize)
    requires { count ≤ length set.old }
    ensures grown { HasGrown set.old set.new }
    ensures added { (k : ℕ) → k < count → has set.new k ≡ true }
{
    for place in 0..count {
        set.insert(place);
    }
}

/// Adds those of some actions that are the other half of a replace.
fn add_halves(
    set: &mut NodeSet,
    actions: &[OrderedAction],
    action: &OrderedAction,
    places: &[usize],
)
    requires long { length set.old ≡ length actions.now }
    requires within { (k : ℕ) → Contains places.now k → k < length actions.now }
    ensures grown { HasGrown set.old set.new }
    ensures added { (k : ℕ) → Contains places.now k → are_halves (action_at actions.now k) action.now ≡ true → has set.new k ≡ true }
{
    if !action.replaces {
        return;
    }
    for place in places {
        add_half(set, actions, action, *place);
    }
}

/// Adds an action, if it is the other half of a replace.
fn add_half(set: &mut NodeSet, actions: &[OrderedAction], action: &OrderedAction, place: usize)
    requires long { length set.old ≡ length actions.now }
    requires inside { place < length actions.now }
    ensures grown { HasGrown set.old set.new }
    ensures added { are_halves (action_at actions.now place) action.now ≡ true → has set.new place ≡ true }
{
    if are_halves(&actions[place], action) {
        set.insert(place);
    }
}

/// Adds the actions of each resource that a table leads to from the given one.
fn add_reached(set: &mut NodeSet, own: &[Vec<usize>], table: &Closure, resource: usize)
    requires nodes { table.now.nodes ≤ length own.now }
    requires within { (r k : ℕ) → Contains (row own.now r) k → k < length set.old }
    ensures inside { (r : ℕ) → reaches table.now resource r ≡ true → r < length own.now }
    ensures grown { HasGrown set.old set.new }
    ensures added { (r k : ℕ) → reaches table.now resource r ≡ true → Contains (row own.now r) k → has set.new k ≡ true }
{
    let mut from = 0;
    while let Some(other) = table.first_reached(resource, from) {
        add_places(set, own[other].as_slice());
        from = other + 1;
    }
}

/// Adds some places.
fn add_places(set: &mut NodeSet, places: &[usize])
    requires { (k : ℕ) → Contains places.now k → k < length set.old }
    ensures grown { HasGrown set.old set.new }
    ensures added { (k : ℕ) → Contains places.now k → has set.new k ≡ true }
{
    for place in places {
        set.insert(*place);
    }
}
