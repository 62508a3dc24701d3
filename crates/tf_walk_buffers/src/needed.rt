//! Which resources the resources of some actions need, computed for all of them together.

ghost use Rattle.std.specs.List.{AllByRecursion};
ghost use Rattle.std.specs.Option.{option_to_list};
ghost use Rattle.std.specs.Prelude.{◌≡◌, ◌≤◌, ◌<◌, ◌++◌, ◌⊎◌, [], ℕ, true, Contains, IfOk, OnOk, length, map, if◌then◌else◌};
ghost use Rattle.tf_graph.specs.Lists.{row};
ghost use Rattle.tf_graph.specs.NodeSet.{has};
ghost use Rattle.tf_plan_data.specs.Words.{action_of, IsDeclared, meant_at, names_in, needs_in, plan_names, plan_of};
ghost use Rattle.tf_walk_buffers.specs.Dependencies.{address_of, addresses_at};
ghost use Rattle.tf_walk_buffers.specs.Needed.{AreListedAsked, IsAsked, IsListedFor};

use crate::spreading::{empty_lists, spread};
use std::alloc::{AllocError, Global};
use tf_config_names::{Declaration, Declarations, Dependence};
use tf_graph::NodeSet;
use tf_plan_data::{Action, Plan};

/// Returns for each name the indexes of all resources that it needs, if an action makes or changes an object of it, in
/// the order of the names.
pub(crate) fn needed_for(
    alloc: Global,
    plan: &Plan,
    names: &Declarations<'_>,
) -> Result<Vec<Vec<usize>>, AllocError>
    requires names { names_in names.now ≡ plan_names (plan_of plan.now) }
    requires declared { AllByRecursion (IsDeclared (plan_names (plan_of plan.now))) (map action_of plan.now.actions.items) }
    ensures { IfOk result (λ lists. AllByRecursion (IsListedFor (plan_of plan.now) lists.items) (map action_of plan.now.actions.items)) }
{
    let asked = asked_for(alloc, plan.actions.as_slice(), names.len())?;
    needed_lists(alloc, names, &plan.dependence, &asked)
}

/// Returns the resources whose objects some actions make or change, among `count` names.
fn asked_for(alloc: Global, actions: &[Action], count: usize) -> Result<NodeSet, AllocError>
    ensures length { IfOk result (λ asked. length asked ≡ count) }
    ensures asked { IfOk result (λ asked. AllByRecursion (IsAsked asked) (map action_of actions.now)) }
{
    let mut asked = NodeSet::new(alloc, count)?;
    for action in actions {
        ask(&mut asked, count, action);
    }
    Ok(asked)
}

/// Adds the resource of an action, if the action makes or changes an object of a name.
fn ask(asked: &mut NodeSet, count: usize, action: &Action)
    requires { length asked.old ≡ count }
    ensures length { length asked.new ≡ length asked.old }
    ensures kept { (k : ℕ) → has asked.old k ≡ true → has asked.new k ≡ true }
    ensures asked { IsAsked asked.new (action_of action.now) }
{
    if action.step.is_apply() && action.resource < count {
        asked.insert(action.resource);
    }
}

/// Returns for each requested name the indexes of all resources that it needs, in the order of the names. One pass over
/// the table of dependence fills the lists of all.
///
/// # Errors
///
/// Fails with `AllocError` if memory runs out.
pub(crate) fn needed_lists(
    alloc: Global,
    names: &Declarations<'_>,
    dependence: &Dependence,
    asked: &NodeSet,
) -> Result<Vec<Vec<usize>>, AllocError>
    requires { length asked.now ≡ length (names_in names.now) }
    ensures { IfOk result (λ lists. AreListedAsked (needs_in dependence.now) (names_in names.now) asked.now lists.items) }
{
    let mut lists = empty_lists(alloc, names.len())?;
    for place in 0..names.len() {
        note_needed(lists.as_mut_slice(), names, dependence, asked, place)?;
    }
    Ok(lists)
}

/// Adds an index to the list of each requested name that needs the name there, if that is a resource.
fn note_needed(
    lists: &mut [Vec<usize>],
    names: &Declarations<'_>,
    dependence: &Dependence,
    asked: &NodeSet,
    place: usize,
) -> Result<(), AllocError>
    requires place { place < length (names_in names.now) }
    requires long { length asked.now ≤ length lists.old }
    ensures count { length lists.new ≡ length lists.old }
    ensures within { OnOk result ((p m : ℕ) → Contains (row lists.new p) m → Contains (row lists.old p) m ⊎ (m ≡ place)) }
    ensures added { OnOk result ((p : ℕ) → has asked.now p ≡ true → addresses_at (names_in names.now) (row lists.new p)
        ≡ addresses_at (names_in names.now) (row lists.old p)
        ++ (if needs_in dependence.now p place then option_to_list (address_of (meant_at (names_in names.now) place)) else [])) }
{
    match names.at(place) {
        Declaration::Local(_, _) => Ok(()),
        Declaration::Resource(_, _) => {
            spread(lists, dependence.table(), asked, place)?;
            Ok(())
        }
    }
}
