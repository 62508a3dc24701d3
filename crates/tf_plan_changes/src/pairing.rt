//! Which actions of a plan make one change.

ghost use Rattle.std.specs.List.{cons_option, filter_map};
ghost use Rattle.std.specs.Prelude.{◌≡◌, ◌++◌, [], false, map, slice_index_or, IfOk, OnOk, option_map, string_bytes};
ghost use Rattle.tf_plan_changes.specs.Changes.{change, change_of, changes, is_same_instance, old_in, old_of, replace_kind};
ghost use Rattle.tf_plan_changes.specs.Views.{change_view, kind_view};
ghost use Rattle.tf_plan_data.specs.Action.{action_of, names_of};
ghost use Rattle.tf_value_data.specs.Tree.{tree_of};

use crate::change::{Change, ChangeKind};
use std::alloc::{AllocError, Global};
use tf_plan_data::{Action, Step};
use tf_value_data::Value;

/// Returns the changes that actions make, in the order of the actions. The two halves of a replace make one change, at
/// the place of the create. `late` gives for each resource, by its number, whether the new object is created first.
///
/// # Errors
///
/// Fails only if memory runs out.
pub fn changes<'a>(
    alloc: Global,
    actions: &'a [Action],
    late: &[bool],
) -> Result<Vec<Change<'a>>, AllocError>
    ensures { IfOk result (λ made. map change_view made.items ≡ changes (λ n. slice_index_or late.now n false) (map action_of actions.now)) }
{
    let mut made = Vec::new(alloc);
    for action in actions {
        push_some(&mut made, change_of(actions, late, action))?;
    }
    Ok(made)
}

/// Adds a change, if there is one.
fn push_some<'a>(made: &mut Vec<Change<'a>>, change: Option<Change<'a>>) -> Result<(), AllocError>
    ensures { OnOk result (map change_view made.new.items ≡ map change_view made.old.items ++ cons_option (option_map change_view change.entry) []) }
{
    match change {
        Some(change) => {
            made.push(change)?;
            Ok(())
        }
        None => Ok(()),
    }
}

/// Returns the change that an action makes, or `None` if it is the destroy of a replace.
fn change_of<'a>(actions: &'a [Action], late: &[bool], action: &'a Action) -> Option<Change<'a>>
    ensures { option_map change_view result ≡ change_of (λ n. slice_index_or late.now n false) (map action_of actions.now) (action_of action.now) }
{
    match &action.step {
        Step::Create(asked) => Some(change(action, None, ChangeKind::Create, None, Some(asked))),
        Step::Update(prior, asked, _) => Some(change(
            action,
            None,
            ChangeKind::Update,
            Some(&prior.value),
            Some(asked),
        )),
        Step::CreateReplacement(asked, names) => {
            let kind = replace_kind(action.resource, late, names);
            Some(change(action, None, kind, old_of(actions, action), Some(asked)))
        }
        Step::DestroyReplaced(_) => None,
        Step::Destroy(prior) => Some(change(
            action,
            None,
            ChangeKind::Destroy,
            Some(&prior.value),
            None,
        )),
        Step::DestroyDeposed(key, prior) => Some(change(
            action,
            Some(key),
            ChangeKind::Destroy,
            Some(&prior.value),
            None,
        )),
    }
}

fn change<'a>(
    action: &'a Action,
    deposed: Option<&'a String>,
    kind: ChangeKind<'a>,
    before: Option<&'a Value>,
    after: Option<&'a Value>,
) -> Change<'a>
    ensures { change_view result ≡ change (action_of action.now) (option_map (λ s. string_bytes s.now) deposed.entry) (kind_view kind.entry) (option_map (λ v. tree_of v.now) before.entry) (option_map (λ v. tree_of v.now) after.entry) }
{
    Change {
        resource: action.resource,
        addr: &action.addr,
        key: &action.key,
        deposed,
        kind,
        before,
        after,
    }
}

fn replace_kind<'a>(resource: usize, late: &[bool], names: &'a Vec<String>) -> ChangeKind<'a>
    ensures { kind_view result ≡ replace_kind (slice_index_or late.now resource false) (names_of names.now.items) }
{
    if late.get(resource).copied().unwrap_or(false) {
        ChangeKind::LateReplace(names)
    } else {
        ChangeKind::Replace(names)
    }
}

/// Returns the object that an action replaces: the one that another action of the same instance destroys as half of a
/// replace.
fn old_of<'a>(actions: &'a [Action], action: &Action) -> Option<&'a Value>
    ensures { option_map (λ v. tree_of v.now) result ≡ old_of (action_of action.now) (map action_of actions.now) }
{
    for other in actions {
        if let Some(old) = old_in(action, other) {
            return Some(old);
        }
    }
    None
}

/// Returns the object that another action of the same instance destroys as half of a replace.
fn old_in<'a>(action: &Action, other: &'a Action) -> Option<&'a Value>
    ensures { option_map (λ v. tree_of v.now) result ≡ old_in (action_of action.now) (action_of other.now) }
{
    if !is_same_instance(action, other) {
        return None;
    }
    match &other.step {
        Step::DestroyReplaced(prior) => Some(&prior.value),
        _ => None,
    }
}

fn is_same_instance(one: &Action, other: &Action) -> bool
    ensures { result ≡ is_same_instance (action_of one.now) (action_of other.now) }
{
    one.resource == other.resource && one.instance == other.instance
}
