//! The text of a plan with old and new values.

ghost use Rattle.std.specs.List.{flat_map};
ghost use Rattle.std.specs.Prelude.{◌≡◌, ◌++◌, false, IfOk, OnOk, map, option_map, slice_index_or, string_bytes};
ghost use Rattle.tf_plan_changes.specs.Views.{change_view, kind_view};
ghost use Rattle.tf_plan_data.specs.Action.{action_of};
ghost use Rattle.tf_plan_data.specs.Plan.{plan_of};
ghost use Rattle.tf_plan_diff.specs.Diff.{attributes_of, change_lines, diff_text, lines_of};
ghost use Rattle.tf_value_data.specs.Tree.{tree_of};

use crate::attributes::{show_between, show_gone, show_new};
use crate::headings::{Colours, show_heading};
use std::alloc::{AllocError, Global};
use tf_plan_changes::{Change, ChangeKind, changes};
use tf_plan_data::{Action, Plan};
use tf_plan_text::show_summary;
use tf_value_data::Value;

/// Returns the text of a plan for the user, with old and new values. It has a line for each object that is changed,
/// with a symbol and the address, and the same last line as the plan's text. The lines below it show each attribute of
/// a new object or of one that is destroyed, and each attribute that changes, with the old and the new value.
/// Control characters, and marks that set the direction of text, are escaped.
///
/// # Errors
///
/// Fails only if memory runs out.
pub fn diff_text(alloc: Global, plan: &Plan, colours: Colours) -> Result<String, AllocError>
    ensures { IfOk result (λ text. string_bytes text ≡ diff_text colours (plan_of plan.now)) }
{
    text_of(
        alloc,
        plan.actions.as_slice(),
        plan.late.as_slice(),
        colours,
    )
}

fn text_of(
    alloc: Global,
    actions: &[Action],
    late: &[bool],
    colours: Colours,
) -> Result<String, AllocError>
    ensures { IfOk result (λ text. string_bytes text ≡ lines_of colours (λ n. slice_index_or late.now n false) (map action_of actions.now)) }
{
    if actions.is_empty() {
        return String::from_str(alloc, "No changes.\n");
    }
    let changes = changes(alloc, actions, late)?;
    let mut text = String::new(alloc);
    show_changes(alloc, &mut text, changes.as_slice(), colours)?;
    show_summary(&mut text, actions)?;
    Ok(text)
}

fn show_changes(
    alloc: Global,
    text: &mut String,
    changes: &[Change<'_>],
    colours: Colours,
) -> Result<(), AllocError>
    ensures { OnOk result (string_bytes text.new ≡ string_bytes text.old ++ flat_map (change_lines colours) (map change_view changes.now)) }
{
    for change in changes {
        show_change(alloc, text, change, colours)?;
    }
    Ok(())
}

fn show_change(
    alloc: Global,
    text: &mut String,
    change: &Change<'_>,
    colours: Colours,
) -> Result<(), AllocError>
    ensures { OnOk result (string_bytes text.new ≡ string_bytes text.old ++ change_lines colours (change_view change.now)) }
{
    show_heading(alloc, text, change, colours)?;
    show_attributes(alloc, text, change.kind, change.before, change.after)
}

/// Shows the attributes of an object before and after a change.
fn show_attributes(
    alloc: Global,
    text: &mut String,
    kind: ChangeKind<'_>,
    before: Option<&Value>,
    after: Option<&Value>,
) -> Result<(), AllocError>
    ensures { OnOk result (string_bytes text.new ≡ string_bytes text.old ++ attributes_of (kind_view kind.entry) (option_map (λ v. tree_of v.now) before.entry) (option_map (λ v. tree_of v.now) after.entry)) }
{
    match (kind, before, after) {
        (ChangeKind::Create, _, Some(after)) => show_new(alloc, text, after),
        (ChangeKind::Destroy, Some(before), _) => show_gone(alloc, text, before),
        (ChangeKind::Update, _, Some(after)) => show_between(alloc, text, before, after, &[]),
        (ChangeKind::Replace(names), _, Some(after)) => {
            show_between(alloc, text, before, after, names.as_slice())
        }
        (ChangeKind::LateReplace(names), _, Some(after)) => {
            show_between(alloc, text, before, after, names.as_slice())
        }
        _ => Ok(()),
    }
}
