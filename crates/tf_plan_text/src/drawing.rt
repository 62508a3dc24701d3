//! The text that draws a plan.

ghost use Rattle.std.specs.Prelude.{◌≡◌, ◌++◌, ◌∷◌, [], IfOk, OnOk, map, slice_index_or, string_bytes, false};
ghost use Rattle.std.specs.List.{flat_map};
ghost use Rattle.tf_plan_data.specs.Action.{action_of, step_of};
ghost use Rattle.tf_plan_data.specs.Plan.{plan_of};
ghost use Rattle.tf_plan_text.specs.Dot.{IsDrawn, edge_line, label, node_label, node_line, node_lines, node_opening};
ghost use Rattle.tf_plan_text.specs.Quoted.{escaped};

use crate::quoting::push_escaped;
use crate::reducing::reduction;
use crate::text::replace_symbol;
use std::alloc::{AllocError, Global};
use tf_plan_data::{Action, Plan, Step, address_text};

/// Returns the order of a plan's actions, as a text in Graphviz's DOT. Each action is a node, named by its place in the
/// plan, with the symbol and the address that the plan's text has for it. The edges are the pairs of the order that
/// don't follow from others. If a path leads from one action to another, the first is carried out before the other.
///
/// # Errors
///
/// Fails only if memory runs out.
pub fn dot_text(alloc: Global, plan: &Plan) -> Result<String, AllocError>
    ensures { IfOk result (λ text. IsDrawn (plan_of plan.now) (string_bytes text)) }
{
    let edges = reduction(alloc, plan.order.graph())?;
    let mut text = String::from_str(
        alloc,
        "digraph plan {\n    rankdir = LR\n    node [shape = box]\n",
    )?;
    push_nodes(
        alloc,
        &mut text,
        plan.actions.as_slice(),
        plan.late.as_slice(),
    )?;
    push_edges(&mut text, edges.as_slice())?;
    text.push_str("}\n")?;
    Ok(text)
}

/// Adds a line for each action.
fn push_nodes(
    alloc: Global,
    text: &mut String,
    actions: &[Action],
    late: &[bool],
) -> Result<(), AllocError>
    ensures { OnOk result (string_bytes text.new ≡ string_bytes text.old ++ node_lines (λ n. slice_index_or late.now n false) 0 (map action_of actions.now)) }
{
    let mut place = 0;
    for action in actions {
        push_node(alloc, text, place, action, late)?;
        place += 1;
    }
    Ok(())
}

fn push_node(
    alloc: Global,
    text: &mut String,
    place: usize,
    action: &Action,
    late: &[bool],
) -> Result<(), AllocError>
    ensures { OnOk result (string_bytes text.new ≡ string_bytes text.old ++ node_line (λ n. slice_index_or late.now n false) place (action_of action.now)) }
{
    push_opening(text, place)?;
    push_label(alloc, text, action, late)?;
    text.push_str("\"]\n")
}

/// Adds the text before an action's label.
fn push_opening(text: &mut String, place: usize) -> Result<(), AllocError>
    ensures { OnOk result (string_bytes text.new ≡ string_bytes text.old ++ node_opening place) }
{
    write!(text, "    {place} [label = \"")
}

/// Adds an action's label, which is put between quotes.
fn push_label(
    alloc: Global,
    text: &mut String,
    action: &Action,
    late: &[bool],
) -> Result<(), AllocError>
    ensures { OnOk result (string_bytes text.new ≡ string_bytes text.old ++ escaped (node_label (λ n. slice_index_or late.now n false) (action_of action.now))) }
{
    let label = node_label(alloc, action, late)?;
    push_escaped(text, label.as_str())
}

/// Returns the label of an action's node.
fn node_label(alloc: Global, action: &Action, late: &[bool]) -> Result<String, AllocError>
    ensures { IfOk result (λ text. string_bytes text ≡ node_label (λ n. slice_index_or late.now n false) (action_of action.now)) }
{
    let address = address_text(alloc, &action.addr, &action.key)?;
    let is_late = late.get(action.resource).copied().unwrap_or(false);
    let mut text = String::new(alloc);
    push_step(&mut text, address.as_str(), &action.step, is_late)?;
    Ok(text)
}

fn push_step(text: &mut String, address: &str, step: &Step, is_late: bool) -> Result<(), AllocError>
    ensures { OnOk result (string_bytes text.new ≡ string_bytes text.old ++ label is_late address.now (step_of step.now)) }
{
    match step {
        Step::Create(_) => write!(text, "+ {address}"),
        Step::Update(_, _, _) => write!(text, "~ {address}"),
        Step::CreateReplacement(_, _) => {
            text.push_str(replace_symbol(is_late))?;
            write!(text, "{address} (create)")
        }
        Step::DestroyReplaced(_) => {
            text.push_str(replace_symbol(is_late))?;
            write!(text, "{address} (destroy)")
        }
        Step::Destroy(_) => write!(text, "- {address}"),
        Step::DestroyDeposed(key, _) => write!(text, "- {address} (deposed {key})"),
    }
}

/// Adds a line for each edge.
fn push_edges(text: &mut String, edges: &[(usize, usize)]) -> Result<(), AllocError>
    ensures { OnOk result (string_bytes text.new ≡ string_bytes text.old ++ flat_map edge_line edges.now) }
{
    for (from, to) in edges {
        write!(text, "    {from} -> {to}\n")?;
    }
    Ok(())
}
