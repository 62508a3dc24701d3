//! The edges of a graph that don't follow from others.

ghost use Rattle.std.specs.Prelude.{◌≡◌, ◌<◌, ◌++◌, ◌∷◌, [], ℕ, length, not, filter, cond, IfOk, OnOk};
ghost use Rattle.tf_graph.specs.Digraph.{IsWithin};
ghost use Rattle.tf_graph.specs.Path.{IsAcyclic};
ghost use Rattle.tf_graph.specs.NodeSet.{has};
ghost use Rattle.tf_graph.specs.Search.{row_of, AreLong};
ghost use Rattle.tf_plan_text.specs.Reduction.{IsReduction, LeadsAlike, NoneFollows};
ghost use Rattle.tf_plan_text.specs.Beyond.{is_beyond, leads_beyond};

use crate::rows::all_rows;
use std::alloc::{AllocError, Global};
use tf_graph::{Graph, NodeSet};

/// Returns the edges of a graph without cycles that don't follow from others: no path of two edges or more leads from
/// the one end to the other. They are in the order of the graph's edges. From each node they lead to exactly the nodes
/// that all edges lead to, and without any one of them its ends aren't connected.
///
/// # Errors
///
/// Fails only if memory runs out.
pub fn reduction(alloc: Global, graph: &Graph) -> Result<Vec<(usize, usize)>, AllocError>
    requires { IsAcyclic graph.now }
    ensures exact { IfOk result (λ kept. IsReduction graph.now kept.items) }
    ensures alike { IfOk result (λ kept. LeadsAlike graph.now kept.items) }
    ensures free { IfOk result (λ kept. NoneFollows kept.items) }
{
    let closure = graph.closure(alloc)?;
    let rows = all_rows(alloc, &closure)?;
    let beyond = all_beyond(alloc, graph, rows.as_slice())?;
    direct_edges(alloc, graph.edges(), beyond.as_slice())
}

/// Returns for each node the nodes that its successors reach.
fn all_beyond(alloc: Global, graph: &Graph, rows: &[NodeSet]) -> Result<Vec<NodeSet>, AllocError>
    requires count { length rows.now ≡ graph.now.nodes }
    requires long { AreLong graph.now.nodes rows.now }
    ensures count { IfOk result (λ sets. length sets.items ≡ graph.now.nodes) }
    ensures long { IfOk result (λ sets. AreLong graph.now.nodes sets.items) }
    ensures beyond { IfOk result (λ sets. (a b : ℕ) → a < graph.now.nodes → has (row_of sets.items a) b ≡ is_beyond rows.now graph.now a b) }
{
    let nodes = graph.nodes();
    let mut sets = Vec::with_capacity(alloc, nodes)?;
    for node in 0..nodes {
        sets.push(beyond(alloc, graph, rows, node)?)?;
    }
    Ok(sets)
}

/// Returns the nodes that the successors of a node reach.
fn beyond(
    alloc: Global,
    graph: &Graph,
    rows: &[NodeSet],
    node: usize,
) -> Result<NodeSet, AllocError>
    requires node { node < graph.now.nodes }
    requires count { length rows.now ≡ graph.now.nodes }
    requires long { AreLong graph.now.nodes rows.now }
    ensures length { IfOk result (λ set. length set ≡ graph.now.nodes) }
    ensures beyond { IfOk result (λ set. (b : ℕ) → has set b ≡ is_beyond rows.now graph.now node b) }
{
    let mut set = NodeSet::new(alloc, graph.nodes())?;
    for next in graph.successors(node) {
        set.add_all(&rows[*next]);
    }
    Ok(set)
}

/// Returns the edges whose target isn't among the nodes that the successors of its source reach.
fn direct_edges(
    alloc: Global,
    edges: &[(usize, usize)],
    beyond: &[NodeSet],
) -> Result<Vec<(usize, usize)>, AllocError>
    requires within { IsWithin (length beyond.now) edges.now }
    requires long { AreLong (length beyond.now) beyond.now }
    ensures { IfOk result (λ kept. kept.items ≡ filter (λ e. not (leads_beyond beyond.now e)) edges.now) }
{
    let mut kept = Vec::new(alloc);
    for edge in edges {
        keep_if_direct(&mut kept, *edge, beyond)?;
    }
    Ok(kept)
}

/// Keeps an edge if its target isn't among the nodes that the successors of its source reach.
fn keep_if_direct(
    kept: &mut Vec<(usize, usize)>,
    edge: (usize, usize),
    beyond: &[NodeSet],
) -> Result<(), AllocError>
    requires source { edge.0 < length beyond.now }
    requires target { edge.1 < length beyond.now }
    requires long { AreLong (length beyond.now) beyond.now }
    ensures { OnOk result (kept.new.items ≡ kept.old.items ++ cond (not (leads_beyond beyond.now edge)) (edge ∷ []) []) }
{
    let (from, to) = edge;
    if !beyond[from].contains(to) {
        kept.push(edge)?;
    }
    Ok(())
}
