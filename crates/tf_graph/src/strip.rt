//! The nodes that are left of a graph after repeatedly removing nodes without remaining predecessors.

ghost use Rattle.std.specs.Prelude.{◌≡◌, ◌≤◌, ◌<◌, ◌+◌, ◌-◌, ◌==◌, ◌++◌, ◌∷◌, [], ◌⊎◌, ℕ, Bool, true, List, length, replicate, IfOk, OnOk, vec_len, slice_index, slice_set, if◌then◌else◌};
ghost use Rattle.tf_graph.specs.Digraph.{predecessors_of, successors_of};
ghost use Rattle.tf_graph.specs.Strip.{IsStripped, IsWholeOrder};
ghost use Rattle.tf_graph.specs.Removal.{times, total, IsRemoval, IsTaken};

use crate::graph::Graph;
use std::alloc::{AllocError, Global};

impl Graph {
    /// Returns for each node whether it is left after repeatedly removing nodes without remaining predecessors. The
    /// nodes that are left are those that no order reaches.
    pub fn strip(&self, alloc: Global) -> Result<Vec<bool>, AllocError>
        ensures { IfOk result (λ left. IsStripped self.now left.items) }
    {
        let (left, _) = take_all(alloc, self)?;
        Ok(left)
    }

    /// Returns the nodes that such a removal takes, each once and after all nodes directly before it. If no node
    /// reaches itself, these are all nodes.
    pub fn order(&self, alloc: Global) -> Result<Vec<usize>, AllocError>
        ensures { IfOk result (λ order. IsWholeOrder self.now order.items) }
    {
        let (_, order) = take_all(alloc, self)?;
        Ok(order)
    }
}

/// Returns which nodes are left, and the removed nodes in order.
fn take_all(alloc: Global, graph: &Graph) -> Result<(Vec<bool>, Vec<usize>), AllocError>
    ensures left { IfOk result (λ both. IsStripped graph.now both.0.items) }
    ensures order { IfOk result (λ both. IsTaken graph.now both.0.items both.1.items) }
{
    let mut left = vec![in alloc; true; graph.nodes()]?;
    let mut order = Vec::with_capacity(alloc, graph.nodes())?;
    let mut removal = start(alloc, graph)?;
    while let Some(node) = removal.free.pop() {
        if !left[node] {
            continue;
        }
        left[node] = false;
        order.push(node)?;
        release(graph, &mut removal, node)?;
    }
    Ok((left, order))
}

/// How many predecessors of each node remain, and the nodes without a remaining predecessor.
#[derive(Drop)]
struct Removal {
    remaining: Vec<usize>,
    free: Vec<usize>,
}

/// Returns the removal before any node is removed.
fn start(alloc: Global, graph: &Graph) -> Result<Removal, AllocError>
    ensures { IfOk result (λ r. IsRemoval graph.now (replicate graph.now.nodes true) r.remaining.items r.free.items []) }
{
    let mut removal = Removal {
        remaining: Vec::new(alloc),
        free: Vec::new(alloc),
    };
    for node in 0..graph.nodes() {
        note(&mut removal, node, graph.predecessors(node).len())?;
    }
    Ok(removal)
}

/// Records how many nodes are directly before the next node.
fn note(removal: &mut Removal, node: usize, count: usize) -> Result<(), AllocError>
    ensures remaining { OnOk result (removal.new.remaining.items ≡ removal.old.remaining.items ++ count ∷ []) }
    ensures free { OnOk result (removal.new.free.items
        ≡ (if count == 0 then removal.old.free.items ++ node ∷ [] else removal.old.free.items)) }
{
    removal.remaining.push(count)?;
    if count == 0 {
        removal.free.push(node)?;
    }
    Ok(())
}

/// Counts a removed node off at each of its successors.
fn release(graph: &Graph, removal: &mut Removal, node: usize) -> Result<(), AllocError>
    requires node { node < graph.now.nodes }
    requires length { length removal.old.remaining.items ≡ graph.now.nodes }
    requires enough { (s : ℕ) → times s (successors_of graph.now node) ≤ slice_index removal.old.remaining.items s }
    ensures removal { OnOk result ((left : List Bool)
        → IsRemoval graph.now left removal.old.remaining.items removal.old.free.items (successors_of graph.now node)
        → IsRemoval graph.now left removal.new.remaining.items removal.new.free.items []) }
    ensures smaller { OnOk result (total removal.new.remaining.items + vec_len removal.new.free
        ≤ total removal.old.remaining.items + vec_len removal.old.free) }
{
    for next in graph.successors(node) {
        count_off(removal, *next)?;
    }
    Ok(())
}

/// Counts one predecessor of a node off.
fn count_off(removal: &mut Removal, node: usize) -> Result<(), AllocError>
    requires inside { node < length removal.old.remaining.items }
    requires some { 0 < slice_index removal.old.remaining.items node }
    ensures remaining { OnOk result (removal.new.remaining.items
        ≡ slice_set removal.old.remaining.items node (slice_index removal.old.remaining.items node - 1)) }
    ensures free { OnOk result (removal.new.free.items
        ≡ (if slice_index removal.old.remaining.items node == 1
        then removal.old.free.items ++ node ∷ [] else removal.old.free.items)) }
{
    let still = removal.remaining[node] - 1;
    removal.remaining[node] = still;
    if still == 0 {
        removal.free.push(node)?;
    }
    Ok(())
}
