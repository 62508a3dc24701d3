//! The nodes that each node of a graph reaches, as sets.

ghost use Rattle.std.specs.Prelude.{◌≡◌, ◌<◌, ℕ, length, IfOk};
ghost use Rattle.tf_graph.specs.Closure.{reaches};
ghost use Rattle.tf_graph.specs.NodeSet.{has};
ghost use Rattle.tf_graph.specs.Search.{row_of, AreLong};

use std::alloc::{AllocError, Global};
use tf_graph::{Closure, NodeSet};

/// Returns for each node the set of the nodes that it reaches.
pub(crate) fn all_rows(alloc: Global, closure: &Closure) -> Result<Vec<NodeSet>, AllocError>
    ensures count { IfOk result (λ rows. length rows.items ≡ closure.now.nodes) }
    ensures long { IfOk result (λ rows. AreLong closure.now.nodes rows.items) }
    ensures rows { IfOk result (λ rows. (a b : ℕ) → a < closure.now.nodes → has (row_of rows.items a) b ≡ reaches closure.now a b) }
{
    let nodes = closure.nodes();
    let mut rows = Vec::with_capacity(alloc, nodes)?;
    for node in 0..nodes {
        rows.push(row(alloc, closure, node)?)?;
    }
    Ok(rows)
}

/// Returns the nodes that a node reaches.
fn row(alloc: Global, closure: &Closure, node: usize) -> Result<NodeSet, AllocError>
    ensures length { IfOk result (λ set. length set ≡ closure.now.nodes) }
    ensures row { IfOk result (λ set. (b : ℕ) → has set b ≡ reaches closure.now node b) }
{
    let mut set = NodeSet::new(alloc, closure.nodes())?;
    let mut from = 0;
    while let Some(next) = closure.first_reached(node, from) {
        set.insert(next);
        from = next + 1;
    }
    Ok(set)
}
