//! What needed what when it was made, as a state has stored it.

ghost use Rattle.std.specs.Prelude.{◌≡◌, ◌≤◌, IfOk};
ghost use Rattle.tf_graph.specs.Closure.{reaches};
ghost use Rattle.tf_graph.specs.Digraph.{IsWithin};
ghost use Rattle.tf_plan_order.specs.Stored.{IsStored, turned};

use std::alloc::{AllocError, Global};
use tf_graph::{Closure, Graph, MAX_NODES};

/// What needed what when it was made, by the dependencies that a state has stored. Resources are numbers.
#[derive(Drop)]
pub struct StoredDependencies {
    graph: Graph,
    table: Closure,
}

impl StoredDependencies {
    /// Builds the relation for the given number of resources, from pairs of a resource and one that its objects are
    /// stored to depend on. Cycles, duplicates and self-edges are allowed.
    ///
    /// # Errors
    ///
    /// Fails only if memory runs out.
    pub fn new(
        alloc: Global,
        resources: usize,
        dependencies: &[(usize, usize)],
    ) -> Result<StoredDependencies, AllocError>
        requires few { resources ≤ MAX_NODES }
        requires within { IsWithin resources dependencies.now }
        ensures { IfOk result (λ stored. IsStored resources dependencies.now stored) }
    {
        let edges = turn(alloc, dependencies)?;
        let graph = Graph::of(alloc, resources, edges)?;
        let table = graph.closure(alloc)?;
        Ok(StoredDependencies { graph, table })
    }

    /// Checks whether a resource needed another when it was made.
    pub fn needed(&self, resource: usize, other: usize) -> bool
        ensures { result ≡ reaches self.now.table other resource }
    {
        self.table.reaches(other, resource)
    }

    /// Returns the graph of these dependencies, which leads from what was needed to what needed it.
    pub fn graph(&self) -> &Graph
        ensures { result.now ≡ self.now.graph }
    {
        &self.graph
    }

    /// Returns a table of what needed what, directly or through others. It leads from what was needed to what needed
    /// it.
    pub fn table(&self) -> &Closure
        ensures { result.now ≡ self.now.table }
    {
        &self.table
    }
}

/// Returns each pair the other way round.
fn turn(alloc: Global, pairs: &[(usize, usize)]) -> Result<Vec<(usize, usize)>, AllocError>
    ensures { IfOk result (λ edges. edges.items ≡ turned pairs.now) }
{
    let mut edges = Vec::with_capacity(alloc, pairs.len())?;
    for (from, to) in pairs {
        edges.push((*to, *from))?;
    }
    Ok(edges)
}
