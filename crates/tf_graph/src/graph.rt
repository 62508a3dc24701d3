//! A finite directed graph, stored as the list of its edges and each node's neighbours.

ghost use Rattle.std.specs.Prelude.{◌≡◌, ◌<◌, ◌≤◌, ◌↔◌, ◌==◌, ◌++◌, ◌∷◌, [], ℕ, length, All, Some, IfOk, OnOk, IsErrOf, MatchBool, if◌then◌else◌};
ghost use Rattle.tf_graph.specs.Digraph.{Digraph, IsWithin, HasOutside, sources_into, targets_from, predecessors_of, successors_of};
ghost use Rattle.tf_graph.specs.Lists.{row};

use std::alloc::{AllocError, Global};
use std::marker::Model;
use std::sync::Arc;

/// The most nodes that a graph may have.
pub const MAX_NODES: usize = 8000;

/// Why no graph is built.
#[derive(Clone, Copy, Debug, PartialEq, Eq, Hash)]
pub enum GraphFault {
    /// There are more than `MAX_NODES` nodes.
    TooMany,
    /// An edge has an end that is no node.
    OutOfRange,
    /// Memory ran out.
    OutOfMemory,
}

/// A finite directed graph: a number of nodes, and a list of edges. An edge `(a, b)` says that `a` is before `b`.
/// Self-loops are edges like any other, and the list may repeat an edge.
#[derive(Drop)]
pub struct Graph {
    lists: Arc<Lists>,
}

/// What a graph and its copies share: the number of nodes, the edges, and for each node the sources of the edges into
/// it and the targets of those out of it.
#[derive(Drop)]
struct Lists {
    nodes: usize,
    edges: Vec<(usize, usize)>,
    before: Vec<Vec<usize>>,
    after: Vec<Vec<usize>>,
}

impl Model for Graph {
    ghost use Rattle.tf_graph.specs.Digraph.{Digraph};
    ghost use Rattle.tf_graph.specs.Lists.{IsBuilt};

    ghost Value = { Digraph };

    ghost view = { λ g. record { nodes = g.lists.value.nodes; edges = g.lists.value.edges.items } };

    ghost invariant = { λ g. let l = g.lists.value in
        IsBuilt l.nodes l.edges.items l.before.items l.after.items };
}

impl Graph {
    /// Builds the graph of `nodes` nodes, numbered from 0, with the given edges.
    ///
    /// # Errors
    ///
    /// Fails with `TooMany` if there are more than `MAX_NODES` nodes. Otherwise fails with `OutOfRange` if an edge
    /// has an end that is no node. Fails with `OutOfMemory` if memory runs out.
    pub fn new(alloc: Global, nodes: usize, edges: &[(usize, usize)]) -> Result<Graph, GraphFault>
        ensures graph { IfOk result (λ g. (g.nodes ≡ nodes) × (g.edges ≡ edges.now)) }
        ensures within { OnOk result (IsWithin nodes edges.now) }
        ensures too_many { IsErrOf result GraphFault.TooMany ↔ (MAX_NODES < nodes) }
        ensures out_of_range { IsErrOf result GraphFault.OutOfRange
            ↔ ((nodes ≤ MAX_NODES) × HasOutside nodes edges.now) }
    {
        if nodes > MAX_NODES {
            return Err(GraphFault::TooMany);
        }
        if !is_within(nodes, edges) {
            return Err(GraphFault::OutOfRange);
        }
        let Ok(edges) = Vec::from_slice(alloc, edges) else {
            return Err(GraphFault::OutOfMemory);
        };
        Graph::of(alloc, nodes, edges).map_err(|_| GraphFault::OutOfMemory)
    }

    /// Builds the graph of `nodes` nodes, numbered from 0, with edges whose ends are nodes. Fails only if memory runs
    /// out.
    pub fn of(alloc: Global, nodes: usize, edges: Vec<(usize, usize)>) -> Result<Graph, AllocError>
        requires few { nodes ≤ MAX_NODES }
        requires within { IsWithin nodes edges.items }
        ensures { IfOk result (λ g. (g.nodes ≡ nodes) × (g.edges ≡ edges.items)) }
    {
        let (before, after) = neighbours(alloc, nodes, edges.as_slice())?;
        let lists = Lists {
            nodes,
            edges,
            before,
            after,
        };
        let lists = Arc::new(alloc, lists)?;
        Ok(Graph { lists })
    }

    /// Returns an equal graph. The copy shares the lists with this graph, so nothing is allocated. Fails only if
    /// there are more copies than can be counted.
    pub fn copy(&self, _alloc: Global) -> Result<Graph, AllocError>
        ensures { IfOk result (λ copy. copy ≡ self.now) }
    {
        Ok(Graph {
            lists: Arc::try_clone(&self.lists)?,
        })
    }

    /// Returns the number of nodes.
    pub fn nodes(&self) -> usize
        ensures count { result ≡ self.now.nodes }
        ensures few { result ≤ MAX_NODES }
        ensures within { IsWithin self.now.nodes self.now.edges }
    {
        self.lists.nodes
    }

    /// Returns the number of edges, counted with repetition.
    pub fn edge_count(&self) -> usize
        ensures { result ≡ length self.now.edges }
    {
        self.lists.edges.len()
    }

    /// Returns the edges in the order in which they were given.
    pub fn edges(&self) -> &[(usize, usize)]
        ensures edges { result.now ≡ self.now.edges }
        ensures within { IsWithin self.now.nodes self.now.edges }
    {
        self.lists.edges.as_slice()
    }

    /// Returns the nodes directly before a node, one for each edge, in the order of the edges.
    pub fn predecessors(&self, node: usize) -> &[usize]
        requires { node < self.now.nodes }
        ensures nodes { result.now ≡ predecessors_of self.now node }
        ensures within { All (λ k. k < self.now.nodes) result.now }
    {
        self.lists.before[node].as_slice()
    }

    /// Returns the nodes directly after a node, one for each edge, in the order of the edges.
    pub fn successors(&self, node: usize) -> &[usize]
        requires { node < self.now.nodes }
        ensures nodes { result.now ≡ successors_of self.now node }
        ensures within { All (λ k. k < self.now.nodes) result.now }
    {
        self.lists.after[node].as_slice()
    }
}

/// Returns whether both ends of each edge are nodes.
fn is_within(nodes: usize, edges: &[(usize, usize)]) -> bool
    ensures { MatchBool result (IsWithin nodes edges.now) (HasOutside nodes edges.now) }
{
    for (from, to) in edges {
        if *from >= nodes || *to >= nodes {
            return false;
        }
    }
    true
}

/// Returns for each node the sources of the edges into it, and the targets of the edges out of it.
fn neighbours(
    alloc: Global,
    nodes: usize,
    edges: &[(usize, usize)],
) -> Result<(Vec<Vec<usize>>, Vec<Vec<usize>>), AllocError>
    requires { IsWithin nodes edges.now }
    ensures sources_length { IfOk result (λ both. length both.0.items ≡ nodes) }
    ensures sources { IfOk result (λ both. (n : ℕ) → row both.0.items n ≡ sources_into edges.now n) }
    ensures targets_length { IfOk result (λ both. length both.1.items ≡ nodes) }
    ensures targets { IfOk result (λ both. (n : ℕ) → row both.1.items n ≡ targets_from edges.now n) }
{
    let (mut before, mut after) = empty_neighbours(alloc, nodes, edges)?;
    for (from, to) in edges {
        add(&mut before, *to, *from)?;
        add(&mut after, *from, *to)?;
    }
    Ok((before, after))
}

/// Returns two empty lists for each node, with capacity for its predecessors and its successors.
fn empty_neighbours(
    alloc: Global,
    nodes: usize,
    edges: &[(usize, usize)],
) -> Result<(Vec<Vec<usize>>, Vec<Vec<usize>>), AllocError>
    requires { IsWithin nodes edges.now }
    ensures sources_length { IfOk result (λ both. length both.0.items ≡ nodes) }
    ensures sources { IfOk result (λ both. (n : ℕ) → row both.0.items n ≡ []) }
    ensures targets_length { IfOk result (λ both. length both.1.items ≡ nodes) }
    ensures targets { IfOk result (λ both. (n : ℕ) → row both.1.items n ≡ []) }
{
    let mut into = vec![in alloc; 0usize; nodes]?;
    let mut out_of = vec![in alloc; 0usize; nodes]?;
    for (from, to) in edges {
        count_one(&mut into, *to);
        count_one(&mut out_of, *from);
    }
    Ok((empty_lists(alloc, &into)?, empty_lists(alloc, &out_of)?))
}

/// Adds one to a count, unless it is the greatest number already.
fn count_one(counts: &mut [usize], at: usize)
    requires { at < length counts.old }
    ensures { length counts.new ≡ length counts.old }
{
    counts[at] = counts[at].saturating_add(1);
}

/// Returns an empty list for each count, with that capacity.
fn empty_lists(alloc: Global, counts: &[usize]) -> Result<Vec<Vec<usize>>, AllocError>
    ensures length { IfOk result (λ lists. length lists.items ≡ length counts.now) }
    ensures rows { IfOk result (λ lists. (n : ℕ) → row lists.items n ≡ []) }
{
    let mut lists = Vec::with_capacity(alloc, counts.len())?;
    for count in counts {
        let list = Vec::with_capacity(alloc, *count)?;
        lists.push(list)?;
    }
    Ok(lists)
}

/// Appends a node to one list.
fn add(lists: &mut [Vec<usize>], at: usize, node: usize) -> Result<(), AllocError>
    requires { at < length lists.old }
    ensures { OnOk result ((n : ℕ) → row lists.new n
        ≡ (if at == n then row lists.old n ++ node ∷ [] else row lists.old n)) }
{
    let list = &mut lists[at];
    list.push(node)?;
    Ok(())
}
