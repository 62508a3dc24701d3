//! Which node of a graph reaches which.

ghost use Rattle.std.specs.Prelude.{◌≡◌, ◌≤◌, ◌<◌, ◌+◌, ◌++◌, ◌∷◌, [], ◌⊎◌, ℕ, true, false, List, length, All, IfOk, IfSome, OnOk, vec_len};
ghost use Rattle.tf_graph.specs.Digraph.{Digraph};
ghost use Rattle.tf_graph.specs.Path.{Reaches};
ghost use Rattle.tf_graph.specs.NodeSet.{has, IsFirstFrom};
ghost use Rattle.tf_graph.specs.Closure.{IsClosure, reaches};
ghost use Rattle.tf_graph.specs.Search.{row_of, missing, AreLong, IsSearch, IsTold, IsWalk, IsWide};

use crate::graph::Graph;
use crate::node_set::NodeSet;
use std::alloc::{AllocError, Global};
use std::marker::Model;

/// Which node of a graph reaches which, by one edge or more.
#[derive(Drop)]
pub struct Closure {
    rows: Vec<NodeSet>,
}

impl Model for Closure {
    ghost use Rattle.std.specs.Prelude.{length};
    ghost use Rattle.tf_graph.specs.Closure.{Table};
    ghost use Rattle.tf_graph.specs.Search.{AreLong};

    ghost Value = { Table };

    ghost view = { λ c. record { nodes = length c.rows.items; rows = c.rows.items } };

    ghost invariant = { λ c. AreLong (length c.rows.items) c.rows.items };
}

impl Closure {
    /// Returns the number of nodes of the graph.
    pub fn nodes(&self) -> usize
        ensures { result ≡ self.now.nodes }
    {
        self.rows.len()
    }

    /// Returns whether a path of one edge or more leads from one node to the other. A number that is no node reaches
    /// nothing, and nothing reaches it.
    pub fn reaches(&self, from: usize, to: usize) -> bool
        ensures { result ≡ reaches self.now from to }
    {
        let rows = &self.rows;
        from < rows.len() && to < rows.len() && rows[from].contains(to)
    }

    /// Returns the first node at or after `from` that a node reaches. Returns `None` if there is no such node, or if
    /// `node` is no node.
    pub fn first_reached(&self, node: usize, from: usize) -> Option<usize>
        ensures first { IsFirstFrom (reaches self.now node) from result }
        ensures nodes { IfSome result (λ k. (node < self.now.nodes) × (k < self.now.nodes)) }
    {
        if node < self.rows.len() {
            self.rows[node].first_from(from)
        } else {
            None
        }
    }
}

impl Graph {
    /// Computes which node reaches which, by one edge or more. Searches from each node and reuses the rows that are
    /// known already. The order of the searches affects only their cost. Fails only if memory runs out.
    pub fn closure(&self, alloc: Global) -> Result<Closure, AllocError>
        ensures { IfOk result (λ closure. IsClosure self.now closure) }
    {
        let nodes = self.nodes();
        let mut rows = empty_rows(alloc, nodes)?;
        let mut known = NodeSet::new(alloc, nodes)?;
        let order = finishing_order(alloc, self)?;
        for node in &order {
            fill(alloc, self, rows.as_mut_slice(), &mut known, *node)?;
        }
        for node in 0..nodes {
            fill(alloc, self, rows.as_mut_slice(), &mut known, node)?;
        }
        Ok(Closure { rows })
    }
}

/// Returns an empty set for each node.
fn empty_rows(alloc: Global, nodes: usize) -> Result<Vec<NodeSet>, AllocError>
    ensures count { IfOk result (λ rows. length rows.items ≡ nodes) }
    ensures long { IfOk result (λ rows. AreLong nodes rows.items) }
    ensures blank { IfOk result (λ rows. (a b : ℕ) → has (row_of rows.items a) b ≡ false) }
{
    let mut rows = Vec::with_capacity(alloc, nodes)?;
    for _ in 0..nodes {
        rows.push(NodeSet::new(alloc, nodes)?)?;
    }
    Ok(rows)
}

/// Computes the row of a node and marks it as known. The row of a node without successors stays empty.
fn fill(
    alloc: Global,
    graph: &Graph,
    rows: &mut [NodeSet],
    known: &mut NodeSet,
    node: usize,
) -> Result<(), AllocError>
    requires node { node < graph.now.nodes }
    requires told { IsTold graph.now rows.old known.old }
    ensures told { IsTold graph.now rows.new known.new }
    ensures done { OnOk result (has known.new node ≡ true) }
    ensures kept { (k : ℕ) → has known.old k ≡ true → has known.new k ≡ true }
{
    if known.contains(node) {
        return Ok(());
    }
    if graph.successors(node).is_empty() {
        known.insert(node);
        return Ok(());
    }
    let row = reached_from(alloc, &KnownRows { graph, rows, known }, node)?;
    rows[node] = row;
    known.insert(node);
    Ok(())
}

/// What is known of a graph: the rows of some of its nodes.
#[derive(Clone, Copy)]
struct KnownRows<'a> {
    graph: &'a Graph,
    rows: &'a [NodeSet],
    /// The nodes whose rows are known.
    known: &'a NodeSet,
}

/// The progress of a search from a node.
#[derive(Drop)]
struct Search {
    /// The nodes found so far that the start reaches.
    row: NodeSet,
    /// Nodes of the row whose own reached nodes are in the row too.
    settled: NodeSet,
    /// Nodes whose successors are still to be visited.
    pending: Vec<usize>,
}

/// Returns the nodes that a node reaches.
fn reached_from(alloc: Global, told: &KnownRows<'_>, node: usize) -> Result<NodeSet, AllocError>
    requires node { node < told.now.graph.now.nodes }
    requires told { IsTold told.now.graph.now told.now.rows.now told.now.known.now }
    ensures length { IfOk result (λ row. length row ≡ told.now.graph.now.nodes) }
    ensures found { IfOk result (λ row. (b : ℕ) → Reaches told.now.graph.now node b → has row b ≡ true) }
    ensures led { IfOk result (λ row. (b : ℕ) → has row b ≡ true → Reaches told.now.graph.now node b) }
{
    let nodes = told.graph.nodes();
    let row = NodeSet::new(alloc, nodes)?;
    let settled = NodeSet::new(alloc, nodes)?;
    let mut search = Search {
        row,
        settled,
        pending: Vec::new(alloc),
    };
    search.pending.push(node)?;
    while let Some(next) = search.pending.pop() {
        if !search.settled.contains(next) {
            visit(told, &mut search, next)?;
        }
    }
    Ok(search.row)
}

/// Visits the successors of a node.
fn visit(told: &KnownRows<'_>, search: &mut Search, node: usize) -> Result<(), AllocError>
    requires node { node < told.now.graph.now.nodes }
    requires told { IsTold told.now.graph.now told.now.rows.now told.now.known.now }
    requires wide { IsWide told.now.graph.now.nodes search.old.row search.old.settled }
    ensures wide { IsWide told.now.graph.now.nodes search.new.row search.new.settled }
    ensures search { OnOk result ((start : ℕ)
        → IsSearch told.now.graph.now start search.old.row search.old.settled (search.old.pending.items ++ node ∷ [])
        → IsSearch told.now.graph.now start search.new.row search.new.settled search.new.pending.items) }
    ensures smaller { OnOk result (missing search.new.row told.now.graph.now.nodes + vec_len search.new.pending
        ≤ missing search.old.row told.now.graph.now.nodes + vec_len search.old.pending) }
{
    for next in told.graph.successors(node) {
        reach(told, search, *next)?;
    }
    Ok(())
}

/// Adds a reached node to the search.
fn reach(told: &KnownRows<'_>, search: &mut Search, node: usize) -> Result<(), AllocError>
    requires node { node < told.now.graph.now.nodes }
    requires told { IsTold told.now.graph.now told.now.rows.now told.now.known.now }
    requires wide { IsWide told.now.graph.now.nodes search.old.row search.old.settled }
    ensures wide { IsWide told.now.graph.now.nodes search.new.row search.new.settled }
    ensures search { OnOk result ((start : ℕ) (rest : List ℕ) → Reaches told.now.graph.now start node
        → IsSearch told.now.graph.now start search.old.row search.old.settled (search.old.pending.items ++ rest)
        → IsSearch told.now.graph.now start search.new.row search.new.settled (search.new.pending.items ++ rest)
        × (has search.new.row node ≡ true)) }
    ensures kept { OnOk result ((k : ℕ) → has search.old.row k ≡ true → has search.new.row k ≡ true) }
    ensures smaller { OnOk result (missing search.new.row told.now.graph.now.nodes + vec_len search.new.pending
        ≤ missing search.old.row told.now.graph.now.nodes + vec_len search.old.pending) }
{
    if search.settled.contains(node) {
        return Ok(());
    }
    if told.known.contains(node) {
        let row = &told.rows[node];
        search.row.insert(node);
        search.row.add_all(row);
        search.settled.insert(node);
        search.settled.add_all(row);
        return Ok(());
    }
    if !search.row.contains(node) {
        search.pending.push(node)?;
        search.row.insert(node);
    }
    Ok(())
}

/// A depth-first walk: its path, and the nodes that it has finished.
#[derive(Drop)]
struct Walk {
    seen: NodeSet,
    /// For each node, how many of its successors were visited.
    places: Vec<usize>,
    path: Vec<usize>,
    order: Vec<usize>,
}

/// Returns the nodes in the order in which a depth-first walk finishes them, so that most come after those that they
/// reach. Only the cost of a closure depends on this order.
fn finishing_order(alloc: Global, graph: &Graph) -> Result<Vec<usize>, AllocError>
    ensures { IfOk result (λ order. All (λ k. k < graph.now.nodes) order.items) }
{
    let nodes = graph.nodes();
    let seen = NodeSet::new(alloc, nodes)?;
    let places = vec![in alloc; 0; nodes]?;
    let mut walk = Walk {
        seen,
        places,
        path: Vec::new(alloc),
        order: Vec::with_capacity(alloc, nodes)?,
    };
    let steps = graph.edge_count().saturating_add(nodes);
    for root in 0..nodes {
        enter(&mut walk, root)?;
        for _ in 0..steps {
            if walk.path.is_empty() {
                break;
            }
            step(graph, &mut walk)?;
        }
    }
    Ok(walk.order)
}

/// Enters a node that was not seen before.
fn enter(walk: &mut Walk, node: usize) -> Result<(), AllocError>
    requires { node < length walk.old.seen }
    ensures walk { (nodes : ℕ) → IsWalk nodes walk.old.seen walk.old.places.items walk.old.path.items walk.old.order.items
        → IsWalk nodes walk.new.seen walk.new.places.items walk.new.path.items walk.new.order.items }
{
    if !walk.seen.contains(node) {
        walk.path.push(node)?;
        walk.seen.insert(node);
    }
    Ok(())
}

/// Moves on to the next successor of the path's last node, or finishes this node.
fn step(graph: &Graph, walk: &mut Walk) -> Result<(), AllocError>
    requires { IsWalk graph.now.nodes walk.old.seen walk.old.places.items walk.old.path.items walk.old.order.items }
    ensures { IsWalk graph.now.nodes walk.new.seen walk.new.places.items walk.new.path.items walk.new.order.items }
{
    let Some(node) = walk.path.last().copied() else {
        return Ok(());
    };
    let place = walk.places[node];
    match graph.successors(node).get(place) {
        Some(next) => {
            walk.places[node] = place + 1;
            enter(walk, *next)
        }
        None => {
            let _ = walk.path.pop();
            walk.order.push(node)?;
            Ok(())
        }
    }
}
