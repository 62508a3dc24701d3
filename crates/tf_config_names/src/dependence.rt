//! Which name of a configuration needs which.

ghost use Rattle.std.specs.List.{AllByRecursion};
ghost use Rattle.std.specs.Prelude.{◌≡◌, ◌≤◌, ◌<◌, ◌++◌, ℕ, IfOk, OnOk, length, map, slice_index_or, string_bytes, false};
ghost use Rattle.tf_config_data.specs.Config.{config_of};
ghost use Rattle.tf_config_data.specs.Names.{directly_before, names_of, place_of};
ghost use Rattle.tf_graph.specs.Digraph.{sources_into};
ghost use Rattle.tf_config_names.specs.Declaration.{declaration_of};
ghost use Rattle.tf_config_names.specs.Edges.{edges_into};
ghost use Rattle.tf_config_names.specs.Needs.{before_in, is_referred_to, needs_in, order_in, IsDependence};
ghost use Rattle.tf_config_names.specs.Places.{found_in};
ghost use Rattle.tf_config_names.specs.Table.{names_in};
ghost use Rattle.tf_expr_syntax.specs.TemplateNames.{Pair};

use crate::declaration::Declaration;
use crate::places::Places;
use crate::table::{Declarations, declarations_of};
use std::alloc::{AllocError, Global};
use tf_config_data::Config;
use tf_graph::{Closure, Graph};

/// Which name of a configuration needs which, computed once. Names are given by their places, which are looked up here.
#[derive(Drop)]
pub struct Dependence {
    graph: Graph,
    order: Vec<usize>,
    table: Closure,
    places: Places,
}

impl Dependence {
    /// Computes which name of a configuration needs which.
    ///
    /// # Errors
    ///
    /// Fails only if memory runs out.
    pub fn new(alloc: Global, config: &Config) -> Result<Dependence, AllocError>
        requires { length (names_of (config_of config.now)) ≤ 8000 }
        ensures { IfOk result (λ d. IsDependence (names_of (config_of config.now)) d) }
    {
        let entries = declarations_of(alloc, config)?;
        let places = Places::of(alloc, entries.as_slice())?;
        let (nodes, edges) = direct_edges(alloc, entries, &places)?;
        let graph = Graph::of(alloc, nodes, edges)?;
        let order = graph.order(alloc)?;
        let table = graph.closure(alloc)?;
        Ok(Dependence {
            graph,
            order,
            table,
            places,
        })
    }

    /// Returns the places of the configuration's names.
    pub(crate) fn places(&self) -> &Places
        ensures { result.now ≡ self.now.places }
    {
        &self.places
    }

    /// Returns the graph of direct references. Its edges lead from a name to the names that refer to it.
    pub fn graph(&self) -> &Graph
        ensures { result.now ≡ self.now.graph }
    {
        &self.graph
    }

    /// Returns a table of what needs what, directly or through others. It leads from what is needed to what needs it.
    pub fn table(&self) -> &Closure
        ensures { result.now ≡ self.now.table }
    {
        &self.table
    }

    /// Checks whether the name at the first place needs the one at the other.
    pub fn needs(&self, name: usize, other: usize) -> bool
        ensures { result ≡ needs_in self.now name other }
    {
        self.table.reaches(other, name)
    }

    /// Returns places of names, each after all that the name there refers to. If no name needs itself, these are all
    /// places.
    pub fn order(&self) -> &[usize]
        ensures { result.now ≡ order_in self.now }
    {
        self.order.as_slice()
    }

    /// Returns the places of the names to which the name at `name` refers directly, once for each reference.
    pub fn before(&self, name: usize) -> &[usize]
        requires { name < self.now.graph.nodes }
        ensures { result.now ≡ before_in self.now name }
    {
        self.graph.predecessors(name)
    }

    /// Returns for each place whether the name at `name` needs the name there.
    ///
    /// # Errors
    ///
    /// Fails only if memory runs out.
    pub fn needed_by(&self, alloc: Global, name: usize) -> Result<Vec<bool>, AllocError>
        ensures length { IfOk result (λ needed. length needed.items ≡ self.now.table.nodes) }
        ensures needed { IfOk result (λ needed. (k : ℕ) → k < self.now.table.nodes
            → slice_index_or needed.items k false ≡ needs_in self.now name k) }
    {
        let mut needed = Vec::with_capacity(alloc, self.table.nodes())?;
        for other in 0..self.table.nodes() {
            needed.push(self.needs(name, other))?;
        }
        Ok(needed)
    }

    /// Returns for each place whether a name refers directly to the one there.
    ///
    /// # Errors
    ///
    /// Fails only if memory runs out.
    pub fn referred_to(&self, alloc: Global) -> Result<Vec<bool>, AllocError>
        ensures { IfOk result (λ referred. (k : ℕ) → k < self.now.graph.nodes
            → slice_index_or referred.items k false ≡ is_referred_to self.now k) }
    {
        let mut referred = Vec::with_capacity(alloc, self.graph.nodes())?;
        for name in 0..self.graph.nodes() {
            referred.push(is_referred_to(self, name))?;
        }
        Ok(referred)
    }
}

/// Checks whether a name refers directly to the one at a place.
fn is_referred_to(dependence: &Dependence, name: usize) -> bool
    requires { name < dependence.now.graph.nodes }
    ensures { result ≡ is_referred_to dependence.now name }
{
    match dependence.graph.successors(name) {
        [] => false,
        [_, ..] => true,
    }
}

/// Returns the number of names, and an edge to each from each that it refers to.
fn direct_edges(
    alloc: Global,
    entries: Vec<Declaration<'_>>,
    places: &Places,
) -> Result<(usize, Vec<(usize, usize)>), AllocError>
    requires { (pair : Pair) → found_in places.now pair ≡ place_of (map declaration_of entries.items) pair }
    ensures count { IfOk result (λ made. made.0 ≡ length (map declaration_of entries.entry.items)) }
    ensures within { IfOk result (λ made. AllByRecursion
        (λ e. (e.0 < length (map declaration_of entries.entry.items)) × (e.1 < length (map declaration_of entries.entry.items))) made.1.items) }
    ensures before { IfOk result (λ made. (n : ℕ)
        → sources_into made.1.items n ≡ directly_before (map declaration_of entries.entry.items) n) }
{
    let names = Declarations::placed(entries, places);
    let edges = edges_of(alloc, &names)?;
    Ok((names.len(), edges))
}

/// Builds an edge to each name from each that it refers to.
fn edges_of(alloc: Global, names: &Declarations<'_>) -> Result<Vec<(usize, usize)>, AllocError>
    ensures within { IfOk result (λ edges. AllByRecursion
        (λ e. (e.0 < length (names_in names.now)) × (e.1 < length (names_in names.now))) edges.items) }
    ensures before { IfOk result (λ edges. (n : ℕ)
        → sources_into edges.items n ≡ directly_before (names_in names.now) n) }
{
    let mut edges = Vec::new(alloc);
    for place in 0..names.len() {
        let before = names.before(alloc, place)?;
        add_edges(&mut edges, before.as_slice(), place)?;
    }
    Ok(edges)
}

/// Adds an edge from each source to the target.
fn add_edges(
    edges: &mut Vec<(usize, usize)>,
    sources: &[usize],
    target: usize,
) -> Result<(), AllocError>
    ensures { OnOk result (edges.new.items ≡ edges.old.items ++ edges_into target sources.now) }
{
    for source in sources {
        edges.push((*source, target))?;
    }
    Ok(())
}
