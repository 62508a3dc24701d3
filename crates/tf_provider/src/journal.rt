//! A journal with room for one entry an action, so that recording takes no memory.

ghost use Rattle.std.specs.Prelude.{◌≡◌, ◌<◌, ◌^◌, ◌∷◌, ◌++◌, [], false, IsTrue, length, replicate, All, MatchResult, IfOk, vec_capacity};
ghost use Rattle.std.specs.List.{list_all};
ghost use Rattle.tf_graph.specs.Digraph.{predecessors_of};
ghost use Rattle.tf_graph.specs.Order.{IsInOrder};
ghost use Rattle.tf_provider.specs.Entries.{IsAllowed, IsKept, Log, actions_of, entry_of, fault_of, follows, good_count, is_good, is_marked};

use crate::called::{Called, Recorded};
use std::alloc::{AllocError, Global};
use std::marker::Model;
use tf_graph::Graph;
use tf_provider_protocol::{Op, Verdict};

/// One call: the action, what the provider was asked to do, and the verdict on its reply.
#[derive(Clone, Copy, Debug, PartialEq, Eq)]
pub struct Entry {
    /// The action that was called.
    pub action: usize,
    /// What the provider was asked to do.
    pub op: Op,
    /// The verdict on the reply.
    pub verdict: Verdict,
}

/// Why a journal refuses to record a call.
#[derive(Clone, Copy, Debug, PartialEq, Eq)]
pub enum RecordFault {
    /// An action directly before this one isn't recorded.
    Early,
    /// This action is already recorded.
    Twice,
}

/// The calls of an apply in the order in which they were recorded. Contracts see a `Log`: the graph of the
/// actions, and the entries.
#[derive(Drop)]
pub struct Journal {
    graph: Graph,
    marks: Vec<bool>,
    entries: Vec<Entry>,
}

impl Model for Journal {
    ghost Value = { Log };

    ghost view = { λ j. record { graph = j.graph; entries = j.entries.items } };

    ghost invariant = { λ j. IsKept j.graph j.marks.items j.entries.items (vec_capacity j.entries) };
}

impl Journal {
    /// Returns a journal without entries, with space for one entry for each action of the graph. It keeps a copy of the graph, which shares
    /// the lists of edges. Fails only if memory runs out.
    pub fn with_room(alloc: Global, graph: &Graph) -> Result<Journal, AllocError>
        ensures graph { IfOk result (λ journal. journal.graph ≡ graph.now) }
        ensures empty { IfOk result (λ journal. journal.entries ≡ []) }
    {
        let marks = no_marks(alloc, graph.nodes())?;
        let entries = Vec::with_capacity(alloc, graph.nodes())?;
        let graph = graph.copy(alloc)?;
        Ok(Journal {
            graph,
            marks,
            entries,
        })
    }

    /// Adds a call's entry at the end, and returns the call as a recorded one. It allocates nothing. The action has to be one of
    /// the journal's graph.
    ///
    /// # Errors
    ///
    /// Returns the call and changes nothing: with `Early` if an action directly before its own isn't recorded, otherwise with
    /// `Twice` if its own is recorded.
    pub fn record(&mut self, called: Called) -> Result<Recorded, (Called, RecordFault)>
        requires { called.action < self.old.graph.nodes }
        ensures recorded { MatchResult result
            (λ recorded. (fault_of self.old called.action ≡ None) × (recorded ≡ called)
            × (self.new ≡ record self.old { entries = self.old.entries ++ entry_of called ∷ [] }))
            (λ refused. (fault_of self.old called.action ≡ Some refused.1) × (refused.0 ≡ called)
            × (self.new ≡ self.old)) }
        ensures allowed { IsAllowed self.new }
    {
        let action = called.action();
        if !all_marked(&self.marks, self.graph.predecessors(action)) {
            return Err((called, RecordFault::Early));
        }
        if self.marks[action] {
            return Err((called, RecordFault::Twice));
        }
        let entry = Entry {
            action,
            op: called.op(),
            verdict: called.verdict(),
        };
        self.marks[action] = true;
        self.entries.push(entry).unwrap();
        Ok(called.into_recorded())
    }

    /// Returns the entries in the order in which they were recorded.
    pub fn entries(&self) -> &[Entry]
        ensures entries { result.now ≡ self.now.entries }
        ensures allowed { IsAllowed self.now }
    {
        self.entries.as_slice()
    }

    /// Returns whether the entries follow the order of a graph: each entry comes after entries of all actions directly before
    /// its action. It allocates nothing. If the graph has the edges of the journal's own, the time is linear in the edges;
    /// otherwise it is the edges times the entries.
    pub fn follows(&self, graph: &Graph) -> bool
        ensures follows { IsTrue result → IsInOrder (predecessors_of graph.now) (actions_of self.now.entries) }
        ensures differs { result ≡ false → IsInOrder (predecessors_of graph.now) (actions_of self.now.entries) → ⊥ }
    {
        if self.graph.edges() == graph.edges() {
            return true;
        }
        follow_all(self.entries.as_slice(), graph.edges())
    }

    /// Returns the numbers of good creates, good updates and good destroys.
    pub fn totals(&self) -> (u32, u32, u32)
        ensures creates { result.0 ≡ good_count Op.Create self.now.entries }
        ensures updates { result.1 ≡ good_count Op.Update self.now.entries }
        ensures destroys { result.2 ≡ good_count Op.Destroy self.now.entries }
    {
        let entries = self.entries.as_slice();
        let creates = good_count(entries, Op::Create);
        let updates = good_count(entries, Op::Update);
        let destroys = good_count(entries, Op::Destroy);
        (creates, updates, destroys)
    }
}

/// Returns whether the entries follow each of these edges.
fn follow_all(entries: &[Entry], edges: &[(usize, usize)]) -> bool
    ensures { result ≡ list_all (follows (actions_of entries.now)) edges.now }
{
    for (first, second) in edges {
        if !follow(entries, *first, *second) {
            return false;
        }
    }
    true
}

/// Returns whether an entry of the second action, if there is one, comes after an entry of the first.
fn follow(entries: &[Entry], first: usize, second: usize) -> bool
    ensures { result ≡ follows (actions_of entries.now) (first, second) }
{
    for entry in entries {
        if entry.action == second {
            return false;
        }
        if entry.action == first {
            return true;
        }
    }
    true
}

/// Counts the entries that did `op` with a good verdict.
fn good_count(entries: &[Entry], op: Op) -> u32
    requires { length entries.now < 2 ^ 32 }
    ensures { result ≡ good_count op entries.now }
{
    entries.iter().filter(|entry| is_good(entry, op)).count() as u32
}

/// Returns whether an entry did `op` with a good verdict.
fn is_good(entry: &Entry, op: Op) -> bool
    ensures { result ≡ is_good op entry.now }
{
    entry.op == op && entry.verdict == Verdict::Good
}

/// Returns the marks of `count` actions, none of them set.
fn no_marks(alloc: Global, count: usize) -> Result<Vec<bool>, AllocError>
    ensures { IfOk result (λ marks. marks.items ≡ replicate count false) }
{
    vec![in alloc; false; count]
}

/// Returns whether all of these actions are marked.
fn all_marked(marks: &[bool], actions: &[usize]) -> bool
    requires { All (λ n. n < length marks.now) actions.now }
    ensures { result ≡ list_all (is_marked marks.now) actions.now }
{
    for action in actions {
        if !marks[*action] {
            return false;
        }
    }
    true
}
