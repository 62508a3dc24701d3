//! The book of claims for one owner, which moves each action from free through taken to done.

ghost use Rattle.std.specs.List.{list_all};
ghost use Rattle.std.specs.Prelude.{◌≡◌, ◌<◌, IsTrue, true, false, replicate, length, All, MatchOption, MatchResult, IfOk};
ghost use Rattle.tf_claim.specs.Ledger.{IsKept, stage_in, is_done, is_taken, is_claimable, moved};

use crate::permit::{Finished, Permit};
use std::alloc::{AllocError, Global};
use std::marker::Model;
use tf_graph::Graph;

/// The stage of an action.
#[derive(Clone, Copy, Debug, PartialEq, Eq)]
pub enum Stage {
    /// The action isn't claimed.
    Free,
    /// The action is claimed, and not done.
    Taken,
    /// The action is done.
    Done,
}

/// The stage of each action of a graph. An action can be claimed once, when all actions directly before it are done.
/// Contracts see a `Ledger`: the graph, and the stages in the order of the actions.
#[derive(Drop)]
pub struct Book {
    graph: Graph,
    stages: Vec<Stage>,
}

impl Model for Book {
    ghost use Rattle.tf_claim.specs.Ledger.{Ledger, IsKept};

    ghost Value = { Ledger };

    ghost view = { λ book. record { graph = book.graph; stages = book.stages.items } };

    ghost invariant = { λ book. IsKept (record { graph = book.graph; stages = book.stages.items }) };
}

impl Book {
    /// Builds the book of a graph's actions, all of them free. It keeps its own copy of the graph.
    pub fn new(alloc: Global, graph: &Graph) -> Result<Book, AllocError>
        ensures graph { IfOk result (λ book. book.graph ≡ graph.now) }
        ensures free { IfOk result (λ book. book.stages ≡ replicate graph.now.nodes Stage.Free) }
    {
        let stages = all_free(alloc, graph.nodes())?;
        let graph = graph.copy(alloc)?;
        Ok(Book { graph, stages })
    }

    /// Returns the graph of the actions.
    pub fn graph(&self) -> &Graph
        ensures graph { result.now ≡ self.now.graph }
        ensures kept { IsKept self.now }
    {
        &self.graph
    }

    /// Returns whether an action is done.
    pub fn see(&self, action: usize) -> bool
        requires { action < self.now.graph.nodes }
        ensures done { result ≡ is_done (stage_in self.now.stages action) }
        ensures kept { IsKept self.now }
    {
        self.stages[action] == Stage::Done
    }

    /// Claims an action and returns its permit. Returns `None` if the action isn't free or an action directly before
    /// it isn't done, and then nothing changes.
    pub fn claim(&mut self, action: usize) -> Option<Permit>
        requires { action < self.old.graph.nodes }
        ensures claimed { MatchOption result
            ((is_claimable self.old action ≡ false) × (self.new ≡ self.old))
            (λ permit. (is_claimable self.old action ≡ true) × (permit ≡ action)
            × (self.new ≡ moved self.old action Stage.Taken)) }
        ensures kept { IsKept self.new }
    {
        if self.stages[action] != Stage::Free
            || !all_done(&self.stages, self.graph.predecessors(action))
        {
            return None;
        }
        self.stages[action] = Stage::Taken;
        Some(Permit::of(action))
    }

    /// Reports an action as done. Fails with what was passed in if the action isn't taken, and then nothing changes.
    pub fn finish(&mut self, finished: Finished) -> Result<(), Finished>
        ensures finished { MatchResult result
            (λ _. (is_taken (stage_in self.old.stages finished) ≡ true)
            × (self.new ≡ moved self.old finished Stage.Done))
            (λ back. (is_taken (stage_in self.old.stages finished) ≡ false)
            × (back ≡ finished) × (self.new ≡ self.old)) }
        ensures kept { IsKept self.new }
    {
        let action = finished.action();
        if !is_taken(&self.stages, action) {
            return Err(finished);
        }
        self.stages[action] = Stage::Done;
        finished.close();
        Ok(())
    }
}

/// Builds a list of the given number of free stages.
fn all_free(alloc: Global, count: usize) -> Result<Vec<Stage>, AllocError>
    ensures { IfOk result (λ stages. stages.items ≡ replicate count Stage.Free) }
{
    vec![in alloc; Stage::Free; count]
}

/// Returns whether an action is taken; false if there is no such action.
fn is_taken(stages: &[Stage], action: usize) -> bool
    ensures taken { result ≡ is_taken (stage_in stages.now action) }
    ensures within { IsTrue result → action < length stages.now }
{
    action < stages.len() && stages[action] == Stage::Taken
}

/// Checks that each of the given actions is done.
fn all_done(stages: &[Stage], actions: &[usize]) -> bool
    requires { All (λ n. n < length stages.now) actions.now }
    ensures { result ≡ list_all (λ n. is_done (stage_in stages.now n)) actions.now }
{
    for action in actions {
        if stages[*action] != Stage::Done {
            return false;
        }
    }
    true
}
