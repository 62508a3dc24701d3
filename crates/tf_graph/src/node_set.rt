//! A set of nodes, one bit for each node.

ghost use Rattle.std.specs.Prelude.{◌≡◌, ◌≤◌, ◌<◌, ◌^◌, ◌==◌, ◌||◌, ℕ, false, length, slice_index, IfOk, IfSome, bit_or};
ghost use Rattle.tf_graph.specs.NodeSet.{has, bit_of, IsFirstFrom};

use std::alloc::{AllocError, Global};
use std::marker::Model;

/// A set of nodes below a count.
#[derive(Drop)]
pub struct NodeSet {
    count: usize,
    words: Vec<u64>,
}

impl Model for NodeSet {
    ghost use Rattle.std.specs.Prelude.{◌≡◌, ◌+◌, ◌/◌, Bool, List, length};
    ghost use Rattle.tf_graph.specs.NodeSet.{set_of_bits};

    ghost Value = { List Bool };

    ghost view = { λ s. set_of_bits s.words.items s.count };

    ghost invariant = { λ s. length s.words.items ≡ s.count / 64 + 1 };
}

impl NodeSet {
    /// Returns the empty set of nodes below `count`.
    pub fn new(alloc: Global, count: usize) -> Result<NodeSet, AllocError>
        ensures length { IfOk result (λ set. length set ≡ count) }
        ensures members { IfOk result (λ set. (k : ℕ) → has set k ≡ false) }
    {
        let words = vec![in alloc; 0; count / 64 + 1]?;
        Ok(NodeSet { count, words })
    }

    /// Returns whether a node is a member.
    pub fn contains(&self, node: usize) -> bool
        requires { node < length self.now }
        ensures { result ≡ has self.now node }
    {
        (self.words[node / 64] >> (node % 64)) & 1 == 1
    }

    /// Adds a node.
    pub fn insert(&mut self, node: usize)
        requires { node < length self.old }
        ensures length { length self.new ≡ length self.old }
        ensures members { (k : ℕ) → has self.new k ≡ (has self.old k || (node == k)) }
    {
        let at = node / 64;
        let word = self.words[at];
        self.words[at] = word | (1 << (node % 64));
    }

    /// Adds all members of another set.
    pub fn add_all(&mut self, other: &NodeSet)
        requires { length self.old ≡ length other.now }
        ensures length { length self.new ≡ length self.old }
        ensures members { (k : ℕ) → has self.new k ≡ (has self.old k || has other.now k) }
    {
        add_bits(self.words.as_mut_slice(), other.words.as_slice());
    }

    /// Returns the first member at or after `from`, if there is one.
    pub fn first_from(&self, from: usize) -> Option<usize>
        ensures first { IsFirstFrom (has self.now) from result }
        ensures below { IfSome result (λ k. k < length self.now) }
    {
        let count = self.count;
        match next_bit(self.words.as_slice(), from) {
            Some(node) if node < count => Some(node),
            _ => None,
        }
    }
}

/// Returns the first bit at or after `from` that is set.
fn next_bit(words: &[u64], from: usize) -> Option<usize>
    requires { length words.now ≤ 2 ^ 58 }
    ensures { IsFirstFrom (bit_of words.now) from result }
{
    let at = from / 64;
    if at >= words.len() {
        return None;
    }
    let rest = words[at] >> (from % 64);
    if rest != 0 {
        return Some(from + rest.trailing_zeros() as usize);
    }
    for next in at + 1..words.len() {
        let word = words[next];
        if word != 0 {
            return Some(next * 64 + word.trailing_zeros() as usize);
        }
    }
    None
}

/// Sets each bit that is set in the other list, which has as many words.
fn add_bits(words: &mut [u64], others: &[u64])
    requires { length words.old ≡ length others.now }
    ensures { (i : ℕ) → slice_index words.new i ≡ bit_or (slice_index words.old i) (slice_index others.now i) }
{
    for i in 0..words.len() {
        words[i] |= others[i];
    }
}
