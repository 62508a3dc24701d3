//! Finite directed graphs, and recursion over a graph without cycles.
#![tactic(auto)]

mod closure;
mod graph;
pub mod laws;
mod node_set;
mod strip;

pub use closure::Closure;
pub use graph::{Graph, GraphFault, MAX_NODES};
pub use node_set::NodeSet;
