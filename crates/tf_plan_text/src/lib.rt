//! The texts of a plan: the plan for the user, from any prior state, and its order as a graph for Graphviz. The graph
//! leaves out the edges that follow from others: it is the transitive reduction of the order.
#![tactic(auto)]

mod drawing;
mod quoting;
mod reducing;
mod rows;
mod shown;
mod text;

pub use drawing::dot_text;
pub use reducing::reduction;
pub use shown::show_value;
pub use text::{plan_text, show_summary};
