//! The walk of one thread. It claims each action of a plan from a book, builds its request, calls its provider, and
//! keeps the result for the actions after it.
//!
//! It begins with a book, a journal and a list of results, which `tf_walk` allocates before the first call, and leaves
//! the result of each action in them.
#![tactic(auto)]

mod calls;
mod claims;
mod resolved_memo;
mod steps;
mod walking;

pub use walking::walk;
