//! Proved callers of the functions with a precondition that only tests call.
#![tactic(auto)]

#[cfg(test)]
mod claims;
#[cfg(test)]
mod states;
