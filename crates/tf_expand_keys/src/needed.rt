//! Which names are needed.

ghost use Rattle.std.specs.Prelude.{◌≡◌, ◌<◌, ◌↔◌, ℕ, IfOk, Some, true, length};
ghost use Rattle.tf_expand_keys.specs.Words.{has, meant_at, declaration_of, names_in};
ghost use Rattle.tf_expand_keys.specs.Needed.{is_resource, IsNeeded, IsNeededBy};

use crate::table::Module;
use std::alloc::{AllocError, Global};
use tf_config_names::{Declaration, Declarations, Dependence};

/// Returns for each place whether a resource needs the name there.
///
/// # Errors
///
/// Fails only if memory runs out.
pub fn needed_by_resources(alloc: Global, declared: &Module) -> Result<Vec<bool>, AllocError>
    ensures { IfOk result (λ needed. (n : ℕ) → n < length (names_in declared.now.names.now)
        → (has needed.items n ≡ true) ↔ IsNeeded (names_in declared.now.names.now) declared.now.dependence.now n) }
{
    let asking = resources(alloc, declared.parts.names)?;
    needed_by(alloc, declared.parts.dependence, asking.as_slice())
}

/// Returns for each place whether a marked name needs the name there.
///
/// # Errors
///
/// Fails only if memory runs out.
pub fn needed_by(
    alloc: Global,
    dependence: &Dependence,
    marked: &[bool],
) -> Result<Vec<bool>, AllocError>
    ensures { IfOk result (λ needed. (n : ℕ) → n < dependence.now.graph.nodes
        → (has needed.items n ≡ true) ↔ IsNeededBy (λ a. has marked.now a ≡ true) dependence.now n) }
{
    let count = dependence.graph().nodes();
    let mut needed = Vec::with_capacity(alloc, count)?;
    for place in 0..count {
        needed.push(is_needed(dependence, marked, place))?;
    }
    Ok(needed)
}

/// Checks whether a marked name needs the one at a place.
fn is_needed(dependence: &Dependence, marked: &[bool], place: usize) -> bool
    ensures { (result ≡ true) ↔ IsNeededBy (λ a. has marked.now a ≡ true) dependence.now place }
{
    let mut from = 0;
    while let Some(name) = dependence.table().first_reached(place, from) {
        if name >= marked.len() {
            return false;
        }
        if marked[name] {
            return true;
        }
        from = name + 1;
    }
    false
}

/// Returns for each place whether the name there is a resource.
fn resources(alloc: Global, names: &Declarations) -> Result<Vec<bool>, AllocError>
    ensures { IfOk result (λ found. (n : ℕ) → has found.items n ≡ is_resource (meant_at (names_in names.now) n)) }
{
    let mut found = Vec::with_capacity(alloc, names.len())?;
    for place in 0..names.len() {
        found.push(is_resource(names.at(place)))?;
    }
    Ok(found)
}

/// Checks whether a name is a resource.
fn is_resource(named: Declaration) -> bool
    ensures { result ≡ is_resource (Some (declaration_of named.entry).meant) }
{
    match named {
        Declaration::Local(_, _) => false,
        Declaration::Resource(_, _) => true,
    }
}
