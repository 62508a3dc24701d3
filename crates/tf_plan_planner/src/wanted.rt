//! The names that a plan evaluates.

ghost use Rattle.std.specs.List.{AllByRecursion};
ghost use Rattle.std.specs.Prelude.{◌≡◌, ◌<◌, ◌↔◌, ◌||◌, ◌⊎◌, ℕ, IfOk, true, false, length, replicate, Contains};
ghost use Rattle.tf_config_data.specs.Names.{places};
ghost use Rattle.tf_plan_data.specs.Words.{names_in};
ghost use Rattle.tf_graph.specs.NodeSet.{has};
ghost use Rattle.tf_plan_planner.specs.Wanted.{IsNamed, IsWanted};
ghost use Rattle.tf_expr_syntax.specs.ExprNames.{named_below};
ghost use Rattle.tf_expr_syntax.specs.ExprTree.{entries_view};

use std::alloc::{AllocError, Global};
use std::collections::BTreeMap;
use tf_config_names::Declarations;
use tf_expand_keys::{Module, is_marked, mark, needed_by, needed_by_resources, none_marked};
use tf_expr_syntax::Expr;

/// Returns for each place whether the name there is wanted: a resource or an output needs it.
pub(crate) fn wanted_names(
    alloc: Global,
    declared: &Module,
    outputs: &BTreeMap<String, Expr>,
) -> Result<Vec<bool>, AllocError>
    ensures { IfOk result (λ wanted. (n : ℕ) → n < length (names_in declared.now.names.now)
        → (has wanted.items n ≡ true) ↔ IsWanted (names_in declared.now.names.now) declared.now.dependence.now (entries_view outputs.now.entries) n) }
{
    let by_resources = needed_by_resources(alloc, declared)?;
    let named = named_by_outputs(alloc, declared.parts.names, outputs)?;
    let by_named = needed_by(alloc, declared.parts.dependence, named.as_slice())?;
    let mut wanted = Vec::with_capacity(alloc, declared.parts.names.len())?;
    for place in 0..declared.parts.names.len() {
        wanted.push(is_either(
            by_resources.as_slice(),
            named.as_slice(),
            by_named.as_slice(),
            place,
        ))?;
    }
    Ok(wanted)
}

/// Checks whether a place is marked in one of three lists.
fn is_either(one: &[bool], other: &[bool], third: &[bool], place: usize) -> bool
    ensures { result ≡ has one.now place || has other.now place || has third.now place }
{
    is_marked(one, place) || is_marked(other, place) || is_marked(third, place)
}

/// Returns for each place whether an output names the name there.
fn named_by_outputs(
    alloc: Global,
    names: &Declarations<'_>,
    outputs: &BTreeMap<String, Expr>,
) -> Result<Vec<bool>, AllocError>
    ensures { IfOk result (λ named. (n : ℕ) → (has named.items n ≡ true) ↔ IsNamed (names_in names.now) (entries_view outputs.now.entries) n) }
{
    let places = places_in_outputs(alloc, names, outputs)?;
    let mut named = none_marked(alloc, names.len())?;
    mark(named.as_mut_slice(), places.as_slice());
    Ok(named)
}

/// Returns the places of the names in outputs, once for each reference. What isn't declared is left out.
fn places_in_outputs(
    alloc: Global,
    names: &Declarations<'_>,
    outputs: &BTreeMap<String, Expr>,
) -> Result<Vec<usize>, AllocError>
    ensures { IfOk result (λ found. found.items ≡ places (names_in names.now) (named_below (entries_view outputs.now.entries))) }
{
    let mut found = Vec::new(alloc);
    for (_, expr) in outputs.iter() {
        let more = names.named_in(alloc, expr)?;
        found.extend_from_slice(more.as_slice())?;
    }
    Ok(found)
}
