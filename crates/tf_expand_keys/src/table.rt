//! The values of all names of a configuration at a stage.

ghost use Rattle.std.specs.Prelude.{◌≡◌, ◌<◌, ℕ, IfOk, None, if◌then◌else◌, is_some, length, Contains};
ghost use Rattle.tf_config_data.specs.Names.{directly_before, meant_at};
ghost use Rattle.tf_graph.specs.Order.{IsInOrder};
ghost use Rattle.tf_graph.specs.Solutions.{seen_by};
ghost use Rattle.tf_config_names.specs.Needs.{order_in};
ghost use Rattle.tf_config_names.specs.Table.{names_in};
ghost use Rattle.tf_value_data.specs.Tree.{entries_view};
ghost use Rattle.tf_expand_keys.specs.Kept.{AreClosed, AreResolved, OnlyWanted};
ghost use Rattle.tf_expand_keys.specs.StandingLaws.{IsLocal};
ghost use Rattle.tf_expand_keys.specs.Resolved.{ResolvedView, all_stand as all_that_stand, environment, stands_at, where_all};
ghost use Rattle.tf_expand_keys.specs.Views.{resolved_of, resolved_names_of};

use crate::marks::is_marked;
use crate::resolved::{Resolved, evaluated};
use crate::scope::NamesScope;
use crate::stage::{ResourceInScope, ResourceValues};
use std::alloc::{AllocError, Global};
use std::collections::BTreeMap;
use std::marker::Model;
use tf_config_names::{Declaration, Declarations, Dependence};
use tf_value_data::Value;

/// The parts of a module.
#[derive(Drop)]
pub struct ModuleParts<'a, 'n> {
    /// The variables' values by name.
    pub variables: &'a BTreeMap<String, Value>,
    /// The names of locals and resources.
    pub names: &'a Declarations<'n>,
    /// Which of them needs which.
    pub dependence: &'a Dependence,
}

/// The names that a configuration declares, and the values of its variables. This type's invariant (`IsModule`) says
/// that the dependence is that of these names, and that no name needs itself. So a function that takes a module need
/// not require this. Contracts see the parts.
#[derive(Drop)]
pub struct Module<'a, 'n> {
    /// The parts.
    pub parts: ModuleParts<'a, 'n>,
}

impl<'a, 'n> Model for Module<'a, 'n> {
    ghost use Rattle.tf_expand_keys.specs.Module.{IsModule};
    ghost use Rattle.tf_expand_keys.specs.contracts.table.ModuleParts as held;
    ghost use Rattle.tf_expand_keys.specs.declared.table.ModuleParts.{ModuleParts};
    ghost use denote.Signature.{static_lft};

    ghost Value = { ModuleParts };

    ghost coded = { (held.the_row static_lft static_lft).coded };

    ghost view = { λ m. m.parts };

    ghost invariant = { λ m. IsModule m.parts };
}

/// Resolves the wanted names at a stage. The result is indexed by place, and a name that isn't wanted is `Nothing`.
/// Each wanted local is evaluated once, and no other local is evaluated. `wanted` marks places. If it marks a name, it
/// has to mark all that the name needs.
///
/// # Errors
///
/// Fails only if memory runs out.
pub fn resolved_names<T: ResourceValues>(
    alloc: Global,
    stage: &T,
    declared: &Module,
    wanted: &[bool],
) -> Result<Vec<Resolved>, AllocError>
    requires local { IsLocal (T.stage stage.now) }
    requires closed { AreClosed (names_in declared.now.names.now) wanted.now }
    ensures resolved_names { IfOk result (λ kept. AreResolved (T.stage stage.now) (entries_view declared.now.variables.now.entries)
        (names_in declared.now.names.now) (order_in declared.now.dependence.now) wanted.now (resolved_names_of kept.items)) }
    ensures only { IfOk result (λ kept. OnlyWanted wanted.now (resolved_names_of kept.items)) }
{
    resolved_in_order(
        alloc,
        stage,
        declared,
        declared.parts.dependence.order(),
        wanted,
    )
}

/// Resolves the wanted names in a list in which each name comes after all that it needs.
fn resolved_in_order<T: ResourceValues>(
    alloc: Global,
    stage: &T,
    declared: &Module,
    order: &[usize],
    wanted: &[bool],
) -> Result<Vec<Resolved>, AllocError>
    requires local { IsLocal (T.stage stage.now) }
    requires order { IsInOrder (directly_before (names_in declared.now.names.now)) order.now }
    requires within { (n : ℕ) → Contains order.now n → n < length (names_in declared.now.names.now) }
    requires closed { AreClosed (names_in declared.now.names.now) wanted.now }
    ensures resolved_names { IfOk result (λ kept. AreResolved (T.stage stage.now) (entries_view declared.now.variables.now.entries)
        (names_in declared.now.names.now) order.now wanted.now (resolved_names_of kept.items)) }
    ensures only { IfOk result (λ kept. OnlyWanted wanted.now (resolved_names_of kept.items)) }
{
    let mut kept = unresolved_names(alloc, declared.parts.names.len())?;
    for place in order {
        let is_wanted = is_marked(wanted, *place);
        let resolved = resolve_at(alloc, stage, declared, kept.as_slice(), *place, is_wanted)?;
        kept[*place] = resolved;
    }
    Ok(kept)
}

/// Returns `count` names that are `Nothing`.
///
/// # Errors
///
/// Fails only if memory runs out.
pub fn unresolved_names(alloc: Global, count: usize) -> Result<Vec<Resolved>, AllocError>
    ensures length { IfOk result (λ kept. length kept.items ≡ count) }
    ensures none { IfOk result (λ kept. (n : ℕ) → resolved_names_of kept.items n ≡ None) }
{
    let mut kept = Vec::with_capacity(alloc, count)?;
    for _ in 0..count {
        kept.push(Resolved::Nothing)?;
    }
    Ok(kept)
}

/// Resolves the name at a place by the names resolved so far. Returns `Nothing` if the name isn't wanted.
fn resolve_at<T: ResourceValues>(
    alloc: Global,
    stage: &T,
    declared: &Module,
    kept: &[Resolved],
    place: usize,
    is_wanted: bool,
) -> Result<Resolved, AllocError>
    requires place { place < length (names_in declared.now.names.now) }
    ensures { IfOk result (λ resolved. resolved_of resolved ≡ (if is_wanted
        then where_all (all_that_stand (seen_by (resolved_names_of kept.now) (directly_before (names_in declared.now.names.now) place)))
        (stands_at (T.stage stage.now) place (meant_at (names_in declared.now.names.now) place)
        (environment (entries_view declared.now.variables.now.entries) (names_in declared.now.names.now) (resolved_names_of kept.now)))
        else None)) }
{
    if !is_wanted || !all_stand(kept, declared.parts.dependence.before(place)) {
        return Ok(Resolved::Nothing);
    }
    resolved_at(alloc, stage, declared, kept, place)
}

/// Resolves the name at a place by the names resolved so far.
///
/// # Errors
///
/// Fails only if memory runs out.
pub fn resolved_at<T: ResourceValues>(
    alloc: Global,
    stage: &T,
    declared: &Module,
    kept: &[Resolved],
    place: usize,
) -> Result<Resolved, AllocError>
    requires { place < length (names_in declared.now.names.now) }
    ensures { IfOk result (λ resolved. resolved_of resolved ≡ stands_at (T.stage stage.now) place (meant_at (names_in declared.now.names.now) place)
        (environment (entries_view declared.now.variables.now.entries) (names_in declared.now.names.now) (resolved_names_of kept.now))) }
{
    let scope = NamesScope {
        variables: declared.parts.variables,
        names: declared.parts.names,
        resolved_names: kept,
    };
    match declared.parts.names.at(place) {
        Declaration::Local(_, expr) => evaluated(alloc, expr, &scope),
        Declaration::Resource(addr, block) => {
            let resource = ResourceInScope {
                place,
                addr,
                block,
                scope: &scope,
            };
            stage.resolve(alloc, &resource)
        }
    }
}

/// Checks whether each of these places resolves.
pub fn all_stand(kept: &[Resolved], places: &[usize]) -> bool
    ensures { result ≡ all_that_stand (seen_by (resolved_names_of kept.now) places.now) }
{
    for place in places {
        if !stands(kept, *place) {
            return false;
        }
    }
    true
}

/// Checks whether a place resolves.
fn stands(kept: &[Resolved], place: usize) -> bool
    ensures { result ≡ is_some (resolved_names_of kept.now place) }
{
    match kept.get(place) {
        Some(resolved) => resolved.is_there(),
        None => false,
    }
}
