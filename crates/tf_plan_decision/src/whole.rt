//! The decisions about all instances.

ghost use Rattle.std.specs.Prelude.{◌≡◌, ◌≢◌, ◌<◌, ℕ, Contains, if◌then◌else◌, IfOk, None, OnOk, Some, length, map, slice_get};
ghost use Rattle.tf_config_data.specs.Names.{directly_before, meant_at};
ghost use Rattle.tf_plan_decision.specs.Collecting.{with_row};
ghost use Rattle.tf_plan_decision.specs.Deciding.{decided_of};
ghost use Rattle.tf_plan_decision.specs.Rows.{AreDecided, AreOnce, gathered, NeedsAreWanted, nothing_decided, row, rows_of};
ghost use Rattle.tf_plan_decision.specs.Stage.{deciding};
ghost use Rattle.tf_expand_keys.specs.Kept.{AreClosed};
ghost use Rattle.tf_expand_keys.specs.Resolved.{all_stand as all_that_stand, stands_at, where_all};
ghost use Rattle.tf_expand_keys.specs.Words.{entries_view, environment, has, AreResolved, IsInOrder, names_in, order_in, seen_by, shapes_of, resolved_of, resolved_names_of};
ghost use Rattle.tf_expr_eval.specs.ExprMeaning.{meaning as meaning_of};
ghost use Rattle.tf_expr_syntax.specs.ExprTree.{tree_of};
ghost use Rattle.tf_plan_order.specs.Table.{numbered_in};
ghost use Rattle.tf_state_data.specs.State.{state_of};

use crate::collecting::Decided;
use crate::planned_values::{Looked, PlannedValues, decide_block};
use std::alloc::{AllocError, Global};
use std::mem;
use tf_config_names::Declaration;
use tf_expand_keys::{
    InstanceKeys, Module, NamesScope, Resolved, ResourceInScope, all_stand, evaluated, is_marked,
    unresolved_names,
};
use tf_expr_eval::Scope;
use tf_expr_syntax::Expr;
use tf_plan_order::{ResourceIndex, ResourceRef};
use tf_provider_protocol::Provider;

/// The values of names, and the decisions about each, by their places.
#[derive(Drop)]
pub struct DecidedNames {
    /// The value of each wanted name.
    pub resolved_names: Vec<Resolved>,
    /// The decisions about the instances of each name.
    pub rows: Vec<Decided>,
}

/// Decides about the names of a configuration in the order of their dependence. Each instance is evaluated and decided
/// once, and the value of a wanted resource follows from these decisions. A block is decided only if nothing that it
/// needs was refused. `wanted` marks places. It has to mark all that a marked name needs, and all that a block needs.
///
/// # Errors
///
/// Fails only if memory runs out.
pub fn decide_in_order(
    alloc: Global,
    stage: &PlannedValues<'_>,
    declared: &Module,
    wanted: &[bool],
) -> Result<DecidedNames, AllocError>
    requires closed { AreClosed (names_in declared.now.names.now) wanted.now }
    requires needed { NeedsAreWanted (names_in declared.now.names.now) wanted.now }
    ensures resolved_names { IfOk result (λ r. AreResolved (deciding (map meaning stage.now.providers.now) (state_of stage.now.state.now).resources (shapes_of stage.now.shapes.now))
        (entries_view declared.now.variables.now.entries) (names_in declared.now.names.now) (order_in declared.now.dependence.now) wanted.now (resolved_names_of r.resolved_names.items)) }
    ensures rows { IfOk result (λ r. AreDecided (map meaning stage.now.providers.now) (state_of stage.now.state.now).resources (entries_view declared.now.variables.now.entries)
        (names_in declared.now.names.now) (shapes_of stage.now.shapes.now) (order_in declared.now.dependence.now) (rows_of r.rows.items)) }
{
    decide_in_topological_order(
        alloc,
        stage,
        declared,
        declared.parts.dependence.order(),
        wanted,
    )
}

/// Decides about the names in a list in which each comes after all that it needs.
fn decide_in_topological_order(
    alloc: Global,
    stage: &PlannedValues<'_>,
    declared: &Module,
    order: &[usize],
    wanted: &[bool],
) -> Result<DecidedNames, AllocError>
    requires order { IsInOrder (directly_before (names_in declared.now.names.now)) order.now }
    requires within { (n : ℕ) → Contains order.now n → n < length (names_in declared.now.names.now) }
    requires closed { AreClosed (names_in declared.now.names.now) wanted.now }
    requires needed { NeedsAreWanted (names_in declared.now.names.now) wanted.now }
    ensures resolved_names { IfOk result (λ r. AreResolved (deciding (map meaning stage.now.providers.now) (state_of stage.now.state.now).resources (shapes_of stage.now.shapes.now))
        (entries_view declared.now.variables.now.entries) (names_in declared.now.names.now) order.now wanted.now (resolved_names_of r.resolved_names.items)) }
    ensures rows { IfOk result (λ r. AreDecided (map meaning stage.now.providers.now) (state_of stage.now.state.now).resources (entries_view declared.now.variables.now.entries)
        (names_in declared.now.names.now) (shapes_of stage.now.shapes.now) order.now (rows_of r.rows.items)) }
{
    let mut kept = unresolved_names(alloc, declared.parts.names.len())?;
    let mut rows = no_rows(alloc, declared.parts.names.len())?;
    for place in order {
        let is_wanted = is_marked(wanted, *place);
        let looked = look_at(alloc, stage, declared, kept.as_slice(), *place, is_wanted)?;
        let Looked { resolved, decided } = looked;
        kept[*place] = resolved;
        rows[*place] = decided;
    }
    Ok(DecidedNames {
        resolved_names: kept,
        rows,
    })
}

/// Returns `count` places without decisions.
fn no_rows(alloc: Global, count: usize) -> Result<Vec<Decided>, AllocError>
    ensures { IfOk result (λ rows. length rows.items ≡ count) }
{
    let mut rows = Vec::with_capacity(alloc, count)?;
    for _ in 0..count {
        rows.push(Decided::nothing(alloc))?;
    }
    Ok(rows)
}

/// Resolves the name at a place and decides about it, by the names resolved so far. Returns nothing if something that
/// it needs was refused.
fn look_at(
    alloc: Global,
    stage: &PlannedValues<'_>,
    declared: &Module,
    kept: &[Resolved],
    place: usize,
    is_wanted: bool,
) -> Result<Looked, AllocError>
    requires place { place < length (names_in declared.now.names.now) }
    ensures resolved { IfOk result (λ looked. resolved_of looked.resolved ≡ (if is_wanted
        then where_all (all_that_stand (seen_by (resolved_names_of kept.now) (directly_before (names_in declared.now.names.now) place)))
        (stands_at (deciding (map meaning stage.now.providers.now) (state_of stage.now.state.now).resources (shapes_of stage.now.shapes.now)) place (meant_at (names_in declared.now.names.now) place)
        (environment (entries_view declared.now.variables.now.entries) (names_in declared.now.names.now) (resolved_names_of kept.now)))
        else None)) }
    ensures decided { IfOk result (λ looked. decided_of looked.decided
        ≡ row (map meaning stage.now.providers.now) (state_of stage.now.state.now).resources (entries_view declared.now.variables.now.entries) (names_in declared.now.names.now)
        (shapes_of stage.now.shapes.now) (resolved_names_of kept.now) place (meant_at (names_in declared.now.names.now) place)) }
{
    if !all_stand(kept, declared.parts.dependence.before(place)) {
        return Ok(nothing_looked_at(alloc));
    }
    let scope = NamesScope {
        variables: declared.parts.variables,
        names: declared.parts.names,
        resolved_names: kept,
    };
    match declared.parts.names.at(place) {
        Declaration::Local(_, expr) => look_at_local(alloc, expr, &scope, is_wanted),
        Declaration::Resource(addr, block) => {
            let resource = ResourceInScope {
                place,
                addr,
                block,
                scope: &scope,
            };
            match stage.shapes.get(place) {
                Some(shape) => decide_block(alloc, stage, &resource, shape, is_wanted),
                None => decide_block(alloc, stage, &resource, &InstanceKeys::One, is_wanted),
            }
        }
    }
}

/// Returns no value and no decisions.
fn nothing_looked_at(alloc: Global) -> Looked
    ensures resolved { resolved_of result.resolved ≡ None }
    ensures decided { decided_of result.decided ≡ nothing_decided }
{
    Looked {
        resolved: Resolved::Nothing,
        decided: Decided::nothing(alloc),
    }
}

/// Resolves a local. It has no instances, and it isn't evaluated if it isn't wanted.
fn look_at_local<S: Scope>(
    alloc: Global,
    expr: &Expr,
    scope: &S,
    is_wanted: bool,
) -> Result<Looked, AllocError>
    ensures resolved { IfOk result (λ looked. resolved_of looked.resolved ≡ (if is_wanted then Some (meaning_of (S.environment scope.now) (tree_of expr.now)) else None)) }
    ensures decided { IfOk result (λ looked. decided_of looked.decided ≡ nothing_decided) }
{
    if !is_wanted {
        return Ok(nothing_looked_at(alloc));
    }
    Ok(Looked {
        resolved: evaluated(alloc, expr, scope)?,
        decided: Decided::nothing(alloc),
    })
}

/// Collects the decisions in the order of places, each of which occurs once. It moves the decisions about names, and
/// decides that orphans are destroyed or refused.
///
/// # Errors
///
/// Fails only if memory runs out.
pub fn gather(
    alloc: Global,
    rows: Vec<Decided>,
    resource_index: &ResourceIndex<'_>,
    providers: &[Box<dyn Provider + Sync>],
    order: &[usize],
) -> Result<Decided, AllocError>
    requires { AreOnce order.now }
    ensures { IfOk result (λ d. decided_of d ≡ gathered (map meaning providers.now) (rows_of rows.items) (numbered_in resource_index.now) order.now) }
{
    let mut left = rows;
    let mut decided = Decided::nothing(alloc);
    for place in order {
        add_place(
            alloc,
            &mut decided,
            &mut left,
            resource_index,
            providers,
            *place,
        )?;
    }
    Ok(decided)
}

/// Adds the decisions about the name or orphan at a place, if there is one.
fn add_place(
    alloc: Global,
    decided: &mut Decided,
    rows: &mut Vec<Decided>,
    resource_index: &ResourceIndex<'_>,
    providers: &[Box<dyn Provider + Sync>],
    place: usize,
) -> Result<(), AllocError>
    ensures decided { OnOk result (decided_of decided.new
        ≡ with_row (map meaning providers.now) (rows_of rows.old.items) place (slice_get (numbered_in resource_index.now) place) (decided_of decided.old)) }
    ensures others { OnOk result ((n : ℕ) → n ≢ place → rows_of rows.new.items n ≡ rows_of rows.old.items n) }
{
    if place >= resource_index.len() {
        return Ok(());
    }
    match resource_index.at(place) {
        ResourceRef::Name(_) => decided.append(take_row(alloc, rows, place)),
        ResourceRef::Orphan(orphan) => decided.add_orphan(alloc, place, orphan, providers),
    }
}

/// Returns the decisions at an index, and leaves none there.
fn take_row(alloc: Global, rows: &mut Vec<Decided>, place: usize) -> Decided
    ensures taken { decided_of result ≡ rows_of rows.old.items place }
    ensures others { (n : ℕ) → n ≢ place → rows_of rows.new.items n ≡ rows_of rows.old.items n }
{
    if place >= rows.len() {
        return Decided::nothing(alloc);
    }
    mem::replace(&mut rows[place], Decided::nothing(alloc))
}
