//! The expansion of a configuration.

ghost use Rattle.std.specs.Prelude.{◌≡◌, ◌<◌, ℕ, IfOk, Some, length, min};
ghost use Rattle.tf_expand_keys.specs.Words.{AreResolvedNames, directly_before, entries_view, expansion, meant_at, declaration_of, names_in, shape_of, shapes_of, resolved_names_of, ResolvedView, worked_out};
ghost use Rattle.tf_expand_keys.specs.Expanding.{expanded, instance_count, instances_before};
ghost use Rattle.tf_expand_keys.specs.Told.{AreNeededNamesResolved, Shapes, Tells};
ghost use Rattle.tf_expand_keys.specs.declared.expansion.ExpansionFault.TheVariants.{OutOfMemory};

use crate::needed::needed_by_resources;
use crate::repetition::{RepetitionFault, instances};
use crate::resolved::Resolved;
use crate::scope::NamesScope;
use crate::shape::InstanceKeys;
use crate::stage::Expansion;
use crate::table::{Module, all_stand, resolved_names};
use std::alloc::{AllocError, AllocFailed, Global};
use tf_config_names::{Declaration, Declarations};

/// The most instances that a configuration may have.
pub const MAX_INSTANCES: u64 = 2000;

/// Why the instances of a configuration can't be computed.
#[derive(Clone, Copy, Debug, PartialEq, Eq)]
pub enum ExpansionFault {
    /// Memory ran out.
    OutOfMemory,
    /// The first resource that is refused, given by the place of its name, and why.
    Resource(usize, RepetitionFault),
    /// There are more instances than `MAX_INSTANCES`.
    TooMany,
}

impl From<AllocError> for ExpansionFault {
    ghost from_gives = { λ _ fault. fault ≡ OutOfMemory };

    fn from(_error: AllocError) -> ExpansionFault {
        ExpansionFault::OutOfMemory
    }
}

impl<T: Drop> From<AllocFailed<T>> for ExpansionFault {
    ghost from_gives = { λ _ fault. fault ≡ OutOfMemory };

    fn from(_error: AllocFailed<T>) -> ExpansionFault {
        ExpansionFault::OutOfMemory
    }
}

/// Computes the instance keys of each resource, indexed by the place of its name.
///
/// # Errors
///
/// Fails with the first resource by address whose `count` or `for_each` is refused, among those that need no refused
/// resource, with `TooMany` if there are more instances than `MAX_INSTANCES`, and with `OutOfMemory`.
pub fn expand(alloc: Global, declared: &Module) -> Result<Vec<InstanceKeys>, ExpansionFault>
    ensures { (resolved_names : ℕ → ResolvedView)
        → AreResolvedNames expansion (entries_view declared.now.variables.now.entries) (names_in declared.now.names.now) resolved_names
        → Tells (λ shapes. shapes.items) (entries_view declared.now.variables.now.entries) (names_in declared.now.names.now) resolved_names result }
{
    let _ = &declared.parts;
    let kept = resolve_needed(alloc, declared)?;
    let shapes = shapes_by(alloc, declared, kept.as_slice())?;
    if count(declared.parts.names, shapes.as_slice()) > MAX_INSTANCES {
        return Err(ExpansionFault::TooMany);
    }
    Ok(shapes)
}

/// Resolves the names that resources need, in the expansion. No other name resolves: a local that no resource needs
/// isn't evaluated, and the objects of a resource to which no name refers aren't collected.
fn resolve_needed(alloc: Global, declared: &Module) -> Result<Vec<Resolved>, AllocError>
    ensures { IfOk result (λ kept. AreNeededNamesResolved (entries_view declared.now.variables.now.entries) (names_in declared.now.names.now) declared.now.dependence.now (resolved_names_of kept.items)) }
{
    let _ = &declared.parts;
    let wanted = needed_by_resources(alloc, declared)?;
    let kept = resolved_names(alloc, &Expansion, declared, wanted.as_slice())?;
    Ok(kept)
}

/// Returns the shape of each name, by the values of the names that it refers to, or the first name that is refused.
fn shapes_by(
    alloc: Global,
    declared: &Module,
    kept: &[Resolved],
) -> Result<Vec<InstanceKeys>, ExpansionFault>
    ensures { Shapes (λ shapes. shapes.items) (entries_view declared.now.variables.now.entries) (names_in declared.now.names.now) (resolved_names_of kept.now) result }
{
    let mut shapes = Vec::with_capacity(alloc, declared.parts.names.len())?;
    for place in 0..declared.parts.names.len() {
        match shape_at(alloc, declared, kept, place)? {
            Ok(shape) => shapes.push(shape)?,
            Err(why) => return Err(ExpansionFault::Resource(place, why)),
        }
    }
    Ok(shapes)
}

/// Returns the shape of the name at a place, or why it is refused.
fn shape_at(
    alloc: Global,
    declared: &Module,
    kept: &[Resolved],
    place: usize,
) -> Result<Result<InstanceKeys, RepetitionFault>, AllocError>
    requires place { place < length (names_in declared.now.names.now) }
    ensures { IfOk result (λ shape. worked_out shape
        ≡ expanded (entries_view declared.now.variables.now.entries) (names_in declared.now.names.now) (resolved_names_of kept.now) place) }
{
    if !all_stand(kept, declared.parts.dependence.before(place)) {
        return Ok(Ok(InstanceKeys::One));
    }
    match declared.parts.names.at(place) {
        Declaration::Local(_, _) => Ok(Ok(InstanceKeys::One)),
        Declaration::Resource(_, block) => {
            let scope = NamesScope {
                variables: declared.parts.variables,
                names: declared.parts.names,
                resolved_names: kept,
            };
            instances(alloc, &block.repetition, &scope)
        }
    }
}

/// Counts the instances. Counts beyond the largest `u64` are returned as the largest `u64`.
fn count(names: &Declarations, shapes: &[InstanceKeys]) -> u64
    requires { length shapes.now ≡ length (names_in names.now) }
    ensures { result ≡ min (instances_before (names_in names.now) (shapes_of shapes.now) (length (names_in names.now))) 18446744073709551615 }
{
    let mut total: u64 = 0;
    for place in 0..names.len() {
        total = total.saturating_add(count_at(names.at(place), &shapes[place]));
    }
    total
}

/// Counts the instances of a name.
fn count_at(named: Declaration, shape: &InstanceKeys) -> u64
    ensures { result ≡ instance_count (Some (declaration_of named.entry).meant) (shape_of shape.now) }
{
    match named {
        Declaration::Local(_, _) => 0,
        Declaration::Resource(_, _) => match shape {
            InstanceKeys::One => 1,
            InstanceKeys::Many(count) => *count,
            InstanceKeys::Named(names) => names.len() as u64,
        },
    }
}
