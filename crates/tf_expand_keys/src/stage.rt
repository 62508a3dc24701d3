//! The stages of the engine.

ghost use Rattle.std.specs.Prelude.{◌≡◌, IfOk, Option, Some, option_map, ℕ};
ghost use Rattle.tf_config_data.specs.Words.{a_block, block_at, BlockView, instance_key_of, InstanceKeyView, addr_of, Tree, unknown};
ghost use Rattle.tf_value_data.specs.Tree.{tree_of};
ghost use Rattle.tf_expr_eval.specs.Environment.{Environment};
ghost use Rattle.tf_expand_keys.specs.Stages.{expansion, planning};
ghost use Rattle.tf_expand_keys.specs.Resolved.{ResourceValuesView, stands, together};
ghost use Rattle.tf_expand_keys.specs.Views.{shape_of, shapes_of, resolved_of};

use crate::collecting::{Keyed, collect_instances};
use crate::repetition::instances;
use crate::resolved::Resolved;
use crate::shape::InstanceKeys;
use std::alloc::{AllocError, Global};
use tf_config_address::{InstanceKey, ResourceAddr};
use tf_config_data::Block;
use tf_expr_eval::Scope;
use tf_expr_syntax::EvalFault;
use tf_value_data::Value;

/// A resource, and the scope of the references in its block.
#[derive(Drop)]
pub struct ResourceInScope<'a, S> {
    /// The place of its name.
    pub place: usize,
    /// Its address.
    pub addr: &'a ResourceAddr,
    /// Its block.
    pub block: &'a Block,
    /// The values of references.
    pub scope: &'a S,
}

/// A stage of the engine: how resources resolve.
pub trait ResourceValues {
    ghost stage: { Self → ResourceValuesView };

    /// Resolves a resource.
    ///
    /// # Errors
    ///
    /// Fails only if memory runs out.
    fn resolve<S: Scope>(
        &self,
        alloc: Global,
        resource: &ResourceInScope<'_, S>,
    ) -> Result<Resolved, AllocError>
        ensures { IfOk result (λ resolved. resolved_of resolved
            ≡ stands (stage self.now) resource.now.place (a_block (block_at (addr_of resource.now.addr.now) resource.now.block.now)) (S.environment resource.now.scope.now)) };
}

/// The expansion: it computes the instances, and no object is known.
#[derive(Clone, Copy, Debug)]
pub(crate) struct Expansion;

/// Objects of which nothing is known.
struct Unknowns;

impl Keyed for Unknowns {
    ghost object = { λ _ _. Some unknown };

    fn object(&self, _alloc: Global, _key: &InstanceKey) -> Result<Option<Value>, AllocError> {
        Ok(Some(Value::Unknown))
    }
}

/// A list of this many unknown objects, or more, is too large.
const TOO_MANY: u64 = 1_000_000;

impl ResourceValues for Expansion {
    ghost stage = { λ _. expansion };

    fn resolve<S: Scope>(
        &self,
        alloc: Global,
        resource: &ResourceInScope<'_, S>,
    ) -> Result<Resolved, AllocError> {
        match instances(alloc, &resource.block.repetition, resource.scope)? {
            Ok(shape) => unknown_objects(alloc, &shape),
            Err(_) => Ok(Resolved::Nothing),
        }
    }
}

/// Resolves a resource whose objects are unknown. A list of `TOO_MANY` objects or more isn't built: it is the fault
/// `TooLarge`.
fn unknown_objects(alloc: Global, shape: &InstanceKeys) -> Result<Resolved, AllocError>
    ensures { IfOk result (λ resolved. resolved_of resolved ≡ together (Some (shape_of shape.now)) (λ _. Some unknown)) }
{
    match shape {
        InstanceKeys::Many(count) if *count >= TOO_MANY => Ok(Resolved::Fault(EvalFault::TooLarge)),
        _ => collect_instances(alloc, shape, &Unknowns),
    }
}

/// The objects of resources, by instance.
pub trait Objects {
    ghost planned: { Self → ℕ → BlockView → Environment → InstanceKeyView → Option Tree };

    /// Returns the object of an instance, or `None` if it is refused. It sees the place of the resource's name, the
    /// block, and the values of references.
    ///
    /// # Errors
    ///
    /// Fails only if memory runs out.
    fn object<S: Scope>(
        &self,
        alloc: Global,
        resource: &ResourceInScope<'_, S>,
        key: &InstanceKey,
    ) -> Result<Option<Value>, AllocError>
        ensures { IfOk result (λ value. option_map tree_of value
            ≡ planned self.now resource.now.place (block_at (addr_of resource.now.addr.now) resource.now.block.now) (S.environment resource.now.scope.now) (instance_key_of key.now)) };
}

/// The plan and the apply: each resource has the instances that the expansion gave it, and their objects.
#[derive(Drop)]
pub struct ExpandedValues<'a, O> {
    /// The shape of each resource, by the place of its name.
    pub shapes: &'a [InstanceKeys],
    /// The objects.
    pub objects: &'a O,
}

/// The objects of one resource.
#[derive(Drop)]
struct ResourceObjects<'o, 'r, 'a, O, S> {
    objects: &'o O,
    resource: &'r ResourceInScope<'a, S>,
}

impl<O: Objects, S: Scope> Keyed for ResourceObjects<'_, '_, '_, O, S> {
    ghost object = { λ k. O.planned k.objects.now k.resource.now.place (block_at (addr_of k.resource.now.addr.now) k.resource.now.block.now) (S.environment k.resource.now.scope.now) };

    fn object(&self, alloc: Global, key: &InstanceKey) -> Result<Option<Value>, AllocError> {
        self.objects.object(alloc, self.resource, key)
    }
}

impl<O: Objects> ResourceValues for ExpandedValues<'_, O> {
    ghost stage = { λ s. planning (shapes_of s.shapes.now) (O.planned s.objects.now) };

    fn resolve<S: Scope>(
        &self,
        alloc: Global,
        resource: &ResourceInScope<'_, S>,
    ) -> Result<Resolved, AllocError> {
        let keyed = ResourceObjects {
            objects: self.objects,
            resource,
        };
        match self.shapes.get(resource.place) {
            Some(shape) => collect_instances(alloc, shape, &keyed),
            None => collect_instances(alloc, &InstanceKeys::One, &keyed),
        }
    }
}
