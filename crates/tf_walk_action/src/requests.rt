//! The request for an instance.

ghost use Rattle.std.specs.Prelude.{◌≡◌, true, IfOk};
ghost use Rattle.tf_expand_keys.specs.Words.{entries_view, instance_key_of, meant_at, names_in, shapes_of, resolved_names_of, tree_of};
ghost use Rattle.tf_plan_object.specs.Bounded.{has_planned_attributes};
ghost use Rattle.tf_plan_object.specs.Instance.{instance_of};
ghost use Rattle.tf_walk_action.specs.Requests.{IsRequest};
ghost use Rattle.tf_walk_names.specs.Resolving.{AreResolvedSoFar, is_resource};

use std::alloc::{AllocError, Global};
use tf_config_address::InstanceKey;
use tf_config_names::Declaration;
use tf_expand_keys::{InstanceKeys, Module, NamesScope, Resolved};
use tf_plan_object::{InstanceFault, plan_instance};
use tf_provider_protocol::Schema;
use tf_value_data::Value;
use tf_walk_names::{Results, add_resolved_names, named_for_instance};

/// Evaluates the object to request for the create of an instance of the resource at a place, or its fault: the object
/// that is planned for it, with the resources that it needs as their providers answered. `shapes` gives the instance
/// keys of each name, by place. Only the locals and objects that the block's expressions name, directly or through
/// locals, are evaluated or copied.
///
/// `kept` holds the values of names so far, by place. It is empty at first, and gains the values of the names in the
/// block. So requests with the same answers that assert_sync it evaluate each local once, and collect each resource's
/// objects once.
///
/// # Errors
///
/// Fails only if memory runs out. The values in `kept` are right then too, and may be more than before.
pub(crate) fn request<R: Results>(
    alloc: Global,
    declared: &Module,
    shapes: &[InstanceKeys],
    schema: &Schema,
    place: usize,
    key: &InstanceKey,
    results: &R,
    kept: &mut Vec<Resolved>,
) -> Result<Result<Value, InstanceFault>, AllocError>
    requires resource { is_resource (meant_at (names_in declared.now.names.now) place) ≡ true }
    requires answered { AreResolvedSoFar (entries_view declared.now.variables.now.entries) (names_in declared.now.names.now)
        (shapes_of shapes.now) (R.objects results.now) (resolved_names_of kept.old.items) }
    ensures request { IfOk result (λ request. IsRequest (entries_view declared.now.variables.now.entries) (names_in declared.now.names.now)
        (shapes_of shapes.now) (R.objects results.now) place (instance_key_of key.now) schema.now (instance_of request)) }
    ensures within { IfOk result (λ request. IfOk request (λ v. has_planned_attributes (tree_of v) ≡ true)) }
    ensures answered { AreResolvedSoFar (entries_view declared.now.variables.now.entries) (names_in declared.now.names.now)
        (shapes_of shapes.now) (R.objects results.now) (resolved_names_of kept.new.items) }
{
    let Declaration::Resource(_, block) = declared.parts.names.at(place) else {
        unreachable!()
    };
    let named = named_for_instance(alloc, declared.parts.names, block)?;
    add_resolved_names(alloc, declared, shapes, named.as_slice(), results, kept)?;
    let scope = NamesScope {
        variables: declared.parts.variables,
        names: declared.parts.names,
        resolved_names: kept.as_slice(),
    };
    plan_instance(alloc, schema, block, key, &scope)
}
