//! The object that is planned for one instance of a resource.

ghost use Rattle.std.specs.Prelude.{◌≡◌, true, IfOk};
ghost use Rattle.tf_expand_keys.specs.Words.{block_at, instance_key_of, ResourceAddrView, tree_of};
ghost use Rattle.tf_plan_object.specs.Bounded.{has_planned_attributes};
ghost use Rattle.tf_plan_object.specs.Instance.{instance_object, instance_of};

use crate::argument::ArgumentFault;
use crate::object::plan_object;
use std::alloc::{AllocError, Global};
use tf_config_address::InstanceKey;
use tf_config_data::Block;
use tf_expand_keys::{InstanceScope, instance_constants};
use tf_expr_eval::{EvalFault, Scope};
use tf_provider_protocol::Schema;
use tf_value_data::Value;

/// The fault of an instance.
#[derive(Debug, Drop)]
pub enum InstanceFault {
    /// `for_each`, which is evaluated again for each instance, has no value, or its value has nothing under the
    /// instance's key. Or the instance's number exceeds the whole numbers.
    ForEach(EvalFault),
    /// The attribute whose name is first in byte order among those with a fault.
    Argument {
        /// The attribute, or the argument that names no attribute.
        name: String,
        /// Its fault.
        fault: ArgumentFault,
    },
}

/// Plans the object of an instance by its type's schema. References have the scope's values, and `count.index`,
/// `each.key` and `each.value` are those of the instance. If `for_each` has a fault, returns that fault, even if
/// nothing names `each.value`. Otherwise returns the first fault of the arguments, if there is one.
///
/// # Errors
///
/// Fails only if memory runs out.
pub fn plan_instance<S: Scope>(
    alloc: Global,
    schema: &Schema,
    block: &Block,
    key: &InstanceKey,
    scope: &S,
) -> Result<Result<Value, InstanceFault>, AllocError>
    ensures plans { (addr : ResourceAddrView) → IfOk result (λ planned. instance_of planned
        ≡ instance_object schema.now (block_at addr block.now) (instance_key_of key.now) (S.environment scope.now)) }
    ensures within { IfOk result (λ planned. IfOk planned (λ v. has_planned_attributes (tree_of v) ≡ true)) }
{
    match instance_constants(alloc, &block.repetition, key, scope) {
        Ok(constants) => {
            let bound = InstanceScope {
                constants: &constants,
                around: scope,
            };
            match plan_object(alloc, schema, &block.arguments, &bound)? {
                Ok(object) => Ok(Ok(object)),
                Err((name, fault)) => Ok(Err(InstanceFault::Argument { name, fault })),
            }
        }
        Err(EvalFault::OutOfMemory) => Err(AllocError),
        Err(fault) => Ok(Err(InstanceFault::ForEach(fault))),
    }
}
