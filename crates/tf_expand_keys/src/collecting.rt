//! The objects of a resource as one value.

ghost use Rattle.std.specs.Prelude.{◌≡◌, IfOk, List, Some, map as each, option_map, string_bytes};
ghost use Rattle.tf_config_address.specs.ObjectId as keys;
ghost use Rattle.tf_config_address.specs.ObjectId.{InstanceKeyView, instance_key_of};
ghost use Rattle.tf_value_data.specs.Tree.{Tree, tree_of};
ghost use Rattle.tf_expr_operators.specs.Answer.{limited as limited_value};
ghost use Rattle.tf_expand_keys.specs.InstanceKeys.{list_of, map_under, objects_at};
ghost use Rattle.tf_expand_keys.specs.Resolved.{together};
ghost use Rattle.tf_expand_keys.specs.Views.{shape_of, resolved_of};

use crate::resolved::Resolved;
use crate::shape::InstanceKeys;
use std::alloc::{AllocError, Global};
use std::collections::BTreeMap;
use tf_config_address::InstanceKey;
use tf_expr_operators::Bounded;
use tf_value_data::Value;

/// The objects of one resource by the keys of its instances.
pub trait Keyed {
    ghost use Rattle.std.specs.Prelude.{Option};

    ghost object: { Self → InstanceKeyView → Option Tree };

    /// Returns the object of an instance, or `None` if it is refused.
    ///
    /// # Errors
    ///
    /// Fails only if memory runs out.
    fn object(&self, alloc: Global, key: &InstanceKey) -> Result<Option<Value>, AllocError>
        ensures { IfOk result (λ value. option_map tree_of value ≡ object self.now (instance_key_of key.now)) };
}

/// Collects the objects of a resource into its value, as its shape says.
pub fn collect_instances<K: Keyed>(
    alloc: Global,
    shape: &InstanceKeys,
    keyed: &K,
) -> Result<Resolved, AllocError>
    ensures { IfOk result (λ resolved. resolved_of resolved ≡ together (Some (shape_of shape.now)) (K.object keyed.now)) }
{
    match shape {
        InstanceKeys::One => Ok(measured(keyed.object(alloc, &InstanceKey::Single)?)),
        InstanceKeys::Many(_) => {
            let keys = shape.keys(alloc)?;
            Ok(measured(listed(alloc, keys.as_slice(), keyed)?))
        }
        InstanceKeys::Named(names) => Ok(measured(mapped(alloc, names.as_slice(), keyed)?)),
    }
}

/// Resolves a resource to the value of its objects, or to a fault if the value exceeds the limits.
fn measured(value: Option<Value>) -> Resolved
    ensures { resolved_of result ≡ option_map limited_value (option_map tree_of value) }
{
    match value {
        None => Resolved::Nothing,
        Some(value) => match Bounded::new(value) {
            Ok(bounded) => Resolved::Value(bounded),
            Err(fault) => Resolved::Fault(fault),
        },
    }
}

/// Returns the list of the objects of these instances, or `None` if one is refused.
fn listed<K: Keyed>(
    alloc: Global,
    keys: &[InstanceKey],
    keyed: &K,
) -> Result<Option<Value>, AllocError>
    ensures { IfOk result (λ value. option_map tree_of value ≡ option_map list_of (objects_at (K.object keyed.now) (each instance_key_of keys.now))) }
{
    let mut objects = Vec::with_capacity(alloc, keys.len())?;
    for key in keys {
        let Some(object) = keyed.object(alloc, key)? else {
            return Ok(None);
        };
        objects.push(object)?;
    }
    Ok(Some(Value::List(objects)))
}

/// Returns the map of the objects of the instances with these names, or `None` if one is refused.
fn mapped<K: Keyed>(alloc: Global, names: &[String], keyed: &K) -> Result<Option<Value>, AllocError>
    ensures { IfOk result (λ value. option_map tree_of value
        ≡ option_map (map_under (each string_bytes names.now)) (objects_at (K.object keyed.now) (each keys.name (each string_bytes names.now)))) }
{
    let mut objects = BTreeMap::new(alloc);
    for name in names {
        let Some(object) = keyed.object(alloc, &InstanceKey::Name(name.clone()?))? else {
            return Ok(None);
        };
        drop(objects.insert(name.clone()?, object)?);
    }
    Ok(Some(Value::Map(objects)))
}
