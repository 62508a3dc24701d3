//! The instance keys of a resource.

ghost use Rattle.std.specs.Prelude.{◌≡◌, IfOk, map as each, string_bytes};
ghost use Rattle.tf_config_address.specs.ObjectId.{instance_key_of};
ghost use Rattle.tf_expand_keys.specs.InstanceKeys.{instance_keys, many, named};
ghost use Rattle.tf_expand_keys.specs.Views.{shape_of};

use std::alloc::{AllocError, Global};
use tf_config_address::InstanceKey;

/// The shape of a resource: the keys of its instances, which decide how its objects are collected.
#[derive(Debug, Drop)]
pub enum InstanceKeys {
    /// One object, without a key.
    One,
    /// A list of the given number of objects.
    Many(u64),
    /// A map under these keys.
    Named(Vec<String>),
}

impl InstanceKeys {
    /// Returns the keys of the instances, in order.
    ///
    /// # Errors
    ///
    /// Fails only if memory runs out.
    pub fn keys(&self, alloc: Global) -> Result<Vec<InstanceKey>, AllocError>
        ensures { IfOk result (λ keys. each instance_key_of keys.items ≡ instance_keys (shape_of self.now)) }
    {
        match self {
            InstanceKeys::One => Ok(vec![in alloc; InstanceKey::Single]?),
            InstanceKeys::Many(count) => numbers(alloc, *count),
            InstanceKeys::Named(names) => keys_named(alloc, names),
        }
    }
}

/// Returns the given number of keys, from 0 on.
fn numbers(alloc: Global, count: u64) -> Result<Vec<InstanceKey>, AllocError>
    ensures { IfOk result (λ keys. each instance_key_of keys.items ≡ instance_keys (many count)) }
{
    let mut keys = Vec::new(alloc);
    for number in 0..count {
        keys.push(InstanceKey::Number(number))?;
    }
    Ok(keys)
}

/// Returns the keys with these names.
fn keys_named(alloc: Global, names: &Vec<String>) -> Result<Vec<InstanceKey>, AllocError>
    ensures { IfOk result (λ keys. each instance_key_of keys.items ≡ instance_keys (named (each string_bytes names.now.items))) }
{
    let mut keys = Vec::with_capacity(alloc, names.len())?;
    for name in names {
        keys.push(InstanceKey::Name(name.clone()?))?;
    }
    Ok(keys)
}
