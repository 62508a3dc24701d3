//! The key of an object that becomes deposed.

ghost use Rattle.std.specs.Prelude.{◌≡◌, ◌<◌, ◌^◌, IfOk, length, map, string_bytes};
ghost use Rattle.tf_config_address.specs.ObjectId.{instance_key_of, object_id_of};
ghost use Rattle.tf_config_address.specs.Same.{same_object_id};
ghost use Rattle.tf_state_next.specs.After.{object_at};
ghost use Rattle.tf_state_next.specs.DeposedKey.{IsDeposedKey, is_used, key_text};
ghost use Rattle.tf_state_data.specs.Record.{record_of};

use std::alloc::{AllocError, Global};
use tf_config_address::InstanceKey;
use tf_state_data::Record;

/// Returns the key that an object of an instance gets if it becomes deposed: eight lower-case hex digits of the first
/// serial, from the new one on, whose key no deposed object of the instance has. Serial 0 comes after the last one. The
/// records are those of the instance's resource before the apply, so the key is the same whatever the apply destroys,
/// and can be computed before the first call.
///
/// # Errors
///
/// Fails with `AllocError` if memory runs out.
pub fn deposed_key(
    alloc: Global,
    serial: u32,
    key: &InstanceKey,
    records: &[Record],
) -> Result<String, AllocError>
    requires { length records.now < 2 ^ 32 }
    ensures { IfOk result (λ text. IsDeposedKey serial (instance_key_of key.now) (map record_of records.now) (string_bytes text)) }
{
    for steps in 0..records.len() + 1 {
        let text = key_text(alloc, serial.wrapping_add(steps as u32))?;
        if !is_used(key, records, text.as_str()) {
            return Ok(text);
        }
    }
    unreachable!()
}

/// Returns a serial as the key of a deposed object.
fn key_text(alloc: Global, serial: u32) -> Result<String, AllocError>
    ensures { IfOk result (λ text. string_bytes text ≡ key_text serial) }
{
    format!(in alloc; "{serial:08x}")
}

/// Checks whether an object of an instance is deposed under a key.
fn is_used(key: &InstanceKey, records: &[Record], text: &str) -> bool
    ensures { result ≡ is_used (instance_key_of key.now) (map record_of records.now) text.now }
{
    for kept in records {
        if has_key(kept, key, text) {
            return true;
        }
    }
    false
}

/// Checks whether the object of a record is one of an instance that is deposed under a key.
fn has_key(kept: &Record, key: &InstanceKey, text: &str) -> bool
    ensures { result ≡ same_object_id (object_id_of kept.now.id) (object_at (instance_key_of key.now) (Some text.now)) }
{
    let same_instance = kept.id.key == *key;
    match &kept.id.deposed {
        Some(deposed) => same_instance && deposed.as_str() == text,
        None => false,
    }
}
