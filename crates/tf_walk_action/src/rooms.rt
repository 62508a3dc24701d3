//! The space for a message about a reply, allocated before the call.

ghost use Rattle.std.specs.List.{list_all};
ghost use Rattle.std.specs.Prelude.{◌≡◌, ◌≤◌, ◌+◌, ℕ, [], true, None, Some, nat_le, length, IfOk, string_bytes, string_capacity};
ghost use Rattle.tf_walk_action.specs.Words.{entries_view, keys_of, message_fits, tree_of};

use std::alloc::{AllocError, Global};
use std::collections::BTreeMap;
use tf_value_data::Value;

/// Allocates an empty text with space for each message about a reply to a request for this object.
pub(crate) fn reserve_message(alloc: Global, object: &Value) -> Result<String, AllocError>
    ensures blank { IfOk result (λ text. string_bytes text ≡ []) }
    ensures fits { IfOk result (λ text. message_fits (string_capacity text) (Some (tree_of object.now)) ≡ true) }
{
    match object {
        Value::Map(attributes) => String::with_capacity(alloc, room_for_names(attributes)),
        _ => String::with_capacity(alloc, 15),
    }
}

/// Allocates an empty text with space for each message about a reply to a request for no object.
pub(crate) fn least_room(alloc: Global) -> Result<String, AllocError>
    ensures blank { IfOk result (λ text. string_bytes text ≡ []) }
    ensures fits { IfOk result (λ text. message_fits (string_capacity text) None ≡ true) }
{
    String::with_capacity(alloc, 15)
}

/// Returns the largest number of bytes that a message about one of these attributes may have.
fn room_for_names(attributes: &BTreeMap<String, Value>) -> usize
    ensures least { 15 ≤ result }
    ensures names { (capacity : ℕ) → result ≤ capacity →
        list_all (λ k. nat_le (12 + length k) capacity) (keys_of (entries_view attributes.now.entries)) ≡ true }
{
    let mut room = 15;
    for (name, _) in attributes.iter() {
        room = room.max(name.len() + 12);
    }
    room
}
