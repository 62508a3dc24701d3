//! Records the outcomes of an instance's actions, without taking memory.

ghost use Rattle.std.specs.Prelude.{◌≡◌, ◌+◌, ℕ, None, IfNone, IfSome, IsSome, option_and_then, option_map, string_bytes};
ghost use Rattle.tf_config_address.specs.ObjectId.{object_id_of};
ghost use Rattle.tf_state_next.specs.After.{IsAfter, left_of_record, object_at, record_of_saved};
ghost use Rattle.tf_state_next.specs.Ends.{RecordInputView, apply_of, as_applied, destroy_of, left_of, record_input_of, saved, saved_of};
ghost use Rattle.tf_state_next.specs.Room.{deposed_by, records_more, with_any};
ghost use Rattle.tf_state_data.specs.Record.{record_of};
ghost use Rattle.tf_state_data.specs.Resource.{HasRoomForRecords, resource_of, with_metadata, with_record};

use crate::ends::{Left, RecordInput, Saved};
use tf_config_address::ObjectId;
use tf_state_data::{Record, Resource};

/// Records the outcome of the create or the update of an instance. If an object was saved and a key is given for the
/// old object, that one becomes deposed. Otherwise a saved object's record overwrites the old one in place, and no
/// other is moved. Takes no memory: if an object was saved, there has to be space for one more record.
pub fn record_apply(resource: &mut Resource, given: RecordInput, saved: Option<Saved>)
    requires { HasRoomForRecords (records_more (as_applied (option_map saved_of saved))) resource.old }
    ensures after { IsAfter (record_input_of given) (apply_of (as_applied (option_map saved_of saved))) (resource_of resource.old) (resource_of resource.new) }
    ensures room { (n : ℕ) → HasRoomForRecords (n + records_more (as_applied (option_map saved_of saved))) resource.old → HasRoomForRecords n resource.new }
{
    let is_plain = given.deposed_key.is_none();
    match saved {
        None => {}
        Some(object) => {
            if is_plain {
                put_saved(resource, given, object);
            } else {
                put_deposing(resource, given, object);
            }
        }
    }
}

/// Updates the metadata of the record of an instance's current object.
pub(crate) fn renew_record(resource: &mut Resource, given: RecordInput)
    ensures renewed { resource_of resource.new ≡ with_metadata (object_at (record_input_of given).key None)
        (record_input_of given).dependencies (record_input_of given).create_before_destroy (resource_of resource.old) }
    ensures room { (n : ℕ) → HasRoomForRecords n resource.old → HasRoomForRecords n resource.new }
{
    let RecordInput {
        key,
        schema_version: _,
        dependencies,
        create_before_destroy,
        deposed_key: _,
    } = given;
    let id = ObjectId { key, deposed: None };
    resource.renew_metadata(id, dependencies, create_before_destroy);
}

/// Stores the record of a saved object, in place of an earlier one.
fn put_saved(resource: &mut Resource, given: RecordInput, object: Saved)
    requires { HasRoomForRecords 1 resource.old }
    ensures put { resource_of resource.new ≡ with_record (record_of_saved (record_input_of given) (saved_of object)) (resource_of resource.old) }
    ensures room { (n : ℕ) → HasRoomForRecords (n + 1) resource.old → HasRoomForRecords n resource.new }
{
    let Saved {
        attributes,
        tainted,
    } = object;
    drop(resource.put(Record {
        id: ObjectId {
            key: given.key,
            deposed: None,
        },
        attributes,
        schema_version: given.schema_version,
        tainted,
        dependencies: given.dependencies,
        create_before_destroy: given.create_before_destroy,
    }));
}

/// Stores the record of a saved object. The old object becomes deposed under the key that is given for it.
fn put_deposing(resource: &mut Resource, given: RecordInput, object: Saved)
    requires { HasRoomForRecords 1 resource.old }
    ensures after { IsAfter (record_input_of given) (apply_of (saved (saved_of object))) (resource_of resource.old) (resource_of resource.new) }
    ensures room { (n : ℕ) → HasRoomForRecords (n + 1) resource.old → HasRoomForRecords n resource.new }
{
    let RecordInput {
        key,
        schema_version,
        dependencies,
        create_before_destroy,
        deposed_key,
    } = given;
    let Saved {
        attributes,
        tainted,
    } = object;
    let id = ObjectId { key, deposed: None };
    let there = resource.remove(&id);
    drop(resource.put(Record {
        id,
        attributes,
        schema_version,
        tainted,
        dependencies,
        create_before_destroy,
    }));
    put_any(resource, depose(there, deposed_key));
}

/// Records what the destroy of an object left of it. The object is the current one of an instance or a deposed one.
/// Takes no memory.
pub fn record_destroy(resource: &mut Resource, id: &ObjectId, left: Left)
    ensures after { (g : RecordInputView) → g.key ≡ (object_id_of id.now).key
        → IsAfter g (destroy_of (object_id_of id.now).deposed (left_of left)) (resource_of resource.old) (resource_of resource.new) }
    ensures room { (n : ℕ) → HasRoomForRecords n resource.old → HasRoomForRecords n resource.new }
{
    let there = resource.remove(id);
    put_any(resource, leave(there, left));
}

/// Returns what a destroy left of a record, if there is one.
fn leave(there: Option<Record>, left: Left) -> Option<Record>
    ensures left { option_map record_of result ≡ option_and_then (left_of_record (left_of left)) (option_map record_of there) }
    ensures there { IfSome result (λ _. IsSome there) }
{
    match (left, there) {
        (Left::Gone, _) => None,
        (Left::Changed(attributes), Some(mut there)) => {
            there.attributes = attributes;
            Some(there)
        }
        (Left::Changed(_), None) => None,
        (Left::Unchanged, there) => there,
    }
}

/// Stores a record, if there is one.
fn put_any(resource: &mut Resource, kept: Option<Record>)
    requires { IfSome kept (λ _. HasRoomForRecords 1 resource.old) }
    ensures put { resource_of resource.new ≡ with_any (option_map record_of kept) (resource_of resource.old) }
    ensures none { IfNone kept ((n : ℕ) → HasRoomForRecords n resource.old → HasRoomForRecords n resource.new) }
    ensures some { IfSome kept (λ _. (n : ℕ) → HasRoomForRecords (n + 1) resource.old → HasRoomForRecords n resource.new) }
{
    if let Some(kept) = kept {
        drop(resource.put(kept));
    }
}

/// Returns the record of an object that becomes deposed, if a key is given for it.
fn depose(kept: Option<Record>, key: Option<String>) -> Option<Record>
    ensures deposed { option_map record_of result ≡ deposed_by (option_map string_bytes key) (option_map record_of kept) }
    ensures there { IfSome result (λ _. IsSome kept) }
{
    match (kept, key) {
        (Some(mut kept), Some(key)) => {
            kept.id.deposed = Some(key);
            Some(kept)
        }
        _ => None,
    }
}
