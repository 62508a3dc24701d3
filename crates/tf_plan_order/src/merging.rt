//! All instances of a resource.

ghost use Rattle.std.specs.Prelude.{◌≡◌, ◌∷◌, [], IfOk, OnOk, map};
ghost use Rattle.tf_config_address.specs.ObjectId.{instance_key_of};
ghost use Rattle.tf_plan_order.specs.Members.{AreMembers, all_keys, declared_alone, member, recorded_keys, with_keys};
ghost use Rattle.tf_plan_order.specs.MemberViews.{keys_in, member_of};
ghost use Rattle.tf_state_data.specs.Ids.{AreById};
ghost use Rattle.tf_state_data.specs.Record.{record_of};

use crate::instance_to_plan::InstanceToPlan;
use crate::own::records_of;
use std::alloc::{AllocError, Global};
use std::collections::BTreeSet;
use tf_config_address::InstanceKey;
use tf_state_data::Record;

/// Returns the instances of a resource for which the configuration has the given keys and the state the given records:
/// all of both, each once, in address order. An orphan has no keys.
///
/// # Errors
///
/// Fails only if memory runs out.
pub fn members<'a>(
    alloc: Global,
    keys: &[InstanceKey],
    records: &'a [Record],
) -> Result<Vec<InstanceToPlan<'a>>, AllocError>
    requires { AreById (map record_of records.now) }
    ensures { IfOk result (λ members. AreMembers (map instance_key_of keys.now) (map record_of records.now) (map member_of members.items)) }
{
    if keys.len() == 1 && records.is_empty() {
        return only_declared(alloc, &keys[0]);
    }
    let mut declared = BTreeSet::new(alloc);
    add_keys(&mut declared, keys)?;
    let mut all = declared.clone()?;
    add_recorded(&mut all, records)?;
    each_member(alloc, &declared, &all, records)
}

/// Returns the one instance of a resource without records.
fn only_declared<'a>(
    alloc: Global,
    key: &InstanceKey,
) -> Result<Vec<InstanceToPlan<'a>>, AllocError>
    ensures { IfOk result (λ members. map member_of members.items ≡ declared_alone (instance_key_of key.now) ∷ []) }
{
    let key = key.clone()?;
    let only = InstanceToPlan {
        key,
        is_declared: true,
        records: &[],
    };
    Ok(vec![in alloc; only]?)
}

/// Adds keys to a set.
fn add_keys(known: &mut BTreeSet<InstanceKey>, keys: &[InstanceKey]) -> Result<(), AllocError>
    ensures { OnOk result (keys_in known.new ≡ with_keys (keys_in known.old) (map instance_key_of keys.now)) }
{
    for key in keys {
        known.insert(key.clone()?)?;
    }
    Ok(())
}

/// Adds the keys of the recorded instances.
fn add_recorded(known: &mut BTreeSet<InstanceKey>, records: &[Record]) -> Result<(), AllocError>
    ensures { OnOk result (keys_in known.new ≡ with_keys (keys_in known.old) (recorded_keys (map record_of records.now))) }
{
    for kept in records {
        known.insert(kept.id.key.clone()?)?;
    }
    Ok(())
}

/// Builds the member of each key. The configuration has the `declared` ones.
fn each_member<'a>(
    alloc: Global,
    declared: &BTreeSet<InstanceKey>,
    all: &BTreeSet<InstanceKey>,
    records: &'a [Record],
) -> Result<Vec<InstanceToPlan<'a>>, AllocError>
    requires { AreById (map record_of records.now) }
    ensures { IfOk result (λ members. map member_of members.items
        ≡ map (member (keys_in declared.now) (map record_of records.now)) (keys_in all.now)) }
{
    let mut members = Vec::with_capacity(alloc, all.len())?;
    for key in all.iter() {
        members.push(InstanceToPlan {
            key: key.clone()?,
            is_declared: declared.contains(key),
            records: records_of(records, key),
        })?;
    }
    Ok(members)
}
