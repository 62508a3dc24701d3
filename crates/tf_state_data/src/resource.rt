//! A resource and the records of its objects.

ghost use Rattle.std.specs.List.Sorted.{IsStrictlySortedBy-prop};
ghost use Rattle.std.specs.Prelude.{◌≡◌, map};
ghost use Rattle.tf_state_data.specs.Ids.{AreById};
ghost use Rattle.tf_state_data.specs.Record.{record_of};

use crate::record::Record;
use std::alloc::{AllocError, Global};
use std::collections::BTreeSet;
use std::mem;
use tf_config_address::{ObjectId, ResourceAddr};

/// A resource and the records of its objects, in the order of their ids, without duplicates.
#[derive(Debug, Drop)]
pub struct Resource {
    addr: ResourceAddr,
    provider: String,
    records: Vec<Record>,
    pub ghost ordered: { AreById (map record_of records.items) } by { IsStrictlySortedBy-prop _ _ },
}

impl Resource {
    ghost use Rattle.std.specs.Prelude.{◌+◌, [], ◌<◌, ℕ, IfErr, IfOk, IfSome, OnOk, option_map, string_bytes};
    ghost use Rattle.tf_config_address.specs.ResourceAddr.{addr_of};
    ghost use Rattle.tf_state_data.specs.Order.{IsAt, IsGapFor};
    ghost use Rattle.tf_config_address.specs.ObjectId.{object_id_cmp, object_id_of};
    ghost use Rattle.tf_state_data.specs.Resource.{HasRoomForRecords, record_at, resource_of, with_metadata, with_record, without_record};

    /// Returns a resource with the given address and provider address, without records.
    pub fn empty(alloc: Global, addr: ResourceAddr, provider: String) -> Resource
        ensures { resource_of result ≡ record { addr = addr_of addr; provider = string_bytes provider; records = [] } }
    {
        let records = Vec::new(alloc);
        Resource {
            addr,
            provider,
            records,
        }
    }

    /// Returns a resource with the given address, provider address and records, which must be in the order of their
    /// ids.
    pub fn new(addr: ResourceAddr, provider: String, records: Vec<Record>) -> Resource
        requires { AreById (map record_of records.items) }
        ensures { resource_of result
            ≡ record { addr = addr_of addr; provider = string_bytes provider; records = map record_of records.items } }
    {
        Resource {
            addr,
            provider,
            records,
        }
    }

    /// Returns its type and name.
    pub fn addr(&self) -> &ResourceAddr
        ensures { addr_of result.now ≡ (resource_of self.now).addr }
    {
        &self.addr
    }

    /// Returns the address of its provider, as Terraform writes it.
    pub fn provider(&self) -> &str
        ensures { result.now ≡ (resource_of self.now).provider }
    {
        self.provider.as_str()
    }

    /// Returns the records of its objects, in the order of their ids.
    pub fn records(&self) -> &[Record]
        ensures records { map record_of result.now ≡ (resource_of self.now).records }
        ensures ordered { AreById (resource_of self.now).records }
    {
        &self.records
    }

    /// Returns the record of an object, if the resource has one.
    pub fn record(&self, id: &ObjectId) -> Option<&Record>
        ensures { option_map (λ r. record_of r.now) result ≡ record_at (object_id_of id.now) (resource_of self.now).records }
    {
        match self.search(id) {
            Ok(index) => Some(&self.records[index]),
            Err(_) => None,
        }
    }

    /// Reserves capacity for the given number of further records. Fails only if memory runs out. The records don't
    /// change.
    pub fn reserve(&mut self, additional: usize) -> Result<(), AllocError>
        ensures same { resource_of self.new ≡ resource_of self.old }
        ensures room { OnOk result (HasRoomForRecords additional self.new) }
    {
        self.records.reserve_exact(additional)
    }

    /// Puts a record in, and returns the record of the same object that was there. Requires capacity for one record
    /// (`reserve`), so it allocates nothing.
    pub fn put(&mut self, new: Record) -> Option<Record>
        requires { HasRoomForRecords 1 self.old }
        ensures put { resource_of self.new ≡ with_record (record_of new) (resource_of self.old) }
        ensures replaced { option_map record_of result ≡ record_at (object_id_of new.id) (resource_of self.old).records }
        ensures room { (n : ℕ) → HasRoomForRecords (n + 1) self.old → HasRoomForRecords n self.new }
    {
        match self.search(&new.id) {
            Ok(index) => Some(mem::replace(&mut self.records[index], new)),
            Err(index) => {
                self.records.insert(index, new).unwrap();
                None
            }
        }
    }

    /// Replaces the dependencies and the `create_before_destroy` flag of an object's record, if the resource has one.
    /// Allocates nothing, and moves no record.
    pub fn renew_metadata(
        &mut self,
        id: ObjectId,
        dependencies: BTreeSet<String>,
        create_before_destroy: bool,
    )
        ensures renewed { resource_of self.new
            ≡ with_metadata (object_id_of id) (map string_bytes dependencies.keys) create_before_destroy (resource_of self.old) }
        ensures room { (n : ℕ) → HasRoomForRecords n self.old → HasRoomForRecords n self.new }
    {
        if let Ok(index) = self.search(&id) {
            let record = &mut self.records[index];
            record.id = id;
            record.dependencies = dependencies;
            record.create_before_destroy = create_before_destroy;
        }
    }

    /// Removes the record of an object and returns it, if the resource has one. Its capacity is free again, so the
    /// record can be changed and put back without an allocation.
    pub fn remove(&mut self, id: &ObjectId) -> Option<Record>
        ensures taken { option_map record_of result ≡ record_at (object_id_of id.now) (resource_of self.old).records }
        ensures left { resource_of self.new ≡ without_record (object_id_of id.now) (resource_of self.old) }
        ensures room { (n : ℕ) → HasRoomForRecords n self.old → HasRoomForRecords n self.new }
        ensures freed { IfSome result (λ _. (n : ℕ) → HasRoomForRecords n self.old → HasRoomForRecords (n + 1) self.new) }
    {
        match self.search(id) {
            Ok(index) => Some(self.records.remove(index)),
            Err(_) => None,
        }
    }

    /// Returns the index of an object's record, or the index at which to insert one.
    fn search(&self, id: &ObjectId) -> Result<usize, usize>
        ensures found { IfOk result (IsAt (λ r. r.id) object_id_cmp (object_id_of id.now) (resource_of self.now).records) }
        ensures absent { IfErr result (IsGapFor (λ r. r.id) object_id_cmp (object_id_of id.now) (resource_of self.now).records) }
    {
        self.records.binary_search_by(|record| record.id.cmp(id))
    }
}

/// Returns an equal resource. Fails only if memory runs out.
impl Clone for Resource {
    ghost use Rattle.tf_state_data.specs.Resource.{resource_of};

    ghost is_clone = { λ r copy. resource_of copy ≡ resource_of r };

    fn clone(&self) -> Result<Resource, AllocError> {
        let addr = self.addr.clone()?;
        let provider = self.provider.clone()?;
        let records = self.records.clone()?;
        Ok(Resource {
            addr,
            provider,
            records,
        })
    }
}

/// Two resources are equal exactly if all their parts are the same: the address, the provider and the records.
impl PartialEq for Resource {
    ghost use Rattle.std.specs.Ordering.{on};
    ghost use Rattle.std.specs.Prelude.{◌↔◌, IsTrue};
    ghost use Rattle.tf_state_data.specs.Equality.{same_resource, same_resources_part};
    ghost use Rattle.tf_state_data.specs.Resource.{resource_of};

    ghost eq = { on resource_of same_resource };

    ghost laws = { same_resources_part };

    fn eq(&self, other: &Resource) -> bool
        ensures value { result ≡ same_resource (resource_of self.now) (resource_of other.now) }
        ensures exact { IsTrue result ↔ (resource_of self.now ≡ resource_of other.now) }
    {
        self.addr == other.addr && self.provider == other.provider && self.records == other.records
    }
}

impl Eq for Resource {
    ghost use Rattle.tf_state_data.specs.Equality.{same_resources};

    ghost laws = { same_resources };
}
