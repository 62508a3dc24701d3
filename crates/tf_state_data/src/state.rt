//! The content of a state.

ghost use Rattle.std.specs.List.Sorted.{IsStrictlySortedBy-prop};
ghost use Rattle.std.specs.Prelude.{◌≡◌, map};
ghost use Rattle.tf_state_data.specs.Addresses.{AreByAddress};
ghost use Rattle.tf_state_data.specs.Resource.{resource_of};

use crate::object::Object;
use crate::record::Record;
use crate::resource::Resource;
use std::alloc::{AllocError, Global};
use std::collections::BTreeMap;
use std::mem;
use tf_config_address::{ObjectId, ResourceAddr};

/// The content of a state file: everything that is known of the objects that exist. Its resources are in the order of
/// their addresses, without duplicates.
#[derive(Debug, Drop)]
pub struct State {
    serial: u32,
    lineage: String,
    terraform_version: String,
    outputs: BTreeMap<String, Object>,
    resources: Vec<Resource>,
    pub ghost ordered: { AreByAddress (map resource_of resources.items) } by { IsStrictlySortedBy-prop _ _ },
}

impl State {
    ghost use Rattle.std.specs.Prelude.{◌+◌, ℕ, IfErr, IfOk, IfSome, OnOk, option_map, string_bytes};
    ghost use Rattle.tf_config_address.specs.ResourceAddr.{addr_cmp, addr_of};
    ghost use Rattle.tf_state_data.specs.Order.{IsAt, IsGapFor};
    ghost use Rattle.tf_config_address.specs.ObjectId.{object_id_of};
    ghost use Rattle.tf_state_data.specs.Record.{record_of};
    ghost use Rattle.tf_state_data.specs.State.{HasRoomForResources, empty_state, outputs_of, record_in, resource_at, state_of, with_resource, without_resource};

    /// Returns the state before anything exists: serial 0, version 1.0.0, no resources. Fails only if memory runs
    /// out.
    pub fn empty(alloc: Global, lineage: &str) -> Result<State, AllocError>
        ensures { IfOk result (λ s. state_of s ≡ empty_state lineage.now) }
    {
        Ok(State {
            serial: 0,
            lineage: String::from_str(alloc, lineage)?,
            terraform_version: String::from_str(alloc, "1.0.0")?,
            outputs: BTreeMap::new(alloc),
            resources: Vec::new(alloc),
        })
    }

    /// Returns a state of the given parts. The resources must be in the order of their addresses.
    pub fn new(
        serial: u32,
        lineage: String,
        terraform_version: String,
        outputs: BTreeMap<String, Object>,
        resources: Vec<Resource>,
    ) -> State
        requires { AreByAddress (map resource_of resources.items) }
        ensures { state_of result
            ≡ record {
              serial = serial;
              lineage = string_bytes lineage;
              terraform_version = string_bytes terraform_version;
              outputs = outputs_of outputs.entries;
              resources = map resource_of resources.items;
            } }
    {
        State {
            serial,
            lineage,
            terraform_version,
            outputs,
            resources,
        }
    }

    /// Returns how often the state has changed.
    pub fn serial(&self) -> u32
        ensures { result ≡ (state_of self.now).serial }
    {
        self.serial
    }

    /// Sets how often the state has changed.
    pub fn set_serial(&mut self, serial: u32)
        ensures set { state_of self.new ≡ record (state_of self.old) { serial = serial } }
        ensures room { (n : ℕ) → HasRoomForResources n self.old → HasRoomForResources n self.new }
    {
        self.serial = serial;
    }

    /// Returns the lineage: the text that all states of one history share.
    pub fn lineage(&self) -> &str
        ensures { result.now ≡ (state_of self.now).lineage }
    {
        self.lineage.as_str()
    }

    /// Returns the version of Terraform that the file names. It passes from state to state.
    pub fn terraform_version(&self) -> &str
        ensures { result.now ≡ (state_of self.now).terraform_version }
    {
        self.terraform_version.as_str()
    }

    /// Returns the outputs by name.
    pub fn outputs(&self) -> &BTreeMap<String, Object>
        ensures { outputs_of result.now.entries ≡ (state_of self.now).outputs }
    {
        &self.outputs
    }

    /// Replaces the outputs and returns the previous ones.
    pub fn replace_outputs(&mut self, outputs: BTreeMap<String, Object>) -> BTreeMap<String, Object>
        ensures put { state_of self.new ≡ record (state_of self.old) { outputs = outputs_of outputs.entries } }
        ensures replaced { outputs_of result.entries ≡ (state_of self.old).outputs }
        ensures room { (n : ℕ) → HasRoomForResources n self.old → HasRoomForResources n self.new }
    {
        mem::replace(&mut self.outputs, outputs)
    }

    /// Returns the resources, in the order of their addresses.
    pub fn resources(&self) -> &[Resource]
        ensures resources { map resource_of result.now ≡ (state_of self.now).resources }
        ensures ordered { AreByAddress (state_of self.now).resources }
    {
        &self.resources
    }

    /// Returns the resource at an address, if the state has one.
    pub fn resource(&self, addr: &ResourceAddr) -> Option<&Resource>
        ensures { option_map (λ r. resource_of r.now) result ≡ resource_at (addr_of addr.now) (state_of self.now).resources }
    {
        match self.search(addr) {
            Ok(index) => Some(&self.resources[index]),
            Err(_) => None,
        }
    }

    /// Returns the record of an object, by the address of its resource and by its id, if the state has one.
    pub fn record(&self, addr: &ResourceAddr, id: &ObjectId) -> Option<&Record>
        ensures { option_map (λ r. record_of r.now) result ≡ record_in (addr_of addr.now) (object_id_of id.now) (state_of self.now) }
    {
        match self.resource(addr) {
            Some(resource) => resource.record(id),
            None => None,
        }
    }

    /// Reserves capacity for the given number of further resources. Fails only if memory runs out. The state doesn't
    /// change.
    pub fn reserve(&mut self, additional: usize) -> Result<(), AllocError>
        ensures same { state_of self.new ≡ state_of self.old }
        ensures room { OnOk result (HasRoomForResources additional self.new) }
    {
        self.resources.reserve(additional)
    }

    /// Puts a resource at its address, and returns the one that was there. Requires capacity for one resource
    /// (`reserve`), so it allocates nothing.
    pub fn put(&mut self, resource: Resource) -> Option<Resource>
        requires { HasRoomForResources 1 self.old }
        ensures put { state_of self.new ≡ with_resource (resource_of resource) (state_of self.old) }
        ensures replaced { option_map resource_of result ≡ resource_at (resource_of resource).addr (state_of self.old).resources }
        ensures room { (n : ℕ) → HasRoomForResources (n + 1) self.old → HasRoomForResources n self.new }
    {
        match self.search(resource.addr()) {
            Ok(index) => Some(mem::replace(&mut self.resources[index], resource)),
            Err(index) => {
                self.resources.insert(index, resource).unwrap();
                None
            }
        }
    }

    /// Removes the resource at an address and returns it, if the state has one. Its capacity is free again, so the
    /// resource can be changed and put back without an allocation.
    pub fn remove(&mut self, addr: &ResourceAddr) -> Option<Resource>
        ensures taken { option_map resource_of result ≡ resource_at (addr_of addr.now) (state_of self.old).resources }
        ensures left { state_of self.new ≡ without_resource (addr_of addr.now) (state_of self.old) }
        ensures room { (n : ℕ) → HasRoomForResources n self.old → HasRoomForResources n self.new }
        ensures freed { IfSome result (λ _. (n : ℕ) → HasRoomForResources n self.old → HasRoomForResources (n + 1) self.new) }
    {
        match self.search(addr) {
            Ok(index) => Some(self.resources.remove(index)),
            Err(_) => None,
        }
    }

    /// Returns the index of the resource at an address, or the index at which to insert one.
    fn search(&self, addr: &ResourceAddr) -> Result<usize, usize>
        ensures found { IfOk result (IsAt (λ r. r.addr) addr_cmp (addr_of addr.now) (state_of self.now).resources) }
        ensures absent { IfErr result (IsGapFor (λ r. r.addr) addr_cmp (addr_of addr.now) (state_of self.now).resources) }
    {
        self.resources
            .binary_search_by(|resource| resource.addr().cmp(addr))
    }
}

/// Returns an equal state. Fails only if memory runs out.
impl Clone for State {
    ghost use Rattle.tf_state_data.specs.State.{state_of};

    ghost is_clone = { λ s copy. state_of copy ≡ state_of s };

    fn clone(&self) -> Result<State, AllocError> {
        let lineage = self.lineage.clone()?;
        let terraform_version = self.terraform_version.clone()?;
        let outputs = self.outputs.clone()?;
        let resources = self.resources.clone()?;
        Ok(State {
            serial: self.serial,
            lineage,
            terraform_version,
            outputs,
            resources,
        })
    }
}

/// Two states are equal exactly if all their parts are the same: the serial, the lineage, the version, the outputs
/// and the resources. So an apply can see whether it changed anything, and raises the serial exactly then.
impl PartialEq for State {
    ghost use Rattle.std.specs.Ordering.{on};
    ghost use Rattle.std.specs.Prelude.{◌↔◌, IsTrue};
    ghost use Rattle.tf_state_data.specs.Equality.{same_state, same_states_part};
    ghost use Rattle.tf_state_data.specs.State.{state_of};

    ghost eq = { on state_of same_state };

    ghost laws = { same_states_part };

    fn eq(&self, other: &State) -> bool
        ensures value { result ≡ same_state (state_of self.now) (state_of other.now) }
        ensures exact { IsTrue result ↔ (state_of self.now ≡ state_of other.now) }
    {
        self.serial == other.serial
            && self.lineage == other.lineage
            && self.terraform_version == other.terraform_version
            && self.outputs == other.outputs
            && self.resources == other.resources
    }
}

impl Eq for State {
    ghost use Rattle.tf_state_data.specs.Equality.{same_states};

    ghost laws = { same_states };
}
