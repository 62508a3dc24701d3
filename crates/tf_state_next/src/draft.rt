//! The draft of the state after an apply.

ghost use Rattle.std.specs.Prelude.{◌≡◌, [], ◌∷◌, IfOk, OnOk, map, replicate};
ghost use Rattle.tf_config_address.specs.ResourceAddr.{addr_of};
ghost use Rattle.tf_state_next.specs.StateDraft.{AreAdded, IsStateDraft, HaveRoom, count_of, counts_at};
ghost use Rattle.tf_state_data.specs.Addresses.{AreByAddress};
ghost use Rattle.tf_state_data.specs.Resource.{resource_of};
ghost use Rattle.tf_state_data.specs.State.{state_of};

use crate::recording::search_near;
use std::alloc::{AllocError, Global};
use tf_config_address::ResourceAddr;
use tf_state_data::{Resource, State, provider_address};

/// The draft of the state after an apply, all of which is allocated before the first call.
#[derive(Drop)]
pub struct StateDraft<'a> {
    pub(crate) prior: &'a State,
    pub(crate) lineage: String,
    pub(crate) terraform_version: String,
    pub(crate) resources: Vec<Resource>,
}

/// Builds the draft of the state after an apply. It takes the prior state and a list of addresses: one entry for each create or update,
/// so an address may occur several times.
///
/// # Errors
///
/// Fails with `AllocError` if memory runs out.
pub fn draft_state<'a>(
    alloc: Global,
    prior: &'a State,
    addrs: &[&ResourceAddr],
) -> Result<StateDraft<'a>, AllocError>
    ensures { IfOk result (IsStateDraft (state_of prior.now) (map (λ l. addr_of l.now) addrs.now)) }
{
    let lineage = String::from_str(alloc, prior.lineage())?;
    let terraform_version = String::from_str(alloc, prior.terraform_version())?;
    let mut resources = copies(alloc, prior.resources())?;
    add_all(alloc, &mut resources, addrs)?;
    make_room(alloc, &mut resources, addrs)?;
    Ok(StateDraft {
        prior,
        lineage,
        terraform_version,
        resources,
    })
}

/// Returns an equal copy of each resource.
fn copies(alloc: Global, resources: &[Resource]) -> Result<Vec<Resource>, AllocError>
    ensures { IfOk result (λ copies. map resource_of copies.items ≡ map resource_of resources.now) }
{
    let mut copies = Vec::with_capacity(alloc, resources.len())?;
    for resource in resources {
        copies.push(resource.clone()?)?;
    }
    Ok(copies)
}

/// Adds an empty resource at each of these addresses that has no resource.
fn add_all(
    alloc: Global,
    resources: &mut Vec<Resource>,
    addrs: &[&ResourceAddr],
) -> Result<(), AllocError>
    requires { AreByAddress (map resource_of resources.old.items) }
    ensures { OnOk result (AreAdded (map (λ l. addr_of l.now) addrs.now) (map resource_of resources.old.items) (map resource_of resources.new.items)) }
{
    for addr in addrs {
        add_missing(alloc, resources, addr)?;
    }
    Ok(())
}

/// Adds an empty resource at an address, if there is no resource.
fn add_missing(
    alloc: Global,
    resources: &mut Vec<Resource>,
    addr: &ResourceAddr,
) -> Result<(), AllocError>
    requires { AreByAddress (map resource_of resources.old.items) }
    ensures { OnOk result (AreAdded (addr_of addr.now ∷ []) (map resource_of resources.old.items) (map resource_of resources.new.items)) }
{
    if let Err(index) = search_near(resources, addr, resources.len()) {
        let provider = provider_address(alloc, addr.type_name.as_str())?;
        let resource = Resource::empty(alloc, addr.clone()?, provider);
        resources.insert(index, resource)?;
    }
    Ok(())
}

/// Reserves space in each resource for one record for each time that its address is one of these.
fn make_room(
    alloc: Global,
    resources: &mut [Resource],
    addrs: &[&ResourceAddr],
) -> Result<(), AllocError>
    requires { AreByAddress (map resource_of resources.old) }
    ensures same { map resource_of resources.new ≡ map resource_of resources.old }
    ensures room { OnOk result (HaveRoom (count_of (map (λ l. addr_of l.now) addrs.now)) resources.new) }
{
    let counts = counts_of(alloc, resources, addrs)?;
    for index in 0..resources.len() {
        resources[index].reserve(counts[index])?;
    }
    Ok(())
}

/// Counts how often the address of each resource is one of these.
fn counts_of(
    alloc: Global,
    resources: &[Resource],
    addrs: &[&ResourceAddr],
) -> Result<Vec<usize>, AllocError>
    requires { AreByAddress (map resource_of resources.now) }
    ensures { IfOk result (λ counts. counts.items ≡ counts_at (map (λ l. addr_of l.now) addrs.now) (map resource_of resources.now)) }
{
    let mut counts = no_counts(alloc, resources.len())?;
    let mut place = 0;
    for addr in addrs {
        match search_near(resources, addr, place) {
            Ok(index) => {
                counts[index] += 1;
                place = index;
            }
            Err(_) => {}
        }
    }
    Ok(counts)
}

/// Returns the given number of counts, all zero.
fn no_counts(alloc: Global, count: usize) -> Result<Vec<usize>, AllocError>
    ensures { IfOk result (λ counts. counts.items ≡ replicate count 0) }
{
    vec![in alloc; 0; count]
}
