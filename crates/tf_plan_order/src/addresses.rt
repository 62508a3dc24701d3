//! Address order.

ghost use Rattle.std.specs.Prelude.{◌≡◌, IfOk, option_map};
ghost use Rattle.tf_config_address.specs.ResourceAddr.{addr_of};
ghost use Rattle.tf_plan_order.specs.AddressOrder.{AreInAddressOrder, address_at, address_cmp, is_resource, resource_places};
ghost use Rattle.tf_plan_order.specs.Table.{numbered_in};

use crate::resource_index::ResourceIndex;
use std::alloc::{AllocError, Global};
use std::cmp::Ordering;
use tf_config_address::ResourceAddr;

/// Returns the places of all resources of a configuration and a state together, in address order: by type and then by
/// name, byte by byte. Locals are not resources.
///
/// # Errors
///
/// Fails only if memory runs out.
pub fn address_order(
    alloc: Global,
    resource_index: &ResourceIndex<'_>,
) -> Result<Vec<usize>, AllocError>
    ensures { IfOk result (λ places. AreInAddressOrder (numbered_in resource_index.now) places.items) }
{
    let mut places = resource_places(alloc, resource_index)?;
    places.sort_by(|a, b| compare(resource_index, *a, *b))?;
    Ok(places)
}

/// Returns the places of all resources, in ascending order.
fn resource_places(
    alloc: Global,
    resource_index: &ResourceIndex<'_>,
) -> Result<Vec<usize>, AllocError>
    ensures { IfOk result (λ places. places.items ≡ resource_places (numbered_in resource_index.now)) }
{
    let mut places = Vec::new(alloc);
    for place in 0..resource_index.len() {
        if is_resource(resource_index, place) {
            places.push(place)?;
        }
    }
    Ok(places)
}

/// Checks whether a resource is at a place.
fn is_resource(resource_index: &ResourceIndex<'_>, place: usize) -> bool
    ensures { result ≡ is_resource (numbered_in resource_index.now) place }
{
    address_at(resource_index, place).is_some()
}

/// Compares the addresses at two places.
fn compare(resource_index: &ResourceIndex<'_>, a: usize, b: usize) -> Ordering
    ensures { result ≡ address_cmp (numbered_in resource_index.now) a b }
{
    address_at(resource_index, a).cmp(&address_at(resource_index, b))
}

/// Returns the address of the resource at a place, if there is one.
fn address_at<'a>(resource_index: &ResourceIndex<'a>, place: usize) -> Option<&'a ResourceAddr>
    ensures { option_map (λ addr. addr_of addr.now) result ≡ address_at (numbered_in resource_index.now) place }
{
    if place < resource_index.len() {
        resource_index.at(place).address()
    } else {
        None
    }
}
