//! The places of resources.

ghost use Rattle.std.specs.Prelude.{◌≡◌, Some, IfOk, OnOk, if◌then◌else◌, map};
ghost use Rattle.tf_plan_order.specs.ResourceRef.{resource_ref_of};
ghost use Rattle.tf_plan_order.specs.ResourceIndex.{is_at, place_in};
ghost use Rattle.tf_plan_order.specs.Words.{found_in, addr_pair, ResourceAddrView};

use crate::resource_ref::ResourceRef;
use std::alloc::{AllocError, Global};
use tf_config_names::Places;

/// Builds the places of the resources in a list, from 0 on, by their types and then by their names. Of resources at one
/// address it keeps the first.
///
/// # Errors
///
/// Fails only if memory runs out.
pub(crate) fn places_of(alloc: Global, numbered: &[ResourceRef<'_>]) -> Result<Places, AllocError>
    ensures { IfOk result (λ places. (addr : ResourceAddrView)
        → found_in places (addr_pair addr) ≡ place_in (map resource_ref_of numbered.now) addr) }
{
    let mut places = Places::empty(alloc);
    for place in (0..numbered.len()).rev() {
        put(&mut places, alloc, numbered[place], place)?;
    }
    Ok(places)
}

/// Puts a resource at a place, and removes its former place. A local has no place among resources.
fn put(
    places: &mut Places,
    alloc: Global,
    numbered: ResourceRef<'_>,
    place: usize,
) -> Result<(), AllocError>
    ensures { OnOk result ((addr : ResourceAddrView) → found_in places.new (addr_pair addr)
        ≡ (if is_at addr (resource_ref_of numbered.entry) then Some place else found_in places.old (addr_pair addr))) }
{
    match numbered.address() {
        Some(addr) => {
            places.put(alloc, addr.type_name.as_str(), addr.name.as_str(), place)?;
            Ok(())
        }
        None => Ok(()),
    }
}
