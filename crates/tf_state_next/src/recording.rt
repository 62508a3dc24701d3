//! Records the outcomes of actions in the resources, without taking memory.

ghost use Rattle.std.specs.Prelude.{◌≡◌, ℕ, List, [], ◌∷◌, ◌++◌, IfErr, IfOk, length, map, true};
ghost use Rattle.tf_config_address.specs.ResourceAddr.{ResourceAddrView, addr_cmp, addr_of};
ghost use Rattle.tf_state_next.specs.Events.{AreApart, apply_of, as_apply, destroy_of, instance_of, object_of, metadata_update_of};
ghost use Rattle.tf_state_next.specs.StateDraft.{HaveRoom, count_of};
ghost use Rattle.tf_state_next.specs.Recorded.{AreApplied, AreDestroyed, AreThere};
ghost use Rattle.tf_state_data.specs.Addresses.{AreByAddress};
ghost use Rattle.tf_state_data.specs.Order.{IsAt, IsGapFor};
ghost use Rattle.tf_state_data.specs.Resource.{resource_of};

use crate::ends::Left;
use crate::events::{Apply, Destroy, MetadataUpdate};
use crate::record_ends::{record_apply, record_destroy, renew_record};
use tf_config_address::ResourceAddr;
use tf_state_data::Resource;

/// Returns the index of the resource at an address among resources in the order of their addresses, or the index where
/// it would be inserted.
pub(crate) fn search(resources: &[Resource], addr: &ResourceAddr) -> Result<usize, usize>
    requires { AreByAddress (map resource_of resources.now) }
    ensures found { IfOk result (IsAt (λ r. r.addr) addr_cmp (addr_of addr.now) (map resource_of resources.now)) }
    ensures absent { IfErr result (IsGapFor (λ r. r.addr) addr_cmp (addr_of addr.now) (map resource_of resources.now)) }
{
    resources.binary_search_by(|resource| resource.addr().cmp(addr))
}

/// Like [`search`], but first looks where the resource is likely to be: at a given index, next to it, or after all. So
/// addresses that are looked up in order, one after another, are found without a search.
pub(crate) fn search_near(
    resources: &[Resource],
    addr: &ResourceAddr,
    place: usize,
) -> Result<usize, usize>
    requires { AreByAddress (map resource_of resources.now) }
    ensures found { IfOk result (IsAt (λ r. r.addr) addr_cmp (addr_of addr.now) (map resource_of resources.now)) }
    ensures absent { IfErr result (IsGapFor (λ r. r.addr) addr_cmp (addr_of addr.now) (map resource_of resources.now)) }
{
    let next = place.saturating_add(1);
    let last = place.saturating_sub(1);
    if stands_at(resources, addr, place) {
        Ok(place)
    } else if stands_at(resources, addr, next) {
        Ok(next)
    } else if stands_at(resources, addr, last) {
        Ok(last)
    } else if is_behind(resources, addr) {
        Err(resources.len())
    } else {
        search(resources, addr)
    }
}

/// Checks whether the resource at an index has the given address.
fn stands_at(resources: &[Resource], addr: &ResourceAddr, place: usize) -> bool
    requires { AreByAddress (map resource_of resources.now) }
    ensures { result ≡ true → IsAt (λ r. r.addr) addr_cmp (addr_of addr.now) (map resource_of resources.now) place }
{
    match resources.get(place) {
        Some(resource) => resource.addr().cmp(addr).is_eq(),
        None => false,
    }
}

/// Checks whether an address comes after those of all resources.
fn is_behind(resources: &[Resource], addr: &ResourceAddr) -> bool
    requires { AreByAddress (map resource_of resources.now) }
    ensures { result ≡ true → IsGapFor (λ r. r.addr) addr_cmp (addr_of addr.now) (map resource_of resources.now) (length resources.now) }
{
    match resources.last() {
        Some(last) => last.addr().cmp(addr).is_lt(),
        None => true,
    }
}

/// Records what each destroy left of its object.
pub(crate) fn destroy_all(resources: &mut [Resource], mut destroys: Vec<Destroy<'_>>)
    requires ordered { AreByAddress (map resource_of resources.old) }
    requires apart { AreApart object_of (map destroy_of destroys.items) }
    ensures recorded { AreDestroyed (map destroy_of destroys.entry.items) (map resource_of resources.old) (map resource_of resources.new) }
    ensures room { (count : ResourceAddrView → ℕ) → HaveRoom count resources.old → HaveRoom count resources.new }
{
    while let Some(event) = destroys.pop() {
        destroy(resources, event);
    }
    destroys.destroy_empty();
}

/// Records what a destroy left of its object.
fn destroy(resources: &mut [Resource], event: Destroy<'_>)
    requires ordered { AreByAddress (map resource_of resources.old) }
    ensures recorded { AreDestroyed (destroy_of event.entry ∷ []) (map resource_of resources.old) (map resource_of resources.new) }
    ensures room { (count : ResourceAddrView → ℕ) → HaveRoom count resources.old → HaveRoom count resources.new }
{
    let Destroy { addr, id, left } = event;
    match search(resources, addr) {
        Ok(index) => record_destroy(&mut resources[index], &id, left),
        Err(_) => leave_nothing(left),
    }
}

/// Drops what a destroy left of an object of which nothing is known.
fn leave_nothing(left: Left) {
    match left {
        Left::Gone | Left::Unchanged => {}
        Left::Changed(attributes) => drop(attributes),
    }
}

/// Updates the metadata of each object for which nothing was planned.
pub(crate) fn renew_all(resources: &mut [Resource], mut metadata_updates: Vec<MetadataUpdate<'_>>)
    requires ordered { AreByAddress (map resource_of resources.old) }
    requires apart { AreApart instance_of (map as_apply (map metadata_update_of metadata_updates.items)) }
    ensures recorded { AreApplied (map as_apply (map metadata_update_of metadata_updates.entry.items)) (map resource_of resources.old) (map resource_of resources.new) }
    ensures room { (count : ResourceAddrView → ℕ) → HaveRoom count resources.old → HaveRoom count resources.new }
{
    while let Some(event) = metadata_updates.pop() {
        renew(resources, event);
    }
}

/// Updates the metadata of an object for which nothing was planned.
fn renew(resources: &mut [Resource], event: MetadataUpdate<'_>)
    requires ordered { AreByAddress (map resource_of resources.old) }
    ensures recorded { AreApplied (as_apply (metadata_update_of event.entry) ∷ []) (map resource_of resources.old) (map resource_of resources.new) }
    ensures room { (count : ResourceAddrView → ℕ) → HaveRoom count resources.old → HaveRoom count resources.new }
{
    let MetadataUpdate { addr, given } = event;
    if let Ok(index) = search(resources, addr) {
        renew_record(&mut resources[index], given);
    }
}

/// Records the outcome of each create and update, the last one first.
pub(crate) fn apply_all(resources: &mut [Resource], mut applies: Vec<Apply<'_>>)
    requires ordered { AreByAddress (map resource_of resources.old) }
    requires apart { AreApart instance_of (map apply_of applies.items) }
    requires there { AreThere (map (λ a. a.addr) (map apply_of applies.items)) (map resource_of resources.old) }
    requires room { HaveRoom (count_of (map (λ a. a.addr) (map apply_of applies.items))) resources.old }
    ensures { AreApplied (map apply_of applies.entry.items) (map resource_of resources.old) (map resource_of resources.new) }
{
    let mut place = resources.len();
    while let Some(event) = applies.pop() {
        place = apply(resources, event, place);
    }
    applies.destroy_empty();
}

/// Records the outcome of a create or an update, and returns its resource's index, which is looked up near a given one.
fn apply(resources: &mut [Resource], event: Apply<'_>, near: usize) -> usize
    requires ordered { AreByAddress (map resource_of resources.old) }
    requires there { AreThere (addr_of event.addr.now ∷ []) (map resource_of resources.old) }
    requires room { HaveRoom (count_of (addr_of event.addr.now ∷ [])) resources.old }
    ensures recorded { AreApplied (apply_of event.entry ∷ []) (map resource_of resources.old) (map resource_of resources.new) }
    ensures room { (addrs : List ResourceAddrView) → HaveRoom (count_of (addrs ++ addr_of event.entry.addr.now ∷ [])) resources.old → HaveRoom (count_of addrs) resources.new }
{
    let Apply { addr, given, saved } = event;
    let Ok(index) = search_near(resources, addr, near) else {
        unreachable!()
    };
    record_apply(&mut resources[index], given, saved);
    index
}
