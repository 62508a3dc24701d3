//! The numbers of resources.

ghost use Rattle.std.specs.Prelude.{◌≡◌, ◌<◌, ◌++◌, ◌∷◌, [], Some, is_some, not, filter, IfOk, OnOk, length, map, slice_get, if◌then◌else◌};
ghost use Rattle.tf_config_names.specs.Table.{names_in};
ghost use Rattle.tf_plan_order.specs.Dependencies.{named_place};
ghost use Rattle.tf_plan_order.specs.ResourceRef.{resource_ref_of};
ghost use Rattle.tf_plan_order.specs.ResourceIndex.{a_name, an_orphan, numbered, place_in};
ghost use Rattle.tf_plan_order.specs.Words.{found_in, addr_of, addr_pair, ResourceAddrView, resource_of, state_of};

use crate::places::places_of;
use crate::resource_ref::ResourceRef;
use std::alloc::{AllocError, Global};
use tf_config_address::ResourceAddr;
use tf_config_names::{Declarations, Places};
use tf_state_data::{Resource, State};

/// The resources of a configuration and of a prior state together, by number. The names of the configuration keep their
/// places. The orphans, the resources of the state without a block in the configuration, follow in address order.
#[derive(Drop)]
pub struct ResourceIndex<'a> {
    numbered: Vec<ResourceRef<'a>>,
    places: Places,
    state: &'a State,
    ghost placed: { (addr : ResourceAddrView) → found_in places (addr_pair addr) ≡ place_in (map resource_ref_of numbered.items) addr },
}

impl<'a> ResourceIndex<'a> {
    ghost use Rattle.tf_plan_order.specs.Table.{numbered_in, resources_in};

    /// Numbers the names of a configuration and the resources of a state.
    ///
    /// # Errors
    ///
    /// Fails only if memory runs out.
    pub fn new(
        alloc: Global,
        names: &Declarations<'a>,
        state: &'a State,
    ) -> Result<ResourceIndex<'a>, AllocError>
        ensures numbered { IfOk result (λ n. numbered_in n ≡ numbered (names_in names.now) (state_of state.now).resources) }
        ensures resources { IfOk result (λ n. resources_in n ≡ (state_of state.now).resources) }
    {
        let mut numbered = numbered_names(alloc, names)?;
        let blocks = places_of(alloc, numbered.as_slice())?;
        add_orphans(&mut numbered, &blocks, state.resources())?;
        let places = if numbered.len() == names.len() {
            blocks
        } else {
            places_of(alloc, numbered.as_slice())?
        };
        Ok(ResourceIndex {
            numbered,
            places,
            state,
        })
    }

    /// Returns how many numbers there are: as many as names and orphans.
    pub fn len(&self) -> usize
        ensures { result ≡ length (numbered_in self.now) }
    {
        self.numbered.len()
    }

    /// Returns the name or the orphan at a place.
    pub fn at(&self, place: usize) -> ResourceRef<'a>
        requires { place < length (numbered_in self.now) }
        ensures { slice_get (numbered_in self.now) place ≡ Some (resource_ref_of result) }
    {
        self.numbered[place]
    }

    /// Returns the place of the resource at an address, which is a block or an orphan, or `None` if there is none.
    pub fn place(&self, addr: &ResourceAddr) -> Option<usize>
        ensures { result ≡ place_in (numbered_in self.now) (addr_of addr.now) }
    {
        self.places
            .find(addr.type_name.as_str(), addr.name.as_str())
    }

    /// Returns the place of the resource that a text `TYPE.NAME` names, or `None` if it is neither declared nor in the
    /// state.
    pub fn named_place(&self, text: &str) -> Option<usize>
        ensures { result ≡ named_place (numbered_in self.now) text.now }
    {
        match text.split_once('.') {
            Some((type_name, name)) => self.places.find(type_name, name),
            None => None,
        }
    }

    /// Returns the state whose resources it numbers.
    pub(crate) fn state(&self) -> &'a State
        ensures { (state_of result.now).resources ≡ resources_in self.now }
    {
        self.state
    }
}

/// Returns the names of a configuration, in their order.
fn numbered_names<'a>(
    alloc: Global,
    names: &Declarations<'a>,
) -> Result<Vec<ResourceRef<'a>>, AllocError>
    ensures { IfOk result (λ numbered. map resource_ref_of numbered.items ≡ map a_name (names_in names.now)) }
{
    let mut numbered = Vec::with_capacity(alloc, names.len())?;
    for place in 0..names.len() {
        numbered.push(ResourceRef::Name(names.at(place)))?;
    }
    Ok(numbered)
}

/// Adds those of some resources that have no block.
fn add_orphans<'a>(
    numbered: &mut Vec<ResourceRef<'a>>,
    blocks: &Places,
    resources: &'a [Resource],
) -> Result<(), AllocError>
    ensures { OnOk result (map resource_ref_of numbered.new.items ≡ map resource_ref_of numbered.old.items
        ++ map an_orphan (filter (λ r. not (is_some (found_in blocks.now (addr_pair r.addr)))) (map resource_of resources.now))) }
{
    for resource in resources {
        let addr = resource.addr();
        let block = blocks.find(addr.type_name.as_str(), addr.name.as_str());
        add_orphan(numbered, block, resource)?;
    }
    Ok(())
}

/// Adds a resource of the state if the configuration has no block for it.
fn add_orphan<'a>(
    numbered: &mut Vec<ResourceRef<'a>>,
    block: Option<usize>,
    resource: &'a Resource,
) -> Result<(), AllocError>
    ensures { OnOk result (map resource_ref_of numbered.new.items ≡ map resource_ref_of numbered.old.items
        ++ (if not (is_some block) then an_orphan (resource_of resource.now) ∷ [] else [])) }
{
    if block.is_none() {
        numbered.push(ResourceRef::Orphan(resource))?;
    }
    Ok(())
}
