//! The objects of the prior state with the texts that the document has of them.

ghost use Rattle.std.specs.List.{flat_map};
ghost use Rattle.std.specs.Prelude.{◌≡◌, ◌++◌, IfOk, OnOk, map};
ghost use Rattle.tf_config_address.specs.ResourceAddr.{addr_of};
ghost use Rattle.tf_plan_json.specs.Prior.{objects_of, record_data};
ghost use Rattle.tf_plan_json.specs.Views.{stored_view};
ghost use Rattle.tf_state_data.specs.Record.{record_of};
ghost use Rattle.tf_state_data.specs.Resource.{resource_of};
ghost use Rattle.tf_state_data.specs.State.{state_of};

use crate::listing::provider_source;
use std::alloc::{AllocError, Global};
use tf_config_address::ResourceAddr;
use tf_plan_data::address_text;
use tf_state_data::{Record, Resource, State};

/// An object of the prior state, with the texts that the document has of it.
#[derive(Drop)]
pub(crate) struct Stored<'a> {
    /// The type and name of its resource.
    pub(crate) addr: &'a ResourceAddr,
    /// What the state has of it.
    pub(crate) instance: &'a Record,
    /// The address of its instance.
    pub(crate) address: String,
    /// The source address of its provider.
    pub(crate) provider: String,
}

/// Returns the objects of a state, in address order.
pub(crate) fn stored_objects(alloc: Global, state: &State) -> Result<Vec<Stored<'_>>, AllocError>
    ensures { IfOk result (λ made. map stored_view made.items ≡ flat_map objects_of (state_of state.now).resources) }
{
    let mut objects = Vec::new(alloc);
    for resource in state.resources() {
        add_objects(alloc, resource, &mut objects)?;
    }
    Ok(objects)
}

/// Adds the objects of a resource.
fn add_objects<'a>(
    alloc: Global,
    resource: &'a Resource,
    objects: &mut Vec<Stored<'a>>,
) -> Result<(), AllocError>
    ensures { OnOk result (map stored_view objects.new.items ≡ map stored_view objects.old.items ++ objects_of (resource_of resource.now)) }
{
    for instance in resource.records() {
        objects.push(stored_for(alloc, resource.addr(), instance)?)?;
    }
    Ok(())
}

/// Returns an object of the resource at an address, with its texts.
fn stored_for<'a>(
    alloc: Global,
    addr: &'a ResourceAddr,
    instance: &'a Record,
) -> Result<Stored<'a>, AllocError>
    ensures { IfOk result (λ made. stored_view made ≡ record_data (addr_of addr.now) (record_of instance.now)) }
{
    let address = address_text(alloc, addr, &instance.id.key)?;
    let provider = provider_source(alloc, addr.type_name.as_str())?;
    Ok(Stored {
        addr,
        instance,
        address,
        provider,
    })
}
