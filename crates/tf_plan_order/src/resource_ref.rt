//! Names and orphans, which have numbers.

ghost use Rattle.std.specs.Prelude.{◌≡◌, option_map};
ghost use Rattle.tf_config_address.specs.ResourceAddr.{addr_of};
ghost use Rattle.tf_plan_order.specs.ResourceRef.{resource_ref_of};
ghost use Rattle.tf_plan_order.specs.ResourceIndex.{address_of};

use tf_config_address::ResourceAddr;
use tf_config_names::Declaration;
use tf_state_data::Resource;

/// A name or an orphan, which has a number in a configuration and a prior state together.
#[derive(Clone, Copy)]
pub enum ResourceRef<'a> {
    /// A name of the configuration: a local, or a resource with its block.
    Name(Declaration<'a>),
    /// A resource of the state without a block in the configuration.
    Orphan(&'a Resource),
}

impl<'a> ResourceRef<'a> {
    /// Returns the address of a resource, or `None` for a local.
    pub fn address(self) -> Option<&'a ResourceAddr>
        ensures { option_map (λ addr. addr_of addr.now) result ≡ address_of (resource_ref_of self.entry) }
    {
        match self {
            ResourceRef::Name(Declaration::Local(_, _)) => None,
            ResourceRef::Name(Declaration::Resource(addr, _)) => Some(addr),
            ResourceRef::Orphan(resource) => Some(resource.addr()),
        }
    }
}
