//! Which resources are marked.

ghost use Rattle.std.specs.Prelude.{◌≡◌, ◌<◌, Some, IfOk, length, map, option_map, slice_get};
ghost use Rattle.std.specs.List.{list_any};
ghost use Rattle.tf_plan_order.specs.Marks.{is_marked};
ghost use Rattle.tf_plan_order.specs.Table.{numbered_in};

use crate::resource_index::ResourceIndex;
use crate::resource_ref::ResourceRef;
use std::alloc::{AllocError, Global};
use tf_config_names::Declaration;
use tf_state_data::Record;

impl ResourceIndex<'_> {
    /// Returns for each place whether the resource there is marked (`is_marked`).
    ///
    /// # Errors
    ///
    /// Fails only if memory runs out.
    pub fn marked(&self, alloc: Global) -> Result<Vec<bool>, AllocError>
        ensures { IfOk result (λ marked. marked.items ≡ map is_marked (numbered_in self.now)) }
    {
        let mut marked = Vec::with_capacity(alloc, self.len())?;
        for place in 0..self.len() {
            marked.push(self.is_marked(place))?;
        }
        Ok(marked)
    }

    /// Checks whether the resource at a place is marked: its block says `create_before_destroy` or, if it has no block,
    /// the record of any of its objects does. A local is never marked.
    pub fn is_marked(&self, place: usize) -> bool
        requires { place < length (numbered_in self.now) }
        ensures { option_map is_marked (slice_get (numbered_in self.now) place) ≡ Some result }
    {
        match self.at(place) {
            ResourceRef::Orphan(resource) => any_says_so(resource.records()),
            ResourceRef::Name(Declaration::Resource(_, block)) => block
                .lifecycle
                .create_before_destroy,
            ResourceRef::Name(Declaration::Local(_, _)) => false,
        }
    }
}

/// Checks whether the record of some object says `create_before_destroy`.
fn any_says_so(records: &[Record]) -> bool
    ensures { result ≡ list_any (λ x. x.create_before_destroy) records.now }
{
    records.iter().any(|record| record.create_before_destroy)
}
