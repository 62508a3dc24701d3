//! The dependencies that the state has stored.

ghost use Rattle.std.specs.Prelude.{◌≡◌, ◌≤◌, ◌++◌, ◌∷◌, [], IfOk, OnOk, length, map};
ghost use Rattle.std.specs.List.{flat_map};
ghost use Rattle.tf_plan_order.specs.Stored.{IsStored};
ghost use Rattle.tf_plan_order.specs.Dependencies.{dependencies, record_pairs, resource_pairs, text_pairs};
ghost use Rattle.tf_plan_order.specs.Table.{numbered_in, resources_in};
ghost use Rattle.tf_plan_order.specs.Words.{record_of, resource_of};

use crate::resource_index::ResourceIndex;
use crate::stored::StoredDependencies;
use std::alloc::{AllocError, Global};
use tf_graph::MAX_NODES;
use tf_state_data::{Record, Resource};

/// Pairs of a place and one that it depends on.
type Pairs = Vec<(usize, usize)>;

impl ResourceIndex<'_> {
    /// Builds what needed what when it was made, from the dependencies that the state has stored.
    ///
    /// # Errors
    ///
    /// Fails only if memory runs out.
    pub fn stored(&self, alloc: Global) -> Result<StoredDependencies, AllocError>
        requires few { length (numbered_in self.now) ≤ MAX_NODES }
        ensures { IfOk result (λ stored. IsStored (length (numbered_in self.now))
            (dependencies (numbered_in self.now) (resources_in self.now)) stored) }
    {
        let pairs = self.dependencies(alloc)?;
        StoredDependencies::new(alloc, self.len(), pairs.as_slice())
    }

    /// Returns the stored dependencies: pairs of the place of a resource of the state and the place of what one of its
    /// objects depends on, current or deposed. What is neither declared nor in the state is left out. Cycles,
    /// duplicates and self-edges are allowed.
    ///
    /// # Errors
    ///
    /// Fails only if memory runs out.
    pub fn dependencies(&self, alloc: Global) -> Result<Vec<(usize, usize)>, AllocError>
        ensures { IfOk result (λ pairs. pairs.items ≡ dependencies (numbered_in self.now) (resources_in self.now)) }
    {
        let mut pairs = Vec::new(alloc);
        for resource in self.state().resources() {
            self.add_resource(&mut pairs, resource)?;
        }
        Ok(pairs)
    }

    /// Adds the dependencies of a resource's objects.
    fn add_resource(&self, pairs: &mut Pairs, resource: &Resource) -> Result<(), AllocError>
        ensures { OnOk result (pairs.new.items
            ≡ pairs.old.items ++ resource_pairs (numbered_in self.now) (resource_of resource.now)) }
    {
        match self.place(resource.addr()) {
            Some(place) => self.add_records(pairs, place, resource.records()),
            None => Ok(()),
        }
    }

    /// Adds the dependencies of the objects of the resource at a place, from their records.
    fn add_records(
        &self,
        pairs: &mut Pairs,
        place: usize,
        records: &[Record],
    ) -> Result<(), AllocError>
        ensures { OnOk result (pairs.new.items
            ≡ pairs.old.items ++ flat_map (record_pairs (numbered_in self.now) place) (map record_of records.now)) }
    {
        for kept in records {
            self.add_record(pairs, place, kept)?;
        }
        Ok(())
    }

    /// Adds the dependencies of an object of the resource at a place, from its record.
    fn add_record(&self, pairs: &mut Pairs, place: usize, kept: &Record) -> Result<(), AllocError>
        ensures { OnOk result (pairs.new.items
            ≡ pairs.old.items ++ record_pairs (numbered_in self.now) place (record_of kept.now)) }
    {
        for text in kept.dependencies.iter() {
            self.add_named(pairs, place, text.as_str())?;
        }
        Ok(())
    }

    /// Adds the pair of a place and that of the resource that a text names, if there is one.
    fn add_named(&self, pairs: &mut Pairs, place: usize, text: &str) -> Result<(), AllocError>
        ensures { OnOk result (pairs.new.items
            ≡ pairs.old.items ++ text_pairs (numbered_in self.now) place (text.now ∷ [])) }
    {
        if let Some(other) = self.named_place(text) {
            pairs.push((place, other))?;
        }
        Ok(())
    }
}
