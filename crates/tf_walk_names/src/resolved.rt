//! The values of names in an apply.

ghost use Rattle.std.specs.List.{AllByRecursion, list_all};
ghost use Rattle.std.specs.Prelude.{◌≡◌, ◌<◌, ◌≤◌, ℕ, IfOk, MatchBool, OnErr, OnOk, true, is_some, length, set, Contains};
ghost use Rattle.tf_expand_keys.specs.Words.{applying, entries_view, environment, has, meant_at, names_in, order_in, shapes_of, resolved_of, resolved_names_of, stands_at};
ghost use Rattle.tf_expand_keys.specs.declared.resolved.Resolved.{Resolved as Stood};
ghost use Rattle.tf_walk_names.specs.Resolving.{AreResolvedSoFar, is_resource};
ghost use Rattle.tf_walk_names.specs.Wanted.{AreClosedForLocals};

use crate::results::{InstanceAnswers, Results};
use crate::sharing::{is_missing, stands};
use std::alloc::{AllocError, Global};
use tf_expand_keys::{ExpandedValues, InstanceKeys, Module, Resolved, resolved_at};

/// The names of a configuration in an apply, with what providers returned for the resources.
#[derive(Drop)]
pub(crate) struct RequestObjects<'a, 'n, R> {
    pub(crate) alloc: Global,
    pub(crate) declared: &'a Module<'a, 'n>,
    pub(crate) shapes: &'a [InstanceKeys],
    pub(crate) results: &'a R,
}

impl<R: Results> RequestObjects<'_, '_, R> {
    /// Adds the values of these resources, except those that have one so far. Looks at no other name: a resource's
    /// value is its returned objects, whatever it refers to.
    pub(crate) fn add_resources(
        &self,
        kept: &mut Vec<Resolved>,
        resources: &[usize],
    ) -> Result<(), AllocError>
        requires within { AllByRecursion (λ n. n < length (names_in self.now.declared.now.names.now)) resources.now }
        requires resources { list_all (λ n. is_resource (meant_at (names_in self.now.declared.now.names.now) n)) resources.now ≡ true }
        requires room { AllByRecursion (λ n. n < length kept.old.items) resources.now }
        requires answered { AreResolvedSoFar (entries_view self.now.declared.now.variables.now.entries) (names_in self.now.declared.now.names.now)
            (shapes_of self.now.shapes.now) (R.objects self.now.results.now) (resolved_names_of kept.old.items) }
        ensures answered { AreResolvedSoFar (entries_view self.now.declared.now.variables.now.entries) (names_in self.now.declared.now.names.now)
            (shapes_of self.now.shapes.now) (R.objects self.now.results.now) (resolved_names_of kept.new.items) }
        ensures there { OnOk result (AllByRecursion (λ n. is_some (resolved_names_of kept.new.items n) ≡ true) resources.now) }
    {
        let declared = self.declared;
        let _ = &declared.parts;
        for place in resources {
            let is_missing = !stands(kept.as_slice(), *place);
            self.add_resolved(kept, *place, is_missing)?;
        }
        Ok(())
    }

    /// Returns the value of the name at an index, by the values of names so far.
    fn resolved_at(&self, kept: &[Resolved], place: usize) -> Result<Resolved, AllocError>
        requires { place < length (names_in self.now.declared.now.names.now) }
        ensures { IfOk result (λ resolved. resolved_of resolved
            ≡ stands_at (applying (shapes_of self.now.shapes.now) (R.objects self.now.results.now)) place (meant_at (names_in self.now.declared.now.names.now) place)
            (environment (entries_view self.now.declared.now.variables.now.entries) (names_in self.now.declared.now.names.now) (resolved_names_of kept.now))) }
    {
        let objects = InstanceAnswers {
            results: self.results,
        };
        let stage = ExpandedValues {
            shapes: self.shapes,
            objects: &objects,
        };
        resolved_at(self.alloc, &stage, self.declared, kept, place)
    }

    /// Adds the value of each wanted name that has none so far.
    pub(crate) fn add_wanted(
        &self,
        kept: &mut Vec<Resolved>,
        wanted: &[bool],
    ) -> Result<(), AllocError>
        requires closed { AreClosedForLocals (names_in self.now.declared.now.names.now) wanted.now }
        requires room { length (names_in self.now.declared.now.names.now) ≤ length kept.old.items }
        requires answered { AreResolvedSoFar (entries_view self.now.declared.now.variables.now.entries) (names_in self.now.declared.now.names.now)
            (shapes_of self.now.shapes.now) (R.objects self.now.results.now) (resolved_names_of kept.old.items) }
        ensures answered { AreResolvedSoFar (entries_view self.now.declared.now.variables.now.entries) (names_in self.now.declared.now.names.now)
            (shapes_of self.now.shapes.now) (R.objects self.now.results.now) (resolved_names_of kept.new.items) }
        ensures there { OnOk result ((n : ℕ) → Contains (order_in self.now.declared.now.dependence.now) n → has wanted.now n ≡ true
            → is_some (resolved_names_of kept.new.items n) ≡ true) }
    {
        let declared = self.declared;
        for place in declared.parts.dependence.order() {
            let is_missing = is_missing(kept.as_slice(), wanted, *place);
            self.add_resolved(kept, *place, is_missing)?;
        }
        Ok(())
    }

    /// Adds the value of the name at an index, by the values of names so far, if it is missing.
    fn add_resolved(
        &self,
        kept: &mut Vec<Resolved>,
        place: usize,
        is_missing: bool,
    ) -> Result<(), AllocError>
        requires place { place < length (names_in self.now.declared.now.names.now) }
        requires room { place < length kept.old.items }
        ensures added { OnOk result (MatchBool is_missing
            ((s : Stood) × (kept.new.items ≡ set kept.old.items place s)
            × (resolved_of s ≡ stands_at (applying (shapes_of self.now.shapes.now) (R.objects self.now.results.now)) place
            (meant_at (names_in self.now.declared.now.names.now) place)
            (environment (entries_view self.now.declared.now.variables.now.entries) (names_in self.now.declared.now.names.now) (resolved_names_of kept.old.items))))
            (kept.new.items ≡ kept.old.items)) }
        ensures no_memory { OnErr result (kept.new.items ≡ kept.old.items) }
    {
        if !is_missing {
            return Ok(());
        }
        let resolved = self.resolved_at(kept.as_slice(), place)?;
        kept[place] = resolved;
        Ok(())
    }
}
