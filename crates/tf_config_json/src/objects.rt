//! The members of an object, read one after another.

ghost use Rattle.serde_json.specs.Data.{Data};
ghost use Rattle.serde_json.specs.View.{members_view, view};
ghost use Rattle.std.specs.Prelude.{List, ℕ};
ghost use Rattle.tf_config_json.specs.Building.{BuildsFrom, IsSound};
ghost use Rattle.tf_config_json.specs.Configuration.{below, object_checks, PropertyChecks};
ghost use Rattle.tf_config_json.specs.Demand.{FineOrRefuses};
ghost use Rattle.tf_config_refusal.specs.Place.{place_of};
ghost use Rattle.tf_config_refusal.specs.Walk.{each, Builds};

use crate::demand::bad_shape;
use serde_json::{Map, Value};
use std::alloc::Global;
use tf_config_refusal::{Path, Refusal};

/// A value at a place of the tree, with the allocator for what is read from it.
#[derive(Clone, Copy)]
pub(crate) struct Part<'a> {
    /// The allocator.
    pub(crate) alloc: Global,
    /// The place.
    pub(crate) path: &'a Path<'a>,
    /// The value.
    pub(crate) value: &'a Value,
}

/// A kind of object: how its members are read, and what is demanded of them.
pub(crate) trait Members {
    /// The value that the members build together.
    type Out;

    ghost OutView: { Type 0 };

    ghost out_view: { Self.Out → OutView };

    ghost adds: { Self → List ℕ → Data → OutView → OutView → Type 0 };

    ghost checks: { Self → PropertyChecks };

    /// Reads a member and adds it to the value.
    ///
    /// # Errors
    ///
    /// Fails with the first fault in it, in walk order, or with `OutOfMemory`.
    fn add(&self, name: &str, part: &Part<'_>, said: &mut Self::Out) -> Result<(), Refusal>
        ensures { FineOrRefuses (adds self.now name.now (view part.now.value.now) (out_view said.old) (out_view said.new))
            (checks self.now (place_of part.now.path.now) name.now (view part.now.value.now)) result };
}

/// Reads and adds the members of an object, in byte order of their names. Refuses anything but an object with 2.
pub(crate) fn add_members<M: Members>(
    members: &M,
    part: &Part<'_>,
    said: &mut M::Out,
) -> Result<(), Refusal>
    requires sound { IsSound (M.adds members.now) (M.checks members.now) }
    ensures { FineOrRefuses (BuildsFrom (M.adds members.now) (view part.now.value.now) (M.out_view said.old) (M.out_view said.new))
        (object_checks (M.checks members.now) (place_of part.now.path.now) (view part.now.value.now)) result }
{
    match part.value {
        Value::Object(object) => add_each_member(members, part.alloc, part.path, object, said),
        _ => Err(bad_shape(part.alloc, part.path)),
    }
}

/// Reads and adds each member of an object's map, in byte order of their names.
pub(crate) fn add_each_member<'a, M: Members>(
    members: &M,
    alloc: Global,
    path: &'a Path<'a>,
    object: &'a Map<String, Value>,
    said: &mut M::Out,
) -> Result<(), Refusal>
    requires sound { IsSound (M.adds members.now) (M.checks members.now) }
    ensures { FineOrRefuses (Builds (M.adds members.now) (members_view object.now.entries) (M.out_view said.old) (M.out_view said.new))
        (each (below (M.checks members.now) (place_of path.now)) (members_view object.now.entries)) result }
{
    for (key, value) in object.iter() {
        let name = key.as_str();
        let path = &Path::Member(path, name);
        members.add(name, &Part { alloc, path, value }, said)?;
    }
    Ok(())
}
