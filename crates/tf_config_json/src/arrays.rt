//! Arrays of names and of addresses.

ghost use Rattle.serde_json.specs.Data.{Data};
ghost use Rattle.serde_json.specs.View.{items_view, view};
ghost use Rattle.std.specs.Prelude.{◌≡◌, IfErr, IfOk, List, ℕ, map, option_map, string_bytes};
ghost use Rattle.tf_config_address.specs.ResourceAddr.{addr_of, ResourceAddrView};
ghost use Rattle.tf_config_json.specs.Demand.{Refuses};
ghost use Rattle.tf_config_json.specs.Parts.{address_checks, array_checks, element_checks, name_checks, EachSays, IsAddressText, IsNameText, IsPartSound, PartChecks, SaysList};
ghost use Rattle.tf_config_json.specs.Words.{addr_in, addr_of_names};
ghost use Rattle.tf_config_refusal.specs.Place.{place_of};
ghost use Rattle.tf_config_refusal.specs.Walk.{each_item};
ghost use Rattle.tf_config_refusal.specs.Refusal.{refusal_of};

use crate::demand::{bad_shape, demand_name};
use crate::objects::Part;
use crate::words::is_type_name;
use serde_json::Value;
use std::alloc::{AllocError, Global};
use tf_config_address::{ResourceAddr, is_name};
use tf_config_refusal::{Path, Refusal};

/// A kind of array element.
pub(crate) trait Listed: Drop + Sized {
    ghost OutView: { Type 0 };

    ghost out_view: { Self → OutView };

    ghost says: { Data → OutView → Type 0 };

    ghost checks: { PartChecks };

    /// Reads an element.
    ///
    /// # Errors
    ///
    /// Fails with the first fault in it, in walk order, or with `OutOfMemory`.
    fn read(part: &Part<'_>) -> Result<Self, Refusal>
        ensures ok { IfOk result (λ said. says (view part.now.value.now) (out_view said)) }
        ensures fault { IfErr result (λ refusal.
            Refuses (checks (place_of part.now.path.now) (view part.now.value.now)) (refusal_of refusal)) };
}

/// Reads the elements of an array, in order. Refuses anything but an array with 2.
pub(crate) fn read_array<E: Listed>(part: &Part<'_>) -> Result<Vec<E>, Refusal>
    requires sound { IsPartSound E.says E.checks }
    ensures ok { IfOk result (λ all.
        SaysList E.says (view part.now.value.now) (map E.out_view all.items)) }
    ensures fault { IfErr result (λ refusal.
        Refuses (array_checks E.checks (place_of part.now.path.now) (view part.now.value.now)) (refusal_of refusal)) }
{
    match part.value {
        Value::Array(items) => read_each(part.alloc, part.path, items),
        _ => Err(bad_shape(part.alloc, part.path)),
    }
}

fn read_each<'a, E: Listed>(
    alloc: Global,
    path: &'a Path<'a>,
    items: &'a Vec<Value>,
) -> Result<Vec<E>, Refusal>
    requires sound { IsPartSound E.says E.checks }
    ensures ok { IfOk result (λ all.
        EachSays E.says (items_view items.now.items) (map E.out_view all.items)) }
    ensures fault { IfErr result (λ refusal.
        Refuses (each_item (element_checks E.checks (place_of path.now)) 0 (items_view items.now.items))
        (refusal_of refusal)) }
{
    let mut all = Vec::with_capacity(alloc, items.len())?;
    for (position, value) in items.iter().enumerate() {
        let path = &Path::Item(path, position);
        let said = E::read(&Part { alloc, path, value })?;
        all.push(said)?;
    }
    Ok(all)
}

/// A text that is a name.
impl Listed for String {
    ghost OutView = { List ℕ };

    ghost out_view = { λ name. string_bytes name };

    ghost says = { IsNameText };

    ghost checks = { name_checks };

    fn read(part: &Part<'_>) -> Result<String, Refusal> {
        match part.value {
            Value::String(text) => {
                demand_name(part.alloc, part.path, text.as_str())?;
                Ok(String::from_str(part.alloc, text.as_str())?)
            }
            _ => Err(bad_shape(part.alloc, part.path)),
        }
    }
}

/// A text that is the address of a resource.
impl Listed for ResourceAddr {
    ghost OutView = { ResourceAddrView };

    ghost out_view = { λ addr. addr_of addr };

    ghost says = { IsAddressText };

    ghost checks = { address_checks };

    fn read(part: &Part<'_>) -> Result<ResourceAddr, Refusal> {
        match part.value {
            Value::String(text) => match addr_named(part.alloc, text.as_str())? {
                Some(addr) => Ok(addr),
                None => Err(bad_shape(part.alloc, part.path)),
            },
            _ => Err(bad_shape(part.alloc, part.path)),
        }
    }
}

/// Returns the resource whose address is the text, or `None` if the text isn't an address.
#[tactic(auto, using(crate::proofs::Addresses::no_address))]
fn addr_named(alloc: Global, text: &str) -> Result<Option<ResourceAddr>, AllocError>
    ensures { IfOk result (λ addr. option_map addr_of addr ≡ addr_in text.now) }
{
    match text.split_once('.') {
        Some((type_name, name)) => addr_of_names(alloc, type_name, name),
        None => Ok(None),
    }
}

fn addr_of_names(
    alloc: Global,
    type_name: &str,
    name: &str,
) -> Result<Option<ResourceAddr>, AllocError>
    ensures { IfOk result (λ addr. option_map addr_of addr ≡ addr_of_names type_name.now name.now) }
{
    if !is_type_name(type_name) || !is_name(name) {
        return Ok(None);
    }
    let type_name = String::from_str(alloc, type_name)?;
    let name = String::from_str(alloc, name)?;
    Ok(Some(ResourceAddr { type_name, name }))
}
