//! Reading of resources.

ghost use Rattle.std.specs.Prelude.{◌≡◌, [], Some, IfErr, IfOk, OnOk, map, option_map};
ghost use Rattle.serde_json.specs.View.{view, items_view};
ghost use Rattle.tf_state.specs.Made.{resource_made, resources_made};
ghost use Rattle.tf_state.specs.Arrangement.{is_some_record, resource_cmp, with_records};
ghost use Rattle.tf_state.specs.Reading.{IsRefused, all_resources_in, is_managed, put_new, resource_in, resources_in};
ghost use Rattle.tf_state_data.specs.Addresses.{AreByAddress};
ghost use Rattle.tf_state_data.specs.Record.{record_of};
ghost use Rattle.tf_state_data.specs.Resource.{resource_of};

use crate::body::Held;
use crate::fault::StateFault;
use crate::record_reading::read_instances;
use crate::shape::{Shape, is_shaped, take_member};
use crate::value_reading::{read_name, read_text};
use serde_json::Value as Json;
use std::alloc::{AllocError, Global};
use std::collections::BTreeMap;
use tf_config_address::ResourceAddr;
use tf_state_data::{Record, Resource};

/// Reads the resources of a state that have records, in the order of their addresses. Drops each part of the tree
/// after reading it.
pub(crate) fn read_resources(alloc: Global, json: Option<Json>) -> Result<Vec<Resource>, StateFault>
    ensures ok { IfOk result (λ rs. all_resources_in (option_map view json) ≡ Some (map resource_of rs.items)) }
    ensures ordered { IfOk result (λ rs. AreByAddress (map resource_of rs.items)) }
    ensures err { IfErr result (λ e. IsRefused (all_resources_in (option_map view json)) e) }
{
    match json {
        None => Ok(Vec::new(alloc)),
        Some(Json::Array(items)) => {
            let resources = read_each(alloc, items)?;
            Ok(in_order(alloc, resources)?)
        }
        Some(_) => Err(StateFault::BadState),
    }
}

fn in_order(
    alloc: Global,
    resources: BTreeMap<ResourceAddr, Held>,
) -> Result<Vec<Resource>, AllocError>
    ensures all { IfOk result (λ rs. map resource_of rs.items ≡ with_records (resources_made resources.entries)) }
    ensures ordered { IfOk result (λ rs. AreByAddress (map resource_of rs.items)) }
{
    let mut ordered = Vec::with_capacity(alloc, resources.len())?;
    for (addr, held) in resources {
        if has_records(&held.records) {
            ordered.push(Resource::new(addr, held.provider, held.records))?;
        }
    }
    Ok(ordered)
}

/// Returns whether there is any record.
pub(crate) fn has_records(records: &[Record]) -> bool
    ensures { result ≡ is_some_record (map record_of records.now) }
{
    match records {
        [] => false,
        [_, ..] => true,
    }
}

fn read_each(alloc: Global, items: Vec<Json>) -> Result<BTreeMap<ResourceAddr, Held>, StateFault>
    ensures ok { IfOk result (λ m. resources_in (items_view items.items) [] ≡ Some (resources_made m.entries)) }
    ensures err { IfErr result (λ e. IsRefused (resources_in (items_view items.items) []) e) }
{
    let mut resources = BTreeMap::new(alloc);
    for item in items {
        let (addr, held) = read_resource(alloc, item)?;
        add_resource(&mut resources, addr, held)?;
    }
    Ok(resources)
}

fn add_resource(
    resources: &mut BTreeMap<ResourceAddr, Held>,
    addr: ResourceAddr,
    held: Held,
) -> Result<(), StateFault>
    ensures ok { OnOk result (put_new resource_cmp (resource_made addr held) (resources_made resources.old.entries) ≡ Some (resources_made resources.new.entries)) }
    ensures err { IfErr result (λ e. IsRefused (put_new resource_cmp (resource_made addr held) (resources_made resources.old.entries)) e) }
{
    let is_taken = resources.insert(addr, held)?.is_some();
    if is_taken {
        return Err(StateFault::BadState);
    }
    Ok(())
}

fn read_resource(alloc: Global, json: Json) -> Result<(ResourceAddr, Held), StateFault>
    ensures ok { IfOk result (λ r. resource_in (view json) ≡ Some (resource_made r.0 r.1)) }
    ensures err { IfErr result (λ e. IsRefused (resource_in (view json)) e) }
{
    if !is_shaped(&json, Shape::Resource) || !is_managed(json.get("mode")) {
        return Err(StateFault::BadState);
    }
    let type_name = read_name(alloc, json.get("type"))?;
    let name = read_name(alloc, json.get("name"))?;
    let provider = read_text(alloc, json.get("provider"))?;
    let records = read_instances(alloc, take_member(json, "instances"))?;
    Ok((ResourceAddr { type_name, name }, Held { provider, records }))
}

fn is_managed(json: Option<&Json>) -> bool
    ensures { result ≡ is_managed (option_map (λ v. view v.now) json.entry) }
{
    match json {
        Some(Json::String(mode)) => mode.as_str() == "managed",
        _ => false,
    }
}
