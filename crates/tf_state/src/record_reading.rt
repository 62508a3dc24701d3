//! Reading of records.

ghost use Rattle.std.specs.Prelude.{◌≡◌, ◌++◌, [], Some, IfErr, IfOk, OnOk, map, option_map};
ghost use Rattle.serde_json.specs.View.{view, items_view};
ghost use Rattle.tf_state.specs.Made.{record_made, records_made};
ghost use Rattle.tf_config_address.specs.ObjectId.{object_id_of};
ghost use Rattle.tf_config_address.specs.declared.object_id.ObjectId.{ObjectId};
ghost use Rattle.tf_state_data.specs.Ids.{AreById};
ghost use Rattle.tf_state.specs.Arrangement.{record_cmp};
ghost use Rattle.tf_state.specs.Reading.{IsRefused, instances_in, is_record, put_new, record_at, record_in, records_in};
ghost use Rattle.tf_state_data.specs.Record.{record_of};

use crate::body::Body;
use crate::fault::StateFault;
use crate::shape::{Shape, is_shaped};
use crate::value_reading::{
    is_unsensitive, read_attributes, read_dependencies, read_flag, read_id, read_tainted,
    read_version,
};
use serde_json::Value as Json;
use std::alloc::{AllocError, Global};
use std::collections::BTreeMap;
use tf_config_address::ObjectId;
use tf_state_data::Record;

/// Reads the records of a resource, in the order of their ids. Drops each part of the tree after reading it.
pub(crate) fn read_instances(alloc: Global, json: Option<Json>) -> Result<Vec<Record>, StateFault>
    ensures ok { IfOk result (λ rs. instances_in (option_map view json) ≡ Some (map record_of rs.items)) }
    ensures ordered { IfOk result (λ rs. AreById (map record_of rs.items)) }
    ensures err { IfErr result (λ e. IsRefused (instances_in (option_map view json)) e) }
{
    match json {
        Some(Json::Array(items)) => {
            let records = read_records(alloc, items)?;
            Ok(in_order(alloc, records)?)
        }
        _ => Err(StateFault::BadState),
    }
}

fn in_order(alloc: Global, records: BTreeMap<ObjectId, Body>) -> Result<Vec<Record>, AllocError>
    ensures all { IfOk result (λ rs. map record_of rs.items ≡ records_made records.entries) }
    ensures ordered { IfOk result (λ rs. AreById (map record_of rs.items)) }
{
    let mut ordered = Vec::with_capacity(alloc, records.len())?;
    for (id, body) in records {
        ordered.push(Record {
            id,
            attributes: body.attributes,
            schema_version: body.schema_version,
            tainted: body.tainted,
            dependencies: body.dependencies,
            create_before_destroy: body.create_before_destroy,
        })?;
    }
    Ok(ordered)
}

fn read_records(alloc: Global, items: Vec<Json>) -> Result<BTreeMap<ObjectId, Body>, StateFault>
    ensures ok { IfOk result (λ m. records_in (items_view items.items) [] ≡ Some (records_made m.entries)) }
    ensures err { IfErr result (λ e. IsRefused (records_in (items_view items.items) []) e) }
{
    let mut records = BTreeMap::new(alloc);
    for item in items {
        let (id, body) = read_record(alloc, &item)?;
        add_record(&mut records, id, body)?;
    }
    Ok(records)
}

fn add_record(
    records: &mut BTreeMap<ObjectId, Body>,
    id: ObjectId,
    body: Body,
) -> Result<(), StateFault>
    ensures ok { OnOk result (put_new record_cmp (record_made id body) (records_made records.old.entries) ≡ Some (records_made records.new.entries)) }
    ensures err { IfErr result (λ e. IsRefused (put_new record_cmp (record_made id body) (records_made records.old.entries)) e) }
{
    let is_taken = records.insert(id, body)?.is_some();
    if is_taken {
        return Err(StateFault::BadState);
    }
    Ok(())
}

fn read_record(alloc: Global, json: &Json) -> Result<(ObjectId, Body), StateFault>
    ensures ok { IfOk result (λ r. record_in (view json.now) ≡ Some (record_made r.0 r.1)) }
    ensures err { IfErr result (λ e. IsRefused (record_in (view json.now)) e) }
{
    if !is_record(json) {
        return Err(StateFault::BadState);
    }
    let id = read_id(alloc, json)?;
    let body = read_body(alloc, json)?;
    Ok((id, body))
}

fn is_record(json: &Json) -> bool
    ensures { result ≡ is_record (view json.now) }
{
    is_shaped(json, Shape::Record) && is_unsensitive(json.get("sensitive_attributes"))
}

fn read_body(alloc: Global, json: &Json) -> Result<Body, StateFault>
    ensures ok { IfOk result (λ b. (p : ObjectId) → record_at (object_id_of p) (view json.now) ≡ Some (record_made p b)) }
    ensures err { IfErr result (λ e. (p : ObjectId) → IsRefused (record_at (object_id_of p) (view json.now)) e) }
{
    let attributes = read_attributes(alloc, json.get("attributes"))?;
    let schema_version = read_version(json.get("schema_version"))?;
    let tainted = read_tainted(json.get("status"))?;
    let dependencies = read_dependencies(alloc, json.get("dependencies"))?;
    let create_before_destroy = read_flag(json.get("create_before_destroy"))?;
    Ok(Body {
        attributes,
        schema_version,
        tainted,
        dependencies,
        create_before_destroy,
    })
}
