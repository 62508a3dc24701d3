//! The schema of `local_file`.

ghost use Rattle.std.specs.Prelude.{◌≡◌, IfOk, map};
ghost use Rattle.tf_provider_local.specs.Schema.{attribute, file_schema};
ghost use Rattle.tf_provider_protocol.specs.Schema.{attribute_of, fault_of, in_order};

use std::alloc::{AllocError, Global};
use tf_provider_protocol::{Attribute, Kind, Mode, Schema, SchemaFault};

/// Returns the schema of `local_file`.
pub fn file_schema(alloc: Global) -> Result<Schema, AllocError>
    ensures { IfOk result (λ schema. schema ≡ file_schema) }
{
    let mut attributes = Vec::with_capacity(alloc, 8)?;
    attributes.push(attribute(alloc, "filename", Mode::Required)?)?;
    attributes.push(attribute(alloc, "content", Mode::Optional)?)?;
    attributes.push(attribute(alloc, "file_permission", Mode::Optional)?)?;
    attributes.push(attribute(alloc, "id", Mode::Computed)?)?;
    attributes.push(attribute(alloc, "content_sha1", Mode::Computed)?)?;
    attributes.push(attribute(alloc, "content_md5", Mode::Computed)?)?;
    attributes.push(attribute(alloc, "content_sha256", Mode::Computed)?)?;
    attributes.push(attribute(alloc, "content_base64sha256", Mode::Computed)?)?;
    first_version(alloc, attributes)
}

/// Returns an attribute that holds a text. If the configuration may set it, its change replaces the file.
fn attribute(alloc: Global, name: &str, mode: Mode) -> Result<Attribute, AllocError>
    ensures { IfOk result (λ a. attribute_of a ≡ attribute name.now mode) }
{
    Ok(Attribute {
        name: String::from_str(alloc, name)?,
        kind: Kind::String,
        mode,
        force_new: mode != Mode::Computed,
    })
}

/// Returns the schema of version 0 with the given attributes, which have no fault.
fn first_version(alloc: Global, attributes: Vec<Attribute>) -> Result<Schema, AllocError>
    requires { fault_of (map attribute_of attributes.items) ≡ None }
    ensures { IfOk result (λ schema. schema ≡ record { version = 0; attributes = in_order (map attribute_of attributes.items) }) }
{
    match Schema::new(alloc, 0, attributes) {
        Ok(schema) => Ok(schema),
        Err(SchemaFault::OutOfMemory) => Err(AllocError),
        Err(_) => unreachable!(),
    }
}
