//! The provider: its schemas, and the law that it keeps.

ghost use Rattle.std.specs.Prelude.{◌≡◌, map, IfOk};
ghost use Rattle.tf_provider_protocol.specs.Schema.{attribute_of, fault_of, in_order};
ghost use Rattle.tf_provider_sim.specs.Table.{attribute, net_schema, host_schema, sim_meaning};

use crate::answers::answer;
use std::alloc::{AllocError, Global};
use tf_provider_protocol::{Attribute, Kind, Mode, Provider, Reply, Request, Schema, SchemaFault};

/// The provider `sim`.
#[derive(Drop)]
pub struct Sim {
    alloc: Global,
    net: Schema,
    host: Schema,
    ghost net_is: { net ≡ net_schema },
    ghost host_is: { host ≡ host_schema },
}

impl Sim {
    /// Builds the provider with its two schemas. Fails only if memory runs out.
    pub fn new(alloc: Global) -> Result<Sim, AllocError>
        ensures { IfOk result (λ sim. ⟦<Sim as Provider>⟧.meaning sim ≡ sim_meaning) }
    {
        let net = net_schema(alloc)?;
        let host = host_schema(alloc)?;
        Ok(Sim { alloc, net, host })
    }
}

impl Provider for Sim {
    ghost use Rattle.tf_provider_sim.specs.Table.{sim_meaning};

    ghost meaning = { λ _. sim_meaning };

    fn schema(&self, type_name: &str) -> Option<&Schema> {
        if type_name == "sim_net" {
            Some(&self.net)
        } else if type_name == "sim_host" {
            Some(&self.host)
        } else {
            None
        }
    }

    fn apply(&self, request: &Request) -> Reply {
        match answer(self.alloc, request) {
            Ok(reply) => reply,
            Err(AllocError) => Reply::NoMemory,
        }
    }
}

/// Builds the schema of `sim_net`.
fn net_schema(alloc: Global) -> Result<Schema, AllocError>
    ensures { IfOk result (λ schema. schema ≡ net_schema) }
{
    let mut attributes = Vec::with_capacity(alloc, 3)?;
    attributes.push(attribute(alloc, "cidr", Kind::String, Mode::Required, true)?)?;
    attributes.push(attribute(alloc, "tag", Kind::String, Mode::Optional, false)?)?;
    attributes.push(attribute(alloc, "id", Kind::String, Mode::Computed, false)?)?;
    first_version(alloc, attributes)
}

/// Builds the schema of `sim_host`.
fn host_schema(alloc: Global) -> Result<Schema, AllocError>
    ensures { IfOk result (λ schema. schema ≡ host_schema) }
{
    let mut attributes = Vec::with_capacity(alloc, 4)?;
    attributes.push(attribute(alloc, "name", Kind::String, Mode::Required, true)?)?;
    attributes.push(attribute(alloc, "net", Kind::String, Mode::Optional, false)?)?;
    attributes.push(attribute(alloc, "size", Kind::Number, Mode::Optional, false)?)?;
    attributes.push(attribute(alloc, "id", Kind::String, Mode::Computed, false)?)?;
    first_version(alloc, attributes)
}

/// Builds the schema of version 0 with these attributes, which have no fault.
fn first_version(alloc: Global, attributes: Vec<Attribute>) -> Result<Schema, AllocError>
    requires { fault_of (map attribute_of attributes.items) ≡ None }
    ensures { IfOk result (λ schema. schema ≡ record { version = 0; attributes = in_order (map attribute_of attributes.items) }) }
{
    match Schema::new(alloc, 0, attributes) {
        Ok(schema) => Ok(schema),
        Err(SchemaFault::OutOfMemory) => Err(AllocError),
        Err(_) => unreachable!(),
    }
}

/// Builds an attribute.
fn attribute(
    alloc: Global,
    name: &str,
    kind: Kind,
    mode: Mode,
    force_new: bool,
) -> Result<Attribute, AllocError>
    ensures { IfOk result (λ a. attribute_of a ≡ attribute name.now kind mode force_new) }
{
    Ok(Attribute {
        name: String::from_str(alloc, name)?,
        kind,
        mode,
        force_new,
    })
}
