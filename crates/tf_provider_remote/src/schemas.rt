//! Reading the schemas of a provider that is another program.

use crate::types::RemoteType;
use serde_json::{Map, Value as Json};
use std::alloc::{AllocError, AllocFailed, Global};
use std::error::Error;
use std::fmt;
use tf_provider_protocol::{Attribute, Kind, Mode, Schema, SchemaFault};

/// Why schemas aren't read.
#[derive(Debug, Drop)]
pub enum SchemasFault {
    /// The text isn't JSON: the line and the column of its first fault.
    Syntax(usize, usize),
    /// There is no object `resource_schemas`.
    NoTypes,
    /// What has this name in `resource_schemas` isn't a schema.
    NotASchema(String),
    /// Memory ran out.
    OutOfMemory,
}

impl From<AllocError> for SchemasFault {
    fn from(_: AllocError) -> SchemasFault {
        SchemasFault::OutOfMemory
    }
}

impl<T: Drop> From<AllocFailed<T>> for SchemasFault {
    fn from(_: AllocFailed<T>) -> SchemasFault {
        SchemasFault::OutOfMemory
    }
}

impl fmt::Display for SchemasFault {
    fn fmt<W: fmt::Write>(&self, f: &mut fmt::Formatter<W>) -> fmt::Result {
        match self {
            SchemasFault::Syntax(line, column) => {
                write!(f, "line {line}, column {column}: not JSON")
            }
            SchemasFault::NoTypes => write!(f, "no object resource_schemas"),
            SchemasFault::NotASchema(name) => write!(f, "{name}: not a schema"),
            SchemasFault::OutOfMemory => write!(f, "out of memory"),
        }
    }
}

impl Error for SchemasFault {}

/// Reads the types of a provider from the text of its schemas, in byte order of their names. `provider` is its number.
///
/// # Errors
///
/// Fails if the text isn't in the form of `terraform providers schema -json`, with the provider's schemas alone and
/// exactly one of `required`, `optional` and `computed` for each attribute; or if memory runs out.
pub fn read_schemas(
    alloc: Global,
    provider: usize,
    text: &[u8],
) -> Result<Vec<RemoteType>, SchemasFault> {
    let json = match Json::from_slice(alloc, text) {
        Ok(json) => json,
        Err(error) if error.is_memory() => return Err(SchemasFault::OutOfMemory),
        Err(error) => return Err(SchemasFault::Syntax(error.line(), error.column())),
    };
    match json.get("resource_schemas") {
        Some(Json::Object(members)) => types_from(alloc, provider, members),
        _ => Err(SchemasFault::NoTypes),
    }
}

/// Reads each member as a type.
fn types_from(
    alloc: Global,
    provider: usize,
    members: &Map<String, Json>,
) -> Result<Vec<RemoteType>, SchemasFault> {
    let mut types = Vec::new(alloc);
    for (name, json) in members.iter() {
        let name = name.clone()?;
        match (schema_from(alloc, json)?, flag_from(json, "idempotent")) {
            (Some(schema), Some(idempotent)) => types.push(RemoteType {
                provider,
                name,
                schema,
                idempotent,
            })?,
            _ => return Err(SchemasFault::NotASchema(name)),
        }
    }
    Ok(types)
}

/// Reads a schema: its version, and the attributes of its block.
fn schema_from(alloc: Global, json: &Json) -> Result<Option<Schema>, AllocError> {
    let Some(version) = version_from(json.get("version")) else {
        return Ok(None);
    };
    let Some(Json::Object(members)) = json.pointer("/block/attributes") else {
        return Ok(None);
    };
    let Some(attributes) = attributes_from(alloc, members)? else {
        return Ok(None);
    };
    match Schema::new(alloc, version, attributes) {
        Ok(schema) => Ok(Some(schema)),
        Err(SchemaFault::OutOfMemory) => Err(AllocError),
        Err(_) => Ok(None),
    }
}

/// Reads a version: a whole number of 32 bits, or 0 if there is none.
fn version_from(json: Option<&Json>) -> Option<u32> {
    match json {
        None => Some(0),
        Some(json) => match json.as_u64() {
            Some(version) if version <= 4_294_967_295 => Some(version as u32),
            _ => None,
        },
    }
}

/// Reads each member as an attribute.
fn attributes_from(
    alloc: Global,
    members: &Map<String, Json>,
) -> Result<Option<Vec<Attribute>>, AllocError> {
    let mut attributes = Vec::new(alloc);
    for (name, json) in members.iter() {
        let name = name.clone()?;
        let (Some(mode), Some(force_new)) = (mode_from(json), flag_from(json, "force_new")) else {
            return Ok(None);
        };
        attributes.push(Attribute {
            name,
            kind: kind_from(json),
            mode,
            force_new,
        })?;
    }
    Ok(Some(attributes))
}

/// Reads which values an attribute takes: all of them, unless its type is one of three words.
fn kind_from(json: &Json) -> Kind {
    match json.get("type") {
        Some(Json::String(word)) => match word.as_str() {
            "string" => Kind::String,
            "number" => Kind::Number,
            "bool" => Kind::Bool,
            _ => Kind::Any,
        },
        _ => Kind::Any,
    }
}

/// Reads who sets an attribute, if exactly one of three flags is set.
fn mode_from(json: &Json) -> Option<Mode> {
    let required = flag_from(json, "required")?;
    let optional = flag_from(json, "optional")?;
    let computed = flag_from(json, "computed")?;
    match (required, optional, computed) {
        (true, false, false) => Some(Mode::Required),
        (false, true, false) => Some(Mode::Optional),
        (false, false, true) => Some(Mode::Computed),
        _ => None,
    }
}

/// Reads a flag, which isn't set if it is absent.
fn flag_from(json: &Json, name: &str) -> Option<bool> {
    match json.get(name) {
        None => Some(false),
        Some(Json::Bool(flag)) => Some(*flag),
        Some(_) => None,
    }
}
