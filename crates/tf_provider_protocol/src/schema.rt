//! Schemas: which attributes the objects of a type have, and the rule of each.

ghost use Rattle.std.specs.List.{list_all, list_any};
ghost use Rattle.std.specs.Prelude.{◌≡◌, map, find, MatchOption, MatchResult, IfOk, IfErr, OnOk, option_map};
ghost use Rattle.std.specs.Str.{bytes_eq};
ghost use Rattle.tf_config_address.specs.Name.{is_name};
ghost use Rattle.tf_provider_protocol.specs.Schema.{AttributeView, SchemaView, IsSchema, attribute_of, attribute_named, fault_of, in_order, placed, is_reserved, names_differ, name_is_in, place_in};
ghost use Rattle.tf_provider_protocol.specs.declared.schema.SchemaFault.TheVariants.{OutOfMemory};

use std::alloc::{AllocError, AllocFailed, Global};
use std::error::Error;
use std::fmt;
use std::marker::Model;
use tf_config_address::is_name;

/// The values that an attribute takes.
#[derive(Clone, Copy, Debug, PartialEq, Eq)]
pub enum Kind {
    /// Texts.
    String,
    /// Whole numbers.
    Number,
    /// Truth values.
    Bool,
    /// All values.
    Any,
}

/// Who sets an attribute.
#[derive(Clone, Copy, Debug, PartialEq, Eq)]
pub enum Mode {
    /// The configuration has to set it.
    Required,
    /// The configuration may set it; it is null otherwise.
    Optional,
    /// The provider sets it, and the configuration can't.
    Computed,
}

/// An attribute of a type's objects.
#[derive(Debug, Drop)]
pub struct Attribute {
    /// Its name within the type.
    pub name: String,
    /// The values that it takes.
    pub kind: Kind,
    /// Who sets it.
    pub mode: Mode,
    /// Whether a change of this attribute replaces the object, instead of updating it.
    pub force_new: bool,
}

/// Why some attributes make no schema.
#[derive(Clone, Copy, Debug, PartialEq, Eq)]
pub enum SchemaFault {
    /// There are more than 200 attributes.
    TooMany,
    /// An attribute's name isn't a name.
    NotAName,
    /// An attribute's name is reserved in a resource's body, such as `count`.
    Reserved,
    /// Two attributes have the same name.
    Repeated,
    /// Memory ran out.
    OutOfMemory,
}

impl fmt::Display for SchemaFault {
    fn fmt<W: fmt::Write>(&self, f: &mut fmt::Formatter<W>) -> fmt::Result {
        match self {
            SchemaFault::TooMany => write!(f, "more than 200 attributes"),
            SchemaFault::NotAName => write!(f, "an attribute's name isn't a name"),
            SchemaFault::Reserved => write!(f, "an attribute's name is reserved"),
            SchemaFault::Repeated => write!(f, "two attributes have one name"),
            SchemaFault::OutOfMemory => write!(f, "out of memory"),
        }
    }
}

impl From<AllocError> for SchemaFault {
    ghost from_gives = { λ _ fault. fault ≡ OutOfMemory };

    fn from(_: AllocError) -> SchemaFault {
        SchemaFault::OutOfMemory
    }
}

impl Error for SchemaFault {}

impl<T: Drop> From<AllocFailed<T>> for SchemaFault {
    ghost from_gives = { λ _ fault. fault ≡ OutOfMemory };

    fn from(_: AllocFailed<T>) -> SchemaFault {
        SchemaFault::OutOfMemory
    }
}

/// The schema of a type: its version, and its attributes in byte order of their names. An attribute's
/// place is its index in that order.
#[derive(Drop)]
pub struct Schema {
    version: u32,
    attributes: Vec<Attribute>,
}

impl Model for Schema {
    ghost use Rattle.std.specs.Prelude.{map};
    ghost use Rattle.tf_provider_protocol.specs.Schema.{SchemaView, IsSchema, attribute_of};

    ghost Value = { SchemaView };

    ghost view = { λ s. record { version = s.version; attributes = map attribute_of s.attributes.items } };

    ghost invariant = { λ s. IsSchema (record { version = s.version; attributes = map attribute_of s.attributes.items }) };
}

impl Schema {
    /// Builds the schema of some attributes, given in any order.
    ///
    /// # Errors
    ///
    /// Fails with the first of these that applies: `TooMany` if there are more than 200 attributes, `NotAName` if a
    /// name isn't a name, `Reserved` if a resource's body reserves a name, `Repeated` if a name is repeated. Fails
    /// with `OutOfMemory` if memory runs out.
    pub fn new(
        alloc: Global,
        version: u32,
        attributes: Vec<Attribute>,
    ) -> Result<Schema, SchemaFault>
        ensures schema { IfOk result (λ s. s ≡ record { version = version; attributes = in_order (map attribute_of attributes.items) }) }
        ensures faultless { OnOk result (fault_of (map attribute_of attributes.items) ≡ None) }
        ensures refused { IfErr result (λ fault. MatchOption (fault_of (map attribute_of attributes.items))
            (fault ≡ SchemaFault.OutOfMemory) (λ first. fault ≡ first)) }
    {
        match first_fault(&attributes) {
            Some(fault) => Err(fault),
            None => {
                let attributes = ordered(alloc, attributes)?;
                Ok(Schema {
                    version,
                    attributes,
                })
            }
        }
    }

    /// Returns the version that a state has to be written with.
    pub fn version(&self) -> u32
        ensures { result ≡ self.now.version }
    {
        self.version
    }

    /// Returns the attributes in byte order of their names.
    pub fn attributes(&self) -> &[Attribute]
        ensures attributes { map attribute_of result.now ≡ self.now.attributes }
        ensures kept { IsSchema self.now }
    {
        self.attributes.as_slice()
    }

    /// Returns the attribute of a name, if there is one.
    pub fn attribute(&self, name: &str) -> Option<&Attribute>
        ensures { option_map (λ a. attribute_of a.now) result ≡ attribute_named name.now self.now }
    {
        named(self.attributes.as_slice(), name)
    }
}

/// Returns the first of some attributes that has this name.
fn named<'a>(attributes: &'a [Attribute], name: &str) -> Option<&'a Attribute>
    ensures { option_map (λ a. attribute_of a.now) result
        ≡ find (λ a. bytes_eq a.name name.now) (map attribute_of attributes.now) }
{
    for attribute in attributes {
        if attribute.name.as_str() == name {
            return Some(attribute);
        }
    }
    None
}

/// Returns the first fault of a schema's attributes, if there is one.
fn first_fault(attributes: &[Attribute]) -> Option<SchemaFault>
    ensures { result ≡ fault_of (map attribute_of attributes.now) }
{
    if attributes.len() > 200 {
        Some(SchemaFault::TooMany)
    } else if !all_named(attributes) {
        Some(SchemaFault::NotAName)
    } else if any_reserved(attributes) {
        Some(SchemaFault::Reserved)
    } else if !all_differ(attributes) {
        Some(SchemaFault::Repeated)
    } else {
        None
    }
}

/// Checks that each attribute's name is a name.
fn all_named(attributes: &[Attribute]) -> bool
    ensures { result ≡ list_all (λ a. is_name a.name) (map attribute_of attributes.now) }
{
    for attribute in attributes {
        if !is_name(attribute.name.as_str()) {
            return false;
        }
    }
    true
}

/// Returns whether an attribute has a reserved name.
fn any_reserved(attributes: &[Attribute]) -> bool
    ensures { result ≡ list_any (λ a. is_reserved a.name) (map attribute_of attributes.now) }
{
    for attribute in attributes {
        if is_reserved(attribute.name.as_str()) {
            return true;
        }
    }
    false
}

/// Returns whether a name is reserved in a resource's body.
fn is_reserved(name: &str) -> bool
    ensures { result ≡ is_reserved name.now }
{
    name == "provider"
        || name == "provisioner"
        || name == "connection"
        || name == "count"
        || name == "for_each"
        || name == "depends_on"
        || name == "lifecycle"
}

/// Checks that no two attributes have the same name.
fn all_differ(attributes: &[Attribute]) -> bool
    ensures { result ≡ names_differ (map attribute_of attributes.now) }
{
    for (place, attribute) in attributes.iter().enumerate() {
        if is_among(&attributes[place + 1..], attribute.name.as_str()) {
            return false;
        }
    }
    true
}

/// Returns whether an attribute has this name.
fn is_among(attributes: &[Attribute], name: &str) -> bool
    ensures { result ≡ name_is_in (map attribute_of attributes.now) name.now }
{
    for attribute in attributes {
        if attribute.name.as_str() == name {
            return true;
        }
    }
    false
}

/// Sorts attributes in byte order of their names.
fn ordered(alloc: Global, mut attributes: Vec<Attribute>) -> Result<Vec<Attribute>, SchemaFault>
    ensures { MatchResult result
        (λ placed. map attribute_of placed.items ≡ in_order (map attribute_of attributes.items))
        (λ fault. fault ≡ SchemaFault.OutOfMemory) }
{
    let mut done = Vec::with_capacity(alloc, attributes.len())?;
    while let Some(attribute) = attributes.pop() {
        place(&mut done, attribute)?;
    }
    Ok(done)
}

/// Inserts an attribute in its place among attributes in byte order.
fn place(attributes: &mut Vec<Attribute>, attribute: Attribute) -> Result<(), SchemaFault>
    ensures { MatchResult result
        (λ _. map attribute_of attributes.new.items ≡ placed (map attribute_of attributes.old.items) (attribute_of attribute))
        (λ fault. fault ≡ SchemaFault.OutOfMemory) }
{
    let index = place_of(attributes, attribute.name.as_str());
    attributes.insert(index, attribute)?;
    Ok(())
}

/// Returns the index of the first attribute whose name isn't before this one, or the length.
fn place_of(attributes: &[Attribute], name: &str) -> usize
    ensures { result ≡ place_in (map attribute_of attributes.now) name.now }
{
    for (index, attribute) in attributes.iter().enumerate() {
        if attribute.name.as_str() >= name {
            return index;
        }
    }
    attributes.len()
}
