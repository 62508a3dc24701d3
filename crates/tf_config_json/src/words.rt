//! The words of the format: the meaning of each property, and which texts are types and addresses.

ghost use Rattle.std.specs.List.{list_any};
ghost use Rattle.std.specs.Prelude.{◌≡◌};
ghost use Rattle.std.specs.Str.{bytes_eq};
ghost use Rattle.tf_config_json.specs.Words.{block_property_of, is_type_name, lifecycle_property_of, locals_property_of, output_property_of, refused_properties, reserved_types, section_of, type_in, variable_property_of};

use tf_config_address::is_name;
use tf_config_data::{Element, VariableType};

/// The meaning of a property at the top of a configuration.
#[derive(Clone, Copy)]
pub(crate) enum Section {
    /// `//`, which is ignored.
    Comment,
    /// `variable`.
    Variables,
    /// `locals`.
    Locals,
    /// `output`.
    Outputs,
    /// `resource`.
    Resources,
    /// Any other property, which is refused.
    Other,
}

/// The meaning of a property in the body of a variable.
#[derive(Clone, Copy)]
pub(crate) enum VariableProperty {
    /// `//`, which is ignored.
    Comment,
    /// `type`.
    Type,
    /// `default`.
    Default,
    /// `description`.
    Description,
    /// Any other property, which is refused.
    Other,
}

/// The meaning of a property of `locals`.
#[derive(Clone, Copy)]
pub(crate) enum LocalsProperty {
    /// `//`, which is ignored.
    Comment,
    /// Any other property: a local value.
    Local,
}

/// The meaning of a property in the body of an output.
#[derive(Clone, Copy)]
pub(crate) enum OutputProperty {
    /// `//`, which is ignored.
    Comment,
    /// `value`.
    Value,
    /// `description`.
    Description,
    /// Any other property, which is refused.
    Other,
}

/// The meaning of a property in the body of a resource.
#[derive(Clone, Copy)]
pub(crate) enum BlockProperty {
    /// `//`, which is ignored.
    Comment,
    /// `count`.
    Count,
    /// `for_each`.
    ForEach,
    /// `depends_on`.
    DependsOn,
    /// `lifecycle`.
    Lifecycle,
    /// A reserved name, which is refused.
    Refused,
    /// Any other property: an argument.
    Argument,
}

/// The meaning of a property of `lifecycle`.
#[derive(Clone, Copy)]
pub(crate) enum LifecycleProperty {
    /// `//`, which is ignored.
    Comment,
    /// `create_before_destroy`.
    CreateBeforeDestroy,
    /// `prevent_destroy`.
    PreventDestroy,
    /// `ignore_changes`.
    IgnoreChanges,
    /// Any other property, which is refused.
    Other,
}

pub(crate) fn section_named(name: &str) -> Section
    ensures { result ≡ section_of name.now }
{
    match name {
        "//" => Section::Comment,
        "variable" => Section::Variables,
        "locals" => Section::Locals,
        "output" => Section::Outputs,
        "resource" => Section::Resources,
        _ => Section::Other,
    }
}

pub(crate) fn variable_property_named(name: &str) -> VariableProperty
    ensures { result ≡ variable_property_of name.now }
{
    match name {
        "//" => VariableProperty::Comment,
        "type" => VariableProperty::Type,
        "default" => VariableProperty::Default,
        "description" => VariableProperty::Description,
        _ => VariableProperty::Other,
    }
}

pub(crate) fn locals_property_named(name: &str) -> LocalsProperty
    ensures { result ≡ locals_property_of name.now }
{
    match name {
        "//" => LocalsProperty::Comment,
        _ => LocalsProperty::Local,
    }
}

pub(crate) fn output_property_named(name: &str) -> OutputProperty
    ensures { result ≡ output_property_of name.now }
{
    match name {
        "//" => OutputProperty::Comment,
        "value" => OutputProperty::Value,
        "description" => OutputProperty::Description,
        _ => OutputProperty::Other,
    }
}

pub(crate) fn block_property_named(name: &str) -> BlockProperty
    ensures { result ≡ block_property_of name.now }
{
    match name {
        "//" => BlockProperty::Comment,
        "count" => BlockProperty::Count,
        "for_each" => BlockProperty::ForEach,
        "depends_on" => BlockProperty::DependsOn,
        "lifecycle" => BlockProperty::Lifecycle,
        _ if is_refused_property(name) => BlockProperty::Refused,
        _ => BlockProperty::Argument,
    }
}

fn is_refused_property(name: &str) -> bool
    ensures { result ≡ list_any (bytes_eq name.now) refused_properties }
{
    matches!(name, "connection" | "provider" | "provisioner")
}

pub(crate) fn lifecycle_property_named(name: &str) -> LifecycleProperty
    ensures { result ≡ lifecycle_property_of name.now }
{
    match name {
        "//" => LifecycleProperty::Comment,
        "create_before_destroy" => LifecycleProperty::CreateBeforeDestroy,
        "prevent_destroy" => LifecycleProperty::PreventDestroy,
        "ignore_changes" => LifecycleProperty::IgnoreChanges,
        _ => LifecycleProperty::Other,
    }
}

/// Checks whether a text may be a resource type: a name that has no other meaning in an expression.
pub(crate) fn is_type_name(text: &str) -> bool
    ensures { result ≡ is_type_name text.now }
{
    is_name(text) && !is_reserved_type(text)
}

fn is_reserved_type(text: &str) -> bool
    ensures { result ≡ list_any (bytes_eq text.now) reserved_types }
{
    matches!(
        text,
        "var"
            | "local"
            | "each"
            | "count"
            | "data"
            | "module"
            | "path"
            | "self"
            | "terraform"
            | "true"
            | "false"
            | "null"
    )
}

/// Returns the type that a text names.
pub(crate) fn type_named(text: &str) -> Option<VariableType>
    ensures { result ≡ type_in text.now }
{
    match text {
        "any" => Some(VariableType::One(Element::Any)),
        "string" => Some(VariableType::One(Element::String)),
        "number" => Some(VariableType::One(Element::Number)),
        "bool" => Some(VariableType::One(Element::Bool)),
        "list(any)" => Some(VariableType::List(Element::Any)),
        "list(string)" => Some(VariableType::List(Element::String)),
        "list(number)" => Some(VariableType::List(Element::Number)),
        "list(bool)" => Some(VariableType::List(Element::Bool)),
        "map(any)" => Some(VariableType::Map(Element::Any)),
        "map(string)" => Some(VariableType::Map(Element::String)),
        "map(number)" => Some(VariableType::Map(Element::Number)),
        "map(bool)" => Some(VariableType::Map(Element::Bool)),
        _ => None,
    }
}
