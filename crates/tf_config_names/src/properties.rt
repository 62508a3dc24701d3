//! The properties of a block's body whose names are checked, in byte order.

ghost use Rattle.std.specs.Prelude.{◌≡◌, ◌≤◌, ◌++◌, ◌∷◌, IfOk, OnOk, drop, length, map, take};
ghost use Rattle.std.specs.Cmp.Lexicographic.{slice_cmp};
ghost use Rattle.std.specs.Ordering.{is_lt, nat_cmp};
ghost use Rattle.tf_config_data.specs.Words.{block_at, entries_view, ResourceAddrView, repetition_of, tree_of};
ghost use Rattle.tf_config_names.specs.KnownNames.{PropertyView, an_expression, arguments_in, body_of, context_of, put_property, put_repetition};
ghost use Rattle.tf_config_names.specs.declared.known_names.Context.TheVariants.{Plain};
ghost use Rattle.tf_config_names.specs.Properties.{property_view};

use crate::known_names::Context;
use std::alloc::{AllocError, Global};
use std::collections::BTreeMap;
use tf_config_address::ResourceAddr;
use tf_config_data::{Block, Repetition};
use tf_expr_syntax::Expr;

/// The value of a property of a block's body.
#[derive(Clone, Copy)]
pub(crate) enum PropertyValue<'a> {
    /// An expression, and what is known in it.
    Expression(Context, &'a Expr),
    /// Resources.
    Resources(&'a [ResourceAddr]),
}

/// A property of a block's body.
#[derive(Clone, Copy)]
pub(crate) struct Property<'a> {
    pub(crate) name: &'a str,
    pub(crate) value: PropertyValue<'a>,
}

/// Returns the properties of a block's body in byte order of their names: its arguments, `count` or `for_each`, and
/// `depends_on`.
pub(crate) fn properties_of<'a>(
    alloc: Global,
    block: &'a Block,
) -> Result<Vec<Property<'a>>, AllocError>
    ensures { IfOk result (λ body. (addr : ResourceAddrView) → map property_view body.items ≡ body_of (block_at addr block.now)) }
{
    let mut body = arguments_of(alloc, context_in(&block.repetition), &block.arguments)?;
    let depends_on = Property {
        name: "depends_on",
        value: PropertyValue::Resources(block.depends_on.as_slice()),
    };
    put(&mut body, depends_on)?;
    put_repetition(&mut body, &block.repetition)?;
    Ok(body)
}

fn context_in(repetition: &Repetition) -> Context
    ensures { result ≡ context_of (repetition_of repetition.now) }
{
    match repetition {
        Repetition::Single => Context::Plain,
        Repetition::Count(_) => Context::Counted,
        Repetition::ForEach(_) => Context::Keyed,
    }
}

fn arguments_of<'a>(
    alloc: Global,
    context: Context,
    arguments: &'a BTreeMap<String, Expr>,
) -> Result<Vec<Property<'a>>, AllocError>
    ensures { IfOk result (λ body. map property_view body.items ≡ arguments_in context (entries_view arguments.now.entries)) }
{
    let mut body = Vec::new(alloc);
    for (name, expr) in arguments.iter() {
        body.push(Property {
            name: name.as_str(),
            value: PropertyValue::Expression(context, expr),
        })?;
    }
    Ok(body)
}

fn put_repetition<'a>(
    body: &mut Vec<Property<'a>>,
    repetition: &'a Repetition,
) -> Result<(), AllocError>
    ensures { OnOk result (map property_view body.new.items
        ≡ put_repetition (repetition_of repetition.now) (map property_view body.old.items)) }
{
    match repetition {
        Repetition::Single => Ok(()),
        Repetition::Count(expr) => put(body, plain("count", expr)),
        Repetition::ForEach(expr) => put(body, plain("for_each", expr)),
    }
}

/// Builds a property whose expression has no further names.
fn plain<'a>(name: &'a str, expr: &'a Expr) -> Property<'a>
    ensures { property_view result ≡ (name.now, an_expression Plain (tree_of expr.now)) }
{
    Property {
        name,
        value: PropertyValue::Expression(Context::Plain, expr),
    }
}

/// Inserts a property before the first whose name isn't below its name.
fn put<'a>(body: &mut Vec<Property<'a>>, property: Property<'a>) -> Result<(), AllocError>
    ensures { OnOk result (map property_view body.new.items
        ≡ put_property (property_view property.entry) (map property_view body.old.items)) }
{
    let at = below(body.as_slice(), property.name);
    body.insert(at, property)?;
    Ok(())
}

/// Returns how many properties come before the first whose name isn't below the given name.
fn below(body: &[Property<'_>], name: &str) -> usize
    ensures few { result ≤ length body.now }
    ensures before { (value : PropertyView) → put_property (name.now, value) (map property_view body.now)
        ≡ take result (map property_view body.now) ++ (name.now, value) ∷ drop result (map property_view body.now) }
{
    for (at, property) in body.iter().enumerate() {
        if !is_below(property, name) {
            return at;
        }
    }
    body.len()
}

fn is_below(property: &Property<'_>, name: &str) -> bool
    ensures { result ≡ is_lt (slice_cmp nat_cmp (property_view property.now).0 name.now) }
{
    property.name < name
}
