//! Which names the expressions of a configuration may use.

ghost use Rattle.std.specs.List.{list_all};
ghost use Rattle.std.specs.Prelude.{◌≡◌, ◌∷◌, [], IfOk, codes, map, string_bytes};
ghost use Rattle.tf_config_data.specs.Words.{block_at, blocks_of, config_of, entries_view, addr_of, ResourceAddrView, names_of, reference_of, template_view, tree_of, trees_view, variables_of};
ghost use Rattle.tf_config_refusal.specs.Check.{demanded};
ghost use Rattle.tf_config_refusal.specs.Place.{dotted, place_of as place_at};
ghost use Rattle.tf_config_names.specs.KnownNames.{a_resource, binds, block_checks, block_place, body_checks, body_of, config_checks, declared_in, declared_of, entry_name_checks, has_variable, is_function, is_variable, item_name_checks, knows, knows_names, addr_checks, name_checks, only_known_names, output_checks, property_checks, unknown_name, JudgesNames};
ghost use Rattle.tf_config_names.specs.Properties.{property_view, value_view};
ghost use Rattle.tf_config_names.specs.Table.{names_in};
ghost use Rattle.tf_config_names.specs.declared.known_names.Context.TheVariants.{Plain};
ghost use Rattle.tf_config_names.specs.Tells.{TellsAt};
ghost use Rattle.tf_config_refusal.specs.Refusal.{refusal_of};

use crate::properties::{Property, PropertyValue, properties_of};
use crate::table::Declarations;
use std::alloc::{AllocError, Global};
use std::collections::BTreeMap;
use tf_config_address::ResourceAddr;
use tf_config_data::{Block, Config, Variable};
use tf_config_refusal::{Code, Detail, Path, Refusal};
use tf_expr_syntax::{Expr, Function, Reference, Template, names_of};

/// What an expression may name in addition to what is declared, depending on where it is.
#[derive(Clone, Copy, Debug, PartialEq, Eq)]
pub enum Context {
    /// Nothing: in `count` and `for_each`, in an argument of a block with neither, in a local or an output.
    Plain,
    /// `count.index`: in an argument of a block with `count`.
    Counted,
    /// `each.key` and `each.value`: in an argument of a block with `for_each`.
    Keyed,
}

impl Context {
    /// Checks whether the context has a name, given by the two texts around its dot.
    pub fn binds(self, first: &str, name: &str) -> bool
        ensures { result ≡ binds self (first.now, name.now) }
    {
        match self {
            Context::Plain => false,
            Context::Counted => "count" == first && "index" == name,
            Context::Keyed => ("each" == first && "key" == name)
                || ("each" == first && "value" == name),
        }
    }
}

/// What a configuration declares, and the allocator for refusals.
#[derive(Clone, Copy)]
struct Known<'a, 'n> {
    alloc: Global,
    config: &'a Config,
    names: &'a Declarations<'n>,
}

impl Known<'_, '_> {
    /// Checks whether a name, given by the two texts around its dot, is known in a context.
    fn knows(&self, context: Context, first: &str, name: &str) -> bool
        ensures { result ≡ knows (declared_of self.now) context (first.now, name.now) }
    {
        self.is_variable(first, name)
            || self.names.place(first, name).is_some()
            || context.binds(first, name)
    }

    fn is_variable(&self, first: &str, name: &str) -> bool
        ensures { result ≡ is_variable (declared_of self.now).variables (first.now, name.now) }
    {
        "var" == first && has_variable(&self.config.variables, name)
    }

    fn knows_all(&self, context: Context, references: &[&Reference]) -> bool
        ensures { result ≡ list_all (knows (declared_of self.now) context) (map (λ r. reference_of r.now) references.now) }
    {
        for &reference in references {
            if !self.knows(context, reference.first.as_str(), reference.name.as_str()) {
                return false;
            }
        }
        true
    }

    fn knows_names(&self, context: Context, template: &Template) -> Result<bool, AllocError>
        ensures { IfOk result (λ known. known ≡ knows_names (declared_of self.now) context (template_view template.now)) }
    {
        let named = names_of(self.alloc, template)?;
        Ok(
            self.knows_all(context, named.references.as_slice())
                && are_functions(named.functions.as_slice()),
        )
    }
}

fn has_variable(variables: &BTreeMap<String, Variable>, name: &str) -> bool
    ensures { result ≡ has_variable (variables_of variables.now.entries) name.now }
{
    variables.contains_key(name)
}

fn are_functions(names: &[&String]) -> bool
    ensures { result ≡ list_all is_function (map (λ name. string_bytes name.now) names.now) }
{
    for &name in names {
        if !is_function(name.as_str()) {
            return false;
        }
    }
    true
}

fn is_function(name: &str) -> bool
    ensures { result ≡ is_function name.now }
{
    Function::named(name).is_some()
}

/// Builds the refusal of a text at the path that names or calls something unknown.
fn names_unknown(alloc: Global, path: &Path<'_>) -> Refusal
    ensures { TellsAt (dotted (place_at path.now)) unknown_name (refusal_of result) }
{
    match path.text(alloc) {
        Ok(place) => Refusal::Fault {
            code: Code::UnknownName,
            place,
            detail: Detail::Bare,
        },
        Err(_) => Refusal::OutOfMemory,
    }
}

/// Checks the names of a configuration. Each reference has to be to a declared variable, local or resource, or to what
/// is known in its context. Each called function has to exist, and each resource in `depends_on` has to be declared.
/// `names` are the names of the same configuration.
///
/// # Errors
///
/// Fails with `UnknownName` at the first place in walk order where this isn't so, or if memory runs out.
pub fn demand_known_names(
    alloc: Global,
    config: &Config,
    names: &Declarations<'_>,
) -> Result<(), Refusal>
    requires { names_in names.now ≡ names_of (config_of config.now) }
    ensures { JudgesNames (declared_in (config_of config.now)) (config_checks (config_of config.now)) result }
{
    let known = Known {
        alloc,
        config,
        names,
    };
    let locals = Path::Member(&Path::Root, "locals");
    demand_entries(known, Context::Plain, &locals, &config.locals)?;
    demand_outputs(known, &config.outputs)?;
    demand_blocks(known, &config.resources)?;
    Ok(())
}

fn demand_outputs(known: Known<'_, '_>, outputs: &BTreeMap<String, Expr>) -> Result<(), Refusal>
    ensures { JudgesNames (declared_of known.entry) (output_checks (entries_view outputs.now.entries)) result }
{
    for (name, expr) in outputs.iter() {
        demand_output(known, name.as_str(), expr)?;
    }
    Ok(())
}

/// Checks the value of an output.
fn demand_output(known: Known<'_, '_>, name: &str, expr: &Expr) -> Result<(), Refusal>
    ensures { JudgesNames (declared_of known.entry) (name_checks Plain (codes "value" ∷ name.now ∷ codes "output" ∷ []) (tree_of expr.now)) result }
{
    let output = Path::Member(&Path::Root, "output");
    let body = Path::Member(&output, name);
    let value = Path::Member(&body, "value");
    demand_expr(known, Context::Plain, &value, expr)
}

fn demand_blocks(
    known: Known<'_, '_>,
    blocks: &BTreeMap<ResourceAddr, Block>,
) -> Result<(), Refusal>
    ensures { JudgesNames (declared_of known.entry) (block_checks (blocks_of blocks.now.entries)) result }
{
    for (addr, block) in blocks.iter() {
        demand_resource(known, addr, block)?;
    }
    Ok(())
}

/// Checks the block of a resource.
fn demand_resource(known: Known<'_, '_>, addr: &ResourceAddr, block: &Block) -> Result<(), Refusal>
    ensures { JudgesNames (declared_of known.entry) (body_checks (block_place (addr_of addr.now)) (body_of (block_at (addr_of addr.now) block.now))) result }
{
    let resource = Path::Member(&Path::Root, "resource");
    let kind = Path::Member(&resource, addr.type_name.as_str());
    let name = Path::Member(&kind, addr.name.as_str());
    demand_block(known, &name, block)
}

/// Checks the names that a block at this path refers to and calls.
fn demand_block<'a>(
    known: Known<'_, '_>,
    path: &'a Path<'a>,
    block: &'a Block,
) -> Result<(), Refusal>
    ensures { (addr : ResourceAddrView) → JudgesNames (declared_of known.entry)
        (body_checks (place_at path.now) (body_of (block_at addr block.now))) result }
{
    let properties = properties_of(known.alloc, block)?;
    demand_properties(known, &*path, properties.as_slice())
}

fn demand_properties<'a>(
    known: Known<'_, '_>,
    path: &'a Path<'a>,
    properties: &'a [Property<'a>],
) -> Result<(), Refusal>
    ensures { JudgesNames (declared_of known.entry) (body_checks (place_at path.now) (map property_view properties.now)) result }
{
    for property in properties {
        demand_value(known, &Path::Member(path, property.name), &property.value)?;
    }
    Ok(())
}

fn demand_value<'a>(
    known: Known<'_, '_>,
    path: &'a Path<'a>,
    value: &'a PropertyValue<'a>,
) -> Result<(), Refusal>
    ensures { JudgesNames (declared_of known.entry) (property_checks (place_at path.now) (value_view value.now)) result }
{
    match value {
        PropertyValue::Expression(context, expr) => demand_expr(known, *context, path, expr),
        PropertyValue::Resources(addrs) => demand_addrs(known, path, addrs),
    }
}

fn demand_addrs<'a>(
    known: Known<'_, '_>,
    path: &'a Path<'a>,
    addrs: &'a [ResourceAddr],
) -> Result<(), Refusal>
    ensures { JudgesNames (declared_of known.entry) (addr_checks (place_at path.now) 0 (map addr_of addrs.now)) result }
{
    for (position, addr) in addrs.iter().enumerate() {
        demand_addr(known, &Path::Item(path, position), addr)?;
    }
    Ok(())
}

fn demand_addr(known: Known<'_, '_>, path: &Path<'_>, addr: &ResourceAddr) -> Result<(), Refusal>
    ensures { JudgesNames (declared_of known.entry) (demanded (place_at path.now) (a_resource (addr_of addr.now))) result }
{
    let place = known
        .names
        .place(addr.type_name.as_str(), addr.name.as_str());
    if place.is_some() {
        Ok(())
    } else {
        Err(names_unknown(known.alloc, path))
    }
}

/// Checks the expression at the path.
#[cycle(names)]
fn demand_expr<'a>(
    known: Known<'_, '_>,
    context: Context,
    path: &'a Path<'a>,
    expr: &'a Expr,
) -> Result<(), Refusal>
    ensures { JudgesNames (declared_of known.entry) (name_checks context (place_at path.now) (tree_of expr.now)) result }
{
    match expr {
        Expr::Null | Expr::Bool(_) | Expr::Int(_) => Ok(()),
        Expr::Template(template) => {
            if known.knows_names(context, template)? {
                Ok(())
            } else {
                Err(names_unknown(known.alloc, path))
            }
        }
        Expr::List(exprs) => demand_items(known, context, path, exprs),
        Expr::Map(entries) => demand_entries(known, context, path, entries),
    }
}

#[cycle(names)]
fn demand_items<'a>(
    known: Known<'_, '_>,
    context: Context,
    path: &'a Path<'a>,
    exprs: &'a Vec<Expr>,
) -> Result<(), Refusal>
    ensures { JudgesNames (declared_of known.entry) (item_name_checks context (place_at path.now) 0 (trees_view exprs.now.items)) result }
{
    for (position, expr) in exprs.iter().enumerate() {
        demand_expr(known, context, &Path::Item(path, position), expr)?;
    }
    Ok(())
}

#[cycle(names)]
fn demand_entries<'a>(
    known: Known<'_, '_>,
    context: Context,
    path: &'a Path<'a>,
    entries: &'a BTreeMap<String, Expr>,
) -> Result<(), Refusal>
    ensures { JudgesNames (declared_of known.entry) (entry_name_checks context (place_at path.now) (entries_view entries.now.entries)) result }
{
    for (key, expr) in entries.iter() {
        demand_expr(known, context, &Path::Member(path, key.as_str()), expr)?;
    }
    Ok(())
}
