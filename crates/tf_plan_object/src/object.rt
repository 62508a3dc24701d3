//! The object that is planned for arguments, or the first fault in them.

ghost use Rattle.std.specs.Prelude.{◌≡◌, true, Result, IfOk, fold, map, option_map};
ghost use Rattle.tf_expand_keys.specs.Words.{entries_view, get, may_be_planned, Tree, tree_of};
ghost use Rattle.tf_expr_syntax.specs.ExprTree.{tree_of as expr_of, entries_view as arguments_view};
ghost use Rattle.tf_provider_protocol.specs.Schema.{ascends, attribute_of};
ghost use Rattle.tf_plan_object.specs.declared.argument.ArgumentFault.{ArgumentFault};
ghost use Rattle.tf_plan_object.specs.Bounded.{each_may_be_planned, has_planned_attributes};
ghost use Rattle.tf_plan_object.specs.Gives.{Gives};
ghost use Rattle.tf_plan_object.specs.Stepped.{put_value};
ghost use Rattle.tf_plan_object.specs.Object.{named_fault_of, planned_of};
ghost use Rattle.tf_plan_object.specs.Planned.{fault_at, attribute_faults, first_of_faults, stray_faults, planned_entries, planned_object, sooner};

use crate::argument::{ArgumentFault, ValueFault, attribute_value};
use std::alloc::{AllocError, Global};
use std::collections::BTreeMap;
use tf_expr_eval::Scope;
use tf_expr_syntax::{Expr, find};
use tf_provider_protocol::{Attribute, Schema};
use tf_value_data::Value;

/// Plans the object of arguments by a type's schema, in a scope. A value that the provider decides is unknown. If
/// attributes have faults, or arguments name no attribute, returns the first of their names in byte order with its
/// fault.
///
/// # Errors
///
/// Fails only if memory runs out.
pub fn plan_object<S: Scope>(
    alloc: Global,
    schema: &Schema,
    arguments: &BTreeMap<String, Expr>,
    scope: &S,
) -> Result<Result<Value, (String, ArgumentFault)>, AllocError>
    ensures plans { IfOk result (λ planned. planned_of planned
        ≡ planned_object schema.now (S.environment scope.now) (arguments_view arguments.now.entries)) }
    ensures within { IfOk result (λ planned. IfOk planned (λ v. has_planned_attributes (tree_of v) ≡ true)) }
{
    let Tried { object, fault } = try_attributes(alloc, schema.attributes(), arguments, scope)?;
    match add_strays(alloc, fault, schema, arguments)? {
        Some(fault) => Ok(Err(fault)),
        None => Ok(Ok(Value::Map(object))),
    }
}

/// The planned values of some attributes, and the first fault among them.
#[derive(Drop)]
struct Tried {
    object: BTreeMap<String, Value>,
    /// The fault with the name of the attribute.
    fault: Option<(String, ArgumentFault)>,
}

fn try_attributes<S: Scope>(
    alloc: Global,
    attributes: &[Attribute],
    arguments: &BTreeMap<String, Expr>,
    scope: &S,
) -> Result<Tried, AllocError>
    requires { ascends (map attribute_of attributes.now) ≡ true }
    ensures object { IfOk result (λ t. entries_view t.object.entries
        ≡ planned_entries (map attribute_of attributes.now) (S.environment scope.now) (arguments_view arguments.now.entries)) }
    ensures within { IfOk result (λ t. each_may_be_planned (entries_view t.object.entries) ≡ true) }
    ensures fault { IfOk result (λ t. option_map named_fault_of t.fault
        ≡ first_of_faults (attribute_faults (map attribute_of attributes.now) (S.environment scope.now) (arguments_view arguments.now.entries))) }
{
    let mut tried = Tried {
        object: BTreeMap::new(alloc),
        fault: None,
    };
    for attribute in attributes {
        let argument = argument_named(arguments, attribute.name.as_str());
        let value = attribute_value(alloc, attribute, argument, scope);
        tried = add_value(alloc, tried, attribute.name.as_str(), value)?;
    }
    Ok(tried)
}

/// Returns the argument of a name, if there is one.
fn argument_named<'a>(arguments: &'a BTreeMap<String, Expr>, name: &str) -> Option<&'a Expr>
    ensures { option_map (λ e. expr_of e.now) result ≡ get name.now (arguments_view arguments.now.entries) }
{
    find(arguments, name)
}

/// Adds an attribute's planned value to the object, or its fault to the faults.
fn add_value(
    alloc: Global,
    tried: Tried,
    name: &str,
    value: Result<Value, ValueFault>,
) -> Result<Tried, AllocError>
    ensures adds { IfOk result (λ t. (planned : Result Tree ArgumentFault) → Gives tree_of value planned →
        (entries_view t.object.entries ≡ put_value name.now planned (entries_view tried.object.entries))
        × (option_map named_fault_of t.fault ≡ fold sooner (option_map named_fault_of tried.fault) (fault_at name.now planned))) }
    ensures within { IfOk value (λ v. may_be_planned (tree_of v) ≡ true) → each_may_be_planned (entries_view tried.object.entries) ≡ true
        → IfOk result (λ t. each_may_be_planned (entries_view t.object.entries) ≡ true) }
{
    let Tried { mut object, fault } = tried;
    match value {
        Ok(value) => {
            object.insert(String::from_str(alloc, name)?, value)?;
            Ok(Tried { object, fault })
        }
        Err(ValueFault::Argument(new)) => {
            let fault = first_of(alloc, fault, name, new)?;
            Ok(Tried { object, fault })
        }
        Err(ValueFault::OutOfMemory) => Err(AllocError),
    }
}

/// Returns the first of a fault and those of the arguments that name no attribute.
fn add_strays(
    alloc: Global,
    first: Option<(String, ArgumentFault)>,
    schema: &Schema,
    arguments: &BTreeMap<String, Expr>,
) -> Result<Option<(String, ArgumentFault)>, AllocError>
    ensures { IfOk result (λ found. option_map named_fault_of found
        ≡ fold sooner (option_map named_fault_of first) (stray_faults schema.now (arguments_view arguments.now.entries))) }
{
    let mut fault = first;
    for (name, _) in arguments.iter() {
        if schema.attribute(name.as_str()).is_none() {
            fault = first_of(alloc, fault, name.as_str(), ArgumentFault::BadArgument)?;
        }
    }
    Ok(fault)
}

/// Returns the one of two faults whose name is first in byte order.
fn first_of(
    alloc: Global,
    old: Option<(String, ArgumentFault)>,
    name: &str,
    fault: ArgumentFault,
) -> Result<Option<(String, ArgumentFault)>, AllocError>
    ensures { IfOk result (λ first. option_map named_fault_of first ≡ sooner (option_map named_fault_of old) (name.now, fault)) }
{
    match old {
        None => Ok(Some(with_name(alloc, name, fault)?)),
        Some(old) => {
            if name < old.0.as_str() {
                Ok(Some(with_name(alloc, name, fault)?))
            } else {
                Ok(Some(old))
            }
        }
    }
}

fn with_name(
    alloc: Global,
    name: &str,
    fault: ArgumentFault,
) -> Result<(String, ArgumentFault), AllocError>
    ensures { IfOk result (λ named. named_fault_of named ≡ (name.now, fault)) }
{
    Ok((String::from_str(alloc, name)?, fault))
}
