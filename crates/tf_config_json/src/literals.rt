//! Texts, truth values, types, expressions and literal values, as values of properties.

ghost use Rattle.serde_json.specs.View.{items_view, members_view, view};
ghost use Rattle.std.specs.Prelude.{IfErr, IfOk, List, OnOk, ℕ};
ghost use Rattle.tf_config_json.specs.Demand.{Judges, Refuses};
ghost use Rattle.tf_config_json.specs.Parts.{expression_checks, flag_checks, item_number_checks, literal_checks, member_number_checks, number_checks, text_checks, type_text_checks, IsFlag, IsLiteral, IsText, NamesType, Reads};
ghost use Rattle.tf_expr_json.specs.Reading.{IsExpr};
ghost use Rattle.tf_config_refusal.specs.Place.{place_of};
ghost use Rattle.tf_config_refusal.specs.Refusal.{refusal_of};
ghost use Rattle.tf_expr_syntax.specs.ExprTree.{tree_of};
ghost use Rattle.tf_value_data.specs.Tree as values;

use crate::demand::{bad_shape, demand_whole};
use crate::objects::Part;
use crate::words::type_named;
use serde_json::{Map, Value as Json};
use std::alloc::Global;
use tf_config_data::VariableType;
use tf_config_refusal::{Path, Refusal};
use tf_expr_json::read_expr_at;
use tf_expr_syntax::Expr;
use tf_value_data::Value;
use tf_value_json::{JsonFault, from_json};

/// Reads an expression.
pub(crate) fn read_expression(part: &Part<'_>) -> Result<Expr, Refusal>
    ensures { Reads IsExpr expression_checks tree_of (place_of part.now.path.now) (view part.now.value.now) result }
{
    let expr = read_expr_at(part.alloc, part.path, part.value)?;
    Ok(expr)
}

/// Checks that a part is a text. The engine ignores its contents.
pub(crate) fn demand_text(part: &Part<'_>) -> Result<(), Refusal>
    ensures ok { OnOk result ((text : List ℕ) × IsText (view part.now.value.now) text) }
    ensures fault { IfErr result (λ refusal.
        Refuses (text_checks (place_of part.now.path.now) (view part.now.value.now)) (refusal_of refusal)) }
{
    match part.value {
        Json::String(_) => Ok(()),
        _ => Err(bad_shape(part.alloc, part.path)),
    }
}

/// Reads a truth value.
pub(crate) fn read_flag(part: &Part<'_>) -> Result<bool, Refusal>
    ensures { Reads IsFlag flag_checks (λ flag. flag) (place_of part.now.path.now) (view part.now.value.now) result }
{
    match part.value {
        Json::Bool(flag) => Ok(*flag),
        _ => Err(bad_shape(part.alloc, part.path)),
    }
}

/// Reads the type of a variable.
pub(crate) fn read_type(part: &Part<'_>) -> Result<VariableType, Refusal>
    ensures { Reads NamesType type_text_checks (λ value_type. value_type) (place_of part.now.path.now) (view part.now.value.now) result }
{
    match part.value {
        Json::String(text) => match type_named(text.as_str()) {
            Some(value_type) => Ok(value_type),
            None => Err(bad_shape(part.alloc, part.path)),
        },
        _ => Err(bad_shape(part.alloc, part.path)),
    }
}

/// Reads a literal value. Its texts aren't templates, and it has to be within the limits of weight and depth.
///
/// # Errors
///
/// Fails with 2 at the first number, in walk order, that isn't held as a whole number of 64 bits with a sign. Otherwise
/// fails with 2 at the value itself if it exceeds the limits. Or fails with `OutOfMemory`.
pub(crate) fn read_literal<'a>(
    alloc: Global,
    path: &'a Path<'a>,
    json: &'a Json,
) -> Result<Value, Refusal>
    ensures ok { IfOk result (λ value. IsLiteral (view json.now) (values.tree_of value)) }
    ensures fault { IfErr result (λ refusal.
        Refuses (literal_checks (place_of path.now) (view json.now)) (refusal_of refusal)) }
{
    demand_numbers(alloc, path, json)?;
    match from_json(alloc, json) {
        Ok(value) => Ok(value),
        Err(JsonFault::OutOfMemory) => Err(Refusal::OutOfMemory),
        Err(JsonFault::TooLarge) => Err(bad_shape(alloc, path)),
        Err(JsonFault::NotWhole) => Err(bad_shape(alloc, path)),
        Err(JsonFault::UnknownInside) => Err(bad_shape(alloc, path)),
    }
}

/// Checks that each number is held as a whole number of 64 bits with a sign.
#[cycle(numbers)]
fn demand_numbers<'a>(alloc: Global, path: &'a Path<'a>, json: &'a Json) -> Result<(), Refusal>
    ensures { Judges (number_checks (place_of path.now) (view json.now)) result }
{
    match json {
        Json::Number(number) => demand_whole(alloc, path, number),
        Json::Array(items) => demand_each_number(alloc, path, items),
        Json::Object(members) => demand_member_numbers(alloc, path, members),
        _ => Ok(()),
    }
}

#[cycle(numbers)]
fn demand_each_number<'a>(
    alloc: Global,
    path: &'a Path<'a>,
    items: &'a Vec<Json>,
) -> Result<(), Refusal>
    ensures { Judges (item_number_checks (place_of path.now) 0 (items_view items.now.items)) result }
{
    for (position, item) in items.iter().enumerate() {
        demand_numbers(alloc, &Path::Item(path, position), item)?;
    }
    Ok(())
}

#[cycle(numbers)]
fn demand_member_numbers<'a>(
    alloc: Global,
    path: &'a Path<'a>,
    members: &'a Map<String, Json>,
) -> Result<(), Refusal>
    ensures { Judges (member_number_checks (place_of path.now) (members_view members.now.entries)) result }
{
    for (key, member) in members.iter() {
        demand_numbers(alloc, &Path::Member(path, key.as_str()), member)?;
    }
    Ok(())
}
