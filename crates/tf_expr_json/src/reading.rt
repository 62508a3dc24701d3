//! Reading of expressions from JSON trees.

ghost use Rattle.serde_json.specs.View.{view, items_view, members_view};
ghost use Rattle.std.specs.Prelude.{[], IfErr, IfOk};
ghost use Rattle.tf_expr_json.specs.Demand.{Refuses};
ghost use Rattle.tf_expr_json.specs.Fault.{told};
ghost use Rattle.tf_expr_json.specs.Reading.{expr_checks, item_checks, member_checks, IsExpr, AreExprs, HoldExprs};
ghost use Rattle.tf_expr_syntax.specs.ExprTree.{tree_of, trees_view, entries_view};
ghost use Rattle.tf_config_refusal.specs.Place.{place_of};

use crate::demand::{demand_plain_name, demand_template, demand_whole};
use crate::fault::ExprFault;
use serde_json::{Map, Value};
use std::alloc::Global;
use std::collections::BTreeMap;
use tf_config_refusal::Path;
use tf_expr_syntax::Expr;

/// Reads the expression that a JSON tree is. Its texts are templates no deeper than `MAX_DEPTH`, property names are
/// literal, and numbers are whole and of 64 signed bits.
///
/// # Errors
///
/// Fails with the first fault in walk order: elements in order, properties in byte order, depth first, and a
/// property's name before its value. The place is written from the top of the tree. The cause is `BadShape` for a
/// property's name with `${` or `%{` in it, and for a number that isn't whole and of 64 signed bits (`1.0`, `1e3`,
/// `-0`, 2^63); `At`, with a byte offset, for a text that is no template; and `TooDeep` for a text whose template is
/// deeper. Fails with `OutOfMemory` if memory runs out.
pub fn read_expr(alloc: Global, json: &Value) -> Result<Expr, ExprFault>
    ensures ok { IfOk result (λ e. IsExpr (view json.now) (tree_of e)) }
    ensures fault { IfErr result (λ fault. Refuses (expr_checks [] (view json.now)) (told fault)) }
{
    read_expr_at(alloc, &Path::Root, json)
}

/// Reads the expression that a part of a larger JSON tree is. The place of a fault is written from the top of the
/// larger tree.
///
/// # Errors
///
/// Fails as `read_expr`.
#[cycle(read)]
pub fn read_expr_at(alloc: Global, path: &Path<'_>, json: &Value) -> Result<Expr, ExprFault>
    ensures ok { IfOk result (λ e. IsExpr (view json.now) (tree_of e)) }
    ensures fault { IfErr result (λ fault.
        Refuses (expr_checks (place_of path.now) (view json.now)) (told fault)) }
{
    match json {
        Value::Null => Ok(Expr::Null),
        Value::Bool(truth) => Ok(Expr::Bool(*truth)),
        Value::Number(number) => Ok(Expr::Int(demand_whole(alloc, path, number)?)),
        Value::String(text) => Ok(Expr::Template(demand_template(alloc, path, text.as_str())?)),
        Value::Array(items) => Ok(Expr::List(read_items(alloc, path, items)?)),
        Value::Object(members) => Ok(Expr::Map(read_members(alloc, path, members)?)),
    }
}

#[cycle(read)]
fn read_items<'a>(
    alloc: Global,
    path: &'a Path<'a>,
    items: &'a Vec<Value>,
) -> Result<Vec<Expr>, ExprFault>
    ensures ok { IfOk result (λ v. AreExprs (items_view items.now.items) (trees_view v.items)) }
    ensures fault { IfErr result (λ fault.
        Refuses (item_checks (place_of path.now) 0 (items_view items.now.items)) (told fault)) }
{
    let mut exprs = Vec::with_capacity(alloc, items.len())?;
    for (position, item) in items.iter().enumerate() {
        let expr = read_expr_at(alloc, &Path::Item(path, position), item)?;
        exprs.push(expr)?;
    }
    Ok(exprs)
}

#[cycle(read)]
fn read_members<'a>(
    alloc: Global,
    path: &'a Path<'a>,
    members: &'a Map<String, Value>,
) -> Result<BTreeMap<String, Expr>, ExprFault>
    ensures ok { IfOk result (λ m.
        HoldExprs (members_view members.now.entries) (entries_view m.entries)) }
    ensures fault { IfErr result (λ fault.
        Refuses (member_checks (place_of path.now) (members_view members.now.entries)) (told fault)) }
{
    let mut exprs = BTreeMap::new(alloc);
    for (key, member) in members.iter() {
        let path = Path::Member(path, key.as_str());
        demand_plain_name(alloc, &path, key.as_str())?;
        let expr = read_expr_at(alloc, &path, member)?;
        let name = key.clone()?;
        drop(exprs.insert(name, expr)?);
    }
    Ok(exprs)
}
