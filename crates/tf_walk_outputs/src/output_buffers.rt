//! Buffers for outputs.

ghost use Rattle.std.specs.List.{AllByRecursion};
ghost use Rattle.std.specs.Prelude.{◌≡◌, IfOk, string_bytes};
ghost use Rattle.tf_expand_keys.specs.Words.{named_by, names_in, places};
ghost use Rattle.tf_walk_outputs.specs.Buffers.{HavePlaces, HasPlaces, outputs_in};
ghost use Rattle.tf_expr_syntax.specs.ExprTree.{entries_view, tree_of};

use std::alloc::{AllocError, Global};
use std::collections::BTreeMap;
use tf_config_names::Declarations;
use tf_expr_syntax::Expr;

/// The buffers for one output: its name, for the entry, and what it is evaluated from. They have to be made before the
/// first call of a provider.
#[derive(Drop)]
pub struct OutputBuffers<'a> {
    /// The output's name.
    pub name: String,
    /// The output's expression.
    pub expr: &'a Expr,
    /// The indexes of the names in the expression, as often as they occur.
    pub places: Vec<usize>,
}

/// Returns buffers for each output, in byte order of their names.
///
/// # Errors
///
/// Fails with `AllocError` if memory runs out.
pub fn reserve_outputs<'a>(
    alloc: Global,
    names: &Declarations<'_>,
    outputs: &'a BTreeMap<String, Expr>,
) -> Result<Vec<OutputBuffers<'a>>, AllocError>
    ensures outputs { IfOk result (λ rooms. outputs_in rooms.items ≡ entries_view outputs.now.entries) }
    ensures places { IfOk result (λ rooms. HavePlaces (names_in names.now) rooms.items) }
{
    let mut rooms = Vec::new(alloc);
    for (name, expr) in outputs.iter() {
        rooms.push(reserve_output(alloc, names, name, expr)?)?;
    }
    Ok(rooms)
}

/// Returns an output's name, its expression and the indices of the names in it.
fn reserve_output<'a>(
    alloc: Global,
    names: &Declarations<'_>,
    name: &String,
    expr: &'a Expr,
) -> Result<OutputBuffers<'a>, AllocError>
    ensures name { IfOk result (λ room. string_bytes room.name ≡ string_bytes name.now) }
    ensures expr { IfOk result (λ room. tree_of room.expr.now ≡ tree_of expr.now) }
    ensures places { IfOk result (HasPlaces (names_in names.now)) }
{
    Ok(OutputBuffers {
        name: name.clone()?,
        expr,
        places: names.named_in(alloc, expr)?,
    })
}
