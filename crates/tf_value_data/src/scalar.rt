//! The texts of scalars.

ghost use Rattle.std.specs.Prelude.{◌≡◌, IfOk, codes, if◌then◌else◌, option_map, string_bytes};
ghost use Rattle.tf_value_data.specs.Scalar.{scalar_text};
ghost use Rattle.tf_value_data.specs.Tree.{tree_of};

use crate::value::Value;
use std::alloc::{AllocError, Global};

/// Returns the text of a scalar: a text itself, a whole number in decimal, `true` or `false`. Returns `None` for
/// null, lists, maps, sets and unknown values. Fails only if memory runs out.
pub fn scalar_text(alloc: Global, value: &Value) -> Result<Option<String>, AllocError>
    ensures { IfOk result (λ o. option_map string_bytes o ≡ scalar_text (tree_of value.now)) }
{
    match value {
        Value::Text(text) => Ok(Some(text.clone()?)),
        Value::Int(number) => Ok(Some(number.to_string(alloc)?)),
        Value::Bool(truth) => Ok(Some(String::from_str(alloc, truth_name(*truth))?)),
        Value::Null | Value::List(_) | Value::Map(_) | Value::Set(_) | Value::Unknown => Ok(None),
    }
}

fn truth_name(truth: bool) -> &'static str
    ensures { result.now ≡ (if truth then codes "true" else codes "false") }
{
    if truth { "true" } else { "false" }
}
