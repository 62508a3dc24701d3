//! Stores the values of outputs among those that are saved.

ghost use Rattle.std.specs.Prelude.{◌≡◌, IfOk, OnOk, if◌then◌else◌, string_bytes};
ghost use Rattle.tf_walk_outputs.specs.Keeping.{IsKept, done_of};
ghost use Rattle.tf_walk_outputs.specs.Outputs.{is_declared, is_null as is_a_null, kept_entries, valued};
ghost use Rattle.tf_state_data.specs.State.{outputs_of};
ghost use Rattle.tf_expand_keys.specs.Words.{IsTable, put, tree_of};
ghost use Rattle.tf_expr_syntax.specs.ExprTree.{entries_view};

use crate::ends::{EvaluatedOutput, OutputResult};
use std::alloc::{AllocError, Global};
use std::collections::BTreeMap;
use tf_expr_syntax::Expr;
use tf_state_data::Object;
use tf_value_data::Value;

/// Stores an output's value under its name, if it has one, in place of an earlier entry, and returns the output's
/// outcome. That is `NoMemory` if memory runs out for the entry.
pub(crate) fn keep(
    outputs: &mut BTreeMap<String, Object>,
    name: String,
    ended: EvaluatedOutput,
) -> OutputResult
    ensures { IsKept (string_bytes name) (done_of ended) result (outputs_of outputs.old.entries) (outputs_of outputs.new.entries) }
{
    match ended {
        EvaluatedOutput::NotEvaluated => OutputResult::NotEvaluated,
        EvaluatedOutput::NoMemory => OutputResult::NoMemory,
        EvaluatedOutput::Faulted(fault) => OutputResult::Faulted(fault),
        EvaluatedOutput::Valued(object) => put_value(outputs, name, object),
    }
}

/// Stores a value under a name, in place of an earlier entry. A null value removes that entry.
fn put_value(outputs: &mut BTreeMap<String, Object>, name: String, object: Object) -> OutputResult
    ensures { IsKept (string_bytes name) (valued (tree_of object.value)) result (outputs_of outputs.old.entries) (outputs_of outputs.new.entries) }
{
    if is_null(&object.value) {
        outputs.remove(name.as_str());
        return OutputResult::Valued;
    }
    match outputs.insert(name, object) {
        Ok(_) => OutputResult::Valued,
        Err(_) => OutputResult::NoMemory,
    }
}

fn is_null(value: &Value) -> bool
    ensures { result ≡ is_a_null (tree_of value.now) }
{
    matches!(value, Value::Null)
}

/// Returns the entries of a prior state's outputs that are still declared, for `renew_outputs`. Has to be called before
/// the first call of a provider.
///
/// # Errors
///
/// Fails with `AllocError` if memory runs out.
pub fn kept_outputs(
    alloc: Global,
    prior: &BTreeMap<String, Object>,
    outputs: &BTreeMap<String, Expr>,
) -> Result<BTreeMap<String, Object>, AllocError>
    ensures kept { IfOk result (λ kept. outputs_of kept.entries ≡ kept_entries (entries_view outputs.now.entries) (outputs_of prior.now.entries)) }
    ensures stored { IfOk result (λ kept. IsTable (outputs_of prior.now.entries) → IsTable (outputs_of kept.entries)) }
{
    let mut kept = BTreeMap::new(alloc);
    for (name, object) in prior.iter() {
        keep_declared(&mut kept, outputs, name, object)?;
    }
    Ok(kept)
}

/// Adds a copy of a prior entry to those that are kept, if its output is declared.
fn keep_declared(
    kept: &mut BTreeMap<String, Object>,
    outputs: &BTreeMap<String, Expr>,
    name: &String,
    object: &Object,
) -> Result<(), AllocError>
    ensures { OnOk result (outputs_of kept.new.entries
        ≡ (if is_declared (entries_view outputs.now.entries) (string_bytes name.now) then put (string_bytes name.now) (tree_of object.now.value) (outputs_of kept.old.entries) else outputs_of kept.old.entries)) }
{
    if outputs.contains_key(name.as_str()) {
        kept.insert(name.clone()?, object.clone()?)?;
    }
    Ok(())
}
