//! A planned change of an output.

ghost use Rattle.std.specs.Prelude.{◌≡◌, option_map};
ghost use Rattle.tf_plan_outputs.specs.Changes.{action_between, action_of, created_unless_null, updated_unless_same};
ghost use Rattle.tf_plan_outputs.specs.Views.{action_view, change_view};
ghost use Rattle.tf_value_data.specs.Tree.{tree_of};

use tf_value_data::{Value, is_known};

/// What a plan does to an output, in Terraform's words.
#[derive(Clone, Copy, Debug, PartialEq, Eq, Drop)]
pub enum OutputAction {
    /// The output stays as it is.
    NoOp,
    /// The output gets its first value.
    Create,
    /// The value changes, or part of it is unknown.
    Update,
    /// The output isn't declared any more.
    Delete,
}

/// An output before and after the apply of a plan.
#[derive(Drop)]
pub struct OutputChange<'a> {
    /// The output's name.
    pub name: String,
    /// The value in the prior state, if it has the output.
    pub before: Option<&'a Value>,
    /// The value that the plan gives the output, or `None` if the output isn't declared. An apply saves no output whose
    /// value is null.
    pub after: Option<Value>,
}

impl OutputChange<'_> {
    /// Returns what is done.
    pub fn action(&self) -> OutputAction
        ensures { action_view result ≡ action_of (change_view self.now) }
    {
        match (self.before, &self.after) {
            (None, None) => OutputAction::NoOp,
            (None, Some(after)) => created_unless_null(after),
            (Some(_), None) => OutputAction::Delete,
            (Some(before), Some(after)) => updated_unless_same(before, after),
        }
    }
}

/// Returns what is done to an output without a value in the prior state.
fn created_unless_null(after: &Value) -> OutputAction
    ensures { action_view result ≡ created_unless_null (tree_of after.now) }
{
    match after {
        Value::Null => OutputAction::NoOp,
        _ => OutputAction::Create,
    }
}

/// Returns what is done to a declared output that has a value in the prior state.
fn updated_unless_same(before: &Value, after: &Value) -> OutputAction
    ensures { action_view result ≡ updated_unless_same (tree_of before.now) (tree_of after.now) }
{
    if is_known(after) && before == after {
        OutputAction::NoOp
    } else {
        OutputAction::Update
    }
}
