//! The text of a plan.

ghost use Rattle.std.specs.Prelude.{◌≡◌, IfOk, string_bytes};
ghost use Rattle.tf_plan.specs.Shown.{text_in};
ghost use Rattle.tf_plan_data.specs.Words.{plan_of};

use std::alloc::{AllocError, Global};
use tf_plan_data::Planned;
use tf_plan_text::plan_text;

/// Returns the text of a plan, as `plan` prints it: a line for each instance that is changed, its attributes, and how many
/// objects are added, changed and destroyed.
///
/// # Errors
///
/// Fails only if memory runs out.
pub fn text(alloc: Global, plan: &Planned) -> Result<String, AllocError>
    ensures { IfOk result (λ text. string_bytes text ≡ text_in (plan_of plan.now)) }
{
    let parts = &plan.plan;
    plan_text(alloc, parts.actions.as_slice(), parts.late.as_slice())
}
