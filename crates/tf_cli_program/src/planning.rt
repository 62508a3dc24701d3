//! The plan of what a program was given.

ghost use Rattle.std.specs.Prelude.{◌≡◌, IfErr, IfOk, map, string_bytes};
ghost use Rattle.tf_cli.specs.Applies.{IsPlanOf, MayStart};
ghost use Rattle.tf_cli.specs.Refusals.{AreRefusals};
ghost use Rattle.tf_cli_program.specs.Work.{texts_of};
ghost use Rattle.tf_plan_planner.specs.Refused.{Tells};
ghost use Rattle.tf_walk_action.specs.Words.{plan_of};

use std::alloc::Global;
use tf_cli::{InputTexts, Refused, plan_of_texts};
use tf_cli_files::ProgramInput;
use tf_plan_data::Planned;
use tf_provider::Provider;

/// Plans what a program was given. The plan may be carried out with these providers.
///
/// # Errors
///
/// What `plan_text` refuses of it.
pub fn plan_given(
    alloc: Global,
    given: &ProgramInput,
    providers: &[Box<dyn Provider + Sync>],
) -> Result<Planned, Refused>
    ensures planned { IfOk result (λ plan. IsPlanOf (map meaning providers.now) (texts_of given.now) (string_bytes given.now.options.lineage) (plan_of plan)) }
    ensures starts { IfOk result (λ plan. MayStart (map meaning providers.now) (plan_of plan)) }
    ensures refused { IfErr result (Tells (AreRefusals (map meaning providers.now) (texts_of given.now))) }
{
    let texts = InputTexts {
        config: given.config.as_slice(),
        vars: given.vars_bytes(),
        state: given.state_bytes(),
        lineage: given.options.lineage.as_str(),
    };
    plan_of_texts(alloc, &texts, providers)
}
