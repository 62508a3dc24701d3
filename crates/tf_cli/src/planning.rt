//! From the user's texts to a plan.

ghost use Rattle.std.specs.Prelude.{◌≡◌, map, option_map, IfOk, IfErr, string_bytes};
ghost use Rattle.tf_walk_action.specs.Words.{action_of, AreServed, plan_of, state_of};
ghost use Rattle.tf_cli.specs.Applies.{IsPlanOf, IsPlanText, MayStart, text_in};
ghost use Rattle.tf_cli.specs.Refusals.{AreRefusals, RefusesBy};
ghost use Rattle.tf_cli_inputs.specs.Texts.{the_texts};
ghost use Rattle.tf_config_data.specs.Config.{config_of};
ghost use Rattle.tf_plan_planner.specs.Plan.{IsPlan};
ghost use Rattle.tf_plan_planner.specs.Refused.{AreRefused, Tells};
ghost use Rattle.tf_value_data.specs.Tree.{entries_view};
ghost use Rattle.tf_plan_planner.specs.declared.refused.Refused.TheVariants.{NoMemory};
ghost use Rattle.tf_config_refusal.specs.Refusal.{refusal_of};
ghost use Rattle.tf_state.specs.Table.{IsPlannable};

use std::alloc::Global;
use tf_cli_inputs::{Inputs, read_texts};
use tf_config_json::blocks_have_names;
use tf_config_refusal::Refusal;
use tf_plan_data::Planned;
use tf_plan_planner::{Refused, plan};
use tf_plan_text::plan_text as text_of_plan;
use tf_provider::Provider;

/// The user's texts, and the lineage of a new state.
#[derive(Clone, Copy)]
pub struct InputTexts<'a> {
    /// The configuration, in Terraform's JSON syntax.
    pub config: &'a [u8],
    /// The variables file, if there is one.
    pub vars: Option<&'a [u8]>,
    /// The prior state. If there is none, nothing exists yet.
    pub state: Option<&'a [u8]>,
    /// The lineage of the new state if there is no prior one.
    pub lineage: &'a str,
}

/// Returns the text that `plan` prints for a configuration and a prior state. If `vars` is `None`, there is no variables file. If
/// `state` is `None`, nothing exists yet.
///
/// # Errors
///
/// What is refused of the texts, in the order of `docs/REFUSALS.md`; `NoMemory` if memory runs out.
pub fn plan_text(
    alloc: Global,
    config: &[u8],
    vars: Option<&[u8]>,
    state: Option<&[u8]>,
    providers: &[Box<dyn Provider + Sync>],
) -> Result<String, Refused>
    ensures planned { IfOk result (λ text. IsPlanText (map meaning providers.now) (the_texts config.now (option_map (λ s. s.now) vars.entry) (option_map (λ s. s.now) state.entry)) (string_bytes text)) }
    ensures refused { IfErr result (Tells (AreRefusals (map meaning providers.now) (the_texts config.now (option_map (λ s. s.now) vars.entry) (option_map (λ s. s.now) state.entry)))) }
{
    let texts = InputTexts {
        config,
        vars,
        state,
        lineage: "",
    };
    match plan_of_texts(alloc, &texts, providers) {
        Ok(planned) => text_of(alloc, &planned),
        Err(refused) => Err(refused),
    }
}

/// Returns the text that shows a plan. Refuses only if memory runs out.
pub fn text_of(alloc: Global, planned: &Planned) -> Result<String, Refused>
    ensures shown { IfOk result (λ text. string_bytes text ≡ text_in (plan_of planned.now)) }
    ensures refused { IfErr result (λ refused. refused ≡ NoMemory) }
{
    let plan = &planned.plan;
    let text = text_of_plan(alloc, plan.actions.as_slice(), plan.late.as_slice())?;
    Ok(text)
}

/// Plans a configuration against its prior state, or against the empty state of a lineage. The plan may be carried out with these
/// providers (`carry_out`).
///
/// # Errors
///
/// As [`plan_text`].
pub fn plan_of_texts(
    alloc: Global,
    texts: &InputTexts<'_>,
    providers: &[Box<dyn Provider + Sync>],
) -> Result<Planned, Refused>
    ensures planned { IfOk result (λ plan. IsPlanOf (map meaning providers.now) (the_texts texts.now.config.now (option_map (λ s. s.now) texts.now.vars) (option_map (λ s. s.now) texts.now.state)) texts.now.lineage.now (plan_of plan)) }
    ensures starts { IfOk result (λ plan. MayStart (map meaning providers.now) (plan_of plan)) }
    ensures refused { IfErr result (Tells (AreRefusals (map meaning providers.now) (the_texts texts.now.config.now (option_map (λ s. s.now) texts.now.vars) (option_map (λ s. s.now) texts.now.state)))) }
{
    blocks_have_names();
    match read_texts(alloc, texts.config, texts.vars, texts.state, texts.lineage) {
        Ok(inputs) => planned_from(alloc, inputs, providers),
        Err(refusal) => Err(one_refusal(alloc, refusal)),
    }
}

/// Plans what was read from texts. A plan can start from the prior state.
fn planned_from(
    alloc: Global,
    inputs: Inputs,
    providers: &[Box<dyn Provider + Sync>],
) -> Result<Planned, Refused>
    requires plannable { IsPlannable (state_of inputs.prior) }
    ensures planned { IfOk result (λ p. IsPlan (map meaning providers.now) (config_of inputs.configuration.config) (entries_view inputs.values.entries) (state_of inputs.prior) (plan_of p)) }
    ensures served { IfOk result (λ p. AreServed (map meaning providers.now) (map action_of p.actions.items)) }
    ensures refused { IfErr result (Tells (AreRefused (map meaning providers.now) (config_of inputs.configuration.config) (entries_view inputs.values.entries) (state_of inputs.prior))) }
{
    let Inputs {
        configuration,
        values,
        prior,
    } = inputs;
    match plan(alloc, prior, configuration, values, providers) {
        Ok(planned) => Ok(planned),
        Err(unplanned) => Err(unplanned.refused),
    }
}

/// Returns one refusal as a list, or `NoMemory` if memory runs out for the list.
pub fn one_refusal(alloc: Global, refusal: Refusal) -> Refused
    ensures { RefusesBy (refusal_of refusal) result }
{
    match refusal {
        Refusal::OutOfMemory => Refused::NoMemory,
        refusal => {
            let mut refusals = Vec::new(alloc);
            match refusals.push(refusal) {
                Ok(()) => Refused::These(refusals),
                Err(_) => Refused::NoMemory,
            }
        }
    }
}
