//! The steps that are done to the objects of an instance.

ghost use Rattle.std.specs.Prelude.{◌≡◌, ◌++◌, IfOk, OnOk, map, option_map};
ghost use Rattle.std.specs.List.{flat_map};
ghost use Rattle.tf_plan_data.specs.Action.{step_of};
ghost use Rattle.tf_plan_decision.specs.Answer.{decision_of};
ghost use Rattle.tf_plan_decision.specs.Decision.{current};
ghost use Rattle.tf_plan_decision.specs.Steps.{current_steps, decided_steps, deposed_step, destroy_of, removal_steps};
ghost use Rattle.tf_plan_decision.specs.Views.{steps_of};
ghost use Rattle.tf_state_data.specs.Record.{record_of};

use crate::decision::{Decision, current};
use std::alloc::{AllocError, Global};
use tf_plan_data::Step;
use tf_state_data::Record;

/// Returns the steps of a decision about an instance: what is decided for the current object, and a destroy of each
/// deposed one.
pub(crate) fn decided_steps(
    alloc: Global,
    records: &[Record],
    decision: Decision,
) -> Result<Vec<Step>, AllocError>
    ensures { IfOk result (λ steps. steps_of steps.items ≡ decided_steps (map record_of records.now) (decision_of decision)) }
{
    let mut steps = current_steps(alloc, current(records), decision)?;
    add_deposed(&mut steps, records)?;
    Ok(steps)
}

/// Returns the destroys of all objects of an instance.
pub(crate) fn removal_steps(alloc: Global, records: &[Record]) -> Result<Vec<Step>, AllocError>
    ensures { IfOk result (λ steps. steps_of steps.items ≡ removal_steps (map record_of records.now)) }
{
    let mut steps = Vec::with_capacity(alloc, records.len())?;
    for kept in records {
        let step = destroy_of(kept)?;
        steps.push(step)?;
    }
    Ok(steps)
}

/// Returns the steps of a decision for the current object.
fn current_steps(
    alloc: Global,
    prior: Option<&Record>,
    decision: Decision,
) -> Result<Vec<Step>, AllocError>
    ensures { IfOk result (λ steps. steps_of steps.items ≡ current_steps (option_map (λ r. record_of r.now) prior.entry) (decision_of decision)) }
{
    let mut steps = Vec::with_capacity(alloc, 2)?;
    match (decision, prior) {
        (Decision::Create(asked), _) => steps.push(Step::Create(asked))?,
        (Decision::Update(asked, names), Some(record)) => {
            steps.push(Step::Update(record.attributes.clone()?, asked, names))?;
        }
        (Decision::Replace(asked, names), Some(record)) => {
            let old = record.attributes.clone()?;
            steps.push(Step::CreateReplacement(asked, names))?;
            steps.push(Step::DestroyReplaced(old))?;
        }
        _ => {}
    }
    Ok(steps)
}

/// Adds the destroys of deposed objects.
fn add_deposed(steps: &mut Vec<Step>, records: &[Record]) -> Result<(), AllocError>
    ensures { OnOk result (steps_of steps.new.items ≡ steps_of steps.old.items ++ flat_map deposed_step (map record_of records.now)) }
{
    for kept in records {
        add_if_deposed(steps, kept)?;
    }
    Ok(())
}

/// Adds the destroy of an object if it is deposed.
fn add_if_deposed(steps: &mut Vec<Step>, kept: &Record) -> Result<(), AllocError>
    ensures { OnOk result (steps_of steps.new.items ≡ steps_of steps.old.items ++ deposed_step (record_of kept.now)) }
{
    if let Some(key) = &kept.id.deposed {
        steps.push(Step::DestroyDeposed(key.clone()?, kept.attributes.clone()?))?;
    }
    Ok(())
}

/// Returns the destroy of an object.
fn destroy_of(kept: &Record) -> Result<Step, AllocError>
    ensures { IfOk result (λ step. step_of step ≡ destroy_of (record_of kept.now).id.deposed (record_of kept.now).attributes) }
{
    let prior = kept.attributes.clone()?;
    match &kept.id.deposed {
        Some(key) => Ok(Step::DestroyDeposed(key.clone()?, prior)),
        None => Ok(Step::Destroy(prior)),
    }
}
