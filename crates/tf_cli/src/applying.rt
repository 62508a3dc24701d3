//! From the texts that the user gives to the result of carrying out their plan.

ghost use Rattle.std.specs.Prelude.{◌≡◌, ◌==◌, not, true, map, option_map, IfOk, IfErr, string_bytes};
ghost use Rattle.tf_cli.specs.Applies.{IsApplied, IsCarriedOut, MayStart, text_in};
ghost use Rattle.tf_cli.specs.Refusals.{AreApplyRefusals, AreRefusals, IsNumberRefused};
ghost use Rattle.tf_cli_inputs.specs.Texts.{the_texts};
ghost use Rattle.tf_plan_planner.specs.Refused.{Tells};
ghost use Rattle.tf_plan_planner.specs.declared.refused.Refused.TheVariants.{NoMemory};
ghost use Rattle.tf_walk_action.specs.Words.{plan_of};
ghost use Rattle.tf_walk_report.specs.Report.{report_of};
ghost use Rattle.tf_walk.specs.Workers.{are_workers};
ghost use Rattle.tf_state_data.specs.State.{state_of};
ghost use Rattle.tf_state.specs.Text.{state_text};

use crate::planning::{InputTexts, one_refusal, plan_of_texts, text_of};
use std::alloc::Global;
use std::sync::Wait;
use std::thread::Threads;
use tf_cli_text::Applied;
use tf_plan_data::Planned;
use tf_plan_planner::Refused;
use tf_provider::Provider;
use tf_state::write;
use tf_walk::{run, run_one};
use tf_walk_action::Stop;
use tf_walk_report::Walked;

/// Plans a configuration against a prior state and carries out the plan with `workers` workers, 1 to 64, one of which is the
/// calling thread. If `vars` is `None`, there is no variables file. If `state` is `None`, nothing exists yet, and `lineage` is
/// the lineage of the new state. One worker applies as [`apply_one`] does. More of them may wait.
///
/// After `stop` is set, no action begins; a call that a worker has already begun, or is about to make after its look at the
/// flag, is still made and recorded. A refusal comes before any call but those of `schema`.
///
/// # Errors
///
/// What is refused of the texts, in the order of `docs/REFUSALS.md`; `Workers` if `workers` isn't 1 to 64; `NoMemory` if memory
/// runs out.
pub fn apply_text<R: Threads + Wait + Sync>(
    rt: &R,
    alloc: Global,
    config: &[u8],
    vars: Option<&[u8]>,
    state: Option<&[u8]>,
    lineage: &str,
    providers: &[Box<dyn Provider + Sync>],
    workers: usize,
    stop: &Stop,
) -> Result<Applied, Refused>
    ensures applied { IfOk result (IsApplied (map meaning providers.now) (the_texts config.now (option_map (λ s. s.now) vars.entry) (option_map (λ s. s.now) state.entry)) lineage.now) }
    ensures workers { IfOk result (λ _. are_workers workers ≡ true) }
    ensures refused { IfErr result (Tells (AreApplyRefusals (map meaning providers.now) (the_texts config.now (option_map (λ s. s.now) vars.entry) (option_map (λ s. s.now) state.entry)) lineage.now workers)) }
{
    let texts = InputTexts {
        config,
        vars,
        state,
        lineage,
    };
    match plan_of_texts(alloc, &texts, providers) {
        Ok(planned) => apply_plan(rt, alloc, &planned, providers, workers, stop),
        Err(refused) => Err(refused),
    }
}

/// Plans a configuration against a prior state and carries out the plan on the calling thread. It starts no thread and never
/// waits. The arguments are those of [`apply_text`]. The report is whole: its journal holds exactly the calls that were made.
///
/// # Errors
///
/// What is refused of the texts, in the order of `docs/REFUSALS.md`; `NoMemory` if memory runs out. Both come before any call
/// but those of `schema`.
pub fn apply_one(
    alloc: Global,
    config: &[u8],
    vars: Option<&[u8]>,
    state: Option<&[u8]>,
    lineage: &str,
    providers: &[Box<dyn Provider + Sync>],
    stop: &Stop,
) -> Result<Applied, Refused>
    ensures applied { IfOk result (IsApplied (map meaning providers.now) (the_texts config.now (option_map (λ s. s.now) vars.entry) (option_map (λ s. s.now) state.entry)) lineage.now) }
    ensures refused { IfErr result (Tells (AreRefusals (map meaning providers.now) (the_texts config.now (option_map (λ s. s.now) vars.entry) (option_map (λ s. s.now) state.entry)))) }
{
    let texts = InputTexts {
        config,
        vars,
        state,
        lineage,
    };
    match plan_of_texts(alloc, &texts, providers) {
        Ok(planned) => apply_plan_one(alloc, &planned, providers, stop),
        Err(refused) => Err(refused),
    }
}

/// Carries out a plan with the given number of workers, and returns its text and what the walk reports. Refuses a number that
/// isn't 1 to 64; any other refusal is `NoMemory`.
fn apply_plan<R: Threads + Wait + Sync>(
    rt: &R,
    alloc: Global,
    planned: &Planned,
    providers: &[Box<dyn Provider + Sync>],
    workers: usize,
    stop: &Stop,
) -> Result<Applied, Refused>
    requires starts { MayStart (map meaning providers.now) (plan_of planned.now) }
    ensures carried_out { IfOk result (IsCarriedOut (map meaning providers.now) (plan_of planned.now)) }
    ensures workers { IfOk result (λ _. are_workers workers ≡ true) }
    ensures refused { IfErr result (Tells (IsNumberRefused workers)) }
{
    let text = text_of(alloc, planned)?;
    carry_out(rt, alloc, planned, text, providers, workers, stop)
}

/// Carries out a plan on the calling thread, and returns its text and what the walk reports. Refuses only if memory runs out.
fn apply_plan_one(
    alloc: Global,
    planned: &Planned,
    providers: &[Box<dyn Provider + Sync>],
    stop: &Stop,
) -> Result<Applied, Refused>
    requires starts { MayStart (map meaning providers.now) (plan_of planned.now) }
    ensures carried_out { IfOk result (IsCarriedOut (map meaning providers.now) (plan_of planned.now)) }
    ensures refused { IfErr result (λ refused. refused ≡ NoMemory) }
{
    let text = text_of(alloc, planned)?;
    carry_out_one(alloc, planned, text, providers, stop)
}

/// Carries out a plan, whose text is already made (`text_of`), as [`apply_text`] does after it planned. So a program can print
/// the plan before the first call.
///
/// The providers and the plan are those of one call of [`plan_of_texts`], so each action has a provider, the prior state is valid,
/// and the addresses of blocks consist of names (`MayStart`).
///
/// # Errors
///
/// `Workers` if `workers` isn't 1 to 64; `NoMemory` if memory runs out. Both come before any call but those of `schema`.
pub fn carry_out<R: Threads + Wait + Sync>(
    rt: &R,
    alloc: Global,
    planned: &Planned,
    text: String,
    providers: &[Box<dyn Provider + Sync>],
    workers: usize,
    stop: &Stop,
) -> Result<Applied, Refused>
    requires starts { MayStart (map meaning providers.now) (plan_of planned.now) }
    requires shown { string_bytes text ≡ text_in (plan_of planned.now) }
    ensures carried_out { IfOk result (IsCarriedOut (map meaning providers.now) (plan_of planned.now)) }
    ensures workers { IfOk result (λ _. are_workers workers ≡ true) }
    ensures refused { IfErr result (Tells (IsNumberRefused workers)) }
{
    if workers == 1 {
        return carry_out_one(alloc, planned, text, providers, stop);
    }
    match run(rt, alloc, planned, providers, workers, stop) {
        Ok(walked) => Ok(answer_of(alloc, text, planned.plan.prior.serial(), walked)),
        Err(refusal) => Err(one_refusal(alloc, refusal)),
    }
}

/// Carries out a plan on the calling thread, as [`carry_out`] does with one worker.
///
/// # Errors
///
/// `NoMemory` if memory runs out, before any call but those of `schema`.
pub fn carry_out_one(
    alloc: Global,
    planned: &Planned,
    text: String,
    providers: &[Box<dyn Provider + Sync>],
    stop: &Stop,
) -> Result<Applied, Refused>
    requires starts { MayStart (map meaning providers.now) (plan_of planned.now) }
    requires shown { string_bytes text ≡ text_in (plan_of planned.now) }
    ensures carried_out { IfOk result (IsCarriedOut (map meaning providers.now) (plan_of planned.now)) }
    ensures refused { IfErr result (λ refused. refused ≡ NoMemory) }
{
    match run_one(alloc, planned, providers, stop) {
        Ok(walked) => Ok(answer_of(alloc, text, planned.plan.prior.serial(), walked)),
        Err(refusal) => Err(one_refusal(alloc, refusal)),
    }
}

/// Returns the answer for a plan that was carried out: its text, the report of the walk and the text of the report's state.
/// `prior_serial` is the serial of the prior state; a state that differs from it has another serial.
fn answer_of(alloc: Global, plan: String, prior_serial: u32, walked: Walked) -> Applied
    ensures plan { result.plan ≡ plan }
    ensures walked { result.walked ≡ walked }
    ensures text { IfOk result.state (λ text. string_bytes text ≡ state_text (state_of (report_of walked).state)) }
    ensures changed { result.changed ≡ not ((state_of (report_of walked).state).serial == prior_serial) }
{
    let report = walked.report();
    let state = write(alloc, &report.state);
    let changed = report.state.serial() != prior_serial;
    Applied {
        plan,
        walked,
        state,
        changed,
    }
}
