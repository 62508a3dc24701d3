//! Carries out a plan on one thread.

ghost use Rattle.std.specs.Prelude.{◌≡◌, map, IfOk, IfErr};
ghost use Rattle.tf_walk_action.specs.Words.{action_of, AreServed, FitsTogether, plan_of};
ghost use Rattle.tf_config_refusal.specs.Refusal.{no_memory, refusal_of};
ghost use Rattle.tf_walk_report.specs.Report.{IsWalked, IsWhole, report_of};
ghost use Rattle.tf_walk.specs.Prepared.{IsPrepared};

use crate::prepared::{Prepared, prepare};
use std::alloc::{AllocError, Global};
use tf_config_refusal::Refusal;
use tf_expand_keys::{Module, ModuleParts};
use tf_plan_data::{Plan, Planned};
use tf_provider::Provider;
use tf_walk_action::Stop;
use tf_walk_report::{Report, Walked, report_of};
use tf_walk_single::walk;

/// Carries out a plan on the calling thread, without waiting. Every action ends once, after all actions before it. Requires that
/// some provider in the list has the type of each action. The flag is read once for each action that isn't skipped, before its
/// request is built; if it is set, the action is left. After the first call, nothing is allocated for what a reply says.
///
/// # Errors
///
/// Only if memory runs out, before the first call.
pub fn run_one(
    alloc: Global,
    plan: &Planned,
    providers: &[Box<dyn Provider + Sync>],
    stop: &Stop,
) -> Result<Walked, Refusal>
    requires served { AreServed (map meaning providers.now) (map action_of plan.now.actions.items) }
    ensures walked { IfOk result (IsWalked (map meaning providers.now) (plan_of plan.now)) }
    ensures journal { IfOk result (λ walked. (report_of walked).journal.graph ≡ plan.now.order) }
    ensures refused { IfErr result (λ r. refusal_of r ≡ no_memory) }
{
    let plan = &plan.plan;
    match prepare(alloc, plan) {
        Ok(prepared) => Ok(Walked::Whole(carry_out(alloc, plan, providers, prepared, stop))),
        Err(AllocError) => Err(Refusal::OutOfMemory),
    }
}

/// Carries out a plan and returns its report. It can't return out of memory.
fn carry_out(
    alloc: Global,
    plan: &Plan,
    providers: &[Box<dyn Provider + Sync>],
    prepared: Prepared<'_>,
    stop: &Stop,
) -> Report
    requires fits { FitsTogether plan.now }
    requires served { AreServed (map meaning providers.now) (map action_of plan.now.actions.items) }
    requires prepared { IsPrepared plan.now prepared }
    ensures whole { IsWhole (map meaning providers.now) (plan_of plan.now) result }
    ensures journal { result.journal.graph ≡ plan.now.order }
{
    let Prepared {
        names,
        mut book,
        mut journal,
        buffers,
        mut results,
    } = prepared;
    walk(
        alloc,
        plan,
        &names,
        providers,
        &mut book,
        &mut journal,
        &mut results,
        stop,
    );
    let _entries = journal.entries();
    let declared = Module {
        parts: ModuleParts {
            variables: &plan.variables,
            names: &names,
            dependence: &plan.dependence,
        },
    };
    report_of(alloc, plan, &declared, providers, buffers, results, journal)
}
