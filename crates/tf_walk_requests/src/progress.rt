//! How far a plan is carried out.

ghost use Rattle.std.specs.Prelude.{◌≡◌, IfOk, map, replicate};
ghost use Rattle.tf_plan_data.specs.Words.{AreServed, plan_of};
ghost use Rattle.tf_provider_log.specs.LogEntry.{log_entry_of};
ghost use Rattle.tf_provider_protocol.specs.Meaning.{asked};
ghost use Rattle.tf_walk_requests.specs.Progress.{AreReached, IsRound};
ghost use Rattle.tf_walk_requests.specs.Stages.{pending, stage_of};

use crate::ready::RequestSource;
use crate::replies::note_replies;
use crate::stage::Stage;
use std::alloc::{AllocError, Global};
use tf_config_names::Declarations;
use tf_plan_data::Planned;
use tf_provider_log::LogEntry;
use tf_provider_protocol::{Provider, Request};

/// How far a plan is carried out: which of its actions were requested, and which ended well.
#[derive(Drop)]
pub struct PlanProgress {
    /// The stage of each action.
    stages: Vec<Stage>,
}

impl PlanProgress {
    /// Builds the progress of a plan with this number of actions, none of which is requested yet.
    ///
    /// # Errors
    ///
    /// Fails only if memory runs out.
    pub fn new(alloc: Global, actions: usize) -> Result<PlanProgress, AllocError>
        ensures { IfOk result (λ progress. map stage_of progress.stages.items ≡ replicate actions pending) }
    {
        let mut stages = Vec::with_capacity(alloc, actions)?;
        for _ in 0..actions {
            stages.push(Stage::Pending)?;
        }
        Ok(PlanProgress { stages })
    }

    /// Notes the replies in the entries of a log, and returns the requests that can be made now: those of the actions that weren't
    /// requested before, and directly before which each action ended well. An action whose request has a fault is never requested. The
    /// entries are those of the call before, and may be followed by more. The providers have to have the types of the plan's actions.
    ///
    /// # Errors
    ///
    /// Fails only if memory runs out.
    pub fn next_requests(
        &mut self,
        alloc: Global,
        planned: &Planned,
        providers: &[Box<dyn Provider + Sync>],
        entries: &[LogEntry],
    ) -> Result<Vec<Request>, AllocError>
        requires served { AreServed (map meaning providers.now) (plan_of planned.now).actions }
        requires reached { AreReached (map meaning providers.now) (plan_of planned.now) (map log_entry_of entries.now) (map stage_of self.old.stages.items) }
        ensures { IfOk result (λ requests. IsRound (map meaning providers.now) (plan_of planned.now) (map log_entry_of entries.now) (map stage_of self.old.stages.items) (map stage_of self.new.stages.items) (map asked requests.items)) }
    {
        let plan = &planned.plan;
        let stages = self.stages.as_mut_slice();
        note_replies(stages, providers, entries);
        let names = Declarations::new(alloc, &plan.config, &plan.dependence)?;
        let source = RequestSource {
            alloc,
            plan,
            names: &names,
            providers,
            entries,
        };
        source.ready_requests(stages)
    }
}
