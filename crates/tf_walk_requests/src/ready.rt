//! The requests of the actions that are ready.

ghost use Rattle.std.specs.List.{list_all};
ghost use Rattle.std.specs.Prelude.{◌≡◌, ◌<◌, All, IfOk, MatchOption, Some, length, map, slice_set, true};
ghost use Rattle.std.specs.Option.{option_map_or};
ghost use Rattle.tf_plan_data.specs.Words.{AreServed, FitsTogether, config_of, names_in, names_of, plan_of};
ghost use Rattle.tf_provider_log.specs.LogEntry.{log_entry_of};
ghost use Rattle.tf_provider_protocol.specs.Meaning.{asked};
ghost use Rattle.tf_walk_requests.specs.Memo.{IsTrueOf};
ghost use Rattle.tf_walk_requests.specs.Progress.{AreReached, HasFault, IsReadyRound, IsRequestIn, is_ready};
ghost use Rattle.tf_walk_requests.specs.Stages.{failed, is_good_stage, objects_in, requested, stage_in, stage_of};

use crate::memo::Memo;
use crate::replies::LoggedObjects;
use crate::requesting::request_of;
use crate::stage::Stage;
use std::alloc::{AllocError, Global};
use std::mem;
use tf_config_names::Declarations;
use tf_plan_data::Plan;
use tf_provider_log::{LogEntry, copy_request};
use tf_provider_protocol::{Provider, Request};
use tf_walk_action::PreparedCall;

/// What the requests of a plan's actions are built from.
#[derive(Drop)]
pub(crate) struct RequestSource<'a, 'n> {
    pub(crate) alloc: Global,
    /// The plan.
    pub(crate) plan: &'a Plan,
    /// The names of its configuration.
    pub(crate) names: &'n Declarations<'a>,
    /// Providers that have the types of its actions.
    pub(crate) providers: &'a [Box<dyn Provider + Sync>],
    /// The entries of the log.
    pub(crate) entries: &'a [LogEntry],
}

impl RequestSource<'_, '_> {
    /// Returns the requests of all actions that are ready, in the order of the plan. These actions are requested then.
    ///
    /// # Errors
    ///
    /// Fails only if memory runs out.
    pub(crate) fn ready_requests(&self, stages: &mut [Stage]) -> Result<Vec<Request>, AllocError>
        requires fits { FitsTogether self.now.plan.now }
        requires names { names_in self.now.names.now ≡ names_of (config_of self.now.plan.now.config) }
        requires served { AreServed (map meaning self.now.providers.now) (plan_of self.now.plan.now).actions }
        requires reached { AreReached (map meaning self.now.providers.now) (plan_of self.now.plan.now) (map log_entry_of self.now.entries.now) (map stage_of stages.old) }
        ensures { IfOk result (λ requests. IsReadyRound (map meaning self.now.providers.now) (plan_of self.now.plan.now) (map log_entry_of self.now.entries.now) (map stage_of stages.old) (map stage_of stages.new) (map asked requests.items)) }
    {
        let mut requests = Vec::new(self.alloc);
        let mut memo = Memo::new(self.alloc);
        for action in 0..stages.len() {
            if self.is_ready(stages, action) {
                match self.request(stages, &mut memo, action)? {
                    Some(request) => requests.push(request)?,
                    None => {}
                }
            }
        }
        Ok(requests)
    }

    /// Returns whether an action is ready: it wasn't requested yet, and each action directly before it ended well.
    fn is_ready(&self, stages: &[Stage], action: usize) -> bool
        requires within { action < length stages.now }
        requires all { length stages.now ≡ self.now.plan.now.order.nodes }
        ensures { result ≡ is_ready (plan_of self.now.plan.now) (map stage_of stages.now) action }
    {
        stages[action].is_pending()
            && are_good(stages, self.plan.order.graph().predecessors(action))
    }

    /// Returns the request of an action that is ready, which is requested then, or `None` if its request has a fault.
    fn request(
        &self,
        stages: &mut [Stage],
        memo: &mut Memo,
        action: usize,
    ) -> Result<Option<Request>, AllocError>
        requires fits { FitsTogether self.now.plan.now }
        requires names { names_in self.now.names.now ≡ names_of (config_of self.now.plan.now.config) }
        requires served { AreServed (map meaning self.now.providers.now) (plan_of self.now.plan.now).actions }
        requires all { length stages.old ≡ self.now.plan.now.order.nodes }
        requires within { action < length stages.old }
        requires ready { is_ready (plan_of self.now.plan.now) (map stage_of stages.old) action ≡ true }
        requires memo { IsTrueOf (plan_of self.now.plan.now) (objects_in (map log_entry_of self.now.entries.now) (map stage_of stages.old)) memo.old }
        ensures asked { IfOk result (λ made. MatchOption made (HasFault (map meaning self.now.providers.now) (plan_of self.now.plan.now) (map log_entry_of self.now.entries.now) (map stage_of stages.old) action) (λ r. IsRequestIn (map meaning self.now.providers.now) (plan_of self.now.plan.now) (map log_entry_of self.now.entries.now) (map stage_of stages.old) action (asked r))) }
        ensures stages { IfOk result (λ made. map stage_of stages.new ≡ slice_set (map stage_of stages.old) action (option_map_or (λ r. requested (asked r)) made failed)) }
        ensures memo { IsTrueOf (plan_of self.now.plan.now) (objects_in (map log_entry_of self.now.entries.now) (map stage_of stages.old)) memo.new }
    {
        memo.begin(self.plan, action);
        match self.request_of(stages, memo, action)? {
            Some(request) => {
                let copied = copy_request(self.alloc, &request)?;
                set(stages, action, Stage::Requested(copied));
                Ok(Some(request))
            }
            None => {
                set(stages, action, Stage::Failed);
                Ok(None)
            }
        }
    }

    /// Builds the request of an action, or returns `None` if it has a fault. The memo is for this action.
    fn request_of(
        &self,
        stages: &[Stage],
        memo: &mut Memo,
        action: usize,
    ) -> Result<Option<Request>, AllocError>
        requires fits { FitsTogether self.now.plan.now }
        requires names { names_in self.now.names.now ≡ names_of (config_of self.now.plan.now.config) }
        requires served { AreServed (map meaning self.now.providers.now) (plan_of self.now.plan.now).actions }
        requires within { action < self.now.plan.now.order.nodes }
        requires ready { is_ready (plan_of self.now.plan.now) (map stage_of stages.now) action ≡ true }
        requires own { memo.old.action ≡ Some action }
        requires memo { IsTrueOf (plan_of self.now.plan.now) (objects_in (map log_entry_of self.now.entries.now) (map stage_of stages.now)) memo.old }
        ensures asked { IfOk result (λ made. MatchOption made (HasFault (map meaning self.now.providers.now) (plan_of self.now.plan.now) (map log_entry_of self.now.entries.now) (map stage_of stages.now) action) (λ r. IsRequestIn (map meaning self.now.providers.now) (plan_of self.now.plan.now) (map log_entry_of self.now.entries.now) (map stage_of stages.now) action (asked r))) }
        ensures memo { IsTrueOf (plan_of self.now.plan.now) (objects_in (map log_entry_of self.now.entries.now) (map stage_of stages.now)) memo.new }
    {
        let results = LoggedObjects {
            stages,
            entries: self.entries,
        };
        match request_of(
            self.alloc,
            self.plan,
            self.names,
            action,
            self.providers,
            &results,
            &mut memo.kept,
        )? {
            Ok(PreparedCall { request, .. }) => Ok(Some(request)),
            Err(_) => Ok(None),
        }
    }
}

/// Returns whether these actions ended well.
fn are_good(stages: &[Stage], actions: &[usize]) -> bool
    requires { All (λ n. n < length stages.now) actions.now }
    ensures { result ≡ list_all (λ n. is_good_stage (stage_in (map stage_of stages.now) n)) actions.now }
{
    for action in actions {
        if !stages[*action].is_good() {
            return false;
        }
    }
    true
}

/// Gives an action a stage.
fn set(stages: &mut [Stage], action: usize, stage: Stage)
    requires { action < length stages.old }
    ensures { stages.new ≡ slice_set stages.old action stage }
{
    drop(mem::replace(&mut stages[action], stage));
}
