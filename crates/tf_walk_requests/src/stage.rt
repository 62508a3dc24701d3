//! How far an action is.

ghost use Rattle.std.specs.Prelude.{◌≡◌};
ghost use Rattle.tf_walk_requests.specs.Stages.{is_good_stage, is_pending, stage_of};

use tf_provider_protocol::Request;

/// How far an action of a plan is.
#[derive(Drop)]
pub(crate) enum Stage {
    /// It wasn't requested yet.
    Pending,
    /// This request was returned, and has no reply.
    Requested(Request),
    /// It ended well, by the reply at this place of the log's entries.
    Good(usize),
    /// It can't end well: its request has a fault, or its reply isn't good.
    Failed,
}

impl Stage {
    /// Returns whether the action wasn't requested yet.
    pub(crate) fn is_pending(&self) -> bool
        ensures { result ≡ is_pending (stage_of self.now) }
    {
        matches!(self, Stage::Pending)
    }

    /// Returns whether the action ended well.
    pub(crate) fn is_good(&self) -> bool
        ensures { result ≡ is_good_stage (stage_of self.now) }
    {
        matches!(self, Stage::Good(_))
    }
}
