//! What the journal and the cells of a walk both know of a call.

use tf_provider::Verdict;

/// A call as the journal of a walk and the cell of its action both know it: the action, and the verdict on the reply.
#[derive(Clone, Copy, Debug, PartialEq, Eq)]
pub struct CallRecord {
    /// The action that was called.
    pub action: usize,
    /// The verdict on the reply.
    pub verdict: Verdict,
}
