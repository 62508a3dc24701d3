//! The outcomes of a resource's members, each of which is decided once.

ghost use Rattle.std.specs.Prelude.{◌≡◌, IfOk, map, option_map};
ghost use Rattle.tf_expand_keys.specs.Words.{block_at, addr_of};
ghost use Rattle.tf_plan_decision.specs.Outcome.{member_outcome};
ghost use Rattle.tf_plan_decision.specs.Settling.{settled_from, settled_of};
ghost use Rattle.tf_plan_order.specs.MemberViews.{member_of};

use crate::decision::DecisionFault;
use crate::outcome::member_outcome;
use std::alloc::{AllocError, Global};
use tf_expand_keys::ResourceInScope;
use tf_expr_eval::Scope;
use tf_plan_data::Step;
use tf_plan_order::InstanceToPlan;
use tf_provider_protocol::Schema;

/// A member of a resource, with its outcome.
#[derive(Drop)]
pub(crate) struct Settled<'a> {
    /// The number of the member among those of its resource.
    pub(crate) instance: usize,
    /// The member.
    pub(crate) member: &'a InstanceToPlan<'a>,
    /// Its steps, or why it is refused.
    pub(crate) outcome: Result<Vec<Step>, DecisionFault>,
}

/// Decides each member of a configured resource.
pub(crate) fn settle<'a, S: Scope>(
    alloc: Global,
    schema: Option<&Schema>,
    resource: &ResourceInScope<'_, S>,
    members: &'a [InstanceToPlan<'a>],
) -> Result<Vec<Settled<'a>>, AllocError>
    ensures { IfOk result (λ settled. map settled_of settled.items
        ≡ settled_from (member_outcome (option_map (λ s. s.now) schema.entry) (block_at (addr_of resource.now.addr.now) resource.now.block.now) (S.environment resource.now.scope.now))
        0 (map member_of members.now)) }
{
    let mut settled = Vec::with_capacity(alloc, members.len())?;
    for instance in 0..members.len() {
        let member = &members[instance];
        let outcome = member_outcome(alloc, schema, resource.block, resource.scope, member)?;
        settled.push(Settled {
            instance,
            member,
            outcome,
        })?;
    }
    Ok(settled)
}
