//! The decisions about a block, and the value that follows from them.

ghost use Rattle.std.specs.Prelude.{◌≡◌, if◌then◌else◌, IfOk, map, None};
ghost use Rattle.tf_expand_keys.specs.Words.{block_at, addr_of, shape_of, resolved_of};
ghost use Rattle.tf_plan_decision.specs.Deciding.{decided_of, decisions_on};
ghost use Rattle.tf_plan_decision.specs.Stage.{block_members, block_standing};
ghost use Rattle.tf_plan_decision.specs.Whole.{block_instances};
ghost use Rattle.tf_plan_order.specs.MemberViews.{member_of};
ghost use Rattle.tf_state_data.specs.State.{state_of};

use crate::collecting::{Decided, ResourceHeader, version_of};
use crate::objects::{records_at, settled_standing};
use crate::settling::settle;
use std::alloc::{AllocError, Global};
use tf_config_address::ResourceAddr;
use tf_config_data::Block;
use tf_expand_keys::{InstanceKeys, Resolved, ResourceInScope};
use tf_expr_eval::Scope;
use tf_plan_order::{InstanceToPlan, members};
use tf_provider_protocol::{Provider, schema_for};
use tf_state_data::State;

/// The plan from a prior state: each resource has the instances that the expansion gave it. Each type's provider is the
/// first in the list that has the type.
#[derive(Drop)]
pub struct PlannedValues<'a> {
    /// The instance keys of each resource, by the place of its name.
    pub shapes: &'a [InstanceKeys],
    /// The prior state.
    pub state: &'a State,
    /// The providers.
    pub providers: &'a [Box<dyn Provider + Sync>],
}

/// The value of a name, and the decisions about it.
#[derive(Drop)]
pub(crate) struct Looked {
    /// Its value, or `Nothing` if it isn't wanted.
    pub(crate) resolved: Resolved,
    /// The decisions about its instances. A local has no decisions.
    pub(crate) decided: Decided,
}

/// Decides the members of a configured resource, each once: those that the configuration has, by the resource's shape,
/// and those that the state has of it. The value of the resource follows from these decisions.
pub(crate) fn decide_block<S: Scope>(
    alloc: Global,
    stage: &PlannedValues<'_>,
    resource: &ResourceInScope<'_, S>,
    shape: &InstanceKeys,
    is_wanted: bool,
) -> Result<Looked, AllocError>
    ensures resolved { IfOk result (λ looked. resolved_of looked.resolved ≡ (if is_wanted
        then block_standing (map meaning stage.now.providers.now) (state_of stage.now.state.now).resources resource.now.place (shape_of shape.now)
        (block_at (addr_of resource.now.addr.now) resource.now.block.now) (S.environment resource.now.scope.now)
        else None)) }
    ensures decided { IfOk result (λ looked. decided_of looked.decided
        ≡ decisions_on (block_instances (map meaning stage.now.providers.now) (state_of stage.now.state.now).resources resource.now.place
        (block_at (addr_of resource.now.addr.now) resource.now.block.now) (S.environment resource.now.scope.now) (shape_of shape.now))) }
{
    let schema = schema_for(stage.providers, resource.addr.type_name.as_str());
    let members = block_members(alloc, stage.state, shape, resource.addr, resource.block)?;
    let settled = settle(alloc, schema, resource, members.as_slice())?;
    let resolved = settled_standing(alloc, shape, settled.as_slice(), is_wanted)?;
    let of = ResourceHeader {
        resource: resource.place,
        addr: resource.addr,
        version: version_of(schema),
    };
    let mut decided = Decided::nothing(alloc);
    decided.add_settled(&of, settled)?;
    Ok(Looked { resolved, decided })
}

/// Returns the members of a configured resource.
fn block_members<'a>(
    alloc: Global,
    state: &'a State,
    shape: &InstanceKeys,
    addr: &ResourceAddr,
    block: &Block,
) -> Result<Vec<InstanceToPlan<'a>>, AllocError>
    ensures { IfOk result (λ members. map member_of members.items
        ≡ block_members (shape_of shape.now) (block_at (addr_of addr.now) block.now) (state_of state.now).resources) }
{
    let keys = shape.keys(alloc)?;
    members(alloc, keys.as_slice(), records_at(state, addr))
}
