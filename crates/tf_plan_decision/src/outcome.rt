//! The outcomes of a resource's members.

ghost use Rattle.std.specs.Prelude.{◌≡◌, IfOk, option_map};
ghost use Rattle.tf_config_address.specs.ResourceAddr.{ResourceAddrView};
ghost use Rattle.tf_config_data.specs.Config.{block_at, lifecycle_of};
ghost use Rattle.tf_plan_decision.specs.Outcome.{declared_outcome, member_outcome, orphan_outcome, removal_outcome};
ghost use Rattle.tf_plan_decision.specs.Views.{outcome_of};
ghost use Rattle.tf_plan_order.specs.MemberViews.{member_of};

use crate::decision::{DecisionFault, decide, removal_fault_of};
use crate::steps::{decided_steps, removal_steps};
use std::alloc::{AllocError, Global};
use tf_config_data::{Block, Lifecycle};
use tf_expr_eval::Scope;
use tf_plan_data::Step;
use tf_plan_object::plan_instance;
use tf_plan_order::InstanceToPlan;
use tf_provider_protocol::Schema;

/// Plans one member of a configured resource, by the schema of its type and in a scope: its steps, or why it is
/// refused. A member that the configuration doesn't have is destroyed.
///
/// # Errors
///
/// Fails only if memory runs out.
pub fn member_outcome<S: Scope>(
    alloc: Global,
    schema: Option<&Schema>,
    block: &Block,
    scope: &S,
    member: &InstanceToPlan<'_>,
) -> Result<Result<Vec<Step>, DecisionFault>, AllocError>
    ensures { (addr : ResourceAddrView) → IfOk result (λ outcome. outcome_of outcome
        ≡ member_outcome (option_map (λ s. s.now) schema.entry) (block_at addr block.now) (S.environment scope.now) (member_of member.now)) }
{
    let Some(schema) = schema else {
        return Ok(Err(DecisionFault::NoProvider));
    };
    if member.is_declared {
        declared_outcome(alloc, schema, block, scope, member)
    } else {
        removal_outcome(alloc, schema, Some(&block.lifecycle), member)
    }
}

/// Plans one member of an orphan: it is destroyed, or refused.
///
/// # Errors
///
/// Fails only if memory runs out.
pub fn orphan_outcome(
    alloc: Global,
    schema: Option<&Schema>,
    member: &InstanceToPlan<'_>,
) -> Result<Result<Vec<Step>, DecisionFault>, AllocError>
    ensures { IfOk result (λ outcome. outcome_of outcome
        ≡ orphan_outcome (option_map (λ s. s.now) schema.entry) (member_of member.now)) }
{
    match schema {
        Some(schema) => removal_outcome(alloc, schema, None, member),
        None => Ok(Err(DecisionFault::NoProvider)),
    }
}

/// Plans an instance that the configuration has.
fn declared_outcome<S: Scope>(
    alloc: Global,
    schema: &Schema,
    block: &Block,
    scope: &S,
    member: &InstanceToPlan<'_>,
) -> Result<Result<Vec<Step>, DecisionFault>, AllocError>
    ensures { (addr : ResourceAddrView) → IfOk result (λ outcome. outcome_of outcome
        ≡ declared_outcome schema.now (block_at addr block.now) (S.environment scope.now) (member_of member.now)) }
{
    let planned = plan_instance(alloc, schema, block, &member.key, scope)?;
    match decide(alloc, schema, &block.lifecycle, member.records, planned)? {
        Ok(decision) => Ok(Ok(decided_steps(alloc, member.records, decision)?)),
        Err(why) => Ok(Err(why)),
    }
}

/// Plans an instance that the configuration doesn't have.
fn removal_outcome(
    alloc: Global,
    schema: &Schema,
    lifecycle: Option<&Lifecycle>,
    member: &InstanceToPlan<'_>,
) -> Result<Result<Vec<Step>, DecisionFault>, AllocError>
    ensures { IfOk result (λ outcome. outcome_of outcome
        ≡ removal_outcome schema.now (option_map (λ l. lifecycle_of l.now) lifecycle.entry) (member_of member.now)) }
{
    match removal_fault_of(alloc, schema, lifecycle, member.records)? {
        Some(why) => Ok(Err(why)),
        None => Ok(Ok(removal_steps(alloc, member.records)?)),
    }
}
