//! Actions and refusals, collected one member after another.

ghost use Rattle.std.specs.Prelude.{◌≡◌, ◌++◌, IfOk, OnOk, map, option_map};
ghost use Rattle.tf_plan_data.specs.Action.{action_of};
ghost use Rattle.tf_expand_keys.specs.Words.{instance_key_of};
ghost use Rattle.tf_plan_decision.specs.Collecting.{with_members, with_outcome, with_settled};
ghost use Rattle.tf_plan_decision.specs.Deciding.{action, decided_of, decisions_on, of_view, version_of};
ghost use Rattle.tf_plan_decision.specs.Outcome.{orphan_outcome};
ghost use Rattle.tf_plan_decision.specs.Rows.{followed_by, nothing_decided};
ghost use Rattle.tf_plan_decision.specs.Settling.{settled_of};
ghost use Rattle.tf_plan_decision.specs.Views.{outcome_of, steps_of};
ghost use Rattle.tf_plan_decision.specs.Whole.{orphan_instances};
ghost use Rattle.tf_plan_order.specs.MemberViews.{member_of};
ghost use Rattle.tf_plan_order.specs.Words.{resource_of};

use crate::decision::DecisionFault;
use crate::outcome::orphan_outcome;
use crate::settling::Settled;
use std::alloc::{AllocError, Global};
use tf_config_address::{InstanceKey, ResourceAddr};
use tf_plan_data::{Action, Step};
use tf_plan_order::{InstanceToPlan, members};
use tf_provider_protocol::{Provider, Schema, schema_for};

/// An instance that is refused.
#[derive(Debug, Drop)]
pub struct RefusedInstance {
    /// Its resource.
    pub addr: ResourceAddr,
    /// Its key.
    pub key: InstanceKey,
    /// Why it is refused.
    pub why: DecisionFault,
}

/// Actions and refusals.
#[derive(Debug, Drop)]
pub struct Decided {
    /// The actions, in the order in which instances were decided. Within an instance the apply comes first, then the
    /// destroy of the current object, then the destroys of deposed ones by their keys.
    pub actions: Vec<Action>,
    /// The instances that are refused, in the order in which they were decided.
    pub refusals: Vec<RefusedInstance>,
}

/// A resource, as its actions name it.
#[derive(Drop)]
pub(crate) struct ResourceHeader<'a> {
    /// The number of the resource.
    pub(crate) resource: usize,
    /// Its address.
    pub(crate) addr: &'a ResourceAddr,
    /// The version of the schema of its type.
    pub(crate) version: u32,
}

impl Decided {
    /// Returns no actions and no refusals.
    pub(crate) fn nothing(alloc: Global) -> Decided
        ensures { decided_of result ≡ nothing_decided }
    {
        Decided {
            actions: Vec::new(alloc),
            refusals: Vec::new(alloc),
        }
    }

    /// Appends actions and refusals, by moving them.
    pub(crate) fn append(&mut self, more: Decided) -> Result<(), AllocError>
        ensures { OnOk result (decided_of self.new ≡ followed_by (decided_of self.old) (decided_of more)) }
    {
        let Decided {
            mut actions,
            mut refusals,
        } = more;
        self.actions.append(&mut actions)?;
        self.refusals.append(&mut refusals)
    }

    /// Adds the outcomes of the members of a configured resource.
    pub(crate) fn add_settled(
        &mut self,
        of: &ResourceHeader<'_>,
        settled: Vec<Settled<'_>>,
    ) -> Result<(), AllocError>
        ensures { OnOk result (decided_of self.new ≡ with_settled (of_view of.now) (map settled_of settled.entry.items) (decided_of self.old)) }
    {
        self.actions.reserve_exact(settled.len())?;
        for one in settled {
            let Settled {
                instance,
                member,
                outcome,
            } = one;
            add_outcome(self, of, instance, &member.key, outcome)?;
        }
        Ok(())
    }

    /// Decides the members of an orphan.
    ///
    /// # Errors
    ///
    /// Fails only if memory runs out.
    pub fn add_orphan(
        &mut self,
        alloc: Global,
        place: usize,
        orphan: &tf_state_data::Resource,
        providers: &[Box<dyn Provider + Sync>],
    ) -> Result<(), AllocError>
        ensures { OnOk result (decided_of self.new ≡ followed_by (decided_of self.old) (decisions_on (orphan_instances (map meaning providers.now) place (resource_of orphan.now)))) }
    {
        let schema = schema_for(providers, orphan.addr().type_name.as_str());
        let members = members(alloc, &[], orphan.records())?;
        let of = ResourceHeader {
            resource: place,
            addr: orphan.addr(),
            version: version_of(schema),
        };
        add_gone(alloc, self, &of, schema, members.as_slice())
    }
}

/// Returns the version of a schema, or 0 if there is none.
pub(crate) fn version_of(schema: Option<&Schema>) -> u32
    ensures { result ≡ version_of (option_map (λ s. s.now) schema.entry) }
{
    match schema {
        Some(schema) => schema.version(),
        None => 0,
    }
}

/// Adds the outcomes of the members of an orphan.
fn add_gone(
    alloc: Global,
    decided: &mut Decided,
    of: &ResourceHeader<'_>,
    schema: Option<&Schema>,
    members: &[InstanceToPlan<'_>],
) -> Result<(), AllocError>
    ensures { OnOk result (decided_of decided.new ≡ with_members (of_view of.now) (orphan_outcome (option_map (λ s. s.now) schema.entry))
        0 (map member_of members.now) (decided_of decided.old)) }
{
    for index in 0..members.len() {
        let member = &members[index];
        let outcome = orphan_outcome(alloc, schema, member)?;
        add_outcome(decided, of, index, &member.key, outcome)?;
    }
    Ok(())
}

/// Adds the outcome of an instance.
fn add_outcome(
    decided: &mut Decided,
    of: &ResourceHeader<'_>,
    instance: usize,
    key: &InstanceKey,
    outcome: Result<Vec<Step>, DecisionFault>,
) -> Result<(), AllocError>
    ensures { OnOk result (decided_of decided.new ≡ with_outcome (of_view of.now) instance (instance_key_of key.now) (outcome_of outcome) (decided_of decided.old)) }
{
    match outcome {
        Ok(steps) => add_steps(decided, of, instance, key, steps),
        Err(why) => {
            decided.refusals.push(RefusedInstance {
                addr: of.addr.clone()?,
                key: key.clone()?,
                why,
            })?;
            Ok(())
        }
    }
}

/// Adds the actions of an instance.
fn add_steps(
    decided: &mut Decided,
    of: &ResourceHeader<'_>,
    instance: usize,
    key: &InstanceKey,
    steps: Vec<Step>,
) -> Result<(), AllocError>
    ensures actions { OnOk result (map action_of decided.new.actions.items
        ≡ map action_of decided.old.actions.items ++ map (action (of_view of.now) instance (instance_key_of key.now)) (steps_of steps.items)) }
    ensures refusals { decided.new.refusals.items ≡ decided.old.refusals.items }
{
    for step in steps {
        decided.actions.push(Action {
            resource: of.resource,
            instance,
            addr: of.addr.clone()?,
            key: key.clone()?,
            step,
            version: of.version,
        })?;
    }
    Ok(())
}
