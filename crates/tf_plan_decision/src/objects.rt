//! The planned values of instances, by their outcomes.

ghost use Rattle.std.specs.List.Sorted.{IsStrictlySortedBy, IsStrictlySortedBy-prop};
ghost use Rattle.std.specs.Prelude.{◌≡◌, if◌then◌else◌, IfOk, map, None, option_map};
ghost use Rattle.tf_config_address.specs.ObjectId.{instance_key_cmp};
ghost use Rattle.tf_expand_keys.specs.Words.{instance_key_of, addr_of, shape_of, resolved_of, tree_of};
ghost use Rattle.tf_plan_decision.specs.Settling.{all_free, asked_by, asked_in, is_free, settled_at, settled_key, settled_object, settled_of, settled_standing, stood_for};
ghost use Rattle.tf_plan_decision.specs.Stage.{records_at};
ghost use Rattle.tf_plan_decision.specs.Views.{outcome_of, steps_of};
ghost use Rattle.tf_plan_data.specs.Action.{step_of};
ghost use Rattle.tf_state_data.specs.Ids.{AreById};
ghost use Rattle.tf_state_data.specs.Record.{record_of};
ghost use Rattle.tf_state_data.specs.State.{state_of};

use crate::decision::{DecisionFault, current};
use crate::settling::Settled;
use std::alloc::{AllocError, Global};
use tf_config_address::{InstanceKey, ResourceAddr};
use tf_expand_keys::{InstanceKeys, Keyed, Resolved, collect_instances};
use tf_plan_data::Step;
use tf_state_data::{Record, State};
use tf_value_data::Value;

/// Returns the records of the resource at an address, or an empty slice if the state doesn't have it.
pub(crate) fn records_at<'a>(state: &'a State, addr: &ResourceAddr) -> &'a [Record]
    ensures records { map record_of result.now ≡ records_at (addr_of addr.now) (state_of state.now).resources }
    ensures ordered { AreById (map record_of result.now) }
{
    match state.resource(addr) {
        Some(resource) => resource.records(),
        None => &[],
    }
}

/// The objects of a resource's instances, by the outcomes of its members, which are in address order.
#[derive(Drop)]
struct SettledObjects<'a> {
    settled: &'a [Settled<'a>],
    ghost sorted: { IsStrictlySortedBy instance_key_cmp (map settled_key (map settled_of settled.now)) } by { IsStrictlySortedBy-prop _ _ },
}

impl Keyed for SettledObjects<'_> {
    ghost object = { λ o. settled_object (map settled_of o.settled.now) };

    fn object(&self, _alloc: Global, key: &InstanceKey) -> Result<Option<Value>, AllocError> {
        match settled_at(self.settled, key) {
            Some(settled) => stood_for(settled.member.records, &settled.outcome),
            None => Ok(None),
        }
    }
}

/// Resolves a resource by the outcomes of its members. Returns `Nothing` if a member is refused that the configuration
/// doesn't have, and if the resource isn't wanted.
pub(crate) fn settled_standing(
    alloc: Global,
    shape: &InstanceKeys,
    settled: &[Settled<'_>],
    is_wanted: bool,
) -> Result<Resolved, AllocError>
    requires { IsStrictlySortedBy instance_key_cmp (map settled_key (map settled_of settled.now)) }
    ensures { IfOk result (λ resolved. resolved_of resolved
        ≡ (if is_wanted then settled_standing (shape_of shape.now) (map settled_of settled.now) else None)) }
{
    if !is_wanted || !all_free(settled) {
        return Ok(Resolved::Nothing);
    }
    let objects = SettledObjects { settled };
    collect_instances(alloc, shape, &objects)
}

/// Checks that no member is refused that the configuration doesn't have.
fn all_free(settled: &[Settled<'_>]) -> bool
    ensures { result ≡ all_free (map settled_of settled.now) }
{
    for one in settled {
        if !is_free(one) {
            return false;
        }
    }
    true
}

/// Checks whether the configuration has a member, or it isn't refused.
fn is_free(one: &Settled<'_>) -> bool
    ensures { result ≡ is_free (settled_of one.now) }
{
    one.member.is_declared || one.outcome.is_ok()
}

/// Returns the member of an instance, with its outcome.
fn settled_at<'a>(settled: &'a [Settled<'a>], key: &InstanceKey) -> Option<&'a Settled<'a>>
    requires { IsStrictlySortedBy instance_key_cmp (map settled_key (map settled_of settled.now)) }
    ensures { option_map (λ s. settled_of s.now) result ≡ settled_at (instance_key_of key.now) (map settled_of settled.now) }
{
    match settled.binary_search_by(|one| one.member.key.cmp(key)) {
        Ok(index) => Some(&settled[index]),
        Err(_) => None,
    }
}

/// Returns the planned object of an instance with these records, by its outcome, or `None` if it is refused.
fn stood_for(
    records: &[Record],
    outcome: &Result<Vec<Step>, DecisionFault>,
) -> Result<Option<Value>, AllocError>
    ensures { IfOk result (λ object. option_map tree_of object ≡ stood_for (map record_of records.now) (outcome_of outcome.now)) }
{
    match outcome {
        Ok(steps) => match asked_by(steps.as_slice()) {
            Some(asked) => Ok(Some(asked.clone()?)),
            None => attributes(current(records)),
        },
        Err(_) => Ok(None),
    }
}

/// Returns the object that steps ask for. The apply of an instance is its first step.
fn asked_by(steps: &[Step]) -> Option<&Value>
    ensures { option_map (λ v. tree_of v.now) result ≡ asked_by (steps_of steps.now) }
{
    match steps.first() {
        Some(step) => asked_in(step),
        None => None,
    }
}

/// Returns the object that a step asks for.
fn asked_in(step: &Step) -> Option<&Value>
    ensures { option_map (λ v. tree_of v.now) result ≡ asked_in (step_of step.now) }
{
    match step {
        Step::Create(asked) => Some(asked),
        Step::Update(_, asked, _) => Some(asked),
        Step::CreateReplacement(asked, _) => Some(asked),
        _ => None,
    }
}

/// Copies the object of a record.
fn attributes(prior: Option<&Record>) -> Result<Option<Value>, AllocError>
    ensures { IfOk result (λ object. option_map tree_of object
        ≡ option_map (λ r. r.attributes) (option_map (λ r. record_of r.now) prior.entry)) }
{
    match prior {
        Some(kept) => Ok(Some(kept.attributes.value.clone()?)),
        None => Ok(None),
    }
}
