//! The planned instances of a configuration and a prior state together.

ghost use Rattle.std.specs.Prelude.{◌≡◌, ℕ, IfOk, map};
ghost use Rattle.tf_plan_decision.specs.Rows.{AreDecided, AreOnce, gathered, rows_of};
ghost use Rattle.tf_plan_decision.specs.Stage.{deciding};
ghost use Rattle.tf_config_names.specs.Needs.{order_in};
ghost use Rattle.tf_plan_order.specs.ResourceIndex.{numbered};
ghost use Rattle.tf_plan_data.specs.Words.{AreResolvedNames, shapes_of, resolved_names_of, ResolvedView};
ghost use Rattle.tf_plan_planner.specs.Input.{IsGiven, names_given, outputs_given, resources_given, variables_given};
ghost use Rattle.tf_plan_planner.specs.Planned.{IsPlanned, planned_of, with_outputs};
ghost use Rattle.tf_plan_planner.specs.Wanted.{IsWanted};

use crate::outputs::add_outputs;
use crate::telling::refusals_of;
use crate::wanted::wanted_names;
use std::alloc::{AllocError, Global};
use std::collections::BTreeMap;
use tf_config_refusal::Refusal;
use tf_expand_keys::{InstanceKeys, Module};
use tf_expr_syntax::Expr;
use tf_plan_data::Action;
use tf_plan_decision::{Decided, DecidedNames, PlannedValues, decide_in_order, gather};
use tf_plan_order::{ResourceIndex, address_order};
use tf_provider_protocol::Provider;
use tf_state_data::State;

/// Actions and refusals. If anything is refused, no provider may be called.
#[derive(Drop)]
pub(crate) struct PlannedInstances {
    /// The actions of the instances that aren't refused, in address order.
    pub(crate) actions: Vec<Action>,
    /// All that is refused: instances in address order, then outputs in byte order of their names.
    pub(crate) refusals: Vec<Refusal>,
}

/// The input of a plan: a configuration and a prior state.
#[derive(Drop)]
pub(crate) struct PlanInput<'a, 'd, 'n, 'm> {
    /// The names of the configuration, which needs which, and the values of its variables.
    pub(crate) declared: &'a Module<'d, 'n>,
    /// Its outputs.
    pub(crate) outputs: &'a BTreeMap<String, Expr>,
    /// The prior state.
    pub(crate) prior: &'a State,
    /// The numbers of the resources of both.
    pub(crate) resource_index: &'a ResourceIndex<'m>,
}

/// Plans the instances of a configuration and of a prior state together. References to resources have the values that
/// are decided.
pub(crate) fn plan_instances(
    alloc: Global,
    given: &PlanInput,
    shapes: &[InstanceKeys],
    providers: &[Box<dyn Provider + Sync>],
) -> Result<PlannedInstances, AllocError>
    requires { IsGiven given.now }
    ensures { IfOk result (λ planned. IsPlanned (map meaning providers.now) (resources_given given.now) (variables_given given.now) (names_given given.now) (outputs_given given.now)
        (shapes_of shapes.now) (planned_of planned)) }
{
    let declared = given.declared;
    let _ = &declared.parts;
    let looked = look_at_names(alloc, given, shapes, providers)?;
    let places = address_order(alloc, given.resource_index)?;
    plan_places(alloc, given, providers, looked, places.as_slice())
}

/// Resolves each wanted name in the plan, and decides about each resource. A local is evaluated only if a resource or
/// an output needs it, and each instance is evaluated and decided once.
fn look_at_names(
    alloc: Global,
    given: &PlanInput,
    shapes: &[InstanceKeys],
    providers: &[Box<dyn Provider + Sync>],
) -> Result<DecidedNames, AllocError>
    requires { IsGiven given.now }
    ensures resolved_names { IfOk result (λ looked. (resolved_names : ℕ → ResolvedView)
        → AreResolvedNames (deciding (map meaning providers.now) (resources_given given.now) (shapes_of shapes.now)) (variables_given given.now) (names_given given.now) resolved_names
        → (n : ℕ) → IsWanted (names_given given.now) given.now.declared.now.dependence.now (outputs_given given.now) n → resolved_names_of looked.resolved_names.items n ≡ resolved_names n) }
    ensures rows { IfOk result (λ looked. AreDecided (map meaning providers.now) (resources_given given.now) (variables_given given.now) (names_given given.now) (shapes_of shapes.now)
        (order_in given.now.declared.now.dependence.now) (rows_of looked.rows.items)) }
{
    let declared = given.declared;
    let _ = &declared.parts;
    let stage = PlannedValues {
        shapes,
        state: given.prior,
        providers,
    };
    let wanted = wanted_names(alloc, given.declared, given.outputs)?;
    decide_in_order(alloc, &stage, given.declared, wanted.as_slice())
}

/// Plans the instances of the resources at these places, in their order, by the decisions about the names.
fn plan_places(
    alloc: Global,
    given: &PlanInput,
    providers: &[Box<dyn Provider + Sync>],
    looked: DecidedNames,
    places: &[usize],
) -> Result<PlannedInstances, AllocError>
    requires given { IsGiven given.now }
    requires once { AreOnce places.now }
    ensures { IfOk result (λ planned. planned_of planned ≡ with_outputs (variables_given given.now) (names_given given.now) (resolved_names_of looked.resolved_names.items) (outputs_given given.now)
        (gathered (map meaning providers.now) (rows_of looked.rows.items) (numbered (names_given given.now) (resources_given given.now)) places.now)) }
{
    let DecidedNames {
        resolved_names,
        rows,
    } = looked;
    let decided = gather(alloc, rows, given.resource_index, providers, places)?;
    let Decided { actions, refusals } = decided;
    let mut refusals = refusals_of(alloc, refusals)?;
    add_outputs(
        alloc,
        &mut refusals,
        given.declared,
        resolved_names.as_slice(),
        given.outputs,
    )?;
    Ok(PlannedInstances { actions, refusals })
}
