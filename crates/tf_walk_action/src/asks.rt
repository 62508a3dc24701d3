//! Requests.

ghost use Rattle.std.specs.Prelude.{◌≡◌, true, Some, map, IfOk, IsSomeAnd, IsTrue, option_map, string_bytes};
ghost use Rattle.tf_walk_action.specs.Words.{action_of, AreRequests, asked, asked_for, asks_fully, call_with, comes_of, config_of, create_of, destroy_of, FitsTogether, has_planned_attributes, ignored_by, IsDeclared, IsOfBlock, IsServedBy, kept_object, meant_at, names_in, names_of, plan_of, prior_of, Requests, schema_in, tree_of, unless_faulty, update_of};
ghost use Rattle.tf_provider_protocol.specs.declared.request.Op.TheVariants.{Create, Update};
ghost use Rattle.tf_walk_action.specs.AskedBy.{asked_by, prepared_call_of};
ghost use Rattle.tf_walk_action.specs.SoFar.{ResolvedSoFar};
ghost use Rattle.tf_walk_action.specs.Asked.{op_of};

use crate::action_result::Faulted;
use crate::messages::faulted;
use crate::objects::RequestBuilder;
use crate::prepared_call::PreparedCall;
use crate::rooms::{least_room, reserve_message};
use crate::unasked::Unasked;
use std::alloc::{AllocError, Global};
use tf_config_names::Declarations;
use tf_expand_keys::Resolved;
use tf_plan_data::{Action, Plan, Step, address_text};
use tf_provider::{Op, Provider, Request, Schema, schema_for};
use tf_state_data::Object;
use tf_value_data::Value;
use tf_walk_names::Results;

/// Builds the request of an action of a plan, by the schema of the first provider that has its type, or the request's
/// fault. Instances have the objects of `results`.
///
/// `kept` holds the values of names by these results, by place. It is empty at first, and gains the values of the
/// names in the action's block. So actions that assert_sync it evaluate each local once, and collect each resource's
/// objects once.
///
/// # Errors
///
/// Fails only if memory runs out. The values in `kept` are right then too.
pub fn ask_provider<R: Results>(
    alloc: Global,
    plan: &Plan,
    names: &Declarations<'_>,
    providers: &[Box<dyn Provider + Sync>],
    action: &Action,
    results: &R,
    kept: &mut Vec<Resolved>,
) -> Result<Result<PreparedCall, Faulted>, Unasked>
    requires fits { FitsTogether plan.now }
    requires names { names_in names.now ≡ names_of (config_of plan.now.config) }
    requires declared { IsDeclared (names_of (config_of plan.now.config)) (action_of action.now) }
    requires served { IsServedBy (map meaning providers.now) (action_of action.now) }
    requires so_far { ResolvedSoFar (plan_of plan.now) (R.objects results.now) kept.old.items }
    ensures asked { IfOk result (λ made. (requests : Requests) → AreRequests (plan_of plan.now) requests
        → comes_of (map meaning providers.now) (asked_by made)
        ≡ call_with (map meaning providers.now) requests (plan_of plan.now) (R.objects results.now) (action_of action.now)) }
    ensures served { IfOk result (λ made. IfOk made (λ asking.
        IsSomeAnd (schema_in (asked asking.request).type_name (map meaning providers.now)) (λ s. IsTrue (asks_fully (asked asking.request) s)))) }
    ensures op { IfOk result (λ made. IfOk made (λ asking. (asked asking.request).op ≡ op_of (action_of action.now).step)) }
    ensures so_far { ResolvedSoFar (plan_of plan.now) (R.objects results.now) kept.new.items }
{
    match schema_for(providers, action.addr.type_name.as_str()) {
        Some(schema) => {
            let task = RequestBuilder {
                alloc,
                plan,
                names,
                schema,
                action,
                results,
            };
            match task.ask(kept) {
                Ok(made) => Ok(made),
                Err(error) => Err(Unasked::of(error)),
            }
        }
        None => unreachable!(),
    }
}

impl<R: Results> RequestBuilder<'_, '_, R> {
    /// Builds the action's request, or its fault.
    fn ask(&self, kept: &mut Vec<Resolved>) -> Result<Result<PreparedCall, Faulted>, AllocError>
        requires fits { FitsTogether self.now.plan.now }
        requires names { names_in self.now.names.now ≡ names_of (config_of self.now.plan.now.config) }
        requires declared { IsDeclared (names_of (config_of self.now.plan.now.config)) (action_of self.now.action.now) }
        requires so_far { ResolvedSoFar (plan_of self.now.plan.now) (R.objects self.now.results.now) kept.old.items }
        ensures asked { IfOk result (λ made. (requests : Requests) → AreRequests (plan_of self.now.plan.now) requests
            → asked_by made ≡ asked_for (names_of (config_of self.now.plan.now.config)) self.now.schema.now (action_of self.now.action.now)
            (requests (R.objects self.now.results.now) (action_of self.now.action.now) self.now.schema.now)) }
        ensures fully { IfOk result (λ made. IfOk made (λ asking. asks_fully (asked asking.request) self.now.schema.now ≡ true)) }
        ensures type_name { IfOk result (λ made. IfOk made (λ asking. (asked asking.request).type_name ≡ (action_of self.now.action.now).addr.type_name)) }
        ensures op { IfOk result (λ made. IfOk made (λ asking. (asked asking.request).op ≡ op_of (action_of self.now.action.now).step)) }
        ensures so_far { ResolvedSoFar (plan_of self.now.plan.now) (R.objects self.now.results.now) kept.new.items }
    {
        match &self.action.step {
            Step::Create(_) | Step::CreateReplacement(_, _) => self.ask_create(kept),
            Step::Update(prior, _, _) => self.ask_update(prior, kept),
            Step::DestroyReplaced(prior) | Step::Destroy(prior) => {
                Ok(Ok(destroying(self.alloc, self.action, None, prior)?))
            }
            Step::DestroyDeposed(key, prior) => Ok(Ok(destroying(
                self.alloc,
                self.action,
                Some(key.clone()?),
                prior,
            )?)),
        }
    }

    /// Builds the request of a create, or its fault.
    fn ask_create(
        &self,
        kept: &mut Vec<Resolved>,
    ) -> Result<Result<PreparedCall, Faulted>, AllocError>
        requires fits { FitsTogether self.now.plan.now }
        requires names { names_in self.now.names.now ≡ names_of (config_of self.now.plan.now.config) }
        requires block { IsOfBlock (names_of (config_of self.now.plan.now.config)) (action_of self.now.action.now) }
        requires so_far { ResolvedSoFar (plan_of self.now.plan.now) (R.objects self.now.results.now) kept.old.items }
        ensures asked { IfOk result (λ made. (requests : Requests) → AreRequests (plan_of self.now.plan.now) requests
            → asked_by made ≡ unless_faulty (create_of (action_of self.now.action.now)) (requests (R.objects self.now.results.now) (action_of self.now.action.now) self.now.schema.now)) }
        ensures fully { IfOk result (λ made. IfOk made (λ asking. asks_fully (asked asking.request) self.now.schema.now ≡ true)) }
        ensures type_name { IfOk result (λ made. IfOk made (λ asking. (asked asking.request).type_name ≡ (action_of self.now.action.now).addr.type_name)) }
        ensures op { IfOk result (λ made. IfOk made (λ asking. (asked asking.request).op ≡ Create)) }
        ensures so_far { ResolvedSoFar (plan_of self.now.plan.now) (R.objects self.now.results.now) kept.new.items }
    {
        match self.made_object(kept)? {
            Ok(object) => Ok(Ok(creating(self.alloc, self.action, object)?)),
            Err(fault) => Ok(Err(faulted(self.alloc, fault)?)),
        }
    }

    /// Builds the request of an update, or its fault.
    fn ask_update(
        &self,
        prior: &Object,
        kept: &mut Vec<Resolved>,
    ) -> Result<Result<PreparedCall, Faulted>, AllocError>
        requires fits { FitsTogether self.now.plan.now }
        requires names { names_in self.now.names.now ≡ names_of (config_of self.now.plan.now.config) }
        requires block { IsOfBlock (names_of (config_of self.now.plan.now.config)) (action_of self.now.action.now) }
        requires so_far { ResolvedSoFar (plan_of self.now.plan.now) (R.objects self.now.results.now) kept.old.items }
        ensures asked { IfOk result (λ made. (requests : Requests) → AreRequests (plan_of self.now.plan.now) requests
            → asked_by made ≡ unless_faulty (λ t. update_of (action_of self.now.action.now) (prior_of prior.now)
            (kept_object self.now.schema.now (ignored_by (meant_at (names_of (config_of self.now.plan.now.config)) (action_of self.now.action.now).resource)) (prior_of prior.now) t))
            (requests (R.objects self.now.results.now) (action_of self.now.action.now) self.now.schema.now)) }
        ensures fully { IfOk result (λ made. IfOk made (λ asking. asks_fully (asked asking.request) self.now.schema.now ≡ true)) }
        ensures type_name { IfOk result (λ made. IfOk made (λ asking. (asked asking.request).type_name ≡ (action_of self.now.action.now).addr.type_name)) }
        ensures op { IfOk result (λ made. IfOk made (λ asking. (asked asking.request).op ≡ Update)) }
        ensures so_far { ResolvedSoFar (plan_of self.now.plan.now) (R.objects self.now.results.now) kept.new.items }
    {
        match self.made_object(kept)? {
            Ok(object) => {
                let wanted = self.kept(&prior.value, &object)?;
                Ok(Ok(updating(self.alloc, self.action, prior, wanted)?))
            }
            Err(fault) => Ok(Err(faulted(self.alloc, fault)?)),
        }
    }
}

/// Builds the request to create an object, with space for messages about its reply.
fn creating(alloc: Global, action: &Action, object: Value) -> Result<PreparedCall, AllocError>
    requires { has_planned_attributes (tree_of object) ≡ true }
    ensures { IfOk result (λ asking. asked asking.request ≡ create_of (action_of action.now) (tree_of object)) }
{
    let message = reserve_message(alloc, &object)?;
    let request = request_for(alloc, action, Op::Create, None, None, Some(object))?;
    Ok(PreparedCall { request, message })
}

/// Builds the request to update an existing object to another, with space for messages about its reply.
fn updating(
    alloc: Global,
    action: &Action,
    prior: &Object,
    object: Value,
) -> Result<PreparedCall, AllocError>
    ensures { IfOk result (λ asking. asked asking.request ≡ update_of (action_of action.now) (prior_of prior.now) (tree_of object)) }
{
    let message = reserve_message(alloc, &object)?;
    let prior = Some(prior.value.clone()?);
    let request = request_for(alloc, action, Op::Update, None, prior, Some(object))?;
    Ok(PreparedCall { request, message })
}

/// Builds the request to destroy an object, the current one or the deposed one of a key, with space for messages
/// about its reply.
fn destroying(
    alloc: Global,
    action: &Action,
    deposed: Option<String>,
    prior: &Object,
) -> Result<PreparedCall, AllocError>
    ensures { IfOk result (λ asking. asked asking.request ≡ destroy_of (action_of action.now) (option_map string_bytes deposed) (prior_of prior.now)) }
{
    let message = least_room(alloc)?;
    let prior = Some(prior.value.clone()?);
    let request = request_for(alloc, action, Op::Destroy, deposed, prior, None)?;
    Ok(PreparedCall { request, message })
}

/// Builds a request about the instance of an action.
fn request_for(
    alloc: Global,
    action: &Action,
    op: Op,
    deposed: Option<String>,
    prior: Option<Value>,
    object: Option<Value>,
) -> Result<Request, AllocError>
    ensures { IfOk result (λ request. asked request ≡ prepared_call_of (action_of action.now) op (option_map string_bytes deposed) (option_map tree_of prior) (option_map tree_of object)) }
{
    Ok(Request {
        op,
        address: address_text(alloc, &action.addr, &action.key)?,
        type_name: action.addr.type_name.clone()?,
        deposed,
        prior,
        object,
    })
}
