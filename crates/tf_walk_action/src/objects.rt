//! The requested objects.

ghost use Rattle.std.specs.Prelude.{◌≡◌, ◌<◌, true, IfOk, length, map, string_bytes};
ghost use Rattle.tf_walk_action.specs.SoFar.{ResolvedSoFar};
ghost use Rattle.tf_walk_action.specs.Words.{action_of, AreRequests, config_of, FitsTogether, has_attributes, has_planned_attributes, ignored_by, instance_of, IsOfBlock, kept_object, meant_at, names_in, names_of, plan_of, Requests, tree_of};

use crate::requests::request;
use std::alloc::{AllocError, Global};
use tf_config_names::{Declaration, Declarations};
use tf_expand_keys::{Module, ModuleParts, Resolved};
use tf_plan_data::{Action, Plan};
use tf_plan_object::{InstanceFault, kept_object};
use tf_provider_protocol::Schema;
use tf_value_data::Value;
use tf_walk_names::Results;

/// What determines the requested object: the action of a plan, the names of its configuration, the schema of the
/// action's type, and the objects of instances.
#[derive(Drop)]
pub(crate) struct RequestBuilder<'a, 'n, R> {
    pub alloc: Global,
    pub plan: &'a Plan,
    pub names: &'a Declarations<'n>,
    pub schema: &'a Schema,
    pub action: &'a Action,
    pub results: &'a R,
}

impl<R: Results> RequestBuilder<'_, '_, R> {
    /// Evaluates the block of the action's instance to an object, or its fault. `kept` holds the values of names so
    /// far.
    pub(crate) fn made_object(
        &self,
        kept: &mut Vec<Resolved>,
    ) -> Result<Result<Value, InstanceFault>, AllocError>
        requires fits { FitsTogether self.now.plan.now }
        requires names { names_in self.now.names.now ≡ names_of (config_of self.now.plan.now.config) }
        requires block { IsOfBlock (names_of (config_of self.now.plan.now.config)) (action_of self.now.action.now) }
        requires so_far { ResolvedSoFar (plan_of self.now.plan.now) (R.objects self.now.results.now) kept.old.items }
        ensures made { IfOk result (λ made. (requests : Requests) → AreRequests (plan_of self.now.plan.now) requests
            → instance_of made ≡ requests (R.objects self.now.results.now) (action_of self.now.action.now) self.now.schema.now) }
        ensures fully { IfOk result (λ made. IfOk made (λ object. has_attributes self.now.schema.now (tree_of object) ≡ true)) }
        ensures within { IfOk result (λ made. IfOk made (λ object. has_planned_attributes (tree_of object) ≡ true)) }
        ensures so_far { ResolvedSoFar (plan_of self.now.plan.now) (R.objects self.now.results.now) kept.new.items }
    {
        let action = self.action;
        let declared = Module {
            parts: ModuleParts {
                variables: &self.plan.variables,
                names: self.names,
                dependence: &self.plan.dependence,
            },
        };
        let shapes = self.plan.shapes.as_slice();
        request(
            self.alloc,
            &declared,
            shapes,
            self.schema,
            action.resource,
            &action.key,
            self.results,
            kept,
        )
    }

    /// Adds the kept attributes of the prior object to an object: those that the provider sets, and those that the
    /// block of its resource ignores.
    pub(crate) fn kept(&self, prior: &Value, object: &Value) -> Result<Value, AllocError>
        requires { (action_of self.now.action.now).resource < length (names_in self.now.names.now) }
        ensures { IfOk result (λ v. tree_of v ≡ kept_object self.now.schema.now (ignored_by (meant_at (names_in self.now.names.now) (action_of self.now.action.now).resource)) (tree_of prior.now) (tree_of object.now)) }
    {
        let ignored = ignored_by(self.names, self.action.resource);
        kept_object(self.alloc, self.schema, ignored, prior, object)
    }
}

/// Returns the names of the attributes whose changes the block of a resource ignores.
fn ignored_by<'a>(names: &Declarations<'a>, place: usize) -> &'a [String]
    requires { place < length (names_in names.now) }
    ensures { map string_bytes result.now ≡ ignored_by (meant_at (names_in names.now) place) }
{
    match names.at(place) {
        Declaration::Resource(_, block) => block.lifecycle.ignore_changes.as_slice(),
        Declaration::Local(_, _) => &[],
    }
}
