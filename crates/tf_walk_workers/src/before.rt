//! The results of the actions before one, for its request.

ghost use Rattle.std.specs.Prelude.{◌≡◌, ◌<◌, All, IfOk, map};
ghost use Rattle.tf_walk_action.specs.Words.{action_of, names_in, objects_seen, state_of};
ghost use Rattle.tf_walk_workers.specs.Reading.{seen_in};
ghost use Rattle.tf_walk_workers.specs.SeenResult.{IfGood, Shows};

use crate::cells::Cells;
use crate::reading::Reading;
use crate::walk_brand::WalkBrand;
use std::alloc::{AllocError, Global};
use tf_config_address::InstanceKey;
use tf_config_names::Declarations;
use tf_plan_data::Action;
use tf_state_data::State;
use tf_value_data::Value;
use tf_walk_action::{Unasked, applies_to, prior_object, room_for_results};
use tf_walk_names::Results;

/// The results of some actions of a plan, all of which are good. They stay in their cells while this lives.
#[derive(Drop)]
pub struct Before<'a, N: WalkBrand> {
    names: &'a Declarations<'a>,
    prior: &'a State,
    actions: &'a [Action],
    readings: Vec<Reading<'a, N>>,
}

/// What is read of some actions.
#[derive(Drop)]
pub enum SeenResult<'a, N: WalkBrand> {
    /// A result can't be read yet.
    Waits,
    /// One of them isn't good.
    Bad,
    /// All of them are good.
    Good(Before<'a, N>),
}

impl<N: WalkBrand> Results for Before<'_, N> {
    ghost objects = { λ s. objects_seen (names_in s.names.now) (state_of s.prior.now) (map action_of s.actions.now) (map seen_in s.readings.items) };

    fn object(&self, alloc: Global, place: usize, key: &InstanceKey) -> Result<Value, AllocError> {
        for reading in &self.readings {
            if applies_to(self.actions, reading.action(), place, key) {
                return reading.object(alloc);
            }
        }
        prior_object(self.names, self.prior, place, key)
    }
}

impl<N: WalkBrand> Cells<N> {
    /// Reads the results of some actions of a plan. If all are good, these are their results in every ideal. The
    /// names are those of the plan's configuration, and the state is the one that the plan starts from.
    ///
    /// # Errors
    ///
    /// Fails only if memory runs out.
    pub fn look<'a>(
        &'a self,
        alloc: Global,
        names: &'a Declarations<'a>,
        prior: &'a State,
        actions: &'a [Action],
        before: &[usize],
    ) -> Result<SeenResult<'a, N>, Unasked>
        requires { All (λ n. n < self.now) before.now }
        ensures names { IfOk result (λ seen_result. IfGood seen_result (λ good. good.names.now ≡ names.now)) }
        ensures prior { IfOk result (λ seen_result. IfGood seen_result (λ good. good.prior.now ≡ prior.now)) }
        ensures actions { IfOk result (λ seen_result. IfGood seen_result (λ good. good.actions.now ≡ actions.now)) }
        ensures shows { IfOk result (λ seen_result. IfGood seen_result (Shows N.meanings N.plan before.now)) }
    {
        let mut readings = room_for_results(alloc, before.len())?;
        for action in before {
            let Some(reading) = self.read(*action) else {
                return Ok(SeenResult::Waits);
            };
            let bad = !reading.is_good();
            if bad {
                return Ok(SeenResult::Bad);
            }
            readings.push_reserved(reading);
        }
        Ok(SeenResult::Good(Before {
            names,
            prior,
            actions,
            readings,
        }))
    }
}
