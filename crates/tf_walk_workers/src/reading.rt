//! The result of an action, read from its cell.

ghost use Rattle.std.specs.Option.{option_map_or};
ghost use Rattle.std.specs.Prelude.{◌≡◌, IfOk, IfSome, IsTrue, MatchOption, is_some, true, false};
ghost use Rattle.tf_walk_action.specs.Words.{action_result_of, ended_action, is_good, object_of, tree_of};
ghost use Rattle.tf_walk_workers.specs.Ideal.{InEachIdeal, IsGoodInEach, IsTrueTo};

use crate::kept::CellResult;
use crate::walk_brand::WalkBrand;
use counted_slot::Claim;
use std::alloc::{AllocError, Global};
use tf_provider_protocol::Reply;
use tf_value_data::{Value, copy};
use tf_walk_action::{ActionResult, NotGood};

/// A read result of an action, which stays in its cell while this lives.
pub struct Reading<'a, N: WalkBrand> {
    action: usize,
    claim: Claim<'a, CellResult<N>>,
    pub ghost own: { claim.tag ≡ action },
    pub ghost reads: { claim.right ≡ 1 },
    pub ghost filled: { option_map_or (λ kept. is_some kept.ended) claim.value false ≡ true },
}

impl<'a, N: WalkBrand> Drop for Reading<'a, N> {
    fn drop(self) {
        let Self { action: _, claim } = self;
        claim.leave();
    }
}

impl<'a, N: WalkBrand> Reading<'a, N> {
    ghost use Rattle.tf_walk_workers.specs.Reading.{done_in};

    /// Returns what the claim on an action's cell reads, if there is a result.
    pub(crate) fn of(action: usize, claim: Claim<'a, CellResult<N>>) -> Option<Reading<'a, N>>
        requires own { claim.tag ≡ action }
        requires reads { claim.right ≡ 1 }
        ensures { IfSome result (λ reading. reading.action ≡ action) }
    {
        if claim.get().ended.is_some() {
            Some(Reading { action, claim })
        } else {
            claim.leave();
            None
        }
    }

    /// Returns the action.
    pub fn action(&self) -> usize
        ensures { result ≡ self.now.action }
    {
        self.action
    }

    /// Returns the result, which is of this action and true of it.
    pub fn ended(&self) -> &ActionResult
        ensures own { ended_action result.now ≡ self.now.action }
        ensures same { action_result_of result.now ≡ done_in self.now }
        ensures fits { IsTrueTo N.meanings N.plan self.now.action (done_in self.now) }
    {
        match &self.claim.get().ended {
            Some(ended) => ended,
            None => unreachable!(),
        }
    }

    /// Returns whether the action is good. If it is, it has the same result in every ideal.
    pub fn is_good(&self) -> bool
        ensures value { result ≡ is_good (done_in self.now) }
        ensures ideal { IsTrue result → InEachIdeal N.meanings N.plan (λ ideal. done_in self.now ≡ ideal self.now.action) }
    {
        self.ended().is_good()
    }

    /// Returns the evidence that the action isn't good, if it isn't. If it is good, it is so in every ideal.
    pub fn not_good(&self) -> Option<NotGood>
        ensures { MatchOption result
            (IsGoodInEach N.meanings N.plan self.now.action)
            (λ bad. bad ≡ self.now.action) }
    {
        self.ended().not_good()
    }

    /// Returns a copy of the object that a provider answered to the action; null if there is none. If the action is
    /// good, it is the object in every ideal.
    ///
    /// # Errors
    ///
    /// Fails only if memory runs out.
    pub fn object(&self, alloc: Global) -> Result<Value, AllocError>
        ensures value { IfOk result (λ value. tree_of value ≡ object_of (done_in self.now)) }
        ensures ideal { IfOk result (λ value. IsTrue (is_good (done_in self.now))
            → InEachIdeal N.meanings N.plan (λ ideal. tree_of value ≡ object_of (ideal self.now.action))) }
    {
        object_of(alloc, self.ended())
    }
}

/// Returns a copy of the object that a provider answered; null if there is none.
fn object_of(alloc: Global, ended: &ActionResult) -> Result<Value, AllocError>
    ensures { IfOk result (λ value. tree_of value ≡ object_of (action_result_of ended.now)) }
{
    match ended {
        ActionResult::Called(served) => match served.call.reply() {
            Reply::Object(object) => copy(object),
            _ => Ok(Value::Null),
        },
        _ => Ok(Value::Null),
    }
}
