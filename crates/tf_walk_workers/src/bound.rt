//! The bound of hints, and the one for the workers of a walk.

ghost use Rattle.std.specs.Prelude.{ℕ, ◌<◌, All};

use crate::walk_brand::WalkBrand;
use crossbeam_deque::protocol::{Outcome, Protocol};
use std::marker::PhantomData;

/// A bound that all hints of some workers are below. It is for contracts alone.
pub trait HintBound {
    ghost bound: { ℕ };
}

/// The bound for a walk: each hint is an action of its plan.
pub struct PlanBound<N>(PhantomData<N>);

impl<N: WalkBrand> HintBound for PlanBound<N> {
    ghost bound = { N.plan.order.nodes };
}

/// The rule of some workers' hints: each is below the bound.
pub struct Below<B>(PhantomData<B>);

impl<B: HintBound> Protocol<usize, ()> for Below<B> {
    ghost holds = { λ hints _. All (λ n. n < B.bound) hints };

    ghost first = { tt };

    ghost guest = { tt };
}

/// Each hint that is added or removed is below the bound too.
impl<B: HintBound> Outcome<usize, ()> for Below<B> {
    ghost then = { λ _ hints _. All (λ n. n < B.bound) hints };
}
