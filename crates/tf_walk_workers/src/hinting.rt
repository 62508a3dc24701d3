//! Hints at actions that wait for nothing more.

ghost use Rattle.std.specs.Prelude.{◌≡◌};

use crate::bound::PlanBound;
use crate::hints::Hints;
use crate::walk_brand::WalkBrand;
use tf_claim::Listener;

/// A worker's hints. When it ends an action, it gives a hint at each action into which it released the last edge. So
/// the worker that follows the hint finds that action free.
#[derive(Drop)]
pub struct Hinting<N: WalkBrand> {
    /// The hints.
    pub hints: Hints<PlanBound<N>>,
    /// The number of actions that it heard of since the last `begin`.
    pub free: u64,
    /// Whether a hint at one of them was lost, as there was no space for it.
    pub is_lost: bool,
}

impl<N: WalkBrand> Hinting<N> {
    /// Resets the count and `is_lost`, as the next action ends.
    pub(crate) fn begin(&mut self)
        ensures { self.new.free ≡ 0 }
    {
        self.free = 0;
        self.is_lost = false;
    }
}

impl<N: WalkBrand> Listener for Hinting<N> {
    ghost bound = { N.plan.order.nodes };

    ghost heard = { λ h. h.free };

    fn hear(&mut self, action: usize) {
        self.free += 1;
        if !self.hints.push(action) {
            self.is_lost = true;
        }
    }
}
