//! Listeners to actions that wait for nothing more.

ghost use Rattle.std.specs.Prelude.{◌≡◌, ◌+◌, ◌<◌, ◌^◌, ℕ};

/// A listener that hears of an action when the last edge into it is released, such as a worker that gives hints.
pub trait Listener {
    /// The bound of the actions' numbers: each is below it.
    ghost bound: { ℕ };

    /// The number of actions that it heard of.
    ghost heard: { Self → ℕ };

    /// Hears of an action.
    fn hear(&mut self, action: usize)
        requires within { action < bound }
        requires few { heard self.old < 2 ^ 60 }
        ensures { heard self.new ≡ heard self.old + 1 };
}
