//! The objects of actions.

ghost use Rattle.std.specs.Prelude.{◌≡◌, ℕ, IfOk};
ghost use Rattle.tf_value_data.specs.Tree.{Tree, tree_of};

use std::alloc::{AllocError, Global};
use tf_value_data::Value;

/// The objects that providers returned to actions of a plan. They are requested only for creates and updates directly before
/// the action whose request is built, and only if its block names their instances. Any value may be given for others.
pub trait Results {
    ghost objects: { Self → ℕ → Tree };

    /// Returns a copy of the object that the action with this number made.
    ///
    /// # Errors
    ///
    /// Fails with `AllocError` if memory runs out.
    fn object(&self, alloc: Global, action: usize) -> Result<Value, AllocError>
        ensures { IfOk result (λ value. tree_of value ≡ objects self.now action) };
}
