//! Scopes that return values of the caller's own.

ghost use Rattle.tf_expr_operators.specs.Answer.{Answer, Gives, Shows};

use std::alloc::Global;
use tf_expr_eval::{EvalFault, Scope};
use tf_expr_syntax::Reference;
use tf_value_data::Value;

/// Gives each reference a value or a fault, always the same. The value is made for the caller: it need not be stored in the
/// scope. Each `Scope` is a `LookUp` with the same environment.
pub trait LookUp {
    ghost use Rattle.std.specs.Prelude.{string_bytes};
    ghost use Rattle.tf_expr_eval.specs.Environment.{Environment};
    ghost use Rattle.tf_expr_eval.specs.Meaning.{and_then};
    ghost use Rattle.tf_expr_operators.specs.Answer.{Gives, limited};

    ghost environment: { Self → Environment };

    /// Returns the value of a reference.
    ///
    /// # Errors
    ///
    /// Fails with the fault that the environment gives the reference, `TooLarge` if its value is above the limits on values (`limited`
    /// checks this), and `OutOfMemory` if memory runs out.
    fn look_up(&self, alloc: Global, reference: &Reference) -> Result<Value, EvalFault>
        ensures { Gives (and_then (environment self.now (string_bytes reference.now.first) (string_bytes reference.now.name)) limited) result };
}

/// Returns a copy of the value that the scope lends.
impl<S: Scope> LookUp for S {
    ghost environment = { λ s. S.Scope.environment s };

    fn look_up(&self, _alloc: Global, reference: &Reference) -> Result<Value, EvalFault> {
        let value = self.look_at(reference)?;
        Ok(value.clone()?)
    }
}
