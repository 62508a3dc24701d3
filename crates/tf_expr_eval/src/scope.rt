//! The values of references.

use tf_expr_operators::EvalFault;
use tf_expr_syntax::Reference;
use tf_value_data::Value;

/// The values of a template's references: each has one value or one fault, always the same.
pub trait Scope {
    ghost use Rattle.std.specs.Prelude.{string_bytes};
    ghost use Rattle.tf_expr_eval.specs.Environment.{Environment};
    ghost use Rattle.tf_expr_eval.specs.Meaning.{and_then};
    ghost use Rattle.tf_expr_operators.specs.Answer.{Shows, limited};

    ghost environment: { Self → Environment };

    /// Returns the value of a reference, borrowed from the scope.
    ///
    /// # Errors
    ///
    /// Fails with the reference's fault, or with `TooLarge` if its value is above the limits on values.
    fn look_at<'a>(&'a self, reference: &Reference) -> Result<&'a Value, EvalFault>
        ensures { Shows (and_then (environment self.now (string_bytes reference.now.first) (string_bytes reference.now.name)) limited) result };
}
