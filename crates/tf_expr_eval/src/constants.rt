//! Scopes of constants.

ghost use Rattle.tf_expr_eval.specs.Constants.{constant_in, constants_of};

use crate::scope::Scope;
use tf_expr_operators::{EvalFault, limited_at};
use tf_expr_syntax::Reference;
use tf_value_data::Value;

/// A reference and its value.
#[derive(Debug, Drop)]
pub struct Constant {
    /// The reference.
    pub reference: Reference,
    /// Its value.
    pub value: Value,
}

/// A scope in which each reference has the value of its first constant, and any other reference is missing.
#[derive(Debug, Drop)]
pub struct Constants {
    /// The constants.
    pub constants: Vec<Constant>,
}

impl Scope for Constants {
    ghost environment = { λ s. constant_in (constants_of s) };

    fn look_at<'a>(&'a self, reference: &Reference) -> Result<&'a Value, EvalFault> {
        for constant in &self.constants {
            if constant.reference.first == reference.first
                && constant.reference.name == reference.name
            {
                return limited_at(&constant.value);
            }
        }
        Err(EvalFault::Missing)
    }
}
