//! The refusal of a fault of an expression.

ghost use Rattle.std.specs.Prelude.{◌≡◌};
ghost use Rattle.tf_expr_json.specs.Fault.{told};
ghost use Rattle.tf_expr_json.specs.Refusing.{refused_expression, way_of};
ghost use Rattle.tf_config_refusal.specs.Refusal.{detail_of, refusal_of};

use crate::fault::{ExprCause, ExprFault};
use tf_config_refusal::{Code, Detail, Refusal};

/// Turns a fault of an expression into a refusal.
impl From<ExprFault> for Refusal {
    ghost from_gives = { λ fault refusal. refusal_of refusal ≡ refused_expression (told fault) };

    fn from(fault: ExprFault) -> Refusal {
        match fault {
            ExprFault::OutOfMemory => Refusal::OutOfMemory,
            ExprFault::Refused { place, cause } => {
                let (code, detail) = way_of(cause);
                Refusal::Fault {
                    code,
                    place,
                    detail,
                }
            }
        }
    }
}

/// Returns the code and the detail of a fault of an expression.
fn way_of(cause: ExprCause) -> (Code, Detail)
    ensures { (result.0, detail_of result.1) ≡ way_of cause }
{
    match cause {
        ExprCause::BadShape => (Code::BadShape, Detail::Bare),
        ExprCause::At(offset) => (Code::BadTemplate, Detail::At(offset)),
        ExprCause::TooDeep => (Code::Limit, Detail::Bare),
    }
}
