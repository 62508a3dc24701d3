//! Operators.

ghost use Rattle.std.specs.Prelude.{◌≡◌, ℤ, FitsSigned, SomeIff};
ghost use Rattle.std.specs.Int.{w64};
ghost use Rattle.tf_value_data.specs.Tree.{tree_of};
ghost use Rattle.tf_expr_operators.specs.Answer.{Answers, whole_value};
ghost use Rattle.tf_expr_operators.specs.Operators.{unary_value, binary_value, equal_value, unequal_value, scalars_value, truths_value, wholes_value};

use tf_expr_syntax::{EvalFault, Operator, Prefix};
use tf_value_data::{Value, is_known};

/// Applies a prefix operator: `!` to a truth value, `-` to a whole number. The result for `Unknown` is `Unknown`.
/// Fails with `WrongKind` exactly if the operand is of another kind, and with `Overflow` exactly if the result is
/// beyond 64 bits.
pub fn unary(prefix: Prefix, operand: &Value) -> Result<Value, EvalFault>
    ensures { Answers (unary_value prefix (tree_of operand.now)) result }
{
    match (prefix, operand) {
        (_, Value::Unknown) => Ok(Value::Unknown),
        (Prefix::Not, Value::Bool(truth)) => Ok(Value::Bool(!*truth)),
        (Prefix::Negate, Value::Int(number)) => whole(number.checked_neg()),
        _ => Err(EvalFault::WrongKind),
    }
}

/// Applies a binary operator. `==` and `!=` take values of any kinds, and return `Unknown` if a part of an operand is
/// unknown. The others return `Unknown` if an operand is `Unknown`. They take two truth values (`||`, `&&`) or two
/// whole numbers (comparisons and arithmetic). They fail with `WrongKind` exactly if the operands are of other kinds,
/// and with `Overflow` exactly if the result is beyond 64 bits.
pub fn binary(operator: Operator, left: &Value, right: &Value) -> Result<Value, EvalFault>
    ensures { Answers (binary_value operator (tree_of left.now) (tree_of right.now)) result }
{
    match operator {
        Operator::Equal => Ok(equal(left, right)),
        Operator::NotEqual => Ok(unequal(left, right)),
        _ => scalars(operator, left, right),
    }
}

// Returns whether two values are equal; unknown if a part of one is.
fn equal(left: &Value, right: &Value) -> Value
    ensures { equal_value (tree_of left.now) (tree_of right.now) ≡ Ok (tree_of result) }
{
    if is_known(left) && is_known(right) {
        Value::Bool(*left == *right)
    } else {
        Value::Unknown
    }
}

// Returns whether two values differ; unknown if a part of one is.
fn unequal(left: &Value, right: &Value) -> Value
    ensures { unequal_value (tree_of left.now) (tree_of right.now) ≡ Ok (tree_of result) }
{
    if is_known(left) && is_known(right) {
        Value::Bool(*left != *right)
    } else {
        Value::Unknown
    }
}

// Applies an operator other than `==` and `!=`.
fn scalars(operator: Operator, left: &Value, right: &Value) -> Result<Value, EvalFault>
    ensures { Answers (scalars_value operator (tree_of left.now) (tree_of right.now)) result }
{
    match left {
        Value::Unknown => Ok(Value::Unknown),
        Value::Bool(left) => match right {
            Value::Unknown => Ok(Value::Unknown),
            Value::Bool(right) => truths(operator, *left, *right),
            _ => Err(EvalFault::WrongKind),
        },
        Value::Int(left) => match right {
            Value::Unknown => Ok(Value::Unknown),
            Value::Int(right) => wholes(operator, *left, *right),
            _ => Err(EvalFault::WrongKind),
        },
        _ => match right {
            Value::Unknown => Ok(Value::Unknown),
            _ => Err(EvalFault::WrongKind),
        },
    }
}

fn truths(operator: Operator, left: bool, right: bool) -> Result<Value, EvalFault>
    ensures { Answers (truths_value operator left right) result }
{
    match operator {
        Operator::Or => Ok(Value::Bool(left || right)),
        Operator::And => Ok(Value::Bool(left && right)),
        _ => Err(EvalFault::WrongKind),
    }
}

fn wholes(operator: Operator, left: i64, right: i64) -> Result<Value, EvalFault>
    ensures { Answers (wholes_value operator left right) result }
{
    match operator {
        Operator::Greater => Ok(Value::Bool(left > right)),
        Operator::GreaterOrEqual => Ok(Value::Bool(left >= right)),
        Operator::Less => Ok(Value::Bool(left < right)),
        Operator::LessOrEqual => Ok(Value::Bool(left <= right)),
        Operator::Add => whole(left.checked_add(right)),
        Operator::Subtract => whole(left.checked_sub(right)),
        Operator::Multiply => whole(left.checked_mul(right)),
        _ => Err(EvalFault::WrongKind),
    }
}

// Returns a whole number. Fails with `Overflow` if it isn't one of 64 bits.
pub(crate) fn whole(number: Option<i64>) -> Result<Value, EvalFault>
    ensures { (z : ℤ) → SomeIff number (FitsSigned w64 z) z → Answers (whole_value z) result }
{
    match number {
        Some(number) => Ok(Value::Int(number)),
        None => Err(EvalFault::Overflow),
    }
}
