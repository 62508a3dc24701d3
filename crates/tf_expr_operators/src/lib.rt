#![tactic(auto)]

//! The operators and functions of expressions, on values.
//!
//! The definitions in `specs/` say what each returns, a value or one fault. If an operand is unknown, the result is
//! unknown. Then the kinds are tested, then whether a number is too large or a part is missing, and then the limits
//! on values. `laws` has the laws of the definitions.

mod bounded;
mod building;
mod calls;
mod collections;
mod found;
mod joining;
pub mod laws;
mod operators;
mod parts;

pub use bounded::Bounded;
pub use building::{limited, limited_at, list, map};
pub use calls::call;
pub use found::{
    Found, all_owned, attribute_of, binary_of, index_of, list_of, made, owned, unary_of,
};
pub use joining::Joiner;
pub use operators::{binary, unary};
pub use parts::{attribute, index};
pub use tf_expr_syntax::{EvalFault, Function};
