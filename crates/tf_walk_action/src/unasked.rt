//! The evidence that memory ran out before a request was built.

ghost use Rattle.std.specs.Prelude.{◌≡◌, ◌≤◌, [], IfOk, vec_capacity};

use std::alloc::{AllocError, Global};

/// The evidence that memory ran out before the request of an action was built. Only `ask_provider` and `room_for_results` make
/// it, when an allocation fails. So no action that was left, or that could have been called, is reported as out of memory.
#[derive(Debug, Drop)]
pub struct Unasked {
    refused: (),
}

impl Unasked {
    /// Creates the evidence from the error of a failed allocation.
    pub(crate) fn of(_error: AllocError) -> Unasked {
        Unasked { refused: () }
    }
}

/// Allocates an empty list with space for the results that a request needs.
///
/// # Errors
///
/// Fails only if memory runs out.
pub fn room_for_results<T>(alloc: Global, count: usize) -> Result<Vec<T>, Unasked>
    ensures items { IfOk result (λ results. results.items ≡ []) }
    ensures capacity { IfOk result (λ results. count ≤ vec_capacity results) }
{
    match Vec::with_capacity(alloc, count) {
        Ok(results) => Ok(results),
        Err(error) => Err(Unasked::of(error)),
    }
}
