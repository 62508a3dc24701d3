//! Copies of states.

ghost use Rattle.std.specs.Prelude.{◌≡◌, IfOk};
ghost use Rattle.tf_state_data.specs.State.{state_of};

use crate::state::State;
use std::alloc::AllocError;

/// Returns an equal state. Fails only if memory runs out.
pub fn copy(state: &State) -> Result<State, AllocError>
    ensures { IfOk result (λ s. state_of s ≡ state_of state.now) }
{
    state.clone()
}
