//! Why nothing is planned, and so no provider is called.

ghost use Rattle.std.specs.Prelude.{◌≡◌};
ghost use Rattle.tf_plan_planner.specs.declared.refused.Refused.TheVariants.{NoMemory};

use std::alloc::AllocError;
use tf_cli_inputs::{Configuration, Vars};
use tf_config_refusal::Refusal;
use tf_state_data::State;

/// Why nothing is planned.
#[derive(Debug, Drop)]
pub enum Refused {
    /// Memory ran out (code 15). This value takes no memory.
    NoMemory,
    /// All refusals, in order, at least one.
    These(Vec<Refusal>),
}

impl From<AllocError> for Refused {
    ghost from_gives = { λ _ refused. refused ≡ NoMemory };

    fn from(_error: AllocError) -> Refused {
        Refused::NoMemory
    }
}

/// The inputs of a plan that was refused, unchanged, and the reason.
#[derive(Drop)]
pub struct Unplanned {
    /// The prior state.
    pub prior: State,
    /// The configuration.
    pub configuration: Configuration,
    /// The values of its variables.
    pub variables: Vars,
    /// The refusals.
    pub refused: Refused,
}
