//! Reading of the texts that a user gives.

ghost use Rattle.std.specs.Prelude.{◌≡◌, option_map, IfOk, IfErr};
ghost use Rattle.tf_config_data.specs.Words.{config_of};
ghost use Rattle.tf_config_refusal.specs.Refusal.{refusal_of};
ghost use Rattle.tf_state.specs.Table.{IsPlannable};
ghost use Rattle.tf_state.specs.Valid.{IsValid};
ghost use Rattle.tf_state_data.specs.State.{state_of};
ghost use Rattle.tf_value_data.specs.Tree.{entries_view};
ghost use Rattle.tf_cli_inputs.specs.Refusals.{IsToldOf, IsToldOfState, at_state, fault_told};
ghost use Rattle.tf_cli_inputs.specs.Texts.{IsPrior, ReadAs, the_texts};

use crate::configuration::{Configuration, Vars, read_configuration, read_variables};
use std::alloc::{AllocError, Global};
use tf_config_refusal::{Code, Detail, Refusal};
use tf_state::{StateFault, new_states_are_valid, read as read_state, read_states_are_valid};
use tf_state_data::State;

/// The content of the texts that a user gives.
#[derive(Drop)]
pub struct Inputs {
    /// The configuration.
    pub configuration: Configuration,
    /// The values of its variables.
    pub values: Vars,
    /// The state that a plan starts from.
    pub prior: State,
}

/// Reads the texts that a user gives: the configuration, the values of its variables, and the prior state. If there
/// is no text of a state, the prior state is the empty one with the given lineage.
///
/// # Errors
///
/// Fails with the first of these in the order of tests, or with `OutOfMemory`:
/// - the refusals of `tf_config_json::read`;
/// - the refusals of `tf_config_names::check_names`: 4 and then 5;
/// - the refusals of `tf_config_json::read_vars`;
/// - 13 at `state` if the prior state's text is no state's, and 14 there if the state is beyond a limit.
pub fn read_texts(
    alloc: Global,
    config: &[u8],
    vars: Option<&[u8]>,
    state: Option<&[u8]>,
    lineage: &str,
) -> Result<Inputs, Refusal>
    ensures stand { IfOk result (λ i. ReadAs (the_texts config.now (option_map (λ s. s.now) vars.entry) (option_map (λ s. s.now) state.entry)) lineage.now
        (config_of i.configuration.config) (entries_view i.values.entries) (state_of i.prior)) }
    ensures plannable { IfOk result (λ i. IsPlannable (state_of i.prior)) }
    ensures valid { IfOk result (λ i. IsValid (state_of i.prior)) }
    ensures refused { IfErr result (λ r. IsToldOf (the_texts config.now (option_map (λ s. s.now) vars.entry) (option_map (λ s. s.now) state.entry)) (refusal_of r)) }
{
    let configuration = read_configuration(alloc, config)?;
    let values = read_variables(alloc, vars, &configuration)?;
    let prior = read_prior(alloc, state, lineage)?;
    Ok(Inputs {
        configuration,
        values,
        prior,
    })
}

/// Returns the state that a plan starts from: the one in the text, or the empty one with the lineage if there is no text.
fn read_prior(alloc: Global, state: Option<&[u8]>, lineage: &str) -> Result<State, Refusal>
    ensures prior { IfOk result (λ s. IsPrior (option_map (λ s. s.now) state.entry) lineage.now (state_of s)) }
    ensures valid { IfOk result (λ s. IsValid (state_of s)) }
    ensures refused { IfErr result (λ r. IsToldOfState (option_map (λ s. s.now) state.entry) (refusal_of r)) }
{
    new_states_are_valid();
    read_states_are_valid();
    let Some(text) = state else {
        return Ok(State::empty(alloc, lineage)?);
    };
    match read_state(alloc, text) {
        Ok(state) => Ok(state),
        Err(why) => Err(state_refusal(alloc, why)?),
    }
}

/// Returns the refusal of a fault of the state's text.
fn state_refusal(alloc: Global, why: StateFault) -> Result<Refusal, AllocError>
    ensures { IfOk result (λ r. refusal_of r ≡ fault_told why) }
{
    match why {
        StateFault::BadState => at_state(alloc, Code::BadState),
        StateFault::Limit => at_state(alloc, Code::Limit),
        StateFault::OutOfMemory => Ok(Refusal::OutOfMemory),
    }
}

/// Returns the refusal with a code, placed at `state`.
///
/// # Errors
///
/// Fails only if memory runs out.
pub fn at_state(alloc: Global, code: Code) -> Result<Refusal, AllocError>
    ensures { IfOk result (λ r. refusal_of r ≡ at_state code) }
{
    Ok(Refusal::Fault {
        code,
        place: String::from_str(alloc, "state")?,
        detail: Detail::Bare,
    })
}
