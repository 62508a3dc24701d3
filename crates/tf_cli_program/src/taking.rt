//! Takes the state from an apply of a log's texts.

ghost use Rattle.std.specs.Prelude.{◌≡◌, IfErr, IfOk, count_by, option_map, string_bytes};
ghost use Rattle.tf_cli_program.specs.Recovered.{IsTaken, is_answered};
ghost use Rattle.tf_cli_program.specs.Unrecovered.{IsNotTaken};

use tf_cli::{Applied, Refused, Report};
use tf_provider_protocol::Verdict;
use tf_walk_action::Outcome;

/// The result of recovering from a log.
#[derive(Debug, Drop)]
pub struct Recovered {
    /// The text of the state that has to replace the prior one; `None` if the prior one is still right.
    pub state: Option<String>,
}

/// Why nothing is recovered from a log. Nothing may be written then, and the log has to stay.
#[derive(Drop)]
pub(crate) enum Unrecovered {
    /// The log's texts are refused.
    Refused(Refused),
    /// Not all of its answers are used: memory ran out, or it isn't the log of an apply of these texts.
    NotAll,
    /// Memory ran out for the text of the state.
    OutOfMemory,
}

/// Takes the text that has to be written from an apply that used `answers` answers.
pub(crate) fn take(applied: Applied, answers: usize) -> Result<Recovered, Unrecovered>
    ensures taken { IfOk result (λ recovered. IsTaken applied answers (option_map string_bytes recovered.state)) }
    ensures not_taken { IfErr result (IsNotTaken applied answers) }
{
    let Applied {
        plan: _,
        walked,
        state,
        changed,
    } = applied;
    let Report {
        state: _,
        outcomes,
        diagnostics: _,
        journal: _,
        excused: _,
        good: _,
    } = walked.into_report();
    if answer_count(&outcomes) != answers {
        return Err(Unrecovered::NotAll);
    }
    if !changed {
        return Ok(Recovered { state: None });
    }
    match state {
        Ok(text) => Ok(Recovered { state: Some(text) }),
        Err(_) => Err(Unrecovered::OutOfMemory),
    }
}

/// Returns how many actions were answered.
fn answer_count(outcomes: &[Outcome]) -> usize
    ensures { result ≡ count_by is_answered outcomes.now }
{
    outcomes
        .iter()
        .filter(|outcome| is_answered(outcome))
        .count()
}

/// Returns whether the provider of an action was called and answered.
fn is_answered(outcome: &Outcome) -> bool
    ensures { result ≡ is_answered outcome.now }
{
    match outcome {
        Outcome::Skipped | Outcome::Excused | Outcome::ArgumentFault => false,
        Outcome::Judged(verdict) => *verdict != Verdict::Excused,
    }
}
