//! Applies the texts of a log.

ghost use Rattle.std.specs.Prelude.{◌≡◌, IfErr, IfOk, map, option_map, string_bytes};
ghost use Rattle.tf_cli_program.specs.Recovered.{IsRecovered};
ghost use Rattle.tf_cli_program.specs.Unrecovered.{IsUnrecovered};

use crate::taking::{Recovered, Unrecovered, take};
use std::alloc::Global;
use tf_cli::{Stop, apply_one};
use tf_provider_log::Header;
use tf_provider_protocol::Provider;

/// Applies the texts of a log again on this thread, with providers that answer from the log's `answers` answers. Returns the
/// state that the log leads to if each answer is used.
pub(crate) fn recover(
    alloc: Global,
    header: &Header,
    answers: usize,
    providers: &[Box<dyn Provider + Sync>],
) -> Result<Recovered, Unrecovered>
    ensures recovered { IfOk result (λ recovered. IsRecovered (map meaning providers.now) header.now answers (option_map string_bytes recovered.state)) }
    ensures unrecovered { IfErr result (IsUnrecovered (map meaning providers.now) header.now answers) }
{
    let answer = apply_one(
        alloc,
        header.config.as_bytes(),
        bytes_of(&header.vars),
        bytes_of(&header.state),
        header.lineage.as_str(),
        providers,
        &Stop::new(),
    );
    match answer {
        Ok(applied) => take(applied, answers),
        Err(refused) => Err(Unrecovered::Refused(refused)),
    }
}

/// Returns the bytes of an optional text.
fn bytes_of(text: &Option<String>) -> Option<&[u8]>
    ensures { option_map (λ bytes. bytes.now) result ≡ option_map string_bytes text.now }
{
    match text {
        Some(text) => Some(text.as_bytes()),
        None => None,
    }
}
