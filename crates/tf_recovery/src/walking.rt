//! An apply by providers that answer from a log.

ghost use Rattle.std.specs.Prelude.{IfOk, map};
ghost use Rattle.tf_provider_log.specs.LogEntry.{log_entry_of};
ghost use Rattle.tf_recovery.specs.Outcome.{IsOutcome};
ghost use Rattle.tf_session.specs.Outside.{outside_replayed};

use std::alloc::AllocError;
use tf_cli::{Applied, Refused, Stop, apply_one};
use tf_cli_files::ProgramInput;
use tf_provider::Provider;
use tf_provider_log::{LogEntry, copy_entries};
use tf_provider_remote::RemoteTypes;
use tf_session::{ReplayedProviders, replayed_providers};

/// Applies what was given with providers that answer from their own entries of the log. Calls no other provider.
pub(crate) fn apply_over_log(
    rt: &HostRuntime,
    given: &ProgramInput,
    types: &RemoteTypes,
    entries: &[LogEntry],
) -> Result<Result<Applied, Refused>, AllocError>
    ensures { IfOk result (λ answer. IsOutcome (outside_replayed (⟦<RemoteTypes as Provider>⟧.meaning types.now) (map log_entry_of entries.now)) given.now answer) }
{
    let alloc = rt.alloc();
    let copied = copy_entries(alloc, entries)?;
    let ReplayedProviders { remote, sim, files } = replayed_providers(rt, types, copied)?;
    let mut providers: Vec<Box<dyn Provider + Sync>> = Vec::new(alloc);
    providers.push(Box::new(alloc, remote)?)?;
    providers.push(Box::new(alloc, sim)?)?;
    providers.push(Box::new(alloc, files)?)?;
    let answer = apply_one(
        alloc,
        given.config.as_slice(),
        given.vars_bytes(),
        given.state_bytes(),
        given.options.lineage.as_str(),
        providers.as_slice(),
        &Stop::new(),
    );
    Ok(answer)
}
