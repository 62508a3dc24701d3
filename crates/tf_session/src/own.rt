//! The entries of each provider.

ghost use Rattle.std.specs.Prelude.{◌≡◌, ◌∷◌, [], IfOk, map};
ghost use Rattle.tf_provider_log.specs.LogEntry.{log_entry_of};
ghost use Rattle.tf_provider_log.specs.Replayed.{own_entries};
ghost use Rattle.tf_session.specs.Outside.{outside_meanings};

use std::alloc::AllocError;
use tf_provider::Provider;
use tf_provider_local::LocalFile;
use tf_provider_log::{LogEntry, split};
use tf_provider_remote::RemoteTypes;
use tf_provider_sim::Sim;

/// Splits the entries of a log into those of the providers outside the program, of `sim` and of `local_file`.
///
/// # Errors
///
/// Only if memory runs out.
fn own_entries(
    rt: &HostRuntime,
    types: &RemoteTypes,
    entries: Vec<LogEntry>,
) -> Result<Vec<Vec<LogEntry>>, AllocError>
    ensures { IfOk result (λ lists. map (λ own. map log_entry_of own.items) lists.items ≡ own_entries (outside_meanings (⟦<RemoteTypes as Provider>⟧.meaning types.now)) (map log_entry_of entries.items)) }
{
    let alloc = rt.alloc();
    let mut providers: Vec<Box<dyn Provider + Sync>> = Vec::new(alloc);
    providers.push(Box::new(alloc, types.share()?)?)?;
    providers.push(Box::new(alloc, Sim::new(alloc)?)?)?;
    providers.push(Box::new(alloc, LocalFile::new(alloc, *rt)?)?)?;
    split(alloc, entries, &providers)
}

/// The entries of the providers outside the program, of `sim` and of `local_file`.
#[derive(Drop)]
pub(crate) struct OwnEntries {
    /// Those of the providers outside the program.
    pub(crate) remote: Vec<LogEntry>,
    /// Those of `sim`.
    pub(crate) sim: Vec<LogEntry>,
    /// Those of `local_file`.
    pub(crate) files: Vec<LogEntry>,
}

/// Splits the entries of a log by provider.
///
/// # Errors
///
/// Only if memory runs out.
pub(crate) fn entries_by_provider(
    rt: &HostRuntime,
    types: &RemoteTypes,
    entries: Vec<LogEntry>,
) -> Result<OwnEntries, AllocError>
    ensures { IfOk result (λ own. map log_entry_of own.remote.items ∷ map log_entry_of own.sim.items ∷ map log_entry_of own.files.items ∷ []
        ≡ own_entries (outside_meanings (⟦<RemoteTypes as Provider>⟧.meaning types.now)) (map log_entry_of entries.items)) }
{
    let alloc = rt.alloc();
    let own = own_entries(rt, types, entries)?;
    let mut lists = own.into_iter();
    let remote = lists.next().unwrap_or(Vec::new(alloc));
    let sim = lists.next().unwrap_or(Vec::new(alloc));
    let files = lists.next().unwrap_or(Vec::new(alloc));
    Ok(OwnEntries { remote, sim, files })
}
