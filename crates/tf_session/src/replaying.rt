//! The providers of the programs, which answer from a log.

ghost use Rattle.std.specs.Prelude.{◌≡◌, ◌∷◌, [], IfOk, map};
ghost use Rattle.tf_provider_log.specs.LogEntry.{log_entry_of};
ghost use Rattle.tf_session.specs.Outside.{outside_replayed};

use crate::own::{OwnEntries, entries_by_provider};
use std::alloc::AllocError;
use tf_provider::Provider;
use tf_provider_local::LocalFile;
use tf_provider_log::{LogEntry, Replayed};
use tf_provider_remote::RemoteTypes;
use tf_provider_sim::Sim;

/// The providers of the programs, each of which answers from its own entries of a log.
pub struct ReplayedProviders {
    /// The providers outside the program.
    pub remote: Replayed<RemoteTypes>,
    /// The provider `sim`.
    pub sim: Replayed<Sim>,
    /// The provider `local_file`.
    pub files: Replayed<LocalFile<HostRuntime>>,
}

/// Returns the providers of the programs, each of which answers from its own of these entries. Those outside the program have these types.
///
/// # Errors
///
/// Fails only if memory runs out.
pub fn replayed_providers(
    rt: &HostRuntime,
    types: &RemoteTypes,
    entries: Vec<LogEntry>,
) -> Result<ReplayedProviders, AllocError>
    ensures { IfOk result (λ by. ⟦<Replayed<RemoteTypes> as Provider>⟧.meaning by.remote ∷ ⟦<Replayed<Sim> as Provider>⟧.meaning by.sim ∷ ⟦<Replayed<LocalFile<HostRuntime>> as Provider>⟧.meaning by.files ∷ []
        ≡ outside_replayed (⟦<RemoteTypes as Provider>⟧.meaning types.now) (map log_entry_of entries.items)) }
{
    let alloc = rt.alloc();
    let OwnEntries { remote, sim, files } = entries_by_provider(rt, types, entries)?;
    let remote = Replayed::new(alloc, remote, types.share()?);
    let sim = Replayed::new(alloc, sim, Sim::new(alloc)?);
    let files = Replayed::new(alloc, files, LocalFile::new(alloc, *rt)?);
    Ok(ReplayedProviders { remote, sim, files })
}
