//! The providers of an apply, whose calls are logged, counted and printed.

use std::alloc::AllocError;
use std::fs::File;
use std::io::{IsTerminal, Stderr};
use std::sync::Arc;
use std::{env, io};
use tf_cli_files::{CallControl, LogSink, Place, ProgramInput, Stopping};
use tf_provider_local::LocalFile;
use tf_provider_log::Logged;
use tf_provider_progress::{Progress, StatusLine};
use tf_provider_protocol::{Provider, Reply, Request, Schema};
use tf_provider_sim::Sim;

/// A provider whose calls are logged, counted and printed.
type Watched<P> = Progress<Stopping<Logged<P, LogSink<File>>>, Stderr, HostRuntime>;

/// The provider `sim` of an apply.
#[derive(Drop)]
pub struct WatchedSim {
    provider: Watched<Sim>,
}

impl Provider for WatchedSim {
    ghost meaning = { λ sim. ⟦<Progress<Stopping<Logged<Sim, LogSink<File>>>, Stderr, HostRuntime> as Provider>⟧.meaning sim.provider };

    fn schema(&self, type_name: &str) -> Option<&Schema> {
        self.provider.schema(type_name)
    }

    fn apply(&self, request: &Request) -> Reply {
        self.provider.apply(request)
    }
}

/// The provider `local_file` of an apply.
#[derive(Drop)]
pub struct WatchedFiles {
    provider: Watched<LocalFile<HostRuntime>>,
}

impl Provider for WatchedFiles {
    ghost meaning = { λ files. ⟦<Progress<Stopping<Logged<LocalFile<HostRuntime>, LogSink<File>>>, Stderr, HostRuntime> as Provider>⟧.meaning files.provider };

    fn schema(&self, type_name: &str) -> Option<&Schema> {
        self.provider.schema(type_name)
    }

    fn apply(&self, request: &Request) -> Reply {
        self.provider.apply(request)
    }
}

/// The providers of an apply.
pub struct WatchedProviders {
    /// The provider `sim`.
    pub sim: WatchedSim,
    /// The provider `local_file`.
    pub files: WatchedFiles,
}

/// Returns the providers of an apply, whose calls this control counts and logs. `local_file` refuses the files of the program itself.
///
/// # Errors
///
/// Fails only if memory runs out.
pub fn watched_providers(
    rt: &HostRuntime,
    place: &Place,
    given: &ProgramInput,
    control: &CallControl<File>,
) -> io::Result<WatchedProviders> {
    let alloc = rt.alloc();
    let status = Arc::new(alloc, StatusLine::new(alloc))?;
    let sim = control.wrap(alloc, Sim::new(alloc)?)?;
    let sim = with_progress(rt, given, &status, sim)?;
    let reserved = place.own_files(alloc, &given.options)?;
    let files = control.wrap(alloc, LocalFile::with_reserved(alloc, *rt, reserved)?)?;
    let files = with_progress(rt, given, &status, files)?;
    Ok(WatchedProviders {
        sim: WatchedSim { provider: sim },
        files: WatchedFiles { provider: files },
    })
}

/// Wraps a provider so that its calls are printed on standard error, if that is a terminal or `--progress` is given. A terminal
/// has a status line.
fn with_progress<P: Provider>(
    rt: &HostRuntime,
    given: &ProgramInput,
    status: &Arc<StatusLine>,
    provider: P,
) -> Result<Progress<P, Stderr, HostRuntime>, AllocError> {
    let err = rt.stderr();
    let is_terminal = err.is_terminal();
    let screen = if given.options.progress || is_terminal {
        Some(err)
    } else {
        None
    };
    let status = if is_terminal && !is_dumb(rt) {
        Some(Arc::try_clone(status)?)
    } else {
        None
    };
    Ok(Progress::new(rt.alloc(), screen, *rt, provider).with_status(status))
}

/// Returns whether the terminal can't move its cursor, by the environment variable `TERM`.
fn is_dumb(rt: &HostRuntime) -> bool {
    match env::var(rt, "TERM") {
        Ok(name) => name.as_str() == "dumb",
        Err(_) => false,
    }
}
