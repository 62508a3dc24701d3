//! A provider whose calls are logged.

ghost use Rattle.std.specs.Prelude.{◌≡◌};

use crate::calling::Guarded;
use crate::open_log::OpenLog;
use crate::sink::Sink;
use std::alloc::Global;
use std::sync::Arc;
use tf_provider_protocol::{Provider, Reply, Request, Schema};

/// A provider that is called only after the log on the disk says that the request is begun, and whose replies are in
/// the log before they are returned. If the log can't be written or synced, the provider isn't called, and the reply
/// is `NoMemory`. Several providers may share a log.
#[derive(Drop)]
pub struct Logged<P: Provider, S: Sink> {
    alloc: Global,
    log: Arc<OpenLog<S>>,
    provider: Guarded<P>,
}

impl<P: Provider, S: Sink> Logged<P, S> {
    /// Wraps a provider so that its calls are logged.
    pub fn new(alloc: Global, log: Arc<OpenLog<S>>, provider: P) -> Logged<P, S>
        ensures { ⟦<Logged<P, S> as Provider>⟧.meaning result ≡ P.meaning provider }
    {
        Logged {
            alloc,
            log,
            provider: Guarded::new(provider),
        }
    }
}

impl<P: Provider, S: Sink> Provider for Logged<P, S> {
    ghost meaning = { λ logged. P.meaning logged.provider };

    fn schema(&self, type_name: &str) -> Option<&Schema> {
        self.provider.schema(type_name)
    }

    fn apply(&self, request: &Request) -> Reply {
        let log: &OpenLog<S> = &self.log;
        match log.begin(self.alloc, request) {
            Ok(begun) => log.end(self.alloc, self.provider.call(begun)),
            Err(_) => Reply::NoMemory,
        }
    }
}
