//! Providers whose calls are counted and reported, and that stop the walk.

ghost use Rattle.std.specs.Prelude.{◌≡◌};

use crate::stop_file::StopFile;
use std::io::Stdout;
use std::sync::Arc;
use std::sync::atomic::{AtomicUsize, Ordering};
use tf_cli_events::CallEvents;
use tf_provider_progress::Watch;
use tf_provider_protocol::{Provider, Reply, Request, Schema};
use tf_walk_action::Stop;

/// The events of an apply's calls, on standard output if there are any.
pub type ApplyEvents = CallEvents<Stdout, HostRuntime>;

/// When the walk stops, the stop flag, and where calls are reported. Several providers share one.
#[derive(Drop)]
pub struct Countdown {
    /// The number of the call that sets the flag before it returns; the first is 1. `None` never sets it.
    last: Option<usize>,
    /// How many calls were made.
    calls: AtomicUsize,
    /// The file that sets the flag, which is looked for before the first call and after each one.
    file: Option<StopFile>,
    stop: Stop,
    events: ApplyEvents,
}

/// A call that has begun.
#[derive(Clone, Copy)]
struct Call {
    /// How many calls were made before it.
    before: usize,
    /// How long it takes, if it is reported.
    watch: Option<Watch>,
}

impl Countdown {
    /// Returns a countdown before any call, with the number of the call that sets the flag, the file that sets it once it exists,
    /// and the events of calls. With 0, or if the file exists, the flag is set from the start.
    pub fn new(last: Option<usize>, file: Option<StopFile>, events: ApplyEvents) -> Countdown {
        let countdown = Countdown {
            last,
            calls: AtomicUsize::new(0),
            file,
            stop: Stop::new(),
            events,
        };
        if last == Some(0) {
            countdown.stop.set();
        }
        countdown.look();
        countdown
    }

    /// Sets the flag if the file exists.
    fn look(&self) {
        if let Some(file) = &self.file
            && file.exists()
        {
            self.stop.set();
        }
    }

    /// Returns the flag.
    pub fn stop(&self) -> &Stop {
        &self.stop
    }

    /// Counts a call, and reports that it begins.
    fn begin(&self, request: &Request) -> Call {
        let before = self.calls.fetch_add(1, Ordering::SeqCst);
        self.events.begin(request);
        Call {
            before,
            watch: self.events.watch(),
        }
    }

    /// Reports that a call ended. Sets the flag if this is the last call, or if the file exists.
    fn end(&self, call: Call, request: &Request, reply: &Reply) {
        self.events.end(request, reply, call.watch);
        self.look();
        if let Some(last) = self.last
            && last.checked_sub(1) == Some(call.before)
        {
            self.stop.set();
        }
    }
}

/// A provider whose calls are counted and reported.
#[derive(Drop)]
pub struct Stopping<P: Provider> {
    provider: P,
    countdown: Arc<Countdown>,
}

impl<P: Provider> Stopping<P> {
    /// Wraps a provider so that its calls are counted and reported.
    pub fn new(provider: P, countdown: Arc<Countdown>) -> Stopping<P>
        ensures { ⟦<Stopping<P> as Provider>⟧.meaning result ≡ P.meaning provider }
    {
        Stopping {
            provider,
            countdown,
        }
    }
}

impl<P: Provider> Provider for Stopping<P> {
    ghost meaning = { λ s. P.meaning s.provider };

    fn schema(&self, type_name: &str) -> Option<&Schema> {
        self.provider.schema(type_name)
    }

    fn apply(&self, request: &Request) -> Reply {
        let call = self.countdown.begin(request);
        let reply = self.provider.apply(request);
        self.countdown.end(call, request, &reply);
        reply
    }
}
