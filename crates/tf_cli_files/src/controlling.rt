//! The log and the stop flag that the providers of an apply share.

ghost use Rattle.std.specs.Prelude.{◌≡◌, IfOk};

use crate::log_fault::LogFault;
use crate::log_file::LineFile;
use crate::log_sink::LogSink;
use crate::stop_file::StopFile;
use crate::stopping::{ApplyEvents, Countdown, Stopping};
use std::alloc::{AllocError, Global};
use std::io;
use std::sync::Arc;
use tf_provider_log::{Logged, OpenLog};
use tf_provider_protocol::Provider;
use tf_walk_action::Stop;

/// The shared state of the providers of an apply: the log of their calls, where they are reported, and the flag that stops the walk,
/// after a given number of calls or once a file exists.
#[derive(Drop)]
pub struct CallControl<F: LineFile> {
    log: Arc<OpenLog<LogSink<F>>>,
    countdown: Arc<Countdown>,
    fault: Arc<LogFault>,
}

impl<F: LineFile> CallControl<F> {
    /// Returns the control before any call, with its log in the given file, and the events that report calls. The call with the
    /// number `last` sets the flag before it returns. With 0 the flag is set from the start. Once the file `stop_file` exists,
    /// the next call that returns sets it; if it exists already, the flag is set from the start.
    pub fn new(
        alloc: Global,
        file: Arc<F>,
        last: Option<usize>,
        stop_file: Option<StopFile>,
        events: ApplyEvents,
    ) -> Result<CallControl<F>, AllocError> {
        let fault = Arc::new(alloc, LogFault::new())?;
        let sink = LogSink::new(file, Arc::try_clone(&fault)?);
        Ok(CallControl {
            log: Arc::new(alloc, OpenLog::new(sink))?,
            countdown: Arc::new(alloc, Countdown::new(last, stop_file, events))?,
            fault,
        })
    }

    /// Wraps a provider so that its calls are counted, logged and reported. That a call ended is reported when its reply is in the
    /// log. Its meaning stays the same.
    pub fn wrap<P: Provider>(
        &self,
        alloc: Global,
        provider: P,
    ) -> Result<Stopping<Logged<P, LogSink<F>>>, AllocError>
        ensures { IfOk result (λ controlled. ⟦<Stopping<Logged<P, LogSink<F>>> as Provider>⟧.meaning controlled ≡ P.meaning provider) }
    {
        let logged = Logged::new(alloc, Arc::try_clone(&self.log)?, provider);
        Ok(Stopping::new(logged, Arc::try_clone(&self.countdown)?))
    }

    /// Returns the log.
    pub fn log(&self) -> &OpenLog<LogSink<F>> {
        &self.log
    }

    /// Returns an error of the system because of which the log can't be written, if there is one.
    pub fn log_cause(&self) -> Option<io::Error> {
        self.fault.cause()
    }

    /// Returns the flag.
    pub fn stop(&self) -> &Stop {
        self.countdown.stop()
    }
}
