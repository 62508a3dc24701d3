//! A log to which lines are added.

ghost use Rattle.std.specs.Prelude.{◌≡◌, IfOk};
ghost use Rattle.tf_provider_log.specs.LogEntry.{replied};
ghost use Rattle.tf_provider_log.specs.True.{IsTrueOf};
ghost use Rattle.tf_provider_protocol.specs.Meaning.{asked, answered};

use crate::calling::{Begun, LoggedCall};
use crate::entry::Header;
use crate::lines::{Lines, Telling};
use crate::sink::{NotAdded, Sink};
use crate::writing::{answered_line, begun_line, header_line};
use std::alloc::Global;
use std::error::Error;
use std::fmt;
use std::sync::atomic::{AtomicBool, Ordering};
use tf_provider_protocol::{Provider, Reply, Request};

/// Why a log isn't started.
#[derive(Clone, Copy, Debug, PartialEq, Eq)]
pub enum NotStarted {
    /// Memory ran out. Nothing was written.
    OutOfMemory,
    /// The first line couldn't be written or synced, or was written before.
    NotWritten,
}

impl fmt::Display for NotStarted {
    fn fmt<W: fmt::Write>(&self, f: &mut fmt::Formatter<W>) -> fmt::Result {
        match self {
            NotStarted::OutOfMemory => write!(f, "out of memory"),
            NotStarted::NotWritten => write!(f, "the log can't be written"),
        }
    }
}

impl Error for NotStarted {}

/// The request isn't in the log as begun, so no provider may be called with it.
#[derive(Clone, Copy, Debug, PartialEq, Eq)]
pub(crate) struct NotBegun;

/// A header may write the inputs of the apply.
impl Telling for Header {
    ghost use Rattle.tf_provider_log.specs.Line.{IsHeaderLine};

    ghost may_tell = { λ header text. IsHeaderLine header text };
}

/// A log to which the providers that share it add lines by their calls. The line that says that a request is begun is
/// synced, and with it all lines before it; the line of a reply is only written. So a reply is on the disk before a
/// request is begun that depends on it. Once a line couldn't be written or synced, the log is lost: no line is added
/// and no request is begun after that.
#[derive(Drop)]
pub struct OpenLog<S: Sink> {
    pub(crate) lines: Lines<S>,
    is_open: AtomicBool,
}

impl<S: Sink> OpenLog<S> {
    /// Builds a log that isn't started. No request is begun in it.
    pub fn new(sink: S) -> OpenLog<S> {
        OpenLog {
            lines: Lines::new(sink),
            is_open: AtomicBool::new(false),
        }
    }

    /// Starts the log, with the line that says the inputs of the apply. After that, requests can be begun. A log is
    /// started only once.
    pub fn start(&self, alloc: Global, header: &Header) -> Result<(), NotStarted> {
        if self.is_open() {
            return Err(NotStarted::NotWritten);
        }
        let Ok(line) = header_line(alloc, header) else {
            return Err(NotStarted::OutOfMemory);
        };
        match self.lines.add_synced(header, line.as_str()) {
            Ok(_) => {
                self.is_open.store(true, Ordering::SeqCst);
                Ok(())
            }
            Err(_) => Err(NotStarted::NotWritten),
        }
    }

    /// Returns whether the log is started, so that requests can be begun.
    pub(crate) fn is_open(&self) -> bool {
        self.is_open.load(Ordering::SeqCst)
    }

    /// Returns whether a line couldn't be written or synced. Then the log may not say all that was done.
    pub fn is_lost(&self) -> bool {
        self.lines.is_lost()
    }

    /// Syncs the lines of all replies so far.
    ///
    /// # Errors
    ///
    /// Fails if the log is lost, which it is if the sync fails.
    pub fn sync(&self) -> Result<(), NotAdded> {
        match self.lines.sync() {
            Ok(_) => Ok(()),
            Err(_) => Err(NotAdded),
        }
    }

    /// Writes that a request is begun, syncs the log, and returns the right to call a provider with it. Fails if the
    /// log isn't started or is lost, if no line can be built for the request, or if the line can't be written or
    /// synced; in the last case the log is lost.
    pub(crate) fn begin<'a>(
        &self,
        alloc: Global,
        request: &'a Request,
    ) -> Result<Begun<'a>, NotBegun>
        ensures { IfOk result (λ begun. begun.request.now ≡ request.now) }
    {
        if !self.is_open() {
            return Err(NotBegun);
        }
        let Ok(line) = begun_line(alloc, request) else {
            return Err(NotBegun);
        };
        match self.lines.add_synced(request, line.as_str()) {
            Ok(synced) => Ok(Begun::by(request, synced)),
            Err(_) => Err(NotBegun),
        }
    }

    /// Writes a provider's reply, and returns the reply. Its line is on the disk after the next sync. If it can't be
    /// written, the log is lost.
    pub(crate) fn end<P: Provider>(&self, alloc: Global, called: LoggedCall<'_, P>) -> Reply
        requires { IsTrueOf (P.meaning called.provider.now) (replied (asked called.request.now) (answered called.reply)) }
        ensures { result ≡ called.entry.reply }
    {
        match answered_line(alloc, called.request(), called.reply()) {
            Ok(line) => {
                let told = self.lines.add(&called, line.as_str());
                called.into_reply(told)
            }
            Err(_) => {
                let lost = self.lines.lose();
                called.into_reply(Err(lost))
            }
        }
    }
}
