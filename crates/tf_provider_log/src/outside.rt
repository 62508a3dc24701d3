//! The lines of calls of providers outside the program, whose replies come later.

ghost use Rattle.std.specs.Prelude.{◌≡◌, ◌&&◌, IfOk, OnErr, OnOk, false, map, true};
ghost use Rattle.tf_provider_log.specs.Fit.{answer_fits, request_fits};
ghost use Rattle.tf_provider_log.specs.Line.{IsEntryLine};
ghost use Rattle.tf_provider_log.specs.LogEntry.{begun, replied};
ghost use Rattle.tf_provider_log.specs.declared.entry.LogEntry.TheVariants.{Answered};
ghost use Rattle.tf_provider_protocol.specs.Meaning.{answered, asked};

use crate::entry::LogEntry;
use crate::fault::Unwritten;
use crate::lines::{Added, Lost, OnDisk, Telling};
use crate::open_log::OpenLog;
use crate::sink::{NotAdded, Sink};
use crate::writing::{answered_line, begun_line};
use std::alloc::Global;
use std::error::Error;
use std::fmt;
use std::snapshot::Snapshot;
use tf_provider_protocol::{Reply, Request};

/// What is sent to a provider outside the program, for one request.
pub trait Message: Drop {
    ghost use Rattle.std.specs.Prelude.{◌≡◌};
    ghost use Rattle.tf_provider_protocol.specs.declared.request.Request.{Request};

    ghost request_of: { Self → Request };

    /// Returns the request.
    fn request(&self) -> &Request
        ensures { result.now ≡ request_of self.now };
}

/// A message whose request the log says is begun, perhaps not on the disk yet. Only the request's line creates one, and it can't be
/// copied.
#[derive(Drop)]
pub struct BegunLine<M: Message> {
    message: M,
}

/// A message that may be sent to a provider outside the program: the log on the disk says that its request is begun. Only a sync after
/// the request's line creates one, and it can't be copied. Whoever sends it gives it away, so it is sent once.
#[derive(Drop)]
pub struct Announced<M: Message> {
    message: M,
}

impl<M: Message> BegunLine<M> {
    /// Returns the evidence that the log says that the request of a message is begun, given the line.
    fn by(message: M, _added: Added<'_>) -> BegunLine<M>
        requires { IsEntryLine (begun (asked (M.request_of message))) _added.text.now }
        ensures { result.message ≡ message }
    {
        BegunLine { message }
    }
}

impl<M: Message> Announced<M> {
    /// Returns the evidence that a request's line is on the disk, given a sync after the line.
    fn by(line: BegunLine<M>, _on_disk: &OnDisk) -> Announced<M>
        ensures { result.message ≡ line.message }
    {
        let BegunLine { message } = line;
        Announced { message }
    }

    /// Returns the message, to look at it.
    pub fn message(&self) -> &M
        ensures { result.now ≡ self.now.message }
    {
        &self.message
    }

    /// Returns the message. After that, there is no right to send it.
    pub fn into_message(self) -> M
        ensures { result ≡ self.message }
    {
        self.message
    }
}

/// A reply that came from outside, with its request. It can be neither copied nor dropped.
struct Received<'a> {
    request: &'a Request,
    reply: Reply,
}

/// A reply from outside whose line is in the log, unless the log is lost. Only `OpenLog::receive` creates one. It can be neither copied
/// nor dropped, and becomes the entry of its request.
pub struct LoggedReply {
    request: Snapshot<Request>,
    reply: Reply,
}

/// A value of a request or of a reply doesn't fit a line: it holds a set, or is nested more than 100 deep.
#[derive(Clone, Copy, Debug, PartialEq, Eq)]
pub struct Unfit;

impl fmt::Display for Unfit {
    fn fmt<W: fmt::Write>(&self, f: &mut fmt::Formatter<W>) -> fmt::Result {
        write!(f, "a value doesn't fit a line of the log")
    }
}

impl Error for Unfit {}

/// A reply from outside may write that it answers its request.
impl<'a> Telling for Received<'a> {
    ghost use Rattle.tf_provider_log.specs.LogEntry.{replied};
    ghost use Rattle.tf_provider_log.specs.Line.{IsEntryLine};
    ghost use Rattle.tf_provider_protocol.specs.Meaning.{answered, asked};

    ghost may_tell = { λ received text. IsEntryLine (replied (asked received.request.now) (answered received.reply)) text };
}

impl Received<'_> {
    /// Returns the reply with the evidence that its line is in the log, given the line, or the evidence that the log is lost.
    fn into_logged(self, _told: Result<Added<'_>, Lost>) -> LoggedReply
        requires { IfOk _told (λ added. IsEntryLine (replied (asked self.request.now) (answered self.reply)) added.text.now) }
        ensures { (result.request.value ≡ self.entry.request.now) × (result.reply ≡ self.entry.reply) }
    {
        let Received { request, reply } = self;
        LoggedReply {
            request: Snapshot::of(request),
            reply,
        }
    }

    /// Drops a reply that doesn't fit a line.
    fn refuse(self) -> Unfit
        requires { (request_fits (asked self.request.now) && answer_fits (answered self.reply)) ≡ false }
    {
        let Received {
            request: _,
            reply: _,
        } = self;
        Unfit
    }
}

impl LoggedReply {
    /// Returns the reply, to look at it.
    pub fn reply(&self) -> &Reply
        ensures { result.now ≡ self.now.reply }
    {
        &self.reply
    }

    /// Returns the entry that has the reply. The request has to be the one that it answers.
    pub fn into_entry(self, request: Request) -> LogEntry
        requires { request ≡ self.request.value }
        ensures { result ≡ Answered request self.reply }
    {
        let LoggedReply { request: _, reply } = self;
        LogEntry::Answered(request, reply)
    }
}

impl<S: Sink> OpenLog<S> {
    /// Writes that the request of a message is begun. Its line is on the disk after the next sync.
    ///
    /// # Errors
    ///
    /// Fails if the log isn't started or is lost, if no line can be built for the request, or if the line can't be
    /// written; in the last case the log is lost. Then the message is dropped, since it may not be sent.
    pub fn write_begun<M: Message>(
        &self,
        alloc: Global,
        message: M,
    ) -> Result<BegunLine<M>, NotAdded>
        ensures { IfOk result (λ written. written.message ≡ message) }
    {
        if !self.is_open() {
            return Err(NotAdded);
        }
        let Ok(line) = begun_line(alloc, message.request()) else {
            return Err(NotAdded);
        };
        match self.lines.add(message.request(), line.as_str()) {
            Ok(added) => Ok(BegunLine::by(message, added)),
            Err(_) => Err(NotAdded),
        }
    }

    /// Syncs the log, and with it the lines of these messages, so that they may be sent.
    ///
    /// # Errors
    ///
    /// Fails if memory runs out, or if the log can't be synced; in the second case the log is lost.
    pub fn announce<M: Message>(
        &self,
        alloc: Global,
        written: Vec<BegunLine<M>>,
    ) -> Result<Vec<Announced<M>>, NotAdded>
        ensures { IfOk result (λ announced. map (λ a. a.message) announced.items ≡ map (λ w. w.message) written.items) }
    {
        let Ok(on_disk) = self.lines.sync() else {
            return Err(NotAdded);
        };
        let mut announced = Vec::new(alloc);
        for line in written {
            if announced.push(Announced::by(line, &on_disk)).is_err() {
                return Err(NotAdded);
            }
        }
        Ok(announced)
    }

    /// Writes the reply that came for a request, and returns the reply with the evidence of its line, which is on the disk after the
    /// next sync. If the line can't be built or written, the log is lost.
    ///
    /// # Errors
    ///
    /// Fails exactly if a value of the request or of the reply doesn't fit a line. Then the reply is dropped, and the log stays as it
    /// is.
    pub fn receive(
        &self,
        alloc: Global,
        request: &Request,
        reply: Reply,
    ) -> Result<LoggedReply, Unfit>
        ensures ok { IfOk result (λ logged. (logged.request.value ≡ request.now) × (logged.reply ≡ reply)) }
        ensures fits { OnOk result ((request_fits (asked request.now) && answer_fits (answered reply)) ≡ true) }
        ensures unfit { OnErr result ((request_fits (asked request.now) && answer_fits (answered reply)) ≡ false) }
    {
        let received = Received { request, reply };
        match answered_line(alloc, received.request, &received.reply) {
            Ok(line) => {
                let told = self.lines.add(&received, line.as_str());
                Ok(received.into_logged(told))
            }
            Err(Unwritten::OutOfMemory) => {
                let lost = self.lines.lose();
                Ok(received.into_logged(Err(lost)))
            }
            Err(Unwritten::Unfit) => Err(received.refuse()),
        }
    }
}
