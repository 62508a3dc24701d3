//! Calls of a provider, which require the request's line in the log.

ghost use Rattle.std.specs.Prelude.{◌≡◌, IfOk, MatchOption, None, Some};
ghost use Rattle.tf_provider_log.specs.LogEntry.{begun, replied};
ghost use Rattle.tf_provider_log.specs.Line.{IsEntryLine};
ghost use Rattle.tf_provider_log.specs.True.{IsTrueOf};
ghost use Rattle.tf_provider_protocol.specs.Meaning.{asked, answered};

use crate::lines::{Added, Lost, Synced, Telling};
use std::marker::Model;
use tf_provider_protocol::{Provider, Reply, Request, Schema};

/// A request that the log on the disk says is begun: the right to call a provider with it, once. It can be neither
/// copied nor dropped. Only the request's synced line gives one, and the call spends it.
pub(crate) struct Begun<'a> {
    request: &'a Request,
}

/// A provider that is called only with requests that the log says are begun. Contracts see the provider.
#[derive(Drop)]
pub(crate) struct Guarded<P: Provider> {
    provider: P,
}

impl<P: Provider> Model for Guarded<P> {
    ghost Value = { P };

    ghost view = { λ guarded. guarded.provider };
}

/// A call that was made: the provider, the request and the reply. It can be neither copied nor dropped, and only a
/// call creates one. The reply can be taken only with the line that logs it, or with proof that the log is lost.
pub(crate) struct LoggedCall<'a, P: Provider> {
    provider: &'a Guarded<P>,
    request: &'a Request,
    reply: Reply,
}

/// A request may write that it is begun.
impl Telling for Request {
    ghost use Rattle.tf_provider_log.specs.LogEntry.{begun};
    ghost use Rattle.tf_provider_log.specs.Line.{IsEntryLine};
    ghost use Rattle.tf_provider_protocol.specs.Meaning.{asked};

    ghost may_tell = { λ request text. IsEntryLine (begun (asked request)) text };
}

/// A call may write its reply, which is true of the provider that was called.
impl<'a, P: Provider> Telling for LoggedCall<'a, P> {
    ghost use Rattle.tf_provider_log.specs.LogEntry.{replied};
    ghost use Rattle.tf_provider_log.specs.True.{IsTrueLine};
    ghost use Rattle.tf_provider_protocol.specs.Meaning.{asked, answered};

    ghost may_tell = { λ called text. IsTrueLine (P.meaning called.provider.now) (replied (asked called.request.now) (answered called.reply)) text };
}

impl<'a> Begun<'a> {
    /// Returns the right to call a provider, given the synced line that says that the request is begun.
    pub(crate) fn by(request: &'a Request, _synced: Synced<'_>) -> Begun<'a>
        requires { IsEntryLine (begun (asked request.now)) _synced.text.now }
        ensures { result.request.now ≡ request.now }
    {
        Begun { request }
    }
}

impl<P: Provider> Guarded<P> {
    /// Guards a provider.
    pub(crate) fn new(provider: P) -> Guarded<P>
        ensures { result ≡ provider }
    {
        Guarded { provider }
    }

    /// Returns the schema of a type, if the provider has the type.
    pub(crate) fn schema(&self, type_name: &str) -> Option<&Schema>
        ensures { MatchOption result
            ((P.meaning self.now).schema_of type_name.now ≡ None)
            (λ s. (P.meaning self.now).schema_of type_name.now ≡ Some s.now) }
    {
        self.provider.schema(type_name)
    }

    /// Calls the provider with a begun request. This spends the right to do so.
    pub(crate) fn call<'a>(&'a self, begun: Begun<'a>) -> LoggedCall<'a, P>
        ensures provider { result.provider.now ≡ self.now }
        ensures request { result.request.now ≡ begun.entry.request.now }
        ensures true_of { IsTrueOf (P.meaning self.now) (replied (asked result.request.now) (answered result.reply)) }
    {
        let Begun { request } = begun;
        let reply = self.provider.apply(request);
        LoggedCall {
            provider: self,
            request,
            reply,
        }
    }
}

impl<P: Provider> LoggedCall<'_, P> {
    /// Returns the request.
    pub(crate) fn request(&self) -> &Request
        ensures { result.now ≡ self.now.request.now }
    {
        self.request
    }

    /// Returns the reply, for writing it to the log.
    pub(crate) fn reply(&self) -> &Reply
        ensures { result.now ≡ self.now.reply }
    {
        &self.reply
    }

    /// Returns the reply, given the line that logs it or the evidence that the log is lost.
    pub(crate) fn into_reply(self, _told: Result<Added<'_>, Lost>) -> Reply
        requires { IfOk _told (λ added. IsEntryLine (replied (asked self.request.now) (answered self.reply)) added.text.now) }
        ensures { result ≡ self.entry.reply }
    {
        let LoggedCall {
            provider: _,
            request: _,
            reply,
        } = self;
        reply
    }
}
