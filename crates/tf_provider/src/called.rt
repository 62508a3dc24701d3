//! One call of a provider: the request, the reply and the verdict.

ghost use Rattle.std.specs.Coded.{codes};
ghost use Rattle.std.specs.Prelude.{◌≡◌, ℕ, false, true, IfSome, MatchResult};
ghost use Rattle.tf_provider.specs.Call.{Call, IsServed, is_excused};
ghost use Rattle.tf_provider_protocol.specs.Meaning.{asked, answered};
ghost use Rattle.tf_provider_protocol.specs.Verdict.{verdict_on};
ghost use Rattle.tf_value_data.specs.contracts.value.Value as value;

use std::marker::Model;
use tf_claim::{Finished, Permit, waive};
use tf_provider_protocol::{Op, Provider, Reply, Request, Verdict, judge};

/// A call that was made: the action that it was made for, the request, the reply and the verdict on it. It
/// can be neither copied nor dropped: a journal has to record it. Contracts see a `Call`.
pub struct Called {
    finished: Finished,
    request: Request,
    reply: Reply,
    verdict: Verdict,
}

impl Model for Called {
    ghost Value = { Call };

    ghost coded = { Prim.hlevel (codes, value.the_row.coded) };

    ghost view = { λ c. record { action = c.finished; request = c.request; reply = c.reply; verdict = c.verdict } };
}

/// A call that a journal has recorded. It has to be split, so that its action is reported as done. Contracts see a `Call`.
pub struct Recorded {
    call: Called,
}

impl Model for Recorded {
    ghost Value = { Call };

    ghost coded = { Prim.hlevel (codes, value.the_row.coded) };

    ghost view = { λ r. r.call };
}

/// Calls a provider once with a request, and judges its reply by the provider's schema of the request's
/// type. The call spends the permit. The provider has to have a schema of that type, and the object of a create or an update
/// has exactly the schema's attributes.
pub fn call(provider: &Box<dyn Provider + Sync>, permit: Permit, request: Request) -> Called
    requires served { IsServed (meaning provider.now) (asked request) }
    ensures action { result.action ≡ permit }
    ensures request { result.request ≡ request }
    ensures answer { IfSome (answered result.reply) (λ a. a ≡ (meaning provider.now).answer (asked request)) }
    ensures verdict { IfSome ((meaning provider.now).schema_of (asked request).type_name)
        (λ s. result.verdict ≡ verdict_on (asked request) (answered result.reply) s) }
{
    let reply = provider.apply(&request);
    let verdict = match provider.schema(request.type_name.as_str()) {
        Some(schema) => judge(&request, &reply, schema),
        None => unreachable!(),
    };
    Called {
        finished: waive(permit),
        request,
        reply,
        verdict,
    }
}

impl Called {
    /// Returns the action that the call was made for.
    pub fn action(&self) -> usize
        ensures { result ≡ self.now.action }
    {
        self.finished.action()
    }

    /// Returns what the provider was asked to do.
    pub fn op(&self) -> Op
        ensures { result ≡ self.now.request.op }
    {
        self.request.op
    }

    /// Returns the verdict on the reply.
    pub fn verdict(&self) -> Verdict
        ensures { result ≡ self.now.verdict }
    {
        self.verdict
    }

    /// Returns this call as a recorded one. A journal does this once it has the call's entry.
    pub(crate) fn into_recorded(self) -> Recorded
        ensures { result ≡ self }
    {
        Recorded { call: self }
    }
}

impl Recorded {
    /// Returns the action that was called.
    pub fn action(&self) -> usize
        ensures { result ≡ self.now.action }
    {
        self.call.finished.action()
    }

    /// Returns the request, also if the provider ran out of memory.
    pub fn request(&self) -> &Request
        ensures { result.now ≡ self.now.request }
    {
        &self.call.request
    }

    /// Returns the provider's reply.
    pub fn reply(&self) -> &Reply
        ensures { result.now ≡ self.now.reply }
    {
        &self.call.reply
    }

    /// Returns the verdict on the reply.
    pub fn verdict(&self) -> Verdict
        ensures { result ≡ self.now.verdict }
    {
        self.call.verdict
    }

    /// Splits the call into the right to report its action as done, and the call itself. If the provider ran out of memory,
    /// the evidence of that takes the call's place.
    pub fn split(self) -> (Finished, Result<Judged, Unserved>)
        ensures finished { result.0 ≡ self.action }
        ensures judged { MatchResult result.1
            (λ judged. (judged ≡ self) × (is_excused self.verdict ≡ false))
            (λ unserved. (unserved ≡ self.action) × (is_excused self.verdict ≡ true)) }
    {
        let Recorded { call } = self;
        let Called {
            finished,
            request,
            reply,
            verdict,
        } = call;
        let action = finished.action();
        if verdict == Verdict::Excused {
            return (finished, Err(Unserved { action }));
        }
        let judged = Judged {
            action,
            request,
            reply,
            verdict,
        };
        (finished, Ok(judged))
    }
}

/// The evidence that the provider of an action was called and ran out of memory, so that it did nothing. Only the split of a
/// recorded call makes one. Contracts see the action's number.
#[derive(Debug, Drop)]
pub struct Unserved {
    action: usize,
}

impl Model for Unserved {
    ghost Value = { ℕ };

    ghost view = { λ unserved. unserved.action };
}

impl Unserved {
    /// Returns the action whose provider ran out of memory.
    pub fn action(&self) -> usize
        ensures { result ≡ self.now }
    {
        self.action
    }
}

/// A recorded call whose provider didn't run out of memory: the action, the request, the reply and the verdict on it. Only the
/// split of a recorded call makes one, and it can be neither copied nor dropped. Contracts see a `Call`.
pub struct Judged {
    action: usize,
    request: Request,
    reply: Reply,
    verdict: Verdict,
}

impl Model for Judged {
    ghost Value = { Call };

    ghost coded = { Prim.hlevel (codes, value.the_row.coded) };

    ghost view = { λ j. record { action = j.action; request = j.request; reply = j.reply; verdict = j.verdict } };
}

impl Judged {
    /// Returns the action that was called.
    pub fn action(&self) -> usize
        ensures { result ≡ self.now.action }
    {
        self.action
    }

    /// Returns the request.
    pub fn request(&self) -> &Request
        ensures { result.now ≡ self.now.request }
    {
        &self.request
    }

    /// Returns the provider's reply.
    pub fn reply(&self) -> &Reply
        ensures { result.now ≡ self.now.reply }
    {
        &self.reply
    }

    /// Returns the verdict on the reply.
    pub fn verdict(&self) -> Verdict
        ensures { result ≡ self.now.verdict }
    {
        self.verdict
    }

    /// Takes the call apart into the request and the reply, for a report.
    pub fn into_report(self) -> (Request, Reply)
        ensures request { result.0 ≡ self.request }
        ensures reply { result.1 ≡ self.reply }
    {
        let Judged {
            action: _,
            request,
            reply,
            verdict: _,
        } = self;
        (request, reply)
    }
}
