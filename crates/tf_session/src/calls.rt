//! The calls of a session: those that wait, those in flight, and those that ended.

ghost use Rattle.std.specs.Prelude.{◌≡◌, ◌+◌, ◌<◌, ◌≤◌, ◌++◌, ◌∷◌, [], length, vec_capacity};

use crate::closing::NotStopped;
use crate::pipes::Sent;
use std::alloc::{AllocError, Global};
use std::mem;
use tf_provider_log::{LogEntry, LoggedReply, is_begun};
use tf_provider_protocol::{Reply, Request};
use tf_provider_remote::{Flight, Flights};

/// The calls of a session. There is always memory for the replies to the requests in flight.
#[derive(Drop)]
pub(crate) struct Calls {
    /// What is sent together, after the next sync of the log. The log doesn't have it yet.
    waiting: Flights,
    /// What was sent and has no reply yet.
    flights: Flights,
    /// The calls that ended, with their replies.
    entries: Vec<LogEntry>,
    ghost has_room: { length flights.flights.items + length entries.items ≤ vec_capacity entries },
}

impl Calls {
    ghost use Rattle.std.specs.Prelude.{◌==◌, MatchResult, OnOk, false, slice_index_or};
    ghost use Rattle.tf_provider_log.specs.declared.entry.LogEntry.TheVariants.{Answered};
    ghost use Rattle.tf_provider_protocol.specs.Meaning.{asked};
    ghost use Rattle.tf_provider_remote.specs.declared.flights.Flight.{Flight};
    ghost use Rattle.tf_session.specs.Calls.{AreKept, HasRoomFor, TakesUpOnly, has_begun};

    /// Builds a list without a call.
    pub(crate) fn new(alloc: Global) -> Calls
        ensures { (result.waiting.flights.items ≡ []) × (result.flights.flights.items ≡ []) × (result.entries.items ≡ []) }
    {
        Calls {
            waiting: Flights::new(alloc),
            flights: Flights::new(alloc),
            entries: Vec::new(alloc),
        }
    }

    /// Returns what was sent and has no reply yet.
    pub(crate) fn flights(&self) -> &Flights
        ensures { result.now ≡ self.now.flights }
    {
        &self.flights
    }

    /// Returns the calls that ended, with their replies.
    pub(crate) fn entries(&self) -> &[LogEntry]
        ensures { result.now ≡ self.now.entries.items }
    {
        self.entries.as_slice()
    }

    /// Returns whether no request waits.
    pub(crate) fn none_waits(&self) -> bool
        ensures { result ≡ (length self.now.waiting.flights.items == 0) }
    {
        self.waiting.is_empty()
    }

    /// Returns whether few enough requests are in flight or wait for a line of this size, if at most `most` may be in flight.
    pub(crate) fn has_room(&self, most: usize, size: usize) -> bool {
        self.flights.has_room(&self.waiting, most, size)
    }

    /// Returns whether a request waits, is in flight or has ended.
    pub(crate) fn has_begun(&self, request: &Request) -> bool
        ensures { result ≡ has_begun (asked request.now) self.now }
    {
        self.waiting.has(request) || self.flights.has(request) || is_begun(&self.entries, request)
    }

    /// Has a request wait for the next sync of the log. It is neither in flight nor ended, and doesn't wait yet, so it wasn't sent
    /// before.
    pub(crate) fn wait(
        &mut self,
        flight: Flight,
        _not_stopped: NotStopped,
    ) -> Result<(), AllocError>
        requires { has_begun (asked flight.request) self.old ≡ false }
        ensures others { (self.new.flights ≡ self.old.flights) × (self.new.entries ≡ self.old.entries) }
        ensures waits { OnOk result (self.new.waiting.flights.items ≡ self.old.waiting.flights.items ++ flight ∷ []) }
    {
        self.waiting.add(flight)
    }

    /// Takes the requests that wait, to send them. After that, none waits.
    pub(crate) fn take_waiting(&mut self, alloc: Global) -> Vec<Flight>
        ensures others { (self.new.flights ≡ self.old.flights) × (self.new.entries ≡ self.old.entries) }
        ensures waited { result.items ≡ self.old.waiting.flights.items }
        ensures none { self.new.waiting.flights.items ≡ [] }
    {
        mem::replace(&mut self.waiting, Flights::new(alloc)).into_list()
    }

    /// Takes memory for more requests in flight and for their replies, so that adding as many doesn't fail.
    ///
    /// # Errors
    ///
    /// Fails only if memory runs out.
    pub(crate) fn reserve(&mut self, additional: usize) -> Result<(), AllocError>
        ensures waiting { self.new.waiting ≡ self.old.waiting }
        ensures same { (self.new.flights.flights.items ≡ self.old.flights.flights.items) × (self.new.entries.items ≡ self.old.entries.items) }
        ensures room { OnOk result (HasRoomFor additional self.new) }
    {
        let Some(replies) = self.flights.len().checked_add(additional) else {
            return Err(AllocError);
        };
        self.entries.reserve(replies)?;
        self.flights.reserve(additional)
    }

    /// Adds a request that was sent to those in flight. There has to be memory for it (`reserve`).
    pub(crate) fn add_sent(&mut self, sent: Sent)
        requires { HasRoomFor 1 self.old }
        ensures others { (self.new.waiting ≡ self.old.waiting) × (self.new.entries ≡ self.old.entries) }
        ensures sent { self.new.flights.flights.items ≡ self.old.flights.flights.items ++ sent.flight ∷ [] }
        ensures room { vec_capacity self.old.flights.flights ≤ vec_capacity self.new.flights.flights }
    {
        self.flights.add_reserved(sent.into_flight());
    }

    /// Takes the request at a place of those in flight, and notes its reply, which the log has.
    pub(crate) fn end_at(&mut self, place: usize, logged: LoggedReply)
        requires within { place < length self.old.flights.flights.items }
        requires request { (f : Flight) → f ≡ slice_index_or self.old.flights.flights.items place f → f.request ≡ logged.request.value }
        ensures waiting { self.new.waiting ≡ self.old.waiting }
        ensures kept { AreKept self.old self.new }
        ensures only { TakesUpOnly [] self.old self.new }
        ensures noted { (f : Flight) × (f ≡ slice_index_or self.old.flights.flights.items place f) × (self.new.entries.items ≡ self.old.entries.items ++ Answered f.request logged.reply ∷ []) }
    {
        let flight = self.flights.take(place);
        push_reserved(&mut self.entries, logged.into_entry(flight.request));
    }

    /// Notes the reply to a request that wasn't sent.
    ///
    /// # Errors
    ///
    /// Fails only if memory runs out.
    pub(crate) fn answer(&mut self, request: Request, reply: Reply) -> Result<(), AllocError>
        ensures kept { AreKept self.old self.new }
        ensures only { TakesUpOnly (asked request ∷ []) self.old self.new }
        ensures others { (self.new.waiting ≡ self.old.waiting) × (self.new.flights ≡ self.old.flights) }
        ensures answered { MatchResult result (λ _. self.new.entries.items ≡ self.old.entries.items ++ Answered request reply ∷ []) (λ _. self.new.entries.items ≡ self.old.entries.items) }
    {
        let Some(replies) = self.flights.len().checked_add(1) else {
            return Err(AllocError);
        };
        self.entries.reserve(replies)?;
        push_reserved(&mut self.entries, LogEntry::Answered(request, reply));
        Ok(())
    }
}

/// Adds an entry at the end, for which there has to be memory.
fn push_reserved(entries: &mut Vec<LogEntry>, entry: LogEntry)
    requires { length entries.old.items < vec_capacity entries.old }
    ensures items { entries.new.items ≡ entries.old.items ++ entry ∷ [] }
    ensures capacity { vec_capacity entries.old ≤ vec_capacity entries.new }
{
    if entries.push(entry).is_err() {
        unreachable!();
    }
}
