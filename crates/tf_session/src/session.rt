//! The calls of an apply with providers outside the program.

ghost use Rattle.std.specs.Prelude.{◌≡◌, ◌≤◌, ◌⊎◌, ◌∷◌, ◌++◌, ◌||◌, [], All, IfOk, OnOk, false, is_some, length, map, replicate, slice_set, true, vec_capacity};
ghost use Rattle.tf_provider_protocol.specs.Meaning.{asked};
ghost use Rattle.tf_provider_remote.specs.Flights.{next_provider};
ghost use Rattle.tf_session.specs.Calls.{Continues, HasRoomFor, IsMade, IsNoted, IsTakenUp, calls_taken_up, is_closed, is_stopped};

use crate::calls::Calls;
use crate::closing::{Announcement, Closing, NotStopped, announce, look_for_stop};
use crate::context::ApplyContext;
use crate::pipes::{Loss, Pipe, Received, Sent, log_reply, place_of, receive_from, send_line};
use std::alloc::{AllocError, Global};
use std::io::Write;
use tf_cli_files::ApplyEvents;
use tf_provider::{Provider, Reply, Request, first_provider};
use tf_provider_log::{Announced, LogEntry};
use tf_provider_remote::{Flight, Flights, RemoteTypes, Response, Unsent, request_line};

/// The calls of an apply: what the log has, what is in flight, and the pipes.
#[derive(Drop)]
pub struct Session {
    /// The types of the providers outside the program.
    types: RemoteTypes,
    /// The calls so far.
    calls: Calls,
    /// The pipes of each provider.
    pipes: Vec<Pipe>,
    /// Which providers are lost.
    lost: Vec<bool>,
    /// Why nothing more is begun, or `None` as long as more is.
    closing: Option<Closing>,
    /// The number of the next request.
    next_id: u64,
    /// How many requests may be in flight.
    most: usize,
    /// Where the calls of providers outside the program are reported. Those of the others report by themselves.
    events: ApplyEvents,
}

impl Session {
    /// Builds the session of an apply before any call, with the pipes of each provider outside the program. At most `most` requests are
    /// in flight at once. `events` reports the calls of providers outside the program.
    ///
    /// # Errors
    ///
    /// Fails only if memory runs out.
    pub fn new(
        alloc: Global,
        types: RemoteTypes,
        pipes: Vec<Pipe>,
        most: usize,
        events: ApplyEvents,
    ) -> Result<Session, AllocError>
        ensures types { IfOk result (λ session. session.types ≡ types) }
        ensures none { IfOk result (λ session. calls_taken_up session.calls ≡ []) }
        ensures open { IfOk result (λ session. is_closed session ≡ false) }
        ensures none_lost { IfOk result (λ session. session.lost.items ≡ replicate (length pipes.items) false) }
    {
        let mut lost = Vec::new(alloc);
        for _ in 0..pipes.len() {
            lost.push(false)?;
        }
        Ok(Session {
            types,
            calls: Calls::new(alloc),
            pipes,
            lost,
            closing: None,
            next_id: 1,
            most,
            events,
        })
    }

    /// Returns the types of the providers outside the program.
    pub fn types(&self) -> &RemoteTypes
        ensures { result.now ≡ self.now.types }
    {
        &self.types
    }

    /// Returns the calls that ended, with their replies.
    pub fn entries(&self) -> &[LogEntry]
        ensures { result.now ≡ self.now.calls.entries.items }
    {
        self.calls.entries()
    }

    /// Returns the requests that were sent and have no reply yet.
    pub fn flights(&self) -> &Flights
        ensures { result.now ≡ self.now.calls.flights }
    {
        self.calls.flights()
    }

    /// Returns whether the first reason to begin nothing more was the file that stops an apply.
    pub fn is_stopped(&self) -> bool
        ensures { result ≡ is_stopped self.now }
    {
        match &self.closing {
            Some(closing) => closing.is_stop(),
            None => false,
        }
    }

    /// Returns whether a reply can come: a request is in flight whose provider isn't lost.
    pub fn awaits_reply(&self) -> bool
        ensures { result ≡ is_some (next_provider self.now.lost.items self.now.calls.flights.flights.items) }
    {
        self.calls.flights().next_provider(&self.lost).is_some()
    }

    /// Makes those of these calls that aren't begun, and takes replies. Requests to providers outside the program are sent; the
    /// providers of the program are called for the others. If a provider is lost, or a stop file exists that the options name, nothing
    /// more is begun. Makes no other call, and forgets none that was made, so none is made twice.
    ///
    /// # Errors
    ///
    /// Fails only if memory runs out.
    pub fn serve<E: Write>(
        &mut self,
        context: ApplyContext<'_>,
        unanswered: Vec<Request>,
        err: &mut E,
    ) -> Result<(), AllocError>
        ensures continues { OnOk result (Continues (map asked unanswered.items) self.old self.new) }
        ensures made { OnOk result (All (λ r. IsMade (asked r) self.new) unanswered.items) }
    {
        self.make_all(context, unanswered, err)?;
        self.flush(context, err)?;
        let enough = 1 + self.calls.entries().len() / 200;
        for _ in 0..enough {
            self.receive(context, err);
        }
        Ok(())
    }

    /// Makes calls that aren't begun, until nothing more is to be begun. Looks for the stop file before each.
    fn make_all<E: Write>(
        &mut self,
        context: ApplyContext<'_>,
        requests: Vec<Request>,
        err: &mut E,
    ) -> Result<(), AllocError>
        ensures continues { OnOk result (Continues (map asked requests.items) self.old self.new) }
        ensures taken_up { OnOk result (All (λ r. IsTakenUp (asked r) self.new) requests.items) }
    {
        for request in requests {
            if self.closing.is_some() {
                return Ok(());
            }
            match look_for_stop(context.rt, &context.given.options.stop_file) {
                Ok(not_stopped) => self.make(context, not_stopped, request, err)?,
                Err(closing) => {
                    self.close(Some(closing));
                    return Ok(());
                }
            }
        }
        Ok(())
    }

    /// Begins nothing more if this is the evidence for that. The first reason counts.
    fn close(&mut self, closing: Option<Closing>)
        ensures same { (self.new.types ≡ self.old.types) × (self.new.calls ≡ self.old.calls) × (self.new.lost ≡ self.old.lost) }
        ensures closed { is_closed self.new ≡ (is_closed self.old || is_some closing) }
        ensures first { is_closed self.old ≡ true → is_stopped self.new ≡ is_stopped self.old }
    {
        if self.closing.is_none() {
            self.closing = closing;
        }
    }

    /// Makes a call, unless it is begun already. If it is of a provider outside the program, it may first wait for others.
    fn make<E: Write>(
        &mut self,
        context: ApplyContext<'_>,
        not_stopped: NotStopped,
        request: Request,
        err: &mut E,
    ) -> Result<(), AllocError>
        ensures continues { OnOk result (Continues (asked request ∷ []) self.old self.new) }
        ensures taken_up { OnOk result (IsTakenUp (asked request) self.new) }
    {
        match self.types.provider_of(request.type_name.as_str()) {
            Some(provider) => self.send(context, not_stopped, provider, request, err),
            None => {
                self.flush(context, err)?;
                self.call(context, not_stopped, request)
            }
        }
    }

    /// Calls a provider of the program, unless this call is begun already.
    fn call(
        &mut self,
        context: ApplyContext<'_>,
        not_stopped: NotStopped,
        request: Request,
    ) -> Result<(), AllocError>
        ensures continues { OnOk result (Continues (asked request ∷ []) self.old self.new) }
        ensures taken_up { OnOk result (IsTakenUp (asked request) self.new) }
    {
        if self.calls.has_begun(&request) {
            return Ok(());
        }
        let reply = call_provider(context.providers, not_stopped, &request);
        self.close(Closing::by_log(context.log));
        self.calls.answer(request, reply)
    }

    /// Has a request wait until it is sent to its provider, once few enough requests are in flight or wait. Does nothing if it is
    /// begun already. A request whose line can't be built has no answer, and isn't tried again.
    fn send<E: Write>(
        &mut self,
        context: ApplyContext<'_>,
        not_stopped: NotStopped,
        provider: usize,
        request: Request,
        err: &mut E,
    ) -> Result<(), AllocError>
        ensures continues { OnOk result (Continues (asked request ∷ []) self.old self.new) }
        ensures taken_up { OnOk result (IsTakenUp (asked request) self.new) }
    {
        let line = match request_line(context.rt.alloc(), self.next_id, &request) {
            Ok(line) => line,
            Err(Unsent::OutOfMemory) => return Err(AllocError),
            Err(Unsent::Unfit) => return self.calls.answer(request, Reply::NoMemory),
        };
        self.make_room(context, line.len(), err)?;
        if self.closing.is_some() {
            return Ok(());
        }
        if self.calls.has_begun(&request) {
            return Ok(());
        }
        let id = self.next_id;
        self.next_id = id.saturating_add(1);
        let flight = Flight {
            id,
            provider,
            line,
            request,
        };
        self.calls.wait(flight, not_stopped)
    }

    /// Sends what waits and takes replies, until few enough requests are in flight for a line of this size.
    fn make_room<E: Write>(
        &mut self,
        context: ApplyContext<'_>,
        size: usize,
        err: &mut E,
    ) -> Result<(), AllocError>
        ensures { OnOk result (Continues [] self.old self.new) }
    {
        for _ in 0..u64::MAX {
            if self.closing.is_some() || self.calls.has_room(self.most, size) {
                break;
            }
            self.flush(context, err)?;
            self.receive(context, err);
        }
        Ok(())
    }

    /// Writes that the waiting requests are begun, syncs the log once, and sends their lines. If the log can't say that one is begun,
    /// neither this one nor a later one is sent, and nothing more is begun.
    fn flush<E: Write>(&mut self, context: ApplyContext<'_>, err: &mut E) -> Result<(), AllocError>
        ensures continues { OnOk result (Continues [] self.old self.new) }
        ensures sent { OnOk result ((is_closed self.new ≡ true) ⊎ (self.new.calls.waiting.flights.items ≡ [])) }
    {
        if self.closing.is_some() || self.calls.none_waits() {
            return Ok(());
        }
        let alloc = context.rt.alloc();
        let waiting = self.calls.take_waiting(alloc);
        self.calls.reserve(waiting.len())?;
        let Announcement { announced, closing } = announce(alloc, context.log, waiting);
        self.close(closing);
        self.write_all(context, announced, err);
        Ok(())
    }

    /// Writes the lines of requests to the pipes of their providers. There has to be memory for these requests in flight.
    fn write_all<E: Write>(
        &mut self,
        context: ApplyContext<'_>,
        announced: Vec<Announced<Flight>>,
        err: &mut E,
    )
        requires { HasRoomFor (length announced.items) self.old.calls }
        ensures same { (self.new.types ≡ self.old.types) × (self.new.calls.waiting ≡ self.old.calls.waiting) × (self.new.calls.entries ≡ self.old.calls.entries) }
        ensures sent { self.new.calls.flights.flights.items ≡ self.old.calls.flights.flights.items ++ map (λ a. a.message) announced.items }
        ensures closed { is_closed self.old ≡ true → is_closed self.new ≡ true }
    {
        for announced in announced {
            self.write(context, announced, err);
        }
    }

    /// Writes the line of a request to the pipe of its provider, unless that is lost. After that, the request is in flight.
    fn write<E: Write>(
        &mut self,
        context: ApplyContext<'_>,
        announced: Announced<Flight>,
        err: &mut E,
    )
        requires { HasRoomFor 1 self.old.calls }
        ensures same { (self.new.types ≡ self.old.types) × (self.new.calls.waiting ≡ self.old.calls.waiting) × (self.new.calls.entries ≡ self.old.calls.entries) }
        ensures sent { self.new.calls.flights.flights.items ≡ self.old.calls.flights.flights.items ++ announced.message ∷ [] }
        ensures room { vec_capacity self.old.calls.flights.flights ≤ vec_capacity self.new.calls.flights.flights }
        ensures closed { is_closed self.old ≡ true → is_closed self.new ≡ true }
    {
        if self.lost.get(announced.message().provider) == Some(&true) {
            self.calls.add_sent(Sent::to_lost(announced, &self.lost));
            return;
        }
        self.events.begin(&announced.message().request);
        let (sent, result) = send_line(&mut self.pipes, announced);
        self.calls.add_sent(sent);
        if let Err(loss) = result {
            self.lose(context, loss, err);
        }
    }

    /// Waits for replies of the provider of the first request in flight, if there is one.
    fn receive<E: Write>(&mut self, context: ApplyContext<'_>, err: &mut E)
        ensures { Continues [] self.old self.new }
    {
        let Some(provider) = self.calls.flights().next_provider(&self.lost) else {
            return;
        };
        match receive_from(context.rt, &mut self.pipes, provider) {
            Ok(received) => self.take_all(context, provider, received, err),
            Err(loss) => self.lose(context, loss, err),
        }
    }

    /// Takes the replies of a provider, which is lost if a line of it wasn't a reply.
    fn take_all<E: Write>(
        &mut self,
        context: ApplyContext<'_>,
        provider: usize,
        received: Received,
        err: &mut E,
    )
        ensures { Continues [] self.old self.new }
    {
        let Received { replies, loss } = received;
        for response in replies {
            self.take(context, provider, response, err);
        }
        if let Some(loss) = loss {
            self.lose(context, loss, err);
        }
    }

    /// Takes a reply: writes it to the log, and then uses it. A request stays in flight if the log can't hold its reply.
    fn take<E: Write>(
        &mut self,
        context: ApplyContext<'_>,
        provider: usize,
        response: Response,
        err: &mut E,
    )
        ensures continues { Continues [] self.old self.new }
        ensures noted { IsNoted provider response.id response.reply self.old self.new }
    {
        if self.lost.get(provider) == Some(&true) {
            return;
        }
        let Response { id, reply } = response;
        let place = match place_of(self.calls.flights(), provider, id) {
            Ok(place) => place,
            Err(loss) => return self.lose(context, loss, err),
        };
        let flight = &self.calls.flights().list()[place];
        let alloc = context.rt.alloc();
        let logged = match log_reply(alloc, context.log, provider, &flight.request, reply) {
            Ok(logged) => logged,
            Err(loss) => return self.lose(context, loss, err),
        };
        self.events.end(&flight.request, logged.reply(), None);
        self.close(Closing::by_log(context.log));
        self.calls.end_at(place, logged);
    }

    /// Notes that a provider is lost, and prints why. Nothing more is begun.
    fn lose<E: Write>(&mut self, context: ApplyContext<'_>, loss: Loss, err: &mut E)
        ensures same { (self.new.types ≡ self.old.types) × (self.new.calls ≡ self.old.calls) }
        ensures closed { is_closed self.new ≡ true }
        ensures lost { self.new.lost.items ≡ slice_set self.old.lost.items loss.provider true }
    {
        self.close(Some(Closing::by_loss(&loss)));
        let provider = loss.provider();
        let was_lost = self.lost.get(provider) == Some(&true);
        if provider < self.lost.len() {
            self.lost[provider] = true;
        }
        if was_lost {
            return;
        }
        if let Some(folder) = context.given.options.providers.get(provider) {
            let _ = writeln!(err, "error: provider {folder}: {}", loss.reason());
        }
    }
}

/// Calls the provider that has the type of a request, by the evidence that the apply isn't stopped.
fn call_provider(
    providers: &[Box<dyn Provider + Sync>],
    _not_stopped: NotStopped,
    request: &Request,
) -> Reply {
    match first_provider(providers, request.type_name.as_str()) {
        Some(provider) => provider.apply(request),
        None => Reply::NoMemory,
    }
}
