//! The requests that were sent and that have no reply yet.

ghost use Rattle.std.specs.Prelude.{◌≡◌, ◌+◌, ◌<◌, ◌≤◌, ◌++◌, ◌∷◌, ◌==◌, [], MatchOption, OnOk, false, length, slice_index_or, vec_capacity};
ghost use Rattle.std.specs.List.{list_any, remove};
ghost use Rattle.tf_provider_protocol.specs.Meaning.{asked};
ghost use Rattle.tf_provider_remote.specs.Flights.{has_call, is_call, is_numbered, next_provider};

use std::alloc::{AllocError, Global};
use tf_provider_log::{Message, is_same_text};
use tf_provider_protocol::Request;

/// A request that was sent and has no reply yet.
#[derive(Drop)]
pub struct Flight {
    /// The number of the request, which its reply repeats.
    pub id: u64,
    /// The number of the provider that it was sent to.
    pub provider: usize,
    /// Its line.
    pub line: String,
    /// The request.
    pub request: Request,
}

/// A provider is sent the line of a flight, for its request.
impl Message for Flight {
    ghost request_of = { λ flight. flight.request };

    fn request(&self) -> &Request {
        &self.request
    }
}

/// The requests that were sent and that have no reply yet, in the order in which they were sent.
#[derive(Drop)]
pub struct Flights {
    flights: Vec<Flight>,
}

/// How many bytes the lines may have that are in flight together. A pipe holds as many before a write to it waits, so
/// that the program and a provider that reads no request while it writes a reply don't wait for each other.
const MOST_BYTES: usize = 32_000;

impl Flights {
    /// Builds an empty list.
    pub fn new(alloc: Global) -> Flights
        ensures { result.flights.items ≡ [] }
    {
        Flights {
            flights: Vec::new(alloc),
        }
    }

    /// Returns how many requests are in flight.
    pub fn len(&self) -> usize
        ensures { result ≡ length self.now.flights.items }
    {
        self.flights.len()
    }

    /// Returns whether no request is in flight.
    pub fn is_empty(&self) -> bool
        ensures { result ≡ (length self.now.flights.items == 0) }
    {
        self.flights.is_empty()
    }

    /// Returns the requests in flight.
    pub fn list(&self) -> &[Flight]
        ensures { result.now ≡ self.now.flights.items }
    {
        self.flights.as_slice()
    }

    /// Returns whether a line of this size may be sent after these requests, which wait, if at most `most` requests may be in flight.
    pub fn has_room(&self, waiting: &Flights, most: usize, size: usize) -> bool {
        let count = self.flights.len().saturating_add(waiting.flights.len());
        if count == 0 {
            return true;
        }
        let ahead = self.bytes().saturating_add(waiting.bytes());
        count < most && ahead.saturating_add(size) <= MOST_BYTES
    }

    /// Returns how many bytes the lines have.
    fn bytes(&self) -> usize {
        let mut bytes = 0;
        for flight in &self.flights {
            bytes = flight.line.len().saturating_add(bytes);
        }
        bytes
    }

    /// Returns the requests as a vector.
    pub fn into_list(self) -> Vec<Flight>
        ensures { result ≡ self.flights }
    {
        self.flights
    }

    /// Returns whether the same call is in flight: the same operation on the same object.
    pub fn has(&self, request: &Request) -> bool
        ensures { result ≡ has_call (asked request.now) self.now.flights.items }
    {
        for flight in &self.flights {
            if is_call(request, &flight.request) {
                return true;
            }
        }
        false
    }

    /// Takes memory for more requests, so that adding as many doesn't fail.
    ///
    /// # Errors
    ///
    /// Fails only if memory runs out. The requests stay as they are.
    pub fn reserve(&mut self, additional: usize) -> Result<(), AllocError>
        ensures same { self.new.flights.items ≡ self.old.flights.items }
        ensures room { OnOk result (length self.new.flights.items + additional ≤ vec_capacity self.new.flights) }
    {
        self.flights.reserve(additional)
    }

    /// Adds a request at the end.
    ///
    /// # Errors
    ///
    /// Fails only if memory runs out.
    pub fn add(&mut self, flight: Flight) -> Result<(), AllocError>
        ensures { OnOk result (self.new.flights.items ≡ self.old.flights.items ++ flight ∷ []) }
    {
        self.flights.push(flight)?;
        Ok(())
    }

    /// Adds a request at the end, for which there has to be memory (`reserve`).
    pub fn add_reserved(&mut self, flight: Flight)
        requires { length self.old.flights.items < vec_capacity self.old.flights }
        ensures added { self.new.flights.items ≡ self.old.flights.items ++ flight ∷ [] }
        ensures capacity { vec_capacity self.old.flights ≤ vec_capacity self.new.flights }
    {
        if self.flights.push(flight).is_err() {
            unreachable!();
        }
    }

    /// Returns the place of the request of this number, if it is in flight to this provider. Several such requests have the place of
    /// the first one.
    pub fn place_of(&self, provider: usize, id: u64) -> Option<usize>
        ensures { MatchOption result (list_any (is_numbered provider id) self.now.flights.items ≡ false)
            (λ place. (place < length self.now.flights.items) × ((d : Flight) → ((slice_index_or self.now.flights.items place d).id ≡ id) × ((slice_index_or self.now.flights.items place d).provider ≡ provider))) }
    {
        for (place, flight) in self.flights.iter().enumerate() {
            if flight.id == id && flight.provider == provider {
                return Some(place);
            }
        }
        None
    }

    /// Takes out the request at a place. The others stay, in their order.
    pub fn take(&mut self, place: usize) -> Flight
        requires { place < length self.old.flights.items }
        ensures taken { result ≡ slice_index_or self.old.flights.items place result }
        ensures others { self.new.flights.items ≡ remove self.old.flights.items place }
    {
        self.flights.remove(place)
    }

    /// Returns the provider that the first request in flight was sent to, but for those that are lost.
    pub fn next_provider(&self, lost: &[bool]) -> Option<usize>
        ensures { result ≡ next_provider lost.now self.now.flights.items }
    {
        for flight in &self.flights {
            if lost.get(flight.provider) == Some(&false) {
                return Some(flight.provider);
            }
        }
        None
    }
}

/// Returns whether two requests are the same call.
fn is_call(one: &Request, other: &Request) -> bool
    ensures { result ≡ is_call (asked one.now) (asked other.now) }
{
    one.op == other.op
        && one.address.as_str() == other.address.as_str()
        && is_same_text(&one.deposed, &other.deposed)
}
