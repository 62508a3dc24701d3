//! A provider that prints progress lines for its calls.

ghost use Rattle.std.specs.Prelude.{◌≡◌, IfSome};
ghost use Rattle.tf_provider_protocol.specs.Meaning.{answered, asked};

use crate::elapsed::Watch;
use crate::lines::{begun_line, ended_line, ended_well};
use crate::screen::Screen;
use crate::status::{StatusLine, above};
use std::alloc::{AllocError, Global};
use std::rt::Clock;
use std::sync::Arc;
use tf_provider_protocol::{Provider, Reply, Request, Schema};

/// A provider wrapper that prints a line on a screen when a call begins and ends. Without a screen it prints nothing.
/// Lines that cannot be allocated are skipped. If the screen is a terminal, there may be a status line below the lines.
#[derive(Drop)]
pub struct Progress<P: Provider, S: Screen, C: Clock + Drop> {
    alloc: Global,
    screen: Option<S>,
    status: Option<Arc<StatusLine>>,
    clock: C,
    provider: P,
}

impl<P: Provider, S: Screen, C: Clock + Drop> Progress<P, S, C> {
    /// Wraps a provider, with a screen and a clock.
    pub fn new(alloc: Global, screen: Option<S>, clock: C, provider: P) -> Progress<P, S, C>
        ensures { ⟦<Progress<P, S, C> as Provider>⟧.meaning result ≡ P.meaning provider }
    {
        Progress {
            alloc,
            screen,
            status: None,
            clock,
            provider,
        }
    }

    /// Adds a status line, which the screen has to be a terminal for. The providers of a program share one. `None` adds
    /// nothing.
    pub fn with_status(self, status: Option<Arc<StatusLine>>) -> Progress<P, S, C>
        ensures { ⟦<Progress<P, S, C> as Provider>⟧.meaning result ≡ ⟦<Progress<P, S, C> as Provider>⟧.meaning self }
    {
        let Progress {
            alloc,
            screen,
            status: _,
            clock,
            provider,
        } = self;
        Progress {
            alloc,
            screen,
            status,
            clock,
            provider,
        }
    }

    /// Calls the provider, and prints a line on the screen before and after the call.
    fn apply_before(&self, screen: &S, request: &Request) -> Reply
        ensures { IfSome (answered result) (λ a. a ≡ (P.meaning self.now.provider).answer (asked request.now)) }
    {
        let number = self.show_begun(screen, request);
        let watch = Watch::start(&self.clock);
        let reply = self.provider.apply(request);
        let seconds = watch.seconds(&self.clock);
        self.show_ended(screen, request, &reply, seconds, number);
        reply
    }

    /// Prints that a call begins. Returns its number, if it is among those of the status line.
    fn show_begun(&self, screen: &S, request: &Request) -> Option<u64> {
        let line = begun_line(self.alloc, request);
        let Some(status) = &self.status else {
            show(screen, line);
            return None;
        };
        let Some(mut calls) = status.locked() else {
            show(screen, above(self.alloc, line));
            return None;
        };
        let number = calls.begin(self.alloc, &self.clock, request).ok();
        show(screen, calls.page(self.alloc, &self.clock, line));
        number
    }

    /// Prints that a call of this number ended.
    fn show_ended(
        &self,
        screen: &S,
        request: &Request,
        reply: &Reply,
        seconds: Option<u64>,
        number: Option<u64>,
    ) {
        let line = ended_line(self.alloc, request, reply, seconds);
        let Some(status) = &self.status else {
            show(screen, line);
            return;
        };
        let Some(mut calls) = status.locked() else {
            show(screen, above(self.alloc, line));
            return;
        };
        calls.end(number, ended_well(request.op, reply));
        show(screen, calls.page(self.alloc, &self.clock, line));
    }
}

impl<P: Provider, S: Screen, C: Clock + Drop> Provider for Progress<P, S, C> {
    ghost meaning = { λ progress. P.meaning progress.provider };

    fn schema(&self, type_name: &str) -> Option<&Schema> {
        self.provider.schema(type_name)
    }

    fn apply(&self, request: &Request) -> Reply {
        match &self.screen {
            Some(screen) => self.apply_before(screen, request),
            None => self.provider.apply(request),
        }
    }
}

/// Shows a text, if there was memory for it.
fn show<S: Screen>(screen: &S, text: Result<String, AllocError>) {
    if let Ok(text) = text {
        screen.show(text.as_str());
    }
}
