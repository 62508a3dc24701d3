//! The hints of one worker, and how others steal them.

ghost use Rattle.std.specs.Prelude.{◌≡◌, ◌+◌, ◌<◌, ◌≤◌, IfOk, IfSome, MatchBool};

use crate::bound::{Below, HintBound};
use crossbeam_deque::{Steal, Stealer, Worker};
use std::alloc::{AllocError, Global};
use std::marker::Model;
use std::sync::Wait;

/// The hints of one worker.
#[derive(Drop)]
pub struct Hints<B: HintBound> {
    own: Worker<usize, Global, (), Below<B>>,
}

impl<B: HintBound> Model for Hints<B> {
    ghost use Rattle.crossbeam_deque.specs.Handles.{worker_capacity, worker_index};
    ghost use Rattle.tf_walk_workers.specs.HintStock.{HintStock};

    ghost Value = { HintStock };

    ghost view = { λ h. record { room = worker_capacity h.own; height = worker_index h.own } };
}

/// The handle with which any worker steals the hints of one.
#[derive(Drop)]
pub struct HintStealer<B: HintBound> {
    of: Stealer<usize, Global, (), Below<B>>,
}

impl<B: HintBound> Hints<B> {
    /// Allocates an empty list of hints, with space for the given number.
    ///
    /// # Errors
    ///
    /// Fails only if memory runs out.
    pub fn new(alloc: Global, room: usize) -> Result<Hints<B>, AllocError>
        ensures { IfOk result (λ hints. (room ≤ hints.room) × (hints.height ≡ 0)) }
    {
        let own = Worker::lifo_as(alloc, room)?;
        Ok(Hints { own })
    }

    /// Returns a handle with which others steal these hints.
    ///
    /// # Errors
    ///
    /// Fails only if memory runs out.
    pub fn stealer(&self) -> Result<HintStealer<B>, AllocError> {
        let of = self.own.stealer()?;
        Ok(HintStealer { of })
    }

    /// Adds a hint, and returns whether it was added. The hint is lost otherwise, which happens only if all space is
    /// occupied.
    pub fn push(&mut self, hint: usize) -> bool
        requires { hint < B.bound }
        ensures room { self.old.room ≤ self.new.room }
        ensures taken { MatchBool result
            (self.new.height ≡ self.old.height + 1)
            ((self.new.height ≡ self.old.height) × (self.old.room ≤ self.old.height)) }
    {
        self.own.push_as::<Below<B>>(hint).is_ok()
    }

    /// Takes the hint that was added last, if there is one.
    pub fn pop(&mut self) -> Option<usize>
        ensures bound { IfSome result (λ hint. hint < B.bound) }
        ensures room { (self.old.room ≤ self.new.room) × (self.new.height ≤ self.old.height) }
    {
        self.own.pop_as::<Below<B>>()
    }
}

impl<B: HintBound> HintStealer<B> {
    /// Takes the hint that was added first, if there is one. Tries again if another worker was faster. Also returns
    /// `None` if the owner is about to pop the only hint.
    pub fn steal<R: Wait>(&self, rt: &R) -> Option<usize>
        ensures { IfSome result (λ hint. hint < B.bound) }
    {
        let mut pass = self.of.pass();
        for _ in rt.forever() {
            match self.of.steal_as::<Below<B>>(&mut pass) {
                Steal::Success(hint) => return Some(hint),
                Steal::Empty => return None,
                Steal::Retry => {}
            }
        }
        unreachable!()
    }
}
