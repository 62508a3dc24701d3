//! The end of an action: its result is published, then it is reported as done, and then the edges out of it are released. Each
//! of these steps takes what only the one before it returns.

ghost use Rattle.std.specs.Prelude.{◌≡◌, ◌<◌, ◌≤◌, ℕ, [], IfSome, length};
ghost use Rattle.tf_claim.specs.Views.{MayLetGo, Owes};
ghost use Rattle.tf_graph.specs.Digraph.{source};
ghost use Rattle.tf_walk_action.specs.Words.{IsByFlag};
ghost use Rattle.tf_walk_workers.specs.Calls.{HasParts, reported_by};
ghost use Rattle.tf_walk_workers.specs.Ideal.{IsEndOf};

use crate::call_record::CallRecord;
use crate::calls::ActionEnd;
use crate::cells::{Cells, Unpublished};
use crate::walk_brand::WalkBrand;
use std::marker::Model;
use std::sync::Wait;
use std::thread;
use tf_claim::{Claims, Finished, Listener, Permit, Seat};
use tf_graph::Graph;
use tf_tally::Part;
use tf_walk_action::ActionResult;

/// The right to report an action as done whose result is published, once. Only `publish` creates it, and it can be neither copied
/// nor dropped. Contracts see the action's number.
pub struct Published {
    finished: Finished,
}

impl Model for Published {
    ghost Value = { ℕ };

    ghost view = { λ published. published.finished };
}

/// The duty to release the edges out of an action that is reported as done. Only [`WalkClaims::finish`] creates it, and it can be
/// neither copied nor dropped. Contracts see the action's number.
pub(crate) struct Owing {
    action: usize,
}

impl Model for Owing {
    ghost Value = { ℕ };

    ghost view = { λ owing. owing.action };
}

/// The claims on a plan's actions, as the workers of a walk use them: an action is reported as done only after its result is
/// published, and the edges out of it are released then. Contracts see the claims.
#[derive(Drop)]
pub struct WalkClaims<'a> {
    claims: &'a Claims,
}

impl<'a> Model for WalkClaims<'a> {
    ghost use Rattle.tf_claim.specs.Claims.{Shared};

    ghost Value = { Shared };

    ghost view = { λ c. c.claims.now };
}

impl<'a> WalkClaims<'a> {
    /// Wraps the claims of a walk.
    pub fn of(claims: &'a Claims) -> WalkClaims<'a>
        ensures { result ≡ claims.now }
    {
        WalkClaims { claims }
    }

    /// Returns the graph of the actions.
    pub(crate) fn graph(&self) -> &Graph
        ensures { result.now ≡ self.now.graph }
    {
        self.claims.graph()
    }

    /// Claims an action, as [`Claims::claim`] does.
    pub(crate) fn claim(&self, seat: &mut Seat, action: usize) -> Option<Permit>
        requires seat { seat.old.table ≡ self.now.table }
        requires action { action < self.now.graph.nodes }
        ensures table { seat.new.table ≡ seat.old.table }
        ensures claimed { IfSome result (λ permit. (permit ≡ action) × Owes self.now.graph action seat.new.view) }
    {
        match self.claims.claim(seat, action) {
            Some(permit) => Some(permit),
            None => None,
        }
    }

    /// Reports as done an action that this seat claimed and hasn't finished, and whose result is published. The edges out of it
    /// have to be released then.
    pub(crate) fn finish(&self, seat: &mut Seat, published: Published) -> Owing
        requires seat { seat.old.table ≡ self.now.table }
        requires owed { Owes self.now.graph published seat.old.view }
        ensures table { seat.new.table ≡ seat.old.table }
        ensures action { result ≡ published }
        ensures within { result < self.now.graph.nodes }
        ensures free { (e : ℕ) → e < length self.now.graph.edges → source self.now.graph e ≡ result
            → MayLetGo self.now.graph e seat.new.view }
    {
        let Published { finished } = published;
        let action = finished.action();
        self.claims.finish(seat, finished);
        Owing { action }
    }

    /// Releases each edge out of an action that this seat has finished. The listener, which has heard of nothing yet, hears of
    /// the target of each edge that was the last unreleased one into it.
    pub(crate) fn release<L: Listener>(&self, seat: &mut Seat, owing: Owing, listener: &mut L)
        requires bound { self.now.graph.nodes ≤ L.bound }
        requires none { L.heard listener.old ≡ 0 }
        requires seat { seat.old.table ≡ self.now.table }
        requires action { owing < self.now.graph.nodes }
        requires may { (e : ℕ) → e < length self.now.graph.edges → source self.now.graph e ≡ owing
            → MayLetGo self.now.graph e seat.old.view }
        ensures { seat.new.table ≡ seat.old.table }
    {
        let Owing { action } = owing;
        self.claims.let_go_from(seat, action, listener);
    }

    /// Adds to a seat what another has seen and done, and the other's part.
    pub(crate) fn join_seat(&self, seat: &mut Seat, other: Seat)
        requires seat { seat.old.table ≡ self.now.table }
        requires other { other.table ≡ self.now.table }
        ensures { seat.new.table ≡ seat.old.table }
    {
        self.claims.join_seat(seat, other);
    }
}

/// Publishes the result of an action with the part that reports its call. Returns the right to report the action as done, and the
/// part that its cell had. Waits as long as a result is already published for it.
pub(crate) fn publish<N: WalkBrand, R: Wait>(
    rt: &R,
    cells: &Cells<N>,
    end: ActionEnd,
) -> (Published, Part<CallRecord>)
    requires action { end.finished < cells.now }
    requires own { IsEndOf N.meanings N.plan end.finished end.ended }
    requires flag { IsByFlag N.flag end.ended }
    requires part { HasParts N.table 1 [] (reported_by end.ended) end.part }
    ensures published { result.0 ≡ end.finished }
    ensures part { HasParts N.table 1 [] [] result.1 }
{
    let ActionEnd {
        ended,
        finished,
        part,
    } = end;
    let part = fill_cell(rt, cells, finished.action(), ended, part);
    (Published { finished }, part)
}

/// Publishes the result of an action in its cell with the part that reports its call, and returns the part that the cell had.
/// Tries again as long as a result is already published for it.
fn fill_cell<N: WalkBrand, R: Wait>(
    rt: &R,
    cells: &Cells<N>,
    action: usize,
    ended: ActionResult,
    part: Part<CallRecord>,
) -> Part<CallRecord>
    requires action { action < cells.now }
    requires own { IsEndOf N.meanings N.plan action ended }
    requires part { HasParts N.table 1 [] (reported_by ended) part }
    ensures { HasParts N.table 1 [] [] result }
{
    let mut left = Unpublished { ended, part };
    for _ in rt.forever() {
        let Unpublished { ended, part } = left;
        match cells.publish(action, ended, part) {
            Ok(part) => return part,
            Err(back) => left = back,
        }
        thread::yield_now();
    }
    unreachable!()
}
