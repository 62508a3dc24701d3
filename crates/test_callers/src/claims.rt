//! Callers of the claims: of the book, and of several seats.

ghost use Rattle.std.specs.Prelude.{◌≡◌, ◌<◌, IsTrue};
ghost use Rattle.tf_claim.specs.Ledger.{is_taken, stage_in};

use std::test::Fail;
use tf_claim::{Book, Claims, Finished, Listener, Seat, waive};
use tf_graph::Graph;

/// Reports to the book an action that was claimed from it.
fn finish(book: &mut Book, finished: Finished)
    requires { IsTrue (is_taken (stage_in book.old.stages finished)) }
    ensures { book.new.graph ≡ book.old.graph }
{
    match book.finish(finished) {
        Ok(()) => {}
        Err(_back) => unreachable!(),
    }
}

/// Claims an action, waives its permit and finishes it. Returns whether it was claimed.
fn is_claimed(book: &mut Book, action: usize) -> bool
    requires { action < book.old.graph.nodes }
    ensures { book.new.graph ≡ book.old.graph }
{
    let Some(permit) = book.claim(action) else {
        return false;
    };
    finish(book, waive(permit));
    true
}

/// Returns whether each of three actions in a row is claimed once, and only after the one before it.
fn follows_the_graph(book: &mut Book) -> bool
    requires { book.old.graph.nodes ≡ 3 }
{
    !book.see(0)
        && !is_claimed(book, 1)
        && is_claimed(book, 0)
        && book.see(0)
        && !is_claimed(book, 0)
        && is_claimed(book, 1)
        && is_claimed(book, 2)
}

#[test]
fn claims_follow_the_graph(rt: HostRuntime) -> Result<(), Fail> {
    let edges = [(0, 1), (1, 2)].as_slice();
    let graph = Graph::new(rt.alloc(), 3, edges)?;
    let mut book = Book::new(rt.alloc(), &graph)?;
    assert!(rt; book.graph().edges() == edges && follows_the_graph(&mut book));
    Ok(())
}

/// Counts the actions that it hears of.
#[derive(Drop)]
struct HeardCount {
    heard: u64,
}

impl Listener for HeardCount {
    ghost bound = { 8000 };

    ghost heard = { λ c. c.heard };

    fn hear(&mut self, _action: usize) {
        self.heard += 1;
    }
}

/// Claims an action, waives its permit, finishes it and releases the edges out of it. Returns how many of these were
/// the last into the action that they lead to, or `None` if it isn't claimed.
fn perform(claims: &Claims, seat: &mut Seat, action: usize) -> Option<u64>
    requires seat { seat.old.table ≡ claims.now.table }
    requires action { action < claims.now.graph.nodes }
    ensures { seat.new.table ≡ seat.old.table }
{
    let Some(permit) = claims.claim(seat, action) else {
        return None;
    };
    let mut count = HeardCount { heard: 0 };
    let _nodes = claims.graph().nodes();
    claims.finish(seat, waive(permit));
    claims.let_go_from(seat, action, &mut count);
    Some(count.heard)
}

/// Returns whether the other seats see what one seat did, of two actions of which the first comes before the second.
fn is_seen(claims: &Claims, first: &mut Seat, second: &mut Seat, third: &mut Seat) -> bool
    requires claims { claims.now.graph.nodes ≡ 2 }
    requires first { first.old.table ≡ claims.now.table }
    requires second { second.old.table ≡ claims.now.table }
    requires third { third.old.table ≡ claims.now.table }
{
    !claims.see(third, 0)
        // The edge is held.
        && perform(claims, second, 1).is_none()
        // It was the last into 1.
        && perform(claims, first, 0) == Some(1)
        // 0 is done.
        && perform(claims, second, 0).is_none()
        // The edge was released.
        && perform(claims, second, 1) == Some(0)
        && claims.see(third, 0)
        && claims.see(third, 1)
}

#[test]
fn seat_sees_other(rt: HostRuntime) -> Result<(), Fail> {
    let graph = Graph::new(rt.alloc(), 2, &[(0, 1)])?;
    let (claims, mut first) = Claims::new(rt.alloc(), &graph)?;
    let mut second = claims.split_seat(&mut first)?;
    let mut third = claims.split_seat(&mut first)?;
    assert!(rt; is_seen(&claims, &mut first, &mut second, &mut third));
    Ok(())
}
