//! The book of claims for any number of workers, which claim and finish actions by single atomic steps on words,
//! without a lock and without waiting.

ghost use Rattle.std.specs.Prelude.{◌≡◌, ◌<◌, ◌≤◌, ◌+◌, ◌*◌, ◌⊎◌, ◌↔◌, ℕ, false, length, IsTrue, IsOk, IfOk, IfSome, MatchBool, MatchOption, slice_index};
ghost use Rattle.tf_graph.specs.Digraph.{Digraph, source, target};
ghost use Rattle.tf_claim.specs.Views.{first_view, halved, split_off, times, saw, saw_through, knew, took, ended, went, went_all, edges_from, both, steps_of, Owes, MayLetGo, OwnsWayTo, IsWhole};
ghost use Rattle.tf_claim.specs.Claims.{Begins, Stands};
ghost use Rattle.tf_claim.specs.Moments.{IsFresh, WasDone, WasNotDone, WasFree, WasNotFree, WasHeldBack, WasLetThrough};
ghost use Rattle.tf_claim.specs.Told.{Frees, Sees, Tries, Finishes, LetsGo};

use crate::listener::Listener;
use crate::permit::{Finished, Permit};
use crate::rule::{About, Another, Count, End, Law, Look, Release, Rest, Take, Together};
use crate::seat::{Seat, View};
use atomic_table::Table;
use std::alloc::{AllocError, Global};
use std::marker::{Brand, Model};
use tf_graph::Graph;

/// The word of an action that isn't claimed.
const FREE: u64 = 0;
/// The word of an action that is claimed and not finished.
const TAKEN: u64 = 1;
/// The word of an action that is done.
const DONE: u64 = 2;
/// The number of words for each action, of which the first two are its stage and its count. They fill a cache line,
/// so that no two actions share one.
const WORDS_EACH: usize = 8;

/// The claims on a graph's actions, for any number of workers. An action can be claimed once, and only after each
/// edge into it was released by the seat that finished the edge's source. A seat works only with the claims that it
/// came from. Contracts see which claims these are, and the graph. `laws` says what the rule implies for several
/// seats at once.
#[derive(Drop)]
pub struct Claims {
    graph: Graph,
    table: Table<(), View, Graph, Law, Global>,
}

impl Model for Claims {
    ghost use Rattle.std.specs.Prelude.{◌≡◌, ◌+◌, ◌*◌};
    ghost use Rattle.tf_claim.specs.Claims.{Shared, IsSmall};

    ghost Value = { Shared };

    ghost view = { λ c. record { table = c.table.shared.table_id; graph = c.graph } };

    ghost invariant = { λ c. (c.table.shared.key ≡ c.graph)
        × (c.table.shared.table_id.words ≡ c.graph.nodes * 8 + 1)
        × (c.table.shared.table_id.slots ≡ 0)
        × IsSmall c.graph };
}

impl Claims {
    /// Builds the claims on a graph's actions, all of them free, and the first seat, which is the only one: its part
    /// is the whole. The claims keep their own copy of the graph.
    pub fn new(alloc: Global, graph: &Graph) -> Result<(Claims, Seat), AllocError>
        ensures graph { IfOk result (λ made. made.0.graph ≡ graph.now) }
        ensures seat { IfOk result (λ made. (made.1.table ≡ made.0.table) × (made.1.view ≡ first_view)) }
        ensures fresh { IfOk result (λ made. IsFresh made.0.graph made.1.view) }
    {
        let words = first_words(alloc, graph)?;
        let graph = graph.copy(alloc)?;
        let _edges = graph.edges();
        let (table, place) = Table::of_words(alloc, words.as_slice(), &graph)?;
        Ok((Claims { graph, table }, Seat { place, steps: 0 }))
    }

    /// Returns the graph of the actions.
    pub fn graph(&self) -> &Graph
        ensures { result.now ≡ self.now.graph }
    {
        &self.graph
    }

    /// Splits a new seat off, which has seen and done nothing. Each of the two has half of the part that the one had.
    /// Never fails.
    pub fn split_seat(&self, seat: &mut Seat) -> Result<Seat, AllocError>
        requires { seat.old.table ≡ self.now.table }
        ensures same { (seat.new.table ≡ seat.old.table) × (seat.new.view ≡ halved seat.old.view) }
        ensures new { IfOk result (λ new. (new.table ≡ self.now.table) × (new.view ≡ split_off seat.old.view)) }
        ensures ok { IsOk result }
    {
        let place = self.table.shared.split_seat::<Another>(&mut seat.place);
        Ok(Seat { place, steps: 0 })
    }

    /// Returns whether an action is done, by one load. The answer was true in some state that kept the rule and had
    /// the seat's view in it. Always returns true for an action that the seat has seen done or has finished.
    pub fn see(&self, seat: &mut Seat, action: usize) -> bool
        requires seat { seat.old.table ≡ self.now.table }
        requires action { action < self.now.graph.nodes }
        ensures table { seat.new.table ≡ seat.old.table }
        ensures seen { MatchBool result
            (seat.new.view ≡ saw action seat.old.view)
            (seat.new.view ≡ seat.old.view) }
        ensures again { (0 < times action seat.old.view.seen) ⊎ (0 < times action seat.old.view.finished)
            → IsTrue result }
        ensures moment { MatchBool result
            (WasDone self.now.graph action seat.old.view)
            (WasNotDone self.now.graph action seat.old.view) }
        ensures kept { Stands self.now.graph seat.new.view }
    {
        self.see_as::<Brand>(seat, action)
    }

    fn see_as<B: About>(&self, seat: &mut Seat, action: usize) -> bool
        requires about { (B.graph ≡ self.now.graph) × (B.number ≡ action) }
        requires seat { seat.old.table ≡ self.now.table }
        requires action { action < self.now.graph.nodes }
        ensures { Sees self.now.graph action seat.old seat.new result }
    {
        let found = self
            .table
            .shared
            .load::<Look<B>>(&mut seat.place, action * WORDS_EACH);
        found == DONE
    }

    /// Claims an action, by a load of its count and one exchange, and returns its permit. Returns `None` if, at the
    /// load, an edge into the action wasn't released; then the seat learns nothing. Also returns `None` if, at the
    /// exchange, the action wasn't free; then the seat knows that. If the seat itself released each edge into the
    /// action, or there is none, only the second can happen.
    pub fn claim(&self, seat: &mut Seat, action: usize) -> Option<Permit>
        requires seat { seat.old.table ≡ self.now.table }
        requires action { action < self.now.graph.nodes }
        ensures table { seat.new.table ≡ seat.old.table }
        ensures claimed { MatchOption result
            ((seat.new.view ≡ seat.old.view)
            ⊎ (seat.new.view ≡ knew action (saw_through self.now.graph action seat.old.view)))
            (λ permit. (permit ≡ action) × Owes self.now.graph action seat.new.view
            × (seat.new.view ≡ took action (saw_through self.now.graph action seat.old.view))) }
        ensures own { OwnsWayTo self.now.graph action seat.old.view → MatchOption result
            (seat.new.view ≡ knew action (saw_through self.now.graph action seat.old.view))
            (λ _. Unit {0}) }
        ensures moment { MatchOption result
            (((seat.new.view ≡ seat.old.view) × WasHeldBack self.now.graph action seat.old.view)
            ⊎ ((seat.new.view ≡ knew action (saw_through self.now.graph action seat.old.view))
            × WasLetThrough self.now.graph action seat.old.view
            × WasNotFree self.now.graph action (saw_through self.now.graph action seat.old.view)))
            (λ _. WasLetThrough self.now.graph action seat.old.view
            × WasFree self.now.graph action (saw_through self.now.graph action seat.old.view)) }
        ensures kept { Stands self.now.graph seat.new.view }
    {
        self.claim_as::<Brand>(seat, action)
    }

    fn claim_as<B: About>(&self, seat: &mut Seat, action: usize) -> Option<Permit>
        requires about { (B.graph ≡ self.now.graph) × (B.number ≡ action) }
        requires seat { seat.old.table ≡ self.now.table }
        requires action { action < self.now.graph.nodes }
        ensures { Tries self.now.graph action seat.old seat.new result }
    {
        if self.is_held_back::<B>(seat, action) || !self.takes::<B>(seat, action) {
            return None;
        }
        Some(Permit::of(action))
    }

    /// Returns whether an edge into an action isn't yet released, by one load of its count.
    fn is_held_back<B: About>(&self, seat: &mut Seat, action: usize) -> bool
        requires about { (B.graph ≡ self.now.graph) × (B.number ≡ action) }
        requires seat { seat.old.table ≡ self.now.table }
        requires action { action < self.now.graph.nodes }
        ensures table { seat.new.table ≡ seat.old.table }
        ensures seen { MatchBool result
            (seat.new.view ≡ seat.old.view)
            (seat.new.view ≡ saw_through self.now.graph action seat.old.view) }
        ensures own { OwnsWayTo self.now.graph action seat.old.view → result ≡ false }
        ensures moment { MatchBool result
            (WasHeldBack self.now.graph action seat.old.view)
            (WasLetThrough self.now.graph action seat.old.view) }
        ensures kept { Stands self.now.graph seat.new.view }
    {
        let count = self
            .table
            .shared
            .load::<Count<B>>(&mut seat.place, action * WORDS_EACH + 1);
        count != 0
    }

    /// Marks an action as taken, by one exchange, and returns whether it was free. The seat has found each edge into
    /// it released.
    fn takes<B: About>(&self, seat: &mut Seat, action: usize) -> bool
        requires about { (B.graph ≡ self.now.graph) × (B.number ≡ action) }
        requires seat { seat.old.table ≡ self.now.table }
        requires action { action < self.now.graph.nodes }
        requires ready { 0 < times action seat.old.view.let_through }
        ensures table { seat.new.table ≡ seat.old.table }
        ensures taken { MatchBool result
            ((seat.new.view ≡ took action seat.old.view) × Owes self.now.graph action seat.new.view)
            (seat.new.view ≡ knew action seat.old.view) }
        ensures moment { MatchBool result
            (WasFree self.now.graph action seat.old.view)
            (WasNotFree self.now.graph action seat.old.view) }
        ensures kept { Stands self.now.graph seat.new.view }
    {
        let found = self
            .table
            .shared
            .compare_exchange::<Take<B>>(&mut seat.place, action * WORDS_EACH, FREE, TAKEN);
        if found != FREE {
            return false;
        }
        seat.steps += 1;
        true
    }

    /// Reports as done an action that this seat claimed and hasn't finished, by one store. Then each edge out of it
    /// may be released.
    pub fn finish(&self, seat: &mut Seat, finished: Finished)
        requires seat { seat.old.table ≡ self.now.table }
        requires owed { Owes self.now.graph finished seat.old.view }
        ensures table { seat.new.table ≡ seat.old.table }
        ensures ended { seat.new.view ≡ ended finished seat.old.view }
        ensures free { (e : ℕ) → e < length self.now.graph.edges → source self.now.graph e ≡ finished
            → MayLetGo self.now.graph e seat.new.view }
        ensures kept { Stands self.now.graph seat.new.view }
    {
        self.finish_as::<Brand>(seat, finished)
    }

    fn finish_as<B: About>(&self, seat: &mut Seat, finished: Finished)
        requires about { (B.graph ≡ self.now.graph) × (B.number ≡ finished) }
        requires seat { seat.old.table ≡ self.now.table }
        requires owed { Owes self.now.graph finished seat.old.view }
        ensures { Finishes self.now.graph finished seat.old seat.new }
    {
        self.table
            .shared
            .store::<End<B>>(&mut seat.place, finished.action() * WORDS_EACH, DONE);
        seat.steps += 1;
        finished.close();
    }

    /// Releases an edge, given by its index in the graph's list, by one `fetch_sub` on the count of the edge's
    /// target. The seat has finished the edge's source and hasn't released the edge. Returns whether it was the last
    /// unreleased edge into its target.
    pub fn let_go(&self, seat: &mut Seat, edge: usize) -> bool
        requires seat { seat.old.table ≡ self.now.table }
        requires may { MayLetGo self.now.graph edge seat.old.view }
        ensures table { seat.new.table ≡ seat.old.table }
        ensures went { seat.new.view ≡ went edge seat.old.view }
        ensures moment { MatchBool result
            (WasLetThrough self.now.graph (target self.now.graph edge) seat.new.view)
            (WasHeldBack self.now.graph (target self.now.graph edge) seat.new.view) }
        ensures kept { Stands self.now.graph seat.new.view }
    {
        self.let_go_as::<Brand>(seat, edge)
    }

    /// Releases each edge out of an action, in the order of the graph's list. The seat has finished the action and
    /// has released none of these edges. The listener, which has heard of nothing yet, hears of the target of each
    /// edge that was the last unreleased one into it. Takes time linear in the number of edges.
    pub fn let_go_from<L: Listener>(&self, seat: &mut Seat, action: usize, listener: &mut L)
        requires bound { self.now.graph.nodes ≤ L.bound }
        requires none { L.heard listener.old ≡ 0 }
        requires seat { seat.old.table ≡ self.now.table }
        requires action { action < self.now.graph.nodes }
        requires may { (e : ℕ) → e < length self.now.graph.edges → source self.now.graph e ≡ action
            → MayLetGo self.now.graph e seat.old.view }
        ensures table { seat.new.table ≡ seat.old.table }
        ensures went { seat.new.view ≡ went_all (edges_from self.now.graph action) seat.old.view }
        ensures heard { Frees self.now.graph (edges_from self.now.graph action) seat.old.view (L.heard listener.new) }
    {
        let next = self.graph.successors(action);
        for place in 0..next.len() {
            if self.let_go_out_as::<Brand>(seat, action, place) {
                listener.hear(next[place]);
            }
        }
    }

    /// Releases the edge that the step is about.
    fn let_go_as<B: About>(&self, seat: &mut Seat, edge: usize) -> bool
        requires about { (B.graph ≡ self.now.graph) × (B.number ≡ edge) }
        requires seat { seat.old.table ≡ self.now.table }
        requires may { MayLetGo self.now.graph edge seat.old.view }
        ensures { LetsGo self.now.graph edge seat.old seat.new result }
    {
        let (_, action) = self.graph.edges()[edge];
        self.release::<B>(seat, action)
    }

    /// Releases the edge at a place among those out of an action.
    fn let_go_out_as<B: About>(&self, seat: &mut Seat, action: usize, place: usize) -> bool
        requires about { (B.graph ≡ self.now.graph)
            × (B.number ≡ slice_index (edges_from self.now.graph action) place) }
        requires seat { seat.old.table ≡ self.now.table }
        requires action { action < self.now.graph.nodes }
        requires place { place < length (edges_from self.now.graph action) }
        requires may { MayLetGo self.now.graph (slice_index (edges_from self.now.graph action) place) seat.old.view }
        ensures { LetsGo self.now.graph (slice_index (edges_from self.now.graph action) place) seat.old seat.new result }
    {
        let next = self.graph.successors(action)[place];
        self.release::<B>(seat, next)
    }

    /// Takes one from the count of an edge's target, and returns whether it was the last.
    fn release<B: About>(&self, seat: &mut Seat, action: usize) -> bool
        requires about { (B.graph ≡ self.now.graph) × (target self.now.graph B.number ≡ action) }
        requires seat { seat.old.table ≡ self.now.table }
        requires action { action < self.now.graph.nodes }
        requires may { MayLetGo self.now.graph B.number seat.old.view }
        ensures { LetsGo self.now.graph B.number seat.old seat.new result }
    {
        let found = self
            .table
            .shared
            .fetch_sub::<Release<B>>(&mut seat.place, action * WORDS_EACH + 1, 1);
        seat.steps += 1;
        found == 1
    }

    /// Adds to a seat what another has seen and done, and the other's part.
    pub fn join_seat(&self, seat: &mut Seat, other: Seat)
        requires seat { seat.old.table ≡ self.now.table }
        requires other { other.table ≡ self.now.table }
        ensures table { seat.new.table ≡ seat.old.table }
        ensures both { seat.new.view ≡ both seat.old.view other.view }
        ensures kept { Stands self.now.graph seat.new.view }
    {
        self.join_seat_as::<Brand>(seat, other)
    }

    fn join_seat_as<B: About>(&self, seat: &mut Seat, other: Seat)
        requires about { B.graph ≡ self.now.graph }
        requires seat { seat.old.table ≡ self.now.table }
        requires other { other.table ≡ self.now.table }
        ensures table { seat.new.table ≡ seat.old.table }
        ensures both { seat.new.view ≡ both seat.old.view other.view }
        ensures kept { Stands self.now.graph seat.new.view }
    {
        let Seat { place, steps } = other;
        self.table
            .shared
            .join_seat::<Together>(&mut seat.place, place);
        self.table.shared.load::<Rest<B>>(&mut seat.place, 0);
        seat.steps += steps;
    }

    /// Returns how many steps of a seat changed something: its claims, the actions that it finished and the edges
    /// that it released.
    pub fn steps(&self, seat: &Seat) -> u64
        ensures { result ≡ steps_of seat.now.view }
    {
        seat.steps
    }

    /// Ends the claims, and returns whether this seat, with all that were joined to it, claimed and finished every
    /// action once and released every edge once. This is so exactly if its steps are the number of edges plus twice
    /// the number of actions.
    pub fn close(self, seat: Seat) -> bool
        requires { seat.table ≡ self.table }
        ensures whole { IsTrue result ↔ IsWhole self.graph seat.view }
        ensures steps { IsTrue result
            ↔ (steps_of seat.view ≡ length self.graph.edges + 2 * self.graph.nodes) }
        ensures kept { Stands self.graph seat.view }
    {
        let Claims { graph, table } = self;
        let Seat { place, steps } = seat;
        let all = graph.edge_count() + 2 * graph.nodes();
        table.close_with(place).free();
        steps == all as u64
    }
}

/// Builds the words before any action is claimed: each action is free, and its count is the number of edges into it.
fn first_words(alloc: Global, graph: &Graph) -> Result<Vec<u64>, AllocError>
    ensures { IfOk result (λ words. Begins graph.now words.items) }
{
    let mut words = vec![in alloc; FREE; graph.nodes() * WORDS_EACH + 1]?;
    for action in 0..graph.nodes() {
        words[action * WORDS_EACH + 1] = graph.predecessors(action).len() as u64;
    }
    Ok(words)
}
