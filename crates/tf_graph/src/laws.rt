//! Laws of recursion over a relation without cycles. Each is the contract of a function with an empty body.

ghost use Rattle.tf_graph.specs.Solutions.{SolutionIsUnique, SolutionsAreRelated, SolutionExists, AllAreDone, RankedHasNoCycle, OrderedIsRanked};
ghost use Rattle.tf_graph.specs.Closure.{ClosureIsLeast, ReachedIsClosed, AcyclicIsRanked};
ghost use Rattle.tf_graph.specs.Strip.{StripIsEmpty, LeftIsBehindCycle, WholeOrderHoldsAll};
ghost use Rattle.std.specs.Prelude.{ℕ};
ghost use Rattle.tf_graph.specs.Order.{OrderGrows, OrderFollowsPaths};

/// Two solutions of a rule over a ranked relation have the same result at each node.
pub fn solution_is_unique<R>()
    ensures { SolutionIsUnique R }
{}

/// A relation between the results of two rules, at each node.
pub trait Relation<R, S> {
    ghost Related: { ℕ → R → S → Type 0 };
}

/// If two rules over a ranked relation make related results from related ones, their solutions are related at each
/// node.
pub fn solutions_are_related<R, S, T: Relation<R, S>>()
    ensures { SolutionsAreRelated R S T.Related }
{}

/// Each rule over a ranked relation has a solution.
pub fn solution_exists<R>()
    ensures { SolutionExists R }
{}

/// If no node is ready, each is done. So a walk that continues while a node is ready reaches every node.
pub fn all_are_done()
    ensures { AllAreDone }
{}

/// No path over a ranked relation leads back to its start.
pub fn ranked_has_no_cycle()
    ensures { RankedHasNoCycle }
{}

/// A relation has a rank if a strict order holds between each node and the nodes directly before it.
pub fn ordered_is_ranked()
    ensures { OrderedIsRanked }
{}

/// A journal in order stays in order if an entry is added that is new and comes after all nodes directly before it.
pub fn order_grows()
    ensures { OrderGrows }
{}

/// In a journal in order, a node from which a path leads to an entry is entered before it.
pub fn order_follows_paths()
    ensures { OrderFollowsPaths }
{}

/// A closure holds the edges, is transitive, and is the least such relation.
pub fn closure_is_least()
    ensures { ClosureIsLeast }
{}

/// If a reached node has an edge to another node, that one is reached too. If a node has an edge to one that reaches
/// another, it reaches that one too.
pub fn reached_is_closed()
    ensures { ReachedIsClosed }
{}

/// If no node reaches itself by a closure, the nodes directly before a node give a rank.
pub fn acyclic_is_ranked()
    ensures { AcyclicIsRanked }
{}

/// No node of a graph is left exactly if no node reaches itself.
pub fn strip_is_empty()
    ensures { StripIsEmpty }
{}

/// If no node reaches itself, the order of removal holds each node.
pub fn whole_order_holds_all()
    ensures { WholeOrderHoldsAll }
{}

/// A node is left exactly if a node that reaches itself reaches it, or is it.
pub fn left_is_behind_cycle()
    ensures { LeftIsBehindCycle }
{}
