//! The rule of the shared claims as their table keeps it, and what each step ensures.

ghost use Rattle.std.specs.Prelude.{ℕ, []};
ghost use Rattle.tf_graph.specs.Digraph.{Digraph};
ghost use Rattle.tf_claim.specs.Plays.{Looks, Counts, Takes, Ends, Releases, Rests};

use crate::seat::View;
use atomic_table::{Join, Play, Split, TableRule};
use std::marker::{Brand, PhantomData};
use tf_graph::Graph;

/// The rule that the table keeps about a graph.
pub struct Law;

impl TableRule<(), View, Graph> for Law {
    ghost use Rattle.tf_claim.specs.Claims.{Holds};
    ghost use Rattle.tf_claim.specs.Views.{first_view};

    ghost holds = { λ g. Holds g };

    ghost first = { λ _. first_view };
}

/// What a step is about, for its proof alone: the graph, and an action or an edge of it.
pub trait About {
    ghost graph: { Digraph };

    ghost number: { ℕ };
}

impl About for Brand {
    ghost graph = { record { nodes = 0; edges = [] } };

    ghost number = { 0 };
}

/// A load of an action's word.
pub struct Look<B>(PhantomData<B>);

impl<B: About> Play<(), View> for Look<B> {
    ghost then = { Looks B.graph B.number };
}

/// A load of an action's count.
pub struct Count<B>(PhantomData<B>);

impl<B: About> Play<(), View> for Count<B> {
    ghost then = { Counts B.graph B.number };
}

/// One exchange of an action's word, from free to taken.
pub struct Take<B>(PhantomData<B>);

impl<B: About> Play<(), View> for Take<B> {
    ghost then = { Takes B.graph B.number };
}

/// A store of done in an action's word.
pub struct End<B>(PhantomData<B>);

impl<B: About> Play<(), View> for End<B> {
    ghost then = { Ends B.graph B.number };
}

/// A subtraction of one from the count of an edge's target.
pub struct Release<B>(PhantomData<B>);

impl<B: About> Play<(), View> for Release<B> {
    ghost then = { Releases B.graph B.number };
}

/// A load that ensures only that the rule holds.
pub struct Rest<B>(PhantomData<B>);

impl<B: About> Play<(), View> for Rest<B> {
    ghost then = { Rests B.graph };
}

/// A split: the new seat begins with half of the old one's part and nothing else, and the old one keeps the rest.
pub struct Another;

impl Split<View> for Another {
    ghost use Rattle.tf_claim.specs.Views.{halved, split_off};

    ghost left = { halved };

    ghost right = { split_off };
}

/// A join: a seat takes over what another has seen and done.
pub struct Together;

impl Join<View> for Together {
    ghost use Rattle.tf_claim.specs.Views.{both, nothing};

    ghost both = { both };

    ghost spent = { nothing };
}
