//! A plan whose parts are known to fit together.

ghost use Rattle.std.specs.Prelude.{◌≡◌};

use crate::plan::Plan;
use std::marker::Model;
use tf_graph::Graph;

/// A plan as the planner makes it. Its parts fit together, which is this type's invariant (`FitsTogether`), so a function that
/// carries a plan out doesn't require it. Contracts see the plan itself.
#[derive(Drop)]
pub struct Planned {
    /// The plan.
    pub plan: Plan,
}

impl Model for Planned {
    ghost use Rattle.tf_plan_data.specs.Fits.{FitsTogether};
    ghost use Rattle.tf_plan_data.specs.contracts.plan.Plan as held;
    ghost use Rattle.tf_plan_data.specs.declared.plan.Plan.{Plan};

    ghost Value = { Plan };

    ghost coded = { held.the_row.coded };

    ghost view = { λ p. p.plan };

    ghost invariant = { λ p. FitsTogether p.plan };
}

impl Planned {
    /// Returns the graph of the actions. An edge `(a, b)` says that action a is before action b: each such pair is one edge.
    pub fn graph(&self) -> &Graph
        ensures { result.now ≡ self.now.order }
    {
        self.plan.order.graph()
    }
}
