//! The walk that cells belong to.

ghost use Rattle.std.specs.Prelude.{ℕ, List, []};
ghost use Rattle.atomic_table.specs.Seated.{TableId};
ghost use Rattle.tf_plan_data.specs.Plan.{PlanView};
ghost use Rattle.tf_provider_protocol.specs.Meaning.{Meaning};
ghost use Rattle.tf_walk_workers.specs.NoPlan.{no_plan, no_table};

use std::marker::Brand;

/// The walk that cells belong to, as plain data: the providers' meanings, the plan, the tally of
/// its calls, and the mark of the flag that stops it. Only contracts use it. The call
/// that starts a walk chooses it.
pub trait WalkBrand {
    ghost meanings: { List Meaning };

    ghost plan: { PlanView };

    ghost table: { TableId };

    ghost flag: { ℕ };
}

/// The default, if no call chooses another: no provider, and nothing to do.
impl WalkBrand for Brand {
    ghost meanings = { [] };

    ghost plan = { no_plan };

    ghost table = { no_table };

    ghost flag = { 0 };
}
