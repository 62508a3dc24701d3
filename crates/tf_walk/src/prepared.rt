//! What a walk on one thread allocates before the first call.

ghost use Rattle.std.specs.Prelude.{IfOk};
ghost use Rattle.tf_plan_data.specs.Fits.{FitsTogether};
ghost use Rattle.tf_walk.specs.Prepared.{IsPrepared};

use std::alloc::{AllocError, Global};
use tf_claim::Book;
use tf_config_names::Declarations;
use tf_plan_data::Plan;
use tf_provider::Journal;
use tf_walk_action::{ActionResult, not_ended};
use tf_walk_report::{ReportBuffers, reserve_report};

/// Everything that the report on a plan needs memory for, the names of its configuration, and the claims on its actions. It can't
/// be dropped, since its results will hold what can't be dropped.
pub struct Prepared<'p> {
    pub names: Declarations<'p>,
    pub book: Book,
    pub journal: Journal,
    pub buffers: ReportBuffers<'p>,
    pub results: Vec<Option<ActionResult>>,
}

/// Allocates everything for the report on a plan. It isn't given a provider, so it calls none.
///
/// # Errors
///
/// Only if memory runs out.
pub fn prepare(alloc: Global, plan: &Plan) -> Result<Prepared<'_>, AllocError>
    requires { FitsTogether plan.now }
    ensures { IfOk result (IsPrepared plan.now) }
{
    let order = plan.order.graph();
    let names = Declarations::new(alloc, &plan.config, &plan.dependence)?;
    let book = Book::new(alloc, order)?;
    let journal = Journal::with_room(alloc, order)?;
    let results = Vec::with_capacity(alloc, order.nodes())?;
    let Ok(buffers) = reserve_report(alloc, plan, &names) else {
        results.destroy_empty();
        return Err(AllocError);
    };
    Ok(Prepared {
        names,
        book,
        journal,
        buffers,
        results: not_ended(results, order.nodes()),
    })
}
