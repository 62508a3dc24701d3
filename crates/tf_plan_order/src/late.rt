//! Which resources are late.

ghost use Rattle.std.specs.Prelude.{◌≡◌, ◌≤◌, ◌<◌, ◌+◌, ◌↔◌, ℕ, true, IfOk, OnOk, length, vec_len, Contains};
ghost use Rattle.tf_graph.specs.NodeSet.{has};
ghost use Rattle.tf_graph.specs.Path.{HasEdge};
ghost use Rattle.tf_plan_order.specs.Late.{AreLate};
ghost use Rattle.tf_plan_order.specs.Spread.{IsFurther, unfound};

use std::alloc::{AllocError, Global};
use tf_graph::Graph;

/// Computes for each resource whether it is late: it is marked, or a marked one needs it or needed it when it was made,
/// directly or through others. The replacement of an object of a late resource is created before that object is
/// destroyed.
///
/// Both graphs lead from what is needed to what needs it: `needs` by the configuration, and `needed` by the
/// dependencies that the state has stored. The marked resources have `create_before_destroy`.
///
/// # Errors
///
/// Fails only if memory runs out.
pub fn lateness(
    alloc: Global,
    needs: &Graph,
    needed: &Graph,
    marked: &[bool],
) -> Result<Vec<bool>, AllocError>
    requires needs { needs.now.nodes ≤ length marked.now }
    requires needed { needed.now.nodes ≤ length marked.now }
    ensures length { IfOk result (λ late. length late.items ≡ length marked.now) }
    ensures late { IfOk result (λ late. AreLate needs.now needed.now marked.now late.items) }
{
    let mut search = LateSearch {
        late: Vec::from_slice(alloc, marked)?,
        pending: places_of(alloc, marked)?,
    };
    while let Some(resource) = search.pending.pop() {
        visit(needs, &mut search, resource)?;
        visit(needed, &mut search, resource)?;
    }
    Ok(search.late)
}

/// Returns the marked places.
fn places_of(alloc: Global, marked: &[bool]) -> Result<Vec<usize>, AllocError>
    ensures { IfOk result (λ places. (n : ℕ) → Contains places.items n ↔ (has marked.now n ≡ true)) }
{
    let mut places = Vec::new(alloc);
    for place in 0..marked.len() {
        if marked[place] {
            places.push(place)?;
        }
    }
    Ok(places)
}

/// A search for late resources.
#[derive(Drop)]
struct LateSearch {
    /// For each resource whether it is known to be late.
    late: Vec<bool>,
    /// The late ones whose own needs haven't been searched yet.
    pending: Vec<usize>,
}

/// Marks what a resource needs directly, by one of the graphs, as late.
fn visit(graph: &Graph, search: &mut LateSearch, resource: usize) -> Result<(), AllocError>
    requires { graph.now.nodes ≤ length search.old.late.items }
    ensures further { OnOk result (IsFurther search.old.late.items search.new.late.items search.old.pending.items search.new.pending.items
        (λ n. HasEdge graph.now n resource)) }
    ensures found { OnOk result ((n : ℕ) → HasEdge graph.now n resource → has search.new.late.items n ≡ true) }
    ensures smaller { OnOk result (unfound search.new.late.items + vec_len search.new.pending
        ≤ unfound search.old.late.items + vec_len search.old.pending) }
{
    if resource >= graph.nodes() {
        return Ok(());
    }
    for needed in graph.predecessors(resource) {
        find(search, *needed)?;
    }
    Ok(())
}

/// Marks a resource as late, and adds it to the pending ones if it is new.
fn find(search: &mut LateSearch, resource: usize) -> Result<(), AllocError>
    requires { resource < length search.old.late.items }
    ensures further { OnOk result (IsFurther search.old.late.items search.new.late.items search.old.pending.items search.new.pending.items
        (λ n. n ≡ resource)) }
    ensures found { OnOk result (has search.new.late.items resource ≡ true) }
    ensures smaller { OnOk result (unfound search.new.late.items + vec_len search.new.pending
        ≤ unfound search.old.late.items + vec_len search.old.pending) }
{
    if !search.late[resource] {
        search.pending.push(resource)?;
        search.late[resource] = true;
    }
    Ok(())
}
