//! The names of outputs.

ghost use Rattle.std.specs.Map.{keys_of};
ghost use Rattle.std.specs.Prelude.{◌≡◌, IfOk, OnOk};
ghost use Rattle.tf_plan_data.specs.Plan.{plan_of};
ghost use Rattle.tf_plan_outputs.specs.Changes.{names_with, output_names};
ghost use Rattle.tf_value_data.specs.Tree.{texts_view};

use std::alloc::{AllocError, Global};
use std::collections::{BTreeMap, BTreeSet};
use tf_plan_data::Plan;

/// Returns the names of the outputs that the configuration declares or the prior state has, each once, in byte order.
pub(crate) fn output_names(alloc: Global, plan: &Plan) -> Result<BTreeSet<String>, AllocError>
    ensures { IfOk result (λ names. texts_view names.keys ≡ output_names (plan_of plan.now)) }
{
    let mut names = BTreeSet::new(alloc);
    add_keys(&mut names, &plan.config.outputs)?;
    add_keys(&mut names, plan.prior.outputs())?;
    Ok(names)
}

/// Adds the keys of a map.
fn add_keys<V>(
    names: &mut BTreeSet<String>,
    entries: &BTreeMap<String, V>,
) -> Result<(), AllocError>
    ensures { OnOk result (texts_view names.new.keys ≡ names_with (texts_view names.old.keys) (texts_view (keys_of entries.now.entries))) }
{
    for key in entries.keys() {
        names.insert(key.clone()?)?;
    }
    Ok(())
}
