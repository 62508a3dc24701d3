//! The expansion of a configuration.

ghost use Rattle.std.specs.Prelude.{◌≡◌, IfErr, IfOk};
ghost use Rattle.tf_config_data.specs.Words.{config_of, names_of};
ghost use Rattle.tf_expand.specs.Expanded.{instances_of, names_expanded};
ghost use Rattle.tf_plan_planner.specs.Planned.{AreInstances};
ghost use Rattle.tf_plan_planner.specs.Refused.{AreUnexpanded, Tells};
ghost use Rattle.tf_value_data.specs.Tree.{entries_view};

use crate::expanded::Expanded;
use std::alloc::Global;
use tf_cli_inputs::{Configuration, Vars};
use tf_config_names::Declarations;
use tf_expand_keys::{InstanceKeys, Module, ModuleParts};
use tf_plan_planner::{Refused, expanded};

/// Computes the instance keys of each resource of a configuration whose variables have these values, as in a plan. It
/// knows of a resource's objects only their number.
///
/// # Errors
///
/// Fails with one refusal, which is the first of these, or with `NoMemory`.
/// - 6, 7, 8 or 9 at `TYPE.NAME`, for the first resource by address whose instances can't be computed, among those that need
///   no such resource: 6 for a bad `count`, 7 for a bad `for_each`, 8 if either isn't known yet, and 9 if it can't be
///   evaluated.
/// - 14 at `configuration`: more than `MAX_INSTANCES` instances.
pub fn expand<'a>(
    alloc: Global,
    configuration: &'a Configuration,
    variables: &Vars,
) -> Result<Expanded<'a>, Refused>
    ensures names { IfOk result (λ found. names_expanded found ≡ names_of (config_of configuration.now.config)) }
    ensures instances { IfOk result (λ found. AreInstances (entries_view variables.now.entries) (names_of (config_of configuration.now.config)) (instances_of found)) }
    ensures refused { IfErr result (Tells (AreUnexpanded (entries_view variables.now.entries) (names_of (config_of configuration.now.config)))) }
{
    let parts = &configuration.parts;
    let names = Declarations::new(alloc, &parts.config, &parts.dependence)?;
    let declared = Module {
        parts: ModuleParts {
            variables,
            names: &names,
            dependence: &parts.dependence,
        },
    };
    let shapes = expanded(alloc, &declared)?;
    Ok(Expanded {
        names,
        shapes,
        single: InstanceKeys::One,
    })
}
