//! The checks of a configuration's names.

ghost use Rattle.std.specs.Prelude.{◌≡◌, ◌≤◌, IfErr, IfOk, OnOk, length};
ghost use Rattle.tf_config_data.specs.Config.{config_of};
ghost use Rattle.tf_config_data.specs.Names.{names_of};
ghost use Rattle.tf_config_names.specs.Judging.{AllAreKnown, RefusesItsNames};
ghost use Rattle.tf_config_names.specs.Needs.{IsAcyclic, IsDependence};
ghost use Rattle.tf_config_refusal.specs.Refusal.{refusal_of};

use crate::cycles::demand_acyclic;
use crate::dependence::Dependence;
use crate::known_names::demand_known_names;
use crate::table::Declarations;
use std::alloc::Global;
use tf_config_data::Config;
use tf_config_refusal::Refusal;

/// Computes which name of a configuration needs which, and checks that each reference is to a known name and no name
/// needs itself.
///
/// # Errors
///
/// Fails with `UnknownName` at the first place in walk order at which an unknown name is referred to or called. If
/// there is no such place, fails with `Cycle` at `configuration` if names need themselves, and lists exactly these.
/// Also fails if memory runs out.
pub fn check_names(alloc: Global, config: &Config) -> Result<Dependence, Refusal>
    requires few { length (names_of (config_of config.now)) ≤ 8000 }
    ensures dependence { IfOk result (IsDependence (names_of (config_of config.now))) }
    ensures known { OnOk result (AllAreKnown (config_of config.now)) }
    ensures acyclic { IfOk result IsAcyclic }
    ensures refused { IfErr result (λ refusal. RefusesItsNames (config_of config.now) (refusal_of refusal)) }
{
    let dependence = Dependence::new(alloc, config)?;
    demand_good_names(alloc, config, &dependence)?;
    Ok(dependence)
}

/// Checks the names of a configuration by their dependence: each reference is to a known name, and no name needs
/// itself.
fn demand_good_names(alloc: Global, config: &Config, dependence: &Dependence) -> Result<(), Refusal>
    requires { IsDependence (names_of (config_of config.now)) dependence.now }
    ensures known { OnOk result (AllAreKnown (config_of config.now)) }
    ensures acyclic { OnOk result (IsAcyclic dependence.now) }
    ensures refused { IfErr result (λ refusal. RefusesItsNames (config_of config.now) (refusal_of refusal)) }
{
    let names = Declarations::new(alloc, config, dependence)?;
    demand_known_names(alloc, config, &names)?;
    demand_acyclic(alloc, &names, dependence)
}
