//! Configurations whose names are checked, and the values of their variables.

ghost use Rattle.serde_json.specs.Data.{Data};
ghost use Rattle.std.specs.Prelude.{IfErr, IfOk, OnOk, option_map};
ghost use Rattle.tf_cli_inputs.specs.Refusals.{IsConfigurationRefused};
ghost use Rattle.tf_cli_inputs.specs.Texts.{AreNamesGood, AreTheValues, IsRead};
ghost use Rattle.tf_config_data.specs.Words.{config_of, names_of, variables_of};
ghost use Rattle.tf_config_json.specs.Reading.{IsRefused, IsWithinCounts};
ghost use Rattle.tf_config_json.specs.VariablesRead as variables;
ghost use Rattle.tf_config_names.specs.Judging.{RefusesItsNames};
ghost use Rattle.tf_config_names.specs.Needs.{IsAcyclic, IsDependence};
ghost use Rattle.tf_config_refusal.specs.Refusal.{refusal_of};
ghost use Rattle.tf_value_data.specs.Tree.{entries_view};

use std::alloc::Global;
use std::collections::BTreeMap;
use std::marker::Model;
use tf_config_json::{Config, names_are_few, read, read_vars};
use tf_config_names::{Dependence, check_names};
use tf_config_refusal::Refusal;
use tf_value_data::Value;

/// The values of a configuration's variables, by name.
pub type Vars = BTreeMap<String, Value>;

/// The parts of a configuration whose names are checked.
#[derive(Drop)]
pub struct ConfigurationParts {
    /// What the text declares.
    pub config: Config,
    /// Which of its names needs which.
    pub dependence: Dependence,
}

/// A configuration whose names are checked. Its `Dependence` says which of its names needs which, no name needs itself, and
/// the numbers of its blocks are within the limits, which is this type's invariant (`IsChecked`). Contracts see the parts.
#[derive(Drop)]
pub struct Configuration {
    /// The parts.
    pub parts: ConfigurationParts,
}

impl Model for Configuration {
    ghost use Rattle.tf_cli_inputs.specs.Checked.{IsChecked};
    ghost use Rattle.tf_cli_inputs.specs.contracts.configuration.ConfigurationParts as held;
    ghost use Rattle.tf_cli_inputs.specs.declared.configuration.ConfigurationParts.{ConfigurationParts};

    ghost Value = { ConfigurationParts };

    ghost coded = { held.the_row.coded };

    ghost view = { λ c. c.parts };

    ghost invariant = { λ c. IsChecked c.parts };
}

/// Reads a configuration and checks its names.
///
/// # Errors
///
/// Fails with the first of these in the order of tests, or `OutOfMemory`.
/// - What `tf_config_json::read` refuses: 14, 1, 2 and 3.
/// - What `tf_config_names::check_names` refuses: 4 and then 5.
pub fn read_configuration(alloc: Global, text: &[u8]) -> Result<Configuration, Refusal>
    ensures read { IfOk result (λ c. IsRead text.now (config_of c.config)) }
    ensures names { IfOk result (λ c. AreNamesGood (config_of c.config)) }
    ensures refused { IfErr result (λ r. IsConfigurationRefused text.now (refusal_of r)) }
{
    let config = read_config(alloc, text)?;
    let dependence = dependence_of(alloc, &config)?;
    Ok(Configuration {
        parts: ConfigurationParts { config, dependence },
    })
}

/// Reads the values of a configuration's variables: the value in the variables file, if it has one, otherwise the default.
///
/// # Errors
///
/// Fails with what `tf_config_json::read_vars` refuses: 14, 1, 2 and 10; or with `OutOfMemory`.
pub fn read_variables(
    alloc: Global,
    text: Option<&[u8]>,
    configuration: &Configuration,
) -> Result<Vars, Refusal>
    ensures valued { IfOk result (λ values. AreTheValues (option_map (λ s. s.now) text.entry) (config_of configuration.now.config) (entries_view values.entries)) }
    ensures refused { IfErr result (λ r. variables.IsRefused (option_map (λ s. s.now) text.entry) (config_of configuration.now.config).variables (refusal_of r)) }
{
    read_vars(alloc, text, &configuration.parts.config)
}

/// Returns the configuration that a text is.
fn read_config(alloc: Global, text: &[u8]) -> Result<Config, Refusal>
    ensures read { IfOk result (λ config. IsRead text.now (config_of config)) }
    ensures refused { IfErr result (λ r. IsRefused text.now (refusal_of r)) }
{
    read(alloc, text)
}

/// Returns which name of a configuration needs which, if all names are good.
fn dependence_of(alloc: Global, config: &Config) -> Result<Dependence, Refusal>
    requires few { IsWithinCounts (config_of config.now) }
    ensures good { OnOk result (AreNamesGood (config_of config.now)) }
    ensures dependence { IfOk result (IsDependence (names_of (config_of config.now))) }
    ensures acyclic { IfOk result IsAcyclic }
    ensures refused { IfErr result (λ r. RefusesItsNames (config_of config.now) (refusal_of r)) }
{
    names_are_few();
    check_names(alloc, config)
}
