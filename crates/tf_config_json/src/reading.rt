ghost use Rattle.serde_json.specs.View.{view, members_view};
ghost use Rattle.serde_json.specs.Data.{Data};
ghost use Rattle.std.specs.Prelude.{◌<◌, ◌≤◌, ◌∷◌, [], length, IfErr, IfOk, OnOk};
ghost use Rattle.tf_config_json.specs.Config.{plain_config};
ghost use Rattle.tf_config_json.specs.Building.{AddsSection, BuildsConfiguration};
ghost use Rattle.tf_config_json.specs.Configuration.{below, configuration_checks, section_checks, whole_file, IsConfiguration};
ghost use Rattle.tf_config_json.specs.Demand.{Refuses, TellsAt};
ghost use Rattle.tf_config_json.specs.Reading.{max_bytes, max_declared, IsRefused, IsTree, IsWithinCounts, TellsNotJson};
ghost use Rattle.tf_config_data.specs.Config.{config_of};
ghost use Rattle.tf_config_refusal.specs.Place.{dotted, place_of};
ghost use Rattle.tf_config_refusal.specs.Walk.{each, Builds};
ghost use Rattle.tf_config_refusal.specs.Refusal.{bare, refusal_of};
ghost use Rattle.tf_config_refusal.specs.declared.code.Code.TheVariants as code;

use crate::demand::{CONFIGURATION, file_fault, whole_file_fault};
use crate::kinds::Sections;
use crate::objects::add_each_member;
use serde_json::{Map, Value};
use std::alloc::Global;
use std::collections::BTreeMap;
use tf_config_data::Config;
use tf_config_refusal::{Code, Path, Refusal};

/// The longest configuration that is read, in bytes.
const MAX_BYTES: usize = 4_194_304;

/// How many variables, locals, outputs and resource blocks a configuration may have, of each.
const MAX_DECLARED: usize = 2_000;

/// Reads a configuration: the bytes of one JSON object with the properties `variable`, `locals`, `output` and
/// `resource`, as in Terraform's JSON syntax. Texts in an expression are templates. A variable's default is literal.
///
/// # Errors
///
/// Fails with the first of these, in the order of the checks, or with `OutOfMemory`.
/// - 14 at `configuration`: more than 4,194,304 bytes.
/// - 1 at `configuration`: not JSON as `serde_json` reads it, which accepts only UTF-8.
/// - 2, 3 or 14, at the first fault in a walk that takes properties in byte order, depth first, and a block's own shape
///   before its parts. The place is the path of names and positions, joined by dots, or `configuration` if the top
///   isn't an object. 2 is a property, a block, a name or a number that the format doesn't allow, and a default that
///   exceeds the limits of weight and depth. 3 is a text that isn't a template, with a byte offset. 14 is a template
///   that is too deep.
/// - 14 at `configuration`: more than 2,000 variables, locals, outputs or resource blocks.
pub fn read(alloc: Global, bytes: &[u8]) -> Result<Config, Refusal>
    // The text is a tree, and the tree reads as this configuration.
    ensures ok { IfOk result (λ config. (tree : Data) × IsTree bytes.now tree
        × IsConfiguration tree (config_of config)) }

    // No limit is exceeded.
    ensures small { IfOk result (λ config. (length bytes.now ≤ max_bytes)
        × IsWithinCounts (config_of config)) }

    // The refusal is the first fault, or out of memory.
    ensures fault { IfErr result (λ refusal. IsRefused bytes.now (refusal_of refusal)) }
{
    if bytes.len() > MAX_BYTES {
        return Err(whole_file_fault(alloc, Code::Limit));
    }
    let tree = read_tree(alloc, bytes, CONFIGURATION)?;
    let config = read_configuration(alloc, &tree)?;
    demand_counts(alloc, &config)?;
    Ok(config)
}

/// Checks the limits on the numbers of variables, locals, outputs and blocks.
fn demand_counts(alloc: Global, config: &Config) -> Result<(), Refusal>
    ensures ok { OnOk result (IsWithinCounts (config_of config.now)) }
    ensures fault { IfErr result (λ refusal. (¬ IsWithinCounts (config_of config.now))
        × TellsAt (dotted whole_file) (code.Limit, bare) (refusal_of refusal)) }
{
    demand_count(alloc, config.variables.len())?;
    demand_count(alloc, config.locals.len())?;
    demand_count(alloc, config.outputs.len())?;
    demand_count(alloc, config.resources.len())?;
    Ok(())
}

fn demand_count(alloc: Global, count: usize) -> Result<(), Refusal>
    ensures ok { OnOk result (count ≤ max_declared) }
    ensures fault { IfErr result (λ refusal. (max_declared < count)
        × TellsAt (dotted whole_file) (code.Limit, bare) (refusal_of refusal)) }
{
    if count > MAX_DECLARED {
        Err(whole_file_fault(alloc, Code::Limit))
    } else {
        Ok(())
    }
}

/// Reads a file's text as a JSON tree. Refusals call the file by this name.
///
/// # Errors
///
/// Fails with 1 at the file if the text isn't JSON as `serde_json` reads it, which accepts only UTF-8, or with
/// `OutOfMemory`.
pub(crate) fn read_tree(alloc: Global, bytes: &[u8], file: &str) -> Result<Value, Refusal>
    ensures ok { IfOk result (λ tree. IsTree bytes.now (view tree)) }
    ensures fault { IfErr result (λ refusal. TellsNotJson (file.now ∷ []) bytes.now (refusal_of refusal)) }
{
    match Value::from_slice(alloc, bytes) {
        Ok(tree) => Ok(tree),
        Err(error) if error.is_memory() => Err(Refusal::OutOfMemory),
        Err(_) => Err(file_fault(alloc, file, Code::NotJson)),
    }
}

fn read_configuration(alloc: Global, tree: &Value) -> Result<Config, Refusal>
    ensures ok { IfOk result (λ config. BuildsConfiguration (view tree.now) (config_of config)) }
    ensures fault { IfErr result (λ refusal.
        Refuses (configuration_checks (view tree.now)) (refusal_of refusal)) }
{
    match tree {
        Value::Object(members) => read_sections(alloc, &Path::Root, members),
        _ => Err(whole_file_fault(alloc, Code::BadShape)),
    }
}

#[tactic(auto, using(crate::proofs::Sound::sections_sound))]
fn read_sections<'a>(
    alloc: Global,
    path: &'a Path<'a>,
    members: &'a Map<String, Value>,
) -> Result<Config, Refusal>
    ensures ok { IfOk result (λ config.
        Builds AddsSection (members_view members.now.entries) plain_config (config_of config)) }
    ensures fault { IfErr result (λ refusal.
        Refuses (each (below section_checks (place_of path.now)) (members_view members.now.entries))
        (refusal_of refusal)) }
{
    let mut config = Config {
        variables: BTreeMap::new(alloc),
        locals: BTreeMap::new(alloc),
        outputs: BTreeMap::new(alloc),
        resources: BTreeMap::new(alloc),
    };
    add_each_member(&Sections, alloc, path, members, &mut config)?;
    Ok(config)
}
