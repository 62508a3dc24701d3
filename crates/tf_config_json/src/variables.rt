//! Variables files.

ghost use Rattle.serde_json.specs.Data.{Data};
ghost use Rattle.serde_json.specs.View.{view};
ghost use Rattle.std.specs.Prelude.{IfErr, IfOk, Option, option_map};
ghost use Rattle.tf_config_json.specs.Demand.{AreMet};
ghost use Rattle.tf_config_data.specs.Config.{variables_of};
ghost use Rattle.tf_config_refusal.specs.Refusal.{refusal_of};
ghost use Rattle.tf_value_data.specs.Tree.{entries_view};
ghost use Rattle.tf_config_json.specs.VariablesRead.{IsFile, IsFileOf, IsRefused, TellsNoFile};
ghost use Rattle.tf_config_json.specs.Values.{file_checks, AreValues};

use crate::demand::file_fault;
use crate::reading::read_tree;
use crate::values::read_values;
use serde_json::Value as Json;
use std::alloc::Global;
use std::collections::BTreeMap;
use tf_config_data::Config;
use tf_config_refusal::{Code, Refusal};
use tf_value_data::Value;

/// The longest variables file that is read, in bytes.
const MAX_BYTES: usize = 4_194_304;

/// The name of the variables file in refusals.
const FILE: &str = "variables";

/// Returns the value of each variable that a configuration declares, converted to its type: the value in the variables
/// file, or else the default. The file is one JSON object of names and literal values. A `null` in it is a value, and a
/// name that isn't declared is ignored, whatever its value. `string` also takes whole numbers and truth values, as
/// their texts, even inside `list(string)` and `map(string)`. Null fits every type, even inside lists and maps. If the
/// file has a value, the default needn't fit.
///
/// # Errors
///
/// Fails with the first of these, in the order of the checks, or with `OutOfMemory`.
/// - 14 at `variables`: more than 4,194,304 bytes.
/// - 1 at `variables`: not JSON as `serde_json` reads it.
/// - 2 at `variables`: not an object.
/// - 2 at the first fault in a declared variable's value, by its path in the file, with names in byte order: a number
///   that isn't held as a whole number of 64 bits with a sign, or, after a value's numbers, the value itself if it
///   exceeds the limits of weight and depth.
/// - 10 at `var.NAME`, for the first variable in byte order that has no value, or one that doesn't fit its type.
pub fn read_vars(
    alloc: Global,
    text: Option<&[u8]>,
    config: &Config,
) -> Result<BTreeMap<String, Value>, Refusal>
    // The file gives declared variables literals, and these are the values of exactly the declared variables.
    ensures ok { IfOk result (λ values. (file : Option Data) × IsFileOf (option_map (λ bytes. bytes.now) text.entry) file
        × AreMet (file_checks file (variables_of config.now.variables.entries))
        × AreValues file (variables_of config.now.variables.entries) (entries_view values.entries)) }

    // The refusal is the first fault, or out of memory.
    ensures fault { IfErr result (λ refusal.
        IsRefused (option_map (λ bytes. bytes.now) text.entry) (variables_of config.now.variables.entries) (refusal_of refusal)) }
{
    match text {
        None => read_values(alloc, None, &config.variables),
        Some(bytes) => {
            let tree = read_file(alloc, bytes)?;
            read_values(alloc, Some(&tree), &config.variables)
        }
    }
}

fn read_file(alloc: Global, bytes: &[u8]) -> Result<Json, Refusal>
    ensures ok { IfOk result (λ tree. IsFile bytes.now (view tree)) }
    ensures fault { IfErr result (λ refusal. TellsNoFile bytes.now (refusal_of refusal)) }
{
    if bytes.len() > MAX_BYTES {
        return Err(file_fault(alloc, FILE, Code::Limit));
    }
    let tree = read_tree(alloc, bytes, FILE)?;
    if tree.is_object() {
        Ok(tree)
    } else {
        Err(file_fault(alloc, FILE, Code::BadShape))
    }
}
