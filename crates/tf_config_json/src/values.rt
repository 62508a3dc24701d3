//! The values of declared variables.

ghost use Rattle.serde_json.specs.View.{view};
ghost use Rattle.std.specs.Prelude.{◌≡◌, ◌∷◌, [], Err, IfErr, IfOk, MatchResult, Option, Some, is_some, option_and_then, option_map, string_bytes};
ghost use Rattle.tf_config_json.specs.Demand.{AreMet, Refuses};
ghost use Rattle.tf_config_json.specs.Parts.{literal_checks};
ghost use Rattle.tf_config_data.specs.Words.{put, Tree, variables_of};
ghost use Rattle.tf_config_refusal.specs.Check.{demanded};
ghost use Rattle.tf_config_refusal.specs.Refusal.{no_memory, refusal_of};
ghost use Rattle.tf_value_data.specs.Tree.{entries_view, tree_of};
ghost use Rattle.tf_value_json.specs.Json.{value_from};
ghost use Rattle.tf_config_json.specs.VariablesRead.{TellsFaulty};
ghost use Rattle.tf_config_json.specs.Types.{fitted};
ghost use Rattle.tf_config_json.specs.Values.{file_checks, given, literal_at, taken_of, variable_place, AreValues, RefusesValues};

use crate::demand::fault_at;
use crate::literals::read_literal;
use crate::types::fitted;
use serde_json::Value as Json;
use std::alloc::Global;
use std::collections::BTreeMap;
use tf_config_data::{Variable, VariableType};
use tf_config_refusal::{Code, Detail, Path, Refusal};
use tf_value_data::Value;

/// Returns the value of each variable. Fails with the first fault in the file, or else at the first variable without a
/// value.
pub(crate) fn read_values(
    alloc: Global,
    file: Option<&Json>,
    variables: &BTreeMap<String, Variable>,
) -> Result<BTreeMap<String, Value>, Refusal>
    ensures ok { IfOk result (λ values.
        AreMet (file_checks (option_map (λ tree. view tree.now) file.entry) (variables_of variables.now.entries))
        × AreValues (option_map (λ tree. view tree.now) file.entry) (variables_of variables.now.entries) (entries_view values.entries)) }
    ensures fault { IfErr result (λ refusal.
        TellsFaulty (option_map (λ tree. view tree.now) file.entry) (variables_of variables.now.entries) (refusal_of refusal)) }
{
    let mut answer = Ok(BTreeMap::new(alloc));
    for (name, variable) in variables.iter() {
        let taken = read_taken(alloc, file, name.as_str(), variable)?;
        answer = put_value_for(alloc, answer, name, variable.value_type, taken);
    }
    answer
}

/// Returns the value that is taken for a variable: the file's, or else the default.
fn read_taken(
    alloc: Global,
    file: Option<&Json>,
    name: &str,
    variable: &Variable,
) -> Result<Option<Value>, Refusal>
    ensures literal { IfOk result (λ _.
        AreMet (literal_at name.now (given (option_map (λ tree. view tree.now) file.entry) name.now))) }
    ensures ok { IfOk result (λ taken. option_map tree_of taken
        ≡ taken_of (given (option_map (λ tree. view tree.now) file.entry) name.now) (option_map tree_of variable.now.default)) }
    ensures fault { IfErr result (λ refusal.
        Refuses (literal_at name.now (given (option_map (λ tree. view tree.now) file.entry) name.now)) (refusal_of refusal)) }
{
    match given(file, name) {
        Some(json) => Ok(Some(read_given(alloc, name, json)?)),
        None => Ok(variable.default.clone()?),
    }
}

/// Reads the literal that a file gives a name.
fn read_given(alloc: Global, name: &str, json: &Json) -> Result<Value, Refusal>
    ensures literal { IfOk result (λ _. AreMet (literal_checks (name.now ∷ []) (view json.now))) }
    ensures ok { IfOk result (λ value. value_from (view json.now) ≡ Some (tree_of value)) }
    ensures fault { IfErr result (λ refusal.
        Refuses (literal_checks (name.now ∷ []) (view json.now)) (refusal_of refusal)) }
{
    let value = read_literal(alloc, &Path::Member(&Path::Root, name), json)?;
    Ok(value)
}

fn given<'a>(file: Option<&'a Json>, name: &str) -> Option<&'a Json>
    ensures { option_map (λ value. view value.now) result ≡ given (option_map (λ tree. view tree.now) file.entry) name.now }
{
    match file {
        Some(tree) => tree.get(name),
        None => None,
    }
}

/// Adds the value of one more variable to the result so far, if no variable before lacks a value.
fn put_value_for(
    alloc: Global,
    answer: Result<BTreeMap<String, Value>, Refusal>,
    name: &String,
    value_type: VariableType,
    taken: Option<Value>,
) -> Result<BTreeMap<String, Value>, Refusal>
    ensures { MatchResult answer
        (λ values. MatchResult result
        (λ more. (t : Tree)
        × (option_and_then (fitted value_type) (option_map tree_of taken) ≡ Some t)
        × (entries_view more.entries ≡ put (string_bytes name.now) t (entries_view values.entries)))
        (λ refusal. RefusesValues (demanded (variable_place (string_bytes name.now))
        (is_some (option_and_then (fitted value_type) (option_map tree_of taken)))) (refusal_of refusal)))
        (λ before. result ≡ Err before) }
{
    match answer {
        Ok(values) => with_value(alloc, values, name, value_type, taken),
        Err(refusal) => Err(refusal),
    }
}

/// Adds the value of one more variable: the value that is taken, converted to the variable's type.
fn with_value(
    alloc: Global,
    mut values: BTreeMap<String, Value>,
    name: &String,
    value_type: VariableType,
    taken: Option<Value>,
) -> Result<BTreeMap<String, Value>, Refusal>
    ensures ok { IfOk result (λ more. (t : Tree)
        × (option_and_then (fitted value_type) (option_map tree_of taken) ≡ Some t)
        × (entries_view more.entries ≡ put (string_bytes name.now) t (entries_view values.entries))) }
    ensures fault { IfErr result (λ refusal.
        RefusesValues (demanded (variable_place (string_bytes name.now))
        (is_some (option_and_then (fitted value_type) (option_map tree_of taken)))) (refusal_of refusal)) }
{
    match fitted_if_taken(alloc, value_type, taken)? {
        Some(value) => {
            drop(values.insert(name.clone()?, value)?);
            Ok(values)
        }
        None => {
            let var = Path::Member(&Path::Root, "var");
            let place = Path::Member(&var, name.as_str());
            Err(fault_at(alloc, &place, Code::BadArgument, Detail::Bare))
        }
    }
}

fn fitted_if_taken(
    alloc: Global,
    value_type: VariableType,
    taken: Option<Value>,
) -> Result<Option<Value>, Refusal>
    ensures ok { IfOk result (λ found.
        option_map tree_of found ≡ option_and_then (fitted value_type) (option_map tree_of taken)) }
    ensures fault { IfErr result (λ refusal. refusal_of refusal ≡ no_memory) }
{
    match taken {
        Some(value) => Ok(fitted(alloc, value_type, value)?),
        None => Ok(None),
    }
}
