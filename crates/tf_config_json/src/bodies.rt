//! Bodies and expressions, as they are read.

ghost use Rattle.serde_json.specs.View.{view};
ghost use Rattle.std.specs.Prelude.{◌≡◌};
ghost use Rattle.tf_config_json.specs.Config.{block_body, plain_lifecycle, variable_body};
ghost use Rattle.tf_config_json.specs.Building.{AddsNamed, BuildsBlock, BuildsLifecycle, BuildsOutput, BuildsVariable};
ghost use Rattle.tf_config_json.specs.Configuration.{block_body_checks, lifecycle_property_checks, named_checks, object_checks, output_body_checks, variable_property_checks};
ghost use Rattle.tf_config_json.specs.Demand.{FineOrRefuses};
ghost use Rattle.tf_config_json.specs.Parts.{expression_checks, Reads};
ghost use Rattle.tf_config_data.specs.Config.{lifecycle_of};
ghost use Rattle.tf_expr_json.specs.Reading.{IsExpr};
ghost use Rattle.tf_config_refusal.specs.Place.{place_of};
ghost use Rattle.tf_expr_syntax.specs.ExprTree.{entries_view, put, tree_of};

use crate::demand::{bad_shape, demand_name, demand_one_repetition, demand_value};
use crate::kinds::{BlockProperties, LifecycleProperties, OutputProperties, VariableProperties};
use crate::literals::read_expression;
use crate::objects::{Part, add_members};
use std::alloc::Global;
use std::collections::BTreeMap;
use tf_config_data::{Block, Element, Lifecycle, Repetition, Variable, VariableType};
use tf_config_refusal::Refusal;
use tf_expr_syntax::Expr;

/// Reads the body of a variable.
#[tactic(auto, using(crate::proofs::Sound::variable_properties_sound))]
pub(crate) fn read_variable(part: &Part<'_>) -> Result<Variable, Refusal>
    ensures { Reads BuildsVariable (object_checks variable_property_checks) variable_body (place_of part.now.path.now) (view part.now.value.now) result }
{
    let mut variable = Variable {
        value_type: VariableType::One(Element::Any),
        default: None,
    };
    add_members(&VariableProperties, part, &mut variable)?;
    Ok(variable)
}

/// Reads an expression and adds it under its name: a local value, or an argument of a block.
pub(crate) fn add_expression(
    name: &str,
    part: &Part<'_>,
    entries: &mut BTreeMap<String, Expr>,
) -> Result<(), Refusal>
    ensures { FineOrRefuses (AddsNamed IsExpr name.now (view part.now.value.now) (λ e. put name.now e (entries_view entries.old.entries)) (entries_view entries.new.entries))
        (named_checks expression_checks (place_of part.now.path.now) name.now (view part.now.value.now)) result }
{
    demand_name(part.alloc, part.path, name)?;
    let expr = read_expression(part)?;
    let name = String::from_str(part.alloc, name)?;
    drop(entries.insert(name, expr)?);
    Ok(())
}

/// Reads the body of an output, which has to have a value.
#[tactic(auto, using(crate::proofs::Sound::output_properties_sound))]
pub(crate) fn read_output(part: &Part<'_>) -> Result<Expr, Refusal>
    ensures { Reads BuildsOutput output_body_checks tree_of (place_of part.now.path.now) (view part.now.value.now) result }
{
    demand_value(part.alloc, part.path, part.value)?;
    let mut found = None;
    add_members(&OutputProperties, part, &mut found)?;
    match found {
        Some(expr) => Ok(expr),
        None => Err(bad_shape(part.alloc, part.path)),
    }
}

/// Reads the body of a resource, which can't have both `count` and `for_each`.
#[tactic(auto, using(crate::proofs::Sound::block_properties_sound))]
pub(crate) fn read_body(part: &Part<'_>) -> Result<Block, Refusal>
    ensures { Reads BuildsBlock block_body_checks block_body (place_of part.now.path.now) (view part.now.value.now) result }
{
    demand_one_repetition(part.alloc, part.path, part.value)?;
    let mut block = Block {
        repetition: Repetition::Single,
        depends_on: Vec::new(part.alloc),
        lifecycle: plain_lifecycle(part.alloc),
        arguments: BTreeMap::new(part.alloc),
    };
    add_members(&BlockProperties, part, &mut block)?;
    Ok(block)
}

/// Reads the value of `lifecycle`.
#[tactic(auto, using(crate::proofs::Sound::lifecycle_properties_sound))]
pub(crate) fn read_lifecycle(part: &Part<'_>) -> Result<Lifecycle, Refusal>
    ensures { Reads BuildsLifecycle (object_checks lifecycle_property_checks) lifecycle_of (place_of part.now.path.now) (view part.now.value.now) result }
{
    let mut lifecycle = plain_lifecycle(part.alloc);
    add_members(&LifecycleProperties, part, &mut lifecycle)?;
    Ok(lifecycle)
}

/// Returns an empty `lifecycle`, which asks for nothing.
fn plain_lifecycle(alloc: Global) -> Lifecycle
    ensures { lifecycle_of result ≡ plain_lifecycle }
{
    Lifecycle {
        create_before_destroy: false,
        prevent_destroy: false,
        ignore_changes: Vec::new(alloc),
    }
}
