//! The members of each kind of object, and how they are read.

ghost use Rattle.std.specs.Prelude.{List, Option, option_map};
ghost use Rattle.tf_config_json.specs.Config.{block_body, variable_body, BlockBody, Blocks, VariableBody};
ghost use Rattle.tf_config_json.specs.Building.{AddsBlockProperty, AddsLifecycleProperty, AddsLocal, AddsOutput, AddsOutputProperty, AddsResource, AddsSection, AddsType, AddsVariable, AddsVariableProperty};
ghost use Rattle.tf_config_json.specs.Configuration.{block_property_checks, lifecycle_property_checks, local_checks, output_checks, output_property_checks, resource_checks, section_checks, type_checks, variable_checks, variable_property_checks};
ghost use Rattle.tf_config_data.specs.Config.{blocks_of, config_of, lifecycle_of, variables_of, ConfigView, LifecycleView, VariableView};
ghost use Rattle.tf_expr_syntax.specs.ExprTree.{entries_view, tree_of, Entries, Tree};

use crate::arrays::read_array;
use crate::bodies::{add_expression, read_body, read_lifecycle, read_output, read_variable};
use crate::demand::{bad_shape, demand_name, demand_type_name};
use crate::literals::{demand_text, read_expression, read_flag, read_literal, read_type};
use crate::objects::{Members, Part, add_members};
use crate::words::{
    BlockProperty, LifecycleProperty, LocalsProperty, OutputProperty, Section, VariableProperty,
    block_property_named, lifecycle_property_named, locals_property_named, output_property_named,
    section_named, variable_property_named,
};
use std::collections::BTreeMap;
use tf_config_address::ResourceAddr;
use tf_config_data::{Block, Config, Lifecycle, Repetition, Variable};
use tf_config_refusal::Refusal;
use tf_expr_syntax::Expr;

/// The properties at the top of a configuration.
#[derive(Drop)]
pub(crate) struct Sections;

impl Members for Sections {
    type Out = Config;

    ghost OutView = { ConfigView };

    ghost out_view = { λ config. config_of config };

    ghost adds = { λ _. AddsSection };

    ghost checks = { λ _. section_checks };

    fn add(&self, name: &str, part: &Part<'_>, config: &mut Config) -> Result<(), Refusal> {
        match section_named(name) {
            Section::Comment => Ok(()),
            Section::Variables => add_members(&Variables, part, &mut config.variables),
            Section::Locals => add_members(&Locals, part, &mut config.locals),
            Section::Outputs => add_members(&OutputsSection, part, &mut config.outputs),
            Section::Resources => add_members(&Types, part, &mut config.resources),
            Section::Other => Err(bad_shape(part.alloc, part.path)),
        }
    }
}

/// The members at `variable`: bodies under their names.
#[derive(Drop)]
struct Variables;

impl Members for Variables {
    type Out = BTreeMap<String, Variable>;

    ghost OutView = { List VariableView };

    ghost out_view = { λ variables. variables_of variables.entries };

    ghost adds = { λ _. AddsVariable };

    ghost checks = { λ _. variable_checks };

    fn add(
        &self,
        name: &str,
        part: &Part<'_>,
        variables: &mut BTreeMap<String, Variable>,
    ) -> Result<(), Refusal> {
        demand_name(part.alloc, part.path, name)?;
        let variable = read_variable(part)?;
        let name = String::from_str(part.alloc, name)?;
        drop(variables.insert(name, variable)?);
        Ok(())
    }
}

/// The properties in the body of a variable.
#[derive(Drop)]
pub(crate) struct VariableProperties;

impl Members for VariableProperties {
    type Out = Variable;

    ghost OutView = { VariableBody };

    ghost out_view = { λ variable. variable_body variable };

    ghost adds = { λ _. AddsVariableProperty };

    ghost checks = { λ _. variable_property_checks };

    fn add(&self, name: &str, part: &Part<'_>, variable: &mut Variable) -> Result<(), Refusal> {
        match variable_property_named(name) {
            VariableProperty::Comment => Ok(()),
            VariableProperty::Type => {
                variable.value_type = read_type(part)?;
                Ok(())
            }
            VariableProperty::Default => {
                variable.default = Some(read_literal(part.alloc, part.path, part.value)?);
                Ok(())
            }
            VariableProperty::Description => demand_text(part),
            VariableProperty::Other => Err(bad_shape(part.alloc, part.path)),
        }
    }
}

/// The members at `locals`: expressions under their names.
#[derive(Drop)]
struct Locals;

impl Members for Locals {
    type Out = BTreeMap<String, Expr>;

    ghost OutView = { Entries };

    ghost out_view = { λ locals. entries_view locals.entries };

    ghost adds = { λ _. AddsLocal };

    ghost checks = { λ _. local_checks };

    fn add(
        &self,
        name: &str,
        part: &Part<'_>,
        locals: &mut BTreeMap<String, Expr>,
    ) -> Result<(), Refusal> {
        match locals_property_named(name) {
            LocalsProperty::Comment => Ok(()),
            LocalsProperty::Local => add_expression(name, part, locals),
        }
    }
}

/// The members at `output`: bodies under their names.
#[derive(Drop)]
struct OutputsSection;

impl Members for OutputsSection {
    type Out = BTreeMap<String, Expr>;

    ghost OutView = { Entries };

    ghost out_view = { λ outputs. entries_view outputs.entries };

    ghost adds = { λ _. AddsOutput };

    ghost checks = { λ _. output_checks };

    fn add(
        &self,
        name: &str,
        part: &Part<'_>,
        outputs: &mut BTreeMap<String, Expr>,
    ) -> Result<(), Refusal> {
        demand_name(part.alloc, part.path, name)?;
        let expr = read_output(part)?;
        let name = String::from_str(part.alloc, name)?;
        drop(outputs.insert(name, expr)?);
        Ok(())
    }
}

/// The properties in the body of an output.
#[derive(Drop)]
pub(crate) struct OutputProperties;

impl Members for OutputProperties {
    type Out = Option<Expr>;

    ghost OutView = { Option Tree };

    ghost out_view = { λ found. option_map tree_of found };

    ghost adds = { λ _. AddsOutputProperty };

    ghost checks = { λ _. output_property_checks };

    fn add(&self, name: &str, part: &Part<'_>, found: &mut Option<Expr>) -> Result<(), Refusal> {
        match output_property_named(name) {
            OutputProperty::Comment => Ok(()),
            OutputProperty::Value => {
                *found = Some(read_expression(part)?);
                Ok(())
            }
            OutputProperty::Description => demand_text(part),
            OutputProperty::Other => Err(bad_shape(part.alloc, part.path)),
        }
    }
}

/// The members at `resource`: under types there are names, and under those there are bodies.
#[derive(Drop)]
struct Types;

impl Members for Types {
    type Out = BTreeMap<ResourceAddr, Block>;

    ghost OutView = { Blocks };

    ghost out_view = { λ resources. blocks_of resources.entries };

    ghost adds = { λ _. AddsType };

    ghost checks = { λ _. type_checks };

    fn add(
        &self,
        name: &str,
        part: &Part<'_>,
        resources: &mut BTreeMap<ResourceAddr, Block>,
    ) -> Result<(), Refusal> {
        demand_type_name(part.alloc, part.path, name)?;
        add_members(&Resources { type_name: name }, part, resources)
    }
}

/// The members of a type: bodies under their names.
#[derive(Drop)]
struct Resources<'a> {
    type_name: &'a str,
}

impl Members for Resources<'_> {
    type Out = BTreeMap<ResourceAddr, Block>;

    ghost OutView = { Blocks };

    ghost out_view = { λ resources. blocks_of resources.entries };

    ghost adds = { λ members. AddsResource members.type_name.now };

    ghost checks = { λ _. resource_checks };

    fn add(
        &self,
        name: &str,
        part: &Part<'_>,
        resources: &mut BTreeMap<ResourceAddr, Block>,
    ) -> Result<(), Refusal> {
        demand_name(part.alloc, part.path, name)?;
        let block = read_body(part)?;
        let type_name = String::from_str(part.alloc, self.type_name)?;
        let name = String::from_str(part.alloc, name)?;
        drop(resources.insert(ResourceAddr { type_name, name }, block)?);
        Ok(())
    }
}

/// The properties in the body of a resource.
#[derive(Drop)]
pub(crate) struct BlockProperties;

impl Members for BlockProperties {
    type Out = Block;

    ghost OutView = { BlockBody };

    ghost out_view = { λ block. block_body block };

    ghost adds = { λ _. AddsBlockProperty };

    ghost checks = { λ _. block_property_checks };

    #[tactic(auto, using(crate::proofs::PartFits::address_fits))]
    fn add(&self, name: &str, part: &Part<'_>, block: &mut Block) -> Result<(), Refusal> {
        match block_property_named(name) {
            BlockProperty::Comment => Ok(()),
            BlockProperty::Count => {
                block.repetition = Repetition::Count(read_expression(part)?);
                Ok(())
            }
            BlockProperty::ForEach => {
                block.repetition = Repetition::ForEach(read_expression(part)?);
                Ok(())
            }
            BlockProperty::DependsOn => {
                block.depends_on = read_array(part)?;
                Ok(())
            }
            BlockProperty::Lifecycle => {
                block.lifecycle = read_lifecycle(part)?;
                Ok(())
            }
            BlockProperty::Refused => Err(bad_shape(part.alloc, part.path)),
            BlockProperty::Argument => add_expression(name, part, &mut block.arguments),
        }
    }
}

/// The properties of `lifecycle`.
#[derive(Drop)]
pub(crate) struct LifecycleProperties;

impl Members for LifecycleProperties {
    type Out = Lifecycle;

    ghost OutView = { LifecycleView };

    ghost out_view = { λ lifecycle. lifecycle_of lifecycle };

    ghost adds = { λ _. AddsLifecycleProperty };

    ghost checks = { λ _. lifecycle_property_checks };

    #[tactic(auto, using(crate::proofs::PartFits::name_fits))]
    fn add(&self, name: &str, part: &Part<'_>, lifecycle: &mut Lifecycle) -> Result<(), Refusal> {
        match lifecycle_property_named(name) {
            LifecycleProperty::Comment => Ok(()),
            LifecycleProperty::CreateBeforeDestroy => {
                lifecycle.create_before_destroy = read_flag(part)?;
                Ok(())
            }
            LifecycleProperty::PreventDestroy => {
                lifecycle.prevent_destroy = read_flag(part)?;
                Ok(())
            }
            LifecycleProperty::IgnoreChanges => {
                lifecycle.ignore_changes = read_array(part)?;
                Ok(())
            }
            LifecycleProperty::Other => Err(bad_shape(part.alloc, part.path)),
        }
    }
}
