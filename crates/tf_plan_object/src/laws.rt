//! Laws on planned objects.

ghost use Rattle.tf_plan_object.specs.KeptLaws.{UpdatesGrow, UpdatesHaveArguments, UpdatesHaveAttributes, UpdatesKeep};
ghost use Rattle.tf_plan_object.specs.Laws.{ConversionGrows, InstancesAreLocal, InstancesGrow, InstancesHaveAttributes};

use tf_expand_keys::standing_laws::instances_stay;
use tf_expr_eval::{expr_knowledge_grows, meaning_is_local};
use tf_value_data::{lists_stand_for_sets, refinement_is_an_order};

/// What a block refers to determines the object, or the fault, of each of its instances.
pub fn objects_are_local()
    ensures { InstancesAreLocal }
{
    meaning_is_local();
}

/// Knowledge of an object only grows. If the values of references refine, so does a converted value, and so do the
/// objects of instances.
pub fn objects_grow()
    ensures conversion { ConversionGrows }
    ensures instances { InstancesGrow }
{
    refinement_is_an_order();
    lists_stand_for_sets();
    expr_knowledge_grows();
    instances_stay();
}

/// The object of an instance has exactly the schema's attributes.
pub fn objects_have_attributes()
    ensures { InstancesHaveAttributes }
{}

/// An update's object has at each name the planned value, or the prior one if that is kept. So it has each configured
/// value of an attribute whose changes aren't ignored, and exactly the attributes of the planned object.
pub fn updates_keep_what_is_configured()
    ensures values { UpdatesKeep }
    ensures arguments { UpdatesHaveArguments }
    ensures attributes { UpdatesHaveAttributes }
{}

/// If a planned object refines to the one that is planned when more is known, so does the object that an update asks
/// for.
pub fn updates_grow()
    ensures { UpdatesGrow }
{}
