//! Laws on the requests of an apply.

ghost use Rattle.tf_laws.specs.AskingLaws.{KnownAttributesStay, PlannedObjectsAreAsked, RequestsRefine};

use tf_expand_keys::standing_laws::{resolved_names_are_one, resolved_names_grow};
use tf_plan_decision::laws::changes_have_a_cause;
use tf_plan_object::laws::{objects_grow, updates_grow};
use tf_value_data::known_values_stay;

/// If each instance's object in the plan refines to its object in the apply, the object that an action would request by the
/// plan refines to the one that it requests. So each attribute that is known in the plan is unchanged in the request of each
/// create, replacement and update.
pub fn requests_grow()
    ensures refine { RequestsRefine }
    ensures known { KnownAttributesStay }
{
    known_values_stay();
    resolved_names_are_one();
    resolved_names_grow();
    objects_grow();
    updates_grow();
}

/// If an action is one of the steps decided for its instance, the object that it would request with the plan's values is its planned
/// object.
pub fn planned_objects_are_asked()
    ensures { PlannedObjectsAreAsked }
{
    changes_have_a_cause();
}
