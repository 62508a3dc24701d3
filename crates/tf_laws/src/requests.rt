//! Laws on the requests that an apply sends to providers, compared with its plan.

ghost use Rattle.tf_laws.specs.Instances.{InstancesAreExpanded, InstancesStayInApplies, InstancesStayInPlans, KeysStayInPlans, KeysStayInRequests};
ghost use Rattle.tf_laws.specs.Requests.{CallsAreAsPlanned, RequestsAreAsPlanned};

use crate::asking::{planned_objects_are_asked, requests_grow};
use tf_expand_keys::expansion_laws::all_stand_where_none_is_refused;
use tf_expand_keys::standing_laws::{instances_stay, resolved_names_are_one, resolved_names_grow};
use tf_expr_eval::expr_knowledge_grows;

/// If the instances that a resource needs agree with the plan, each request of its actions is as planned, and what the plan
/// knows of its object is unchanged in it. That holds in every apply for each called action.
pub fn requests_are_as_planned()
    ensures requests { RequestsAreAsPlanned }
    ensures calls { CallsAreAsPlanned }
{
    requests_grow();
    planned_objects_are_asked();
}

/// A plan's instances of a resource are those of the expansion. If `count` or `for_each` gives any in the plan or in an apply,
/// these are the plan's. If an instance is created or updated, `for_each` gives exactly the plan's keys.
pub fn instances_are_as_expanded()
    ensures expanded { InstancesAreExpanded }
    ensures plans { InstancesStayInPlans }
    ensures applies { InstancesStayInApplies }
    ensures planned_keys { KeysStayInPlans }
    ensures requested_keys { KeysStayInRequests }
{
    resolved_names_are_one();
    resolved_names_grow();
    instances_stay();
    expr_knowledge_grows();
    all_stand_where_none_is_refused();
}
