//! Laws on the values of names.

ghost use Rattle.tf_expand_keys.specs.StandingLaws.{AllAreSeen, ApplyingIsLocal, ExpansionGrows, ExpansionIsLocal, InstanceEnvironmentsGrow, InstancesStay, PlanGrows, PlanningIsLocal, ResolvedNamesAreOne, ResolvedNamesExist, ResolvedNamesGrow};

use tf_expr_eval::{expr_knowledge_grows, meaning_is_local};
use tf_graph::laws::{solution_exists, solution_is_unique};
use tf_value_data::refinement_is_an_order;

/// If no name needs itself, all names resolve at each stage, and in one way.
pub fn resolved_names_are_one()
    ensures one { ResolvedNamesAreOne }
    ensures exist { ResolvedNamesExist }
{}

/// At each stage the value of a block depends only on the values of what it refers to.
pub fn stages_are_local()
    ensures expansion { ExpansionIsLocal }
    ensures planning { PlanningIsLocal }
    ensures applying { ApplyingIsLocal }
    ensures all { AllAreSeen }
{
    meaning_is_local();
}

/// Knowledge of the values of names only grows from one stage to the next.
pub fn resolved_names_grow()
    ensures resolved_names { ResolvedNamesGrow }
    ensures expansion { ExpansionGrows }
    ensures plan { PlanGrows }
{
    refinement_is_an_order();
    expr_knowledge_grows();
}

/// The instances of a resource stay from stage to stage, and knowledge of what each of them sees only grows.
pub fn instances_stay()
    ensures instances { InstancesStay }
    ensures environments { InstanceEnvironmentsGrow }
{
    refinement_is_an_order();
    expr_knowledge_grows();
}
