//! Laws on texts.

ghost use Rattle.std.specs.Prelude.{[], ◌∷◌};
ghost use Rattle.tf_laws.specs.ReapplyTexts.{HaveSchemas, NothingIsDoneAgain, NothingIsPlannedAfterSuccess, NothingIsPlannedAgain, OnlyInstancesAreRefused};
ghost use Rattle.tf_laws.specs.Applies.{AppliesAreOne};
ghost use Rattle.tf_laws.specs.ReadingLaws.{Laws};
ghost use Rattle.tf_laws.specs.OneOfTwo.{AppliesHavePlanOrRefusals, PlansAreTold, ReadingsAreTold, TextsAreReadOrRefused, TextsHavePlanOrRefusals};
ghost use Rattle.tf_laws.specs.TextPlans.{AppliesShowThePlan, PlannedTextsAreNotRefused, RefusalsOfTextsAreOne, TextsHaveOnePlan, TextsHaveOnePlanApart, TextsShowOnePlan};
ghost use Rattle.tf_laws.specs.Refusals.{ApplyRefusalsTellTheSame, PlannedTextsHaveNoRefusals, ReadTextsAreNotRefused, RefusalsTellTheSame, RefusedReadingsAreOne};
ghost use Rattle.tf_laws.specs.Readings.{TextsReadAsOne, TextsReadAsOneApart};
ghost use Rattle.tf_laws.specs.Success.{SecondAppliesSettle, SuccessIsComplete, ThirdAppliesChangeNothing};
ghost use Rattle.tf_provider_local.specs.Answers.{file_meaning};
ghost use Rattle.tf_provider_sim.specs.Table.{sim_meaning};

use crate::convergence::{
    applies_converge, applies_settle, nothing_is_planned_at_rest, quiet_applies_keep_objects,
    read_configurations_fit,
};
use crate::plans::{planned_or_refused, plans_are_not_refused, plans_are_one, refusals_are_one};
use crate::reports::{plans_are_founded, reports_are_one};
use tf_config_json::{blocks_are_in_order, faultless_trees_stand, names_are_few, values_are_one};
use tf_state::{new_states_are_valid, read_states_are_valid, texts_are_of_one, texts_read_back};

/// The results of reading have the laws in `Laws`, which all laws of texts use.
fn laws_of_reading()
    ensures { Laws }
{
    faultless_trees_stand();
    blocks_are_in_order();
    tf_config_json::refusals_are_one();
    values_are_one();
    read_states_are_valid();
    new_states_are_valid();
    texts_are_of_one();
    read_configurations_fit();
}

/// Texts read as one configuration, one list of values of its variables and one prior state, if a new state has one lineage.
/// With another lineage, only the lineage of a new state differs.
pub fn texts_read_as_one()
    ensures one { TextsReadAsOne }
    ensures apart { TextsReadAsOneApart }
{
    laws_of_reading();
}

/// Texts have one plan. With another lineage of a new state, only that lineage differs. So their plan has one text, and both a
/// plan and an apply of the texts show it.
pub fn texts_have_one_plan()
    ensures plans { TextsHaveOnePlan }
    ensures apart { TextsHaveOnePlanApart }
    ensures texts { TextsShowOnePlan }
    ensures applies { AppliesShowThePlan }
{
    laws_of_reading();
    plans_are_one();
}

/// Two lists of refusals of the plan of texts are equal. If texts have a plan, no list is the list of refusals of their plan.
pub fn plans_exclude_refusals()
    ensures excluded { PlannedTextsAreNotRefused }
    ensures one { RefusalsOfTextsAreOne }
{
    laws_of_reading();
    plans_are_not_refused();
    refusals_are_one();
}

/// If texts can be read, the only refusal of reading them is out of memory. So texts that have a plan have no list of refusals.
pub fn readings_exclude_refusals()
    ensures read { ReadTextsAreNotRefused }
    ensures planned { PlannedTextsHaveNoRefusals }
{
    laws_of_reading();
    plans_exclude_refusals();
}

/// Two refusals of texts that can't be read report the same fault: they are equal, or about one text in the configuration that
/// is no template or too deep, with any offset. So two lists of refusals of the same texts report the same faults in order,
/// also those of an apply by the same number of workers.
pub fn refused_readings_are_one()
    ensures read { RefusedReadingsAreOne }
    ensures lists { RefusalsTellTheSame }
    ensures applies { ApplyRefusalsTellTheSame }
{
    laws_of_reading();
    plans_exclude_refusals();
    readings_exclude_refusals();
}

/// Texts can't be both unreadable and without a refusal other than out of memory. If one can decide of each text whether it is
/// a template within the depth limit, one can decide which of the two holds.
pub fn texts_are_read_or_refused()
    ensures never_neither { TextsAreReadOrRefused }
    ensures told { ReadingsAreTold }
{
    faultless_trees_stand();
    values_are_one();
}

/// Texts can't have neither a plan nor refusals. For an apply, they can't have neither a plan that the given number of workers
/// may carry out nor refusals. If one can decide of each text whether it is a template within the depth limit, one can decide
/// whether texts have a plan or refusals.
pub fn texts_have_plan_or_refusals()
    ensures never_neither { TextsHavePlanOrRefusals }
    ensures applies { AppliesHavePlanOrRefusals }
    ensures told { PlansAreTold }
{
    faultless_trees_stand();
    values_are_one();
    names_are_few();
    planned_or_refused();
}

/// After an apply of texts that went well, the same configuration and variables plan no action over the text of the new state,
/// and an apply over that text does nothing. If the status of an apply is 0, the texts that exist after it plan no action. Over
/// the new state's text, only the state itself is refused, or instances and outputs.
pub fn texts_converge()
    ensures planned { NothingIsPlannedAgain }
    ensures done { NothingIsDoneAgain }
    ensures success { NothingIsPlannedAfterSuccess }
    ensures refused { OnlyInstancesAreRefused }
{
    faultless_trees_stand();
    blocks_are_in_order();
    tf_config_json::refusals_are_one();
    values_are_one();
    read_states_are_valid();
    new_states_are_valid();
    texts_are_of_one();
    texts_read_back();
    nothing_is_planned_at_rest();
    applies_converge();
    quiet_applies_keep_objects();
}

/// Each schema of the programs' providers, `sim` and `local_file`, is one as `Schema::new` makes it.
pub fn programs_have_schemas()
    ensures { HaveSchemas (sim_meaning ∷ file_meaning ∷ []) }
{}

/// If the status of an apply is 0, everything that was planned was done: each action is good, and each output has a value. So a
/// second apply over the text of the new state changes only flags `create_before_destroy` and the serial, and a third one over
/// the text of the second's state changes nothing.
pub fn success_is_complete()
    ensures complete { SuccessIsComplete }
    ensures second { SecondAppliesSettle }
    ensures third { ThirdAppliesChangeNothing }
{
    laws_of_reading();
    texts_read_back();
    read_configurations_fit();
    applies_settle();
}

/// Two applies of the same texts with one lineage and the same excuses return the same answer, for any numbers of workers.
pub fn applies_are_one()
    ensures { AppliesAreOne }
{
    laws_of_reading();
    plans_are_one();
    plans_are_founded();
    reports_are_one();
}
