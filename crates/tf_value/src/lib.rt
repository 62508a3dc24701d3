//! Values with parts that aren't known yet, and values as JSON.
//!
//! This crate is for users of the engine as a library. It re-exports `tf_value_data`, which has the values, and
//! `tf_value_json`, which converts them to JSON and back. The contracts speak of the plain tree of a value; `specs/Lib.antt`
//! re-exports its definition and those of everything that the calls do.
#![tactic(auto)]

pub use tf_value_data::{
    MAX_DEPTH, MAX_WEIGHT, Value, copy, depth, each_may_be_stored, entries_are_known,
    equality_is_of_trees, find, has_no_set, is_known, is_within_limits, known_values_stay,
    limits_decide, lists_stand_for_sets, may_be_stored, nulls_stand_for_unknowns, parts_refine,
    puts_are_found, refinement_is_an_order, refines, scalar_text, scalars_are_known,
    stored_values_are_known, weight, with_lists, with_nulls,
};
pub use tf_value_json::{
    AsJson, JsonFault, entries_to_json, forms_are_one, forms_read_back, from_json,
    read_trees_are_sorted, text, texts_read_back, to_json,
};
