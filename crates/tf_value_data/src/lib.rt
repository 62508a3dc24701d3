#![tactic(auto)]

//! Values with parts that aren't known yet.

mod copies;
mod equality;
mod known;
mod laws;
mod measure;
mod nulls;
mod parts;
mod refinement;
mod scalar;
mod sets;
mod stored;
mod value;

pub use copies::copy;
pub use known::{entries_are_known, is_known};
pub use laws::{
    equality_is_of_trees, known_values_stay, limits_decide, lists_stand_for_sets,
    nulls_stand_for_unknowns, parts_refine, puts_are_found, refinement_is_an_order,
    scalars_are_known, stored_values_are_known,
};
pub use measure::{MAX_DEPTH, MAX_WEIGHT, depth, is_within_limits, weight};
pub use nulls::with_nulls;
pub use refinement::refines;
pub use scalar::scalar_text;
pub use sets::{has_no_set, with_lists};
pub use stored::{each_may_be_stored, may_be_stored};
pub use value::{Value, find};
