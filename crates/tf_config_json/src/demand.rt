ghost use Rattle.tf_config_json.specs.Demand.{Judges, TellsAt, bad_shape, a_name, a_type_name};
ghost use Rattle.tf_config_json.specs.Configuration.{whole_file};
ghost use Rattle.tf_config_refusal.specs.Refusal.{bare, refusal_of, detail_of};
ghost use Rattle.tf_config_refusal.specs.Check.{demanded};
ghost use Rattle.tf_config_refusal.specs.Place.{dotted, place_of};
ghost use Rattle.serde_json.specs.View.{number_view, view};
ghost use Rattle.std.specs.Prelude.{◌∷◌, [], codes};
ghost use Rattle.tf_config_json.specs.Configuration.{has, repeats_once};
ghost use Rattle.tf_config_json.specs.Demand.{holds, of_expression};
ghost use Rattle.tf_expr_json.specs.Demand.{a_whole_number};

use crate::words;
use serde_json::{Number, Value};
use std::alloc::Global;
use tf_config_address::is_name;
use tf_config_refusal::{Code, Detail, Path, Refusal};

/// The name of the configuration's file in refusals.
pub(crate) const CONFIGURATION: &str = "configuration";

/// Builds the refusal of a fault at a place, or of out of memory if the place can't be written out.
pub(crate) fn fault_at(alloc: Global, path: &Path<'_>, code: Code, detail: Detail) -> Refusal
    ensures { TellsAt (dotted (place_of path.now)) (code, detail_of detail) (refusal_of result) }
{
    match path.text(alloc) {
        Ok(place) => Refusal::Fault {
            code,
            place,
            detail,
        },
        Err(_) => Refusal::OutOfMemory,
    }
}

/// Builds the refusal of a fault of a whole file, by the file's name, without detail.
pub(crate) fn file_fault(alloc: Global, file: &str, code: Code) -> Refusal
    ensures { TellsAt (dotted (file.now ∷ [])) (code, bare) (refusal_of result) }
{
    let path = Path::Member(&Path::Root, file);
    fault_at(alloc, &path, code, Detail::Bare)
}

/// Builds the refusal of a fault of the whole configuration.
pub(crate) fn whole_file_fault(alloc: Global, code: Code) -> Refusal
    ensures { TellsAt (dotted whole_file) (code, bare) (refusal_of result) }
{
    file_fault(alloc, CONFIGURATION, code)
}

/// Builds the refusal of anything that isn't allowed at the place.
pub(crate) fn bad_shape(alloc: Global, path: &Path<'_>) -> Refusal
    ensures { TellsAt (dotted (place_of path.now)) bad_shape (refusal_of result) }
{
    fault_at(alloc, path, Code::BadShape, Detail::Bare)
}

pub(crate) fn demand_name(alloc: Global, path: &Path<'_>, text: &str) -> Result<(), Refusal>
    ensures { Judges (demanded (place_of path.now) (a_name text.now)) result }
{
    if is_name(text) {
        Ok(())
    } else {
        Err(bad_shape(alloc, path))
    }
}

pub(crate) fn demand_type_name(alloc: Global, path: &Path<'_>, text: &str) -> Result<(), Refusal>
    ensures { Judges (demanded (place_of path.now) (a_type_name text.now)) result }
{
    if words::is_type_name(text) {
        Ok(())
    } else {
        Err(bad_shape(alloc, path))
    }
}

/// Checks that a number is held as a whole number of 64 bits with a sign.
pub(crate) fn demand_whole(alloc: Global, path: &Path<'_>, number: &Number) -> Result<(), Refusal>
    ensures { Judges (demanded (place_of path.now) (of_expression (a_whole_number (number_view number.now)))) result }
{
    match number.as_i64() {
        Some(_) => Ok(()),
        None => Err(bad_shape(alloc, path)),
    }
}

/// Checks that the body of a resource doesn't have both `count` and `for_each`.
pub(crate) fn demand_one_repetition(
    alloc: Global,
    path: &Path<'_>,
    body: &Value,
) -> Result<(), Refusal>
    ensures { Judges (demanded (place_of path.now) (holds (repeats_once (view body.now)))) result }
{
    if body.get("count").is_some() && body.get("for_each").is_some() {
        Err(bad_shape(alloc, path))
    } else {
        Ok(())
    }
}

/// Checks that the body of an output has a value.
pub(crate) fn demand_value(alloc: Global, path: &Path<'_>, body: &Value) -> Result<(), Refusal>
    ensures { Judges (demanded (place_of path.now) (holds (has (codes "value") (view body.now)))) result }
{
    if body.get("value").is_some() {
        Ok(())
    } else {
        Err(bad_shape(alloc, path))
    }
}
