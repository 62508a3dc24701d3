//! The demands at one place of a JSON tree.

ghost use Rattle.serde_json.specs.View.{number_view};
ghost use Rattle.std.specs.Prelude.{◌≡◌, ◌↔◌, IfErr, IfOk, IsTrue, OnOk};
ghost use Rattle.tf_expr_json.specs.Demand.{Refuses, TellsAt, a_plain_name, a_template, a_whole_number, IsTemplate};
ghost use Rattle.tf_expr_json.specs.Fault.{told};
ghost use Rattle.tf_expr_json.specs.Opening.{opens, IsPlain};
ghost use Rattle.tf_expr_syntax.specs.TemplateTree.{template_view};
ghost use Rattle.tf_config_refusal.specs.Check.{demanded};
ghost use Rattle.tf_config_refusal.specs.Place.{dotted, place_of};
ghost use Rattle.tf_value_json.specs.Json.{whole_from};
ghost use Rattle.tf_value_data.specs.Tree.{whole};

use crate::fault::{ExprCause, ExprFault};
use serde_json::Number;
use std::alloc::Global;
use tf_config_refusal::Path;
use tf_expr_syntax::Template;
use tf_expr_template::{ReadFault, read_template};

// Returns a fault at a place, or that memory ran out for the text of the place.
fn refused(alloc: Global, path: &Path<'_>, cause: ExprCause) -> ExprFault
    ensures { TellsAt (dotted (place_of path.now)) cause (told result) }
{
    match path.text(alloc) {
        Ok(place) => ExprFault::Refused { place, cause },
        Err(_) => ExprFault::OutOfMemory,
    }
}

// Returns the whole number of 64 signed bits that a number is held as.
pub(crate) fn demand_whole(
    alloc: Global,
    path: &Path<'_>,
    number: &Number,
) -> Result<i64, ExprFault>
    ensures ok { IfOk result (λ n. whole_from (number_view number.now) ≡ whole n) }
    ensures fault { IfErr result (λ fault.
        Refuses (demanded (place_of path.now) (a_whole_number (number_view number.now))) (told fault)) }
{
    match number.as_i64() {
        Some(whole) => Ok(whole),
        None => Err(refused(alloc, path, ExprCause::BadShape)),
    }
}

// Reads a text as a template.
pub(crate) fn demand_template(
    alloc: Global,
    path: &Path<'_>,
    text: &str,
) -> Result<Template, ExprFault>
    ensures ok { IfOk result (λ t. IsTemplate (template_view t) text.now) }
    ensures fault { IfErr result (λ fault.
        Refuses (demanded (place_of path.now) (a_template text.now)) (told fault)) }
{
    match read_template(alloc, text) {
        Ok(template) => Ok(template),
        Err(ReadFault::At(offset)) => Err(refused(alloc, path, ExprCause::At(offset))),
        Err(ReadFault::TooDeep) => Err(refused(alloc, path, ExprCause::TooDeep)),
        Err(ReadFault::OutOfMemory) => Err(ExprFault::OutOfMemory),
    }
}

// Checks that a property's name is literal.
pub(crate) fn demand_plain_name(alloc: Global, path: &Path<'_>, name: &str) -> Result<(), ExprFault>
    ensures ok { OnOk result (IsPlain name.now) }
    ensures fault { IfErr result (λ fault.
        Refuses (demanded (place_of path.now) (a_plain_name name.now)) (told fault)) }
{
    if is_plain(name) {
        Ok(())
    } else {
        Err(refused(alloc, path, ExprCause::BadShape))
    }
}

// Returns whether a text contains neither `${` nor `%{`.
fn is_plain(text: &str) -> bool
    ensures { IsTrue result ↔ IsPlain text.now }
{
    let bytes = text.as_bytes();
    for after in 1..bytes.len() {
        if opens(bytes[after - 1], bytes[after]) {
            return false;
        }
    }
    true
}

fn opens(first: u8, second: u8) -> bool
    ensures { result ≡ opens first second }
{
    (first == b'$' || first == b'%') && second == b'{'
}
