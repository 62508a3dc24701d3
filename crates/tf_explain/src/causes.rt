//! The causes of refusals and diagnostics, in sentences.

mod arguments;
mod arity;
mod counted;
mod cycle;
mod evaluation;
mod evaluation_terms;
mod following;
mod instances;
mod joined;
mod json;
mod kinds;
mod names;
mod operands;
mod others;
mod prevented;
mod recorded;
mod scope;
mod shape;
mod shape_bodies;
mod shown_operands;
mod template;
mod terms;
mod used;
mod values;

use crate::causes::arguments::explain_argument;
use crate::causes::counted::{explain_count, explain_for_each, explain_unknown_instances};
use crate::causes::cycle::explain_cycle;
use crate::causes::evaluation::explain_evaluation;
use crate::causes::json::{Expected, explain_json};
use crate::causes::names::explain_names;
use crate::causes::others::{
    explain_diagnostic, explain_limit, explain_no_provider, explain_state,
};
use crate::causes::prevented::explain_prevented;
use crate::causes::shape::explain_shape;
use crate::causes::template::explain_template;
use crate::line::{ErrorLine, detail_of};
use crate::page::Page;
use crate::sources::Sources;
use std::alloc::{AllocError, Global};

/// Returns the explanation of a line: indented lines, or nothing if there is nothing to explain.
///
/// # Errors
///
/// Fails only if memory runs out.
pub fn explanation<'l, 's>(
    alloc: Global,
    line: ErrorLine<'l>,
    sources: Sources<'s>,
) -> Result<String, AllocError> {
    let mut page = Page::new(alloc);
    explain_line(&mut page, line, sources)?;
    Ok(page.into_text())
}

/// Explains a line.
fn explain_line(
    page: &mut Page,
    line: ErrorLine<'_>,
    sources: Sources<'_>,
) -> Result<(), AllocError> {
    let detail = detail_of(line.message);
    match line.code {
        1 => explain_file(page, line.place, sources),
        2 => explain_shape(page, line.place, sources),
        3 => explain_template(page, line.place, detail, sources),
        4 => explain_names(page, line.place, sources),
        5 => explain_cycle(page, detail, sources),
        6 => explain_count(page, line.place, sources),
        7 => explain_for_each(page, line.place, sources),
        8 => explain_unknown_instances(page, line.place, sources),
        9 => explain_evaluation(page, line.place, detail, sources),
        10 => explain_argument(page, line.place, sources),
        11 => explain_no_provider(page, line.place, sources),
        12 => explain_prevented(page, line.place, sources),
        13 => explain_state(page, line.place, sources),
        14 => explain_limit(page, line.place, sources),
        21..=27 => explain_diagnostic(page, line, sources),
        _ => Ok(()),
    }
}

/// What is said of a configuration that isn't JSON.
const CONFIGURATION: Expected = Expected {
    native: "Only Terraform's JSON syntax (.tf.json) is read here, not the native syntax (.tf).",
    empty: "Write { \"resource\": { \"TYPE\": { \"NAME\": { .. } } } } into it, or name another file with --config FILE.",
};

/// What is said of a variables file that isn't JSON.
const VARIABLES: Expected = Expected {
    native: "A variables file is one JSON object: { \"NAME\": VALUE }.",
    empty: "A variables file is one JSON object: { \"NAME\": VALUE }.",
};

/// Explains why a file isn't JSON.
fn explain_file(page: &mut Page, place: &str, sources: Sources<'_>) -> Result<(), AllocError> {
    match place {
        "configuration" => explain_json(page, sources.config, CONFIGURATION),
        "variables" => match sources.vars {
            Some(vars) => explain_json(page, vars, VARIABLES),
            None => Ok(()),
        },
        _ => Ok(()),
    }
}
