//! Functions with too few or too many arguments.

use crate::causes::evaluation::ReadText;
use crate::causes::used::Used;
use crate::page::Page;
use std::alloc::AllocError;
use tf_expr_syntax::{Function, Term};

/// Explains functions with a wrong number of arguments. Returns whether it found one.
///
/// # Errors
///
/// Fails only if memory runs out.
pub(crate) fn explain_arity(page: &mut Page, text: ReadText<'_, '_>) -> Result<bool, AllocError> {
    let mut is_found = false;
    let length = text.scope.sources.config.bytes.len();
    for (number, term) in text.terms.iter().enumerate() {
        let term = *term;
        let Term::Call(name, arguments) = term else {
            continue;
        };
        let Some(function) = Function::named(name.as_str()) else {
            continue;
        };
        let count = arguments.len();
        if !function.takes(count) && page.may_read(length) {
            Used { text, number, term }.show_step(page)?;
            say_arity(page, name.as_str(), function, count)?;
            is_found = true;
        }
    }
    Ok(is_found)
}

/// Says how many arguments a function takes, which are missing, and how it is called.
fn say_arity(
    page: &mut Page,
    name: &str,
    function: Function,
    count: usize,
) -> Result<(), AllocError> {
    let takes = takes(function);
    let missing = missing(function, count);
    let sentence = if missing.is_empty() {
        format!(in page.alloc; "`{name}` takes {takes}, and has {count} here.")?
    } else {
        format!(in page.alloc; "`{name}` takes {takes}, and has {count} here. {missing}")?
    };
    page.say(&[sentence.as_str()])?;
    page.say(&["It is called as ", form(function), "."])
}

/// Returns how many arguments a function takes.
fn takes(function: Function) -> &'static str {
    match function {
        Function::Length | Function::Keys | Function::Values | Function::ToSet => "1 argument",
        Function::Merge | Function::Concat => "1 argument or more",
        Function::Join => "2 arguments",
    }
}

/// Returns how a function is called, with the names of its arguments.
fn form(function: Function) -> &'static str {
    match function {
        Function::Length => "length(collection): a list, a map or a set",
        Function::Keys => "keys(map)",
        Function::Values => "values(map)",
        Function::ToSet => "toset(list)",
        Function::Merge => "merge(map, map, ..)",
        Function::Concat => "concat(list, list, ..)",
        Function::Join => "join(separator, list)",
    }
}

/// Returns which arguments are missing if a function has the given number of them.
fn missing(function: Function, count: usize) -> &'static str {
    match (function, count) {
        (Function::Length, 0) => "`collection` is missing.",
        (Function::Keys | Function::Values | Function::Merge, 0) => "`map` is missing.",
        (Function::ToSet | Function::Concat, 0) => "`list` is missing.",
        (Function::Join, 0) => "`separator` and `list` are missing.",
        (Function::Join, 1) => "`list` is missing.",
        _ => "",
    }
}
