//! The values of options that may be given several times.

ghost use Rattle.std.specs.Prelude.{◌≡◌, [], IfOk, map, string_bytes, unwrap_or};
ghost use Rattle.clap.specs.Words.{all_of, found_of, rows_of};

use clap::ArgMatches;
use std::alloc::{AllocError, Global};

/// Returns the values of an option, in their order.
pub(crate) fn texts_of(
    alloc: Global,
    matches: &ArgMatches<'_>,
    name: &str,
) -> Result<Vec<String>, AllocError>
    ensures { IfOk result (λ texts. map (λ t. string_bytes t) texts.items ≡ unwrap_or (all_of name.now (rows_of (found_of matches.now))) []) }
{
    match matches.get_strs(name) {
        Some(texts) => copies(alloc, texts),
        None => Ok(Vec::new(alloc)),
    }
}

/// Copies texts.
fn copies(alloc: Global, texts: &[&str]) -> Result<Vec<String>, AllocError>
    ensures { IfOk result (λ copies. map (λ t. string_bytes t) copies.items ≡ map (λ t. t.now) texts.now) }
{
    let mut copies = Vec::with_capacity(alloc, texts.len())?;
    for text in texts {
        let copy = String::from_str(alloc, text)?;
        copies.push(copy)?;
    }
    Ok(copies)
}
