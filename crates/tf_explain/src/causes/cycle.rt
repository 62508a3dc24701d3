//! Names that need themselves.

use crate::blocks::{block, declaration};
use crate::page::Page;
use crate::positions::Member;
use crate::sources::Sources;
use crate::span::{Span, find_word};
use std::alloc::AllocError;

/// Explains locals and resources that need themselves, each with its line.
///
/// # Errors
///
/// Fails only if memory runs out.
pub(crate) fn explain_cycle(
    page: &mut Page,
    detail: Option<&str>,
    sources: Sources<'_>,
) -> Result<(), AllocError> {
    let names = detail.unwrap_or("");
    for name in names.split(", ") {
        if let Some(member) = named(name, sources.config.bytes) {
            page.show(sources.config, need_in(sources.config.bytes, member, names))?;
        }
    }
    if names.contains(", ") {
        return page.say(&[
            "These need one another. Remove a reference, or an element of `depends_on`, between them.",
        ]);
    }
    page.say(&[
        "`",
        names,
        "` needs itself. Remove the reference, or the element of `depends_on`.",
    ])
}

/// Returns where a declaration refers to the first of some names, or where its own name is.
fn need_in(text: &[u8], member: Member, names: &str) -> Span {
    for name in names.split(", ") {
        if let Some(span) = find_word(text, member.value, name) {
            return span;
        }
    }
    member.name
}

/// Returns the declaration of a local or a resource.
fn named(name: &str, config: &[u8]) -> Option<Member> {
    let (first, rest) = name.split_once(".")?;
    match first {
        "local" => declaration(config, "locals", rest),
        _ => block(config, first, rest),
    }
}
