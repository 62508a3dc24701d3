//! What is known where an expression is evaluated.

use crate::blocks::{block_at, key_in};
use crate::causes::evaluation::{is_alone, template_at};
use crate::causes::following::value_of;
use crate::causes::values::Shown;
use crate::decoding::decoded;
use crate::page::Page;
use crate::positions::{Member, member_named};
use crate::sources::Sources;
use crate::span::byte_at;
use std::alloc::AllocError;
use tf_expr_syntax::Term;

/// The files, and which instance an expression belongs to.
#[derive(Clone, Copy)]
pub(crate) struct Scope<'s> {
    pub(crate) sources: Sources<'s>,
    /// The value of `count.index`, if it is known.
    pub(crate) index: Option<u64>,
    /// How JSON spells the value of `each.key` between quotes, if it is known.
    pub(crate) key: Option<&'s [u8]>,
    /// The value of `each.value`, if the files show it.
    pub(crate) each: Option<Shown<'s>>,
    /// Whether `each.value` is a text of a set.
    pub(crate) is_set: bool,
}

impl<'s> Scope<'s> {
    /// Returns what is known outside instances.
    pub(crate) fn of(sources: Sources<'s>) -> Scope<'s> {
        Scope {
            sources,
            index: None,
            key: None,
            each: None,
            is_set: false,
        }
    }

    /// Returns what is known at a place, which may be the address of an instance and an attribute.
    ///
    /// # Errors
    ///
    /// Fails only if memory runs out.
    pub(crate) fn at(
        page: &mut Page,
        place: &'s str,
        sources: Sources<'s>,
    ) -> Result<Scope<'s>, AllocError> {
        let mut scope = Scope::of(sources);
        let Some(key) = key_in(place) else {
            return Ok(scope);
        };
        scope.index = key.parse::<u64>().ok();
        let Some(raw) = key
            .strip_prefix("\"")
            .and_then(|rest| rest.strip_suffix("\""))
        else {
            return Ok(scope);
        };
        scope.key = Some(raw.as_bytes());
        let config = sources.config.bytes;
        let for_each = block_at(config, place).and_then(|block| member_named(
            config,
            block.value,
            "for_each",
        ));
        if let Some(for_each) = for_each {
            return scope.with_each(page, for_each);
        }
        Ok(scope)
    }

    /// Adds the value of `each.value`, as far as `for_each` shows it.
    fn with_each(self, page: &mut Page, for_each: Member) -> Result<Scope<'s>, AllocError> {
        let config = self.sources.config;
        let mut scope = self;
        let outside = Scope::of(self.sources);
        let mut map = Some(Shown::expression(config, for_each.value));
        if byte_at(config.bytes, for_each.value.start) == b'"' {
            map = None;
            if let Some(template) = template_at(page.alloc, for_each.value, config.bytes)?
                && let Some(part) = template.parts.first()
                && is_alone(&template)
            {
                scope.is_set = is_call_of(&part.1, "toset");
                map = value_of(page, &part.1, outside)?;
            }
        }
        let key = decoded(page.alloc, self.key.unwrap_or(b""))?;
        scope.each = map.and_then(|map| map.at_key(key.as_str()));
        Ok(scope)
    }
}

/// Returns whether a part of an expression is a call of a function.
pub(crate) fn is_call_of(term: &Term, function: &str) -> bool {
    match term {
        Term::Call(name, _) => name.as_str() == function,
        _ => false,
    }
}
