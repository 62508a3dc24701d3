//! Values that the files show.

use crate::blocks::declaration;
use crate::decoding::is_text;
use crate::page::Page;
use crate::positions::{Member, is_comment, items, member_named, top};
use crate::sources::{SourceFile, Sources};
use crate::span::{Span, byte_at, bytes_in, is_literal};
use std::alloc::{AllocError, Global};

pub(crate) const TEXT: &str = "a text";

pub(crate) const NUMBER: &str = "a number";

pub(crate) const TRUTH: &str = "a truth value";

pub(crate) const LIST: &str = "a list";

pub(crate) const MAP: &str = "a map";

pub(crate) const SET: &str = "a set";

pub(crate) const NULL: &str = "null";

/// How a value is written in a file.
#[derive(Clone, Copy, PartialEq, Eq)]
pub(crate) enum Written {
    /// Its texts are no templates: the value of a variable.
    Literally,
    /// The type of the variable makes texts of its elements that are numbers or truth values.
    AsElements,
    /// The type of the variable makes a text of it if it is a number or a truth value.
    AsText,
    /// Its texts are templates: a local.
    AsExpression,
    /// Its texts are templates: an argument of a resource.
    AsArgument,
    /// It is null, since a block leaves the argument out. The place is the name of the block.
    LeftOut,
}

/// A value that a file shows.
#[derive(Clone, Copy)]
pub(crate) struct Shown<'s> {
    pub(crate) file: SourceFile<'s>,
    pub(crate) span: Span,
    pub(crate) written: Written,
}

impl<'s> Shown<'s> {
    /// Returns the value of an expression in the configuration.
    pub(crate) fn expression(config: SourceFile<'s>, span: Span) -> Shown<'s> {
        Shown {
            file: config,
            span,
            written: Written::AsExpression,
        }
    }

    /// Returns a value in a file whose texts are no templates.
    pub(crate) fn literal(file: SourceFile<'s>, span: Span) -> Shown<'s> {
        Shown {
            file,
            span,
            written: Written::Literally,
        }
    }

    /// Returns the first byte of the value.
    pub(crate) fn first(self) -> u8 {
        byte_at(self.file.bytes, self.span.start)
    }

    /// Returns of which kind the value is, in words, or nothing for a text that has an interpolation.
    pub(crate) fn kind(self) -> Option<&'static str> {
        let is_null = self.first() == b'n';
        match self.written {
            Written::LeftOut => Some(NULL),
            Written::AsText if !is_null => Some(TEXT),
            Written::Literally | Written::AsElements if self.first() == b'"' => Some(TEXT),
            _ => kind_at(self.file.bytes, self.span),
        }
    }

    /// Returns whether the type of the variable makes a text of a number or a truth value.
    pub(crate) fn is_made_a_text(self) -> bool {
        self.written == Written::AsText && self.first() != b'"' && self.first() != b'n'
    }

    /// Returns an element of the value.
    fn element(self, span: Span) -> Shown<'s> {
        let written = match self.written {
            Written::AsElements => Written::AsText,
            other => other,
        };
        Shown {
            file: self.file,
            span,
            written,
        }
    }

    /// Returns the value at a key, if this is a map. A comment is none.
    pub(crate) fn at_key(self, key: &str) -> Option<Shown<'s>> {
        let member = member_named(self.file.bytes, self.span, key)?;
        if is_comment(self.file.bytes, member) {
            return None;
        }
        Some(self.element(member.value))
    }

    /// Returns the value at an index, if this is a list.
    ///
    /// # Errors
    ///
    /// Fails only if memory runs out.
    pub(crate) fn at_index(
        self,
        alloc: Global,
        index: u64,
    ) -> Result<Option<Shown<'s>>, AllocError> {
        let Ok(position) = usize::try_from(index) else {
            return Ok(None);
        };
        let item = items(alloc, self.file.bytes, self.span)?
            .get(position)
            .copied();
        Ok(item.map(|span| self.element(span)))
    }

    /// Returns the first element of which the kind is known and isn't among some, if this is a list.
    ///
    /// # Errors
    ///
    /// Fails only if memory runs out.
    pub(crate) fn first_other(
        self,
        alloc: Global,
        wanted: &[&str],
    ) -> Result<Option<Shown<'s>>, AllocError> {
        for item in &items(alloc, self.file.bytes, self.span)? {
            let element = self.element(*item);
            if let Some(kind) = element.kind()
                && !wanted.contains(&kind)
            {
                return Ok(Some(element));
            }
        }
        Ok(None)
    }
}

/// Shows a value, after a line that says what it is.
///
/// # Errors
///
/// Fails only if memory runs out.
pub(crate) fn show_value(page: &mut Page, shown: Shown<'_>) -> Result<(), AllocError> {
    page.show(shown.file, shown.span)
}

/// Returns the value of a variable, in the variables file or else as its default.
pub(crate) fn value_of_variable<'s>(name: &str, sources: Sources<'s>) -> Option<Shown<'s>> {
    let config = sources.config;
    let variable = declaration(config.bytes, "variable", name);
    let written = match variable {
        Some(variable) => written_by_type(config.bytes, variable),
        None => Written::Literally,
    };
    if let Some(vars) = sources.vars {
        if let Some(given) = member_named(vars.bytes, top(vars.bytes), name) {
            return Some(Shown {
                file: vars,
                span: given.value,
                written,
            });
        }
    }
    let default = member_named(config.bytes, variable?.value, "default")?;
    Some(Shown {
        file: config,
        span: default.value,
        written,
    })
}

/// Returns how the value of a variable is written, by its declared type.
fn written_by_type(config: &[u8], variable: Member) -> Written {
    let Some(declared) = member_named(config, variable.value, "type") else {
        return Written::Literally;
    };
    if is_text(config, declared.value, "string") {
        return Written::AsText;
    }
    for name in ["list(string)", "map(string)"] {
        if is_text(config, declared.value, name) {
            return Written::AsElements;
        }
    }
    Written::Literally
}

/// Returns of which kind the value in a range of a file is, in words, or nothing for a text that has an interpolation.
pub(crate) fn kind_at(text: &[u8], value: Span) -> Option<&'static str> {
    match byte_at(text, value.start) {
        b'[' => Some(LIST),
        b'{' => Some(MAP),
        b't' | b'f' => Some(TRUTH),
        b'n' => Some(NULL),
        b'-' | b'0'..=b'9' => Some(NUMBER),
        _ if is_literal(text, value) => Some(TEXT),
        _ => None,
    }
}

/// Returns the whole number of 0 or more in a range of a file.
pub(crate) fn number_at(text: &[u8], value: Span) -> Option<u64> {
    let Ok(digits) = str::from_utf8(bytes_in(text, value)) else {
        return None;
    };
    digits.parse::<u64>().ok()
}
