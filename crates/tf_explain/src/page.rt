//! An explanation while it is written.

use crate::code::find_in_code;
use crate::excerpt::push_excerpt;
use crate::near::Nearest;
use crate::positions::Found;
use crate::shown::push_shown;
use crate::sources::SourceFile;
use crate::span::Span;
use std::alloc::{AllocError, Global};

/// The most excerpts in one explanation.
const MOST_EXCERPTS: usize = 10;

/// The most names in one sentence.
const MOST_NAMES: usize = 5;

/// The most bytes of files that are looked through for one explanation.
const MOST_READ: usize = 33_554_432;

/// The text of an explanation: indented lines.
#[derive(Drop)]
pub(crate) struct Page {
    /// The allocator of its text.
    pub(crate) alloc: Global,
    /// Its lines.
    pub(crate) text: String,
    excerpts: usize,
    /// How many bytes of files were looked through.
    read: usize,
}

impl Page {
    /// Returns an empty page.
    pub(crate) fn new(alloc: Global) -> Page {
        Page {
            alloc,
            text: String::new(alloc),
            excerpts: 0,
            read: 0,
        }
    }

    /// Returns the lines.
    pub(crate) fn into_text(self) -> String {
        let Page {
            alloc: _,
            text,
            excerpts: _,
            read: _,
        } = self;
        text
    }

    /// Returns an empty page that has the same limits left.
    pub(crate) fn part(&self) -> Page {
        Page {
            alloc: self.alloc,
            text: String::new(self.alloc),
            excerpts: self.excerpts,
            read: self.read,
        }
    }

    /// Adds the lines of a part, and counts what was read for it.
    ///
    /// # Errors
    ///
    /// Fails only if memory runs out.
    pub(crate) fn append(&mut self, part: &Page) -> Result<(), AllocError> {
        self.excerpts = self.excerpts.max(part.excerpts);
        self.count_read(part);
        self.text.push_str(part.text.as_str())
    }

    /// Counts what was read for a part.
    pub(crate) fn count_read(&mut self, part: &Page) {
        self.read = self.read.max(part.read);
    }

    /// Returns whether a file of this length may be looked through once more, and counts it.
    pub(crate) fn may_read(&mut self, length: usize) -> bool {
        self.read = self.read.saturating_add(length);
        self.read <= MOST_READ
    }

    /// Adds a place in a file: its line, with marks under it. A page has at most ten of them.
    ///
    /// # Errors
    ///
    /// Fails only if memory runs out.
    pub(crate) fn show(&mut self, file: SourceFile<'_>, span: Span) -> Result<(), AllocError> {
        if self.excerpts >= MOST_EXCERPTS {
            return Ok(());
        }
        self.excerpts = self.excerpts.saturating_add(1);
        push_excerpt(self.alloc, &mut self.text, file, span)
    }

    /// Adds the first place of a word in the expressions of a template, or all of the template if the word isn't in them.
    ///
    /// # Errors
    ///
    /// Fails only if memory runs out.
    pub(crate) fn show_word(
        &mut self,
        file: SourceFile<'_>,
        template: Span,
        word: &str,
    ) -> Result<(), AllocError> {
        let found = find_in_code(file.bytes, template, template.start, word, 0);
        self.show(file, found.unwrap_or(template))
    }

    /// Adds that a property is in its object twice, if it is, with its earlier place.
    ///
    /// # Errors
    ///
    /// Fails only if memory runs out.
    pub(crate) fn note_earlier(
        &mut self,
        file: SourceFile<'_>,
        found: Found<'_>,
    ) -> Result<(), AllocError> {
        match found.earlier {
            Some(earlier) => {
                self.say(&[
                    "The object has this property twice, and the last one counts. The other is here:",
                ])?;
                self.show(file, earlier)
            }
            None => Ok(()),
        }
    }

    /// Adds the first line of a warning, from its parts. It may have as many excerpts as a page.
    ///
    /// # Errors
    ///
    /// Fails only if memory runs out.
    pub(crate) fn warn(&mut self, parts: &[&str]) -> Result<(), AllocError> {
        self.excerpts = 0;
        self.push_parts(&["warning: "])?;
        self.end_line(parts)
    }

    /// Adds a line that ends with a number.
    ///
    /// # Errors
    ///
    /// Fails only if memory runs out.
    pub(crate) fn count(&mut self, text: &str, number: usize) -> Result<(), AllocError> {
        write!(self.text, "{text}{number}\n")
    }

    /// Adds a sentence, from its parts.
    ///
    /// # Errors
    ///
    /// Fails only if memory runs out.
    pub(crate) fn say(&mut self, parts: &[&str]) -> Result<(), AllocError> {
        self.push_parts(&["  "])?;
        self.end_line(parts)
    }

    /// Adds a sentence, from its parts, and the suggestion of a name if one is near.
    ///
    /// # Errors
    ///
    /// Fails only if memory runs out.
    pub(crate) fn suggest(
        &mut self,
        parts: &[&str],
        nearest: &Nearest<'_>,
    ) -> Result<(), AllocError> {
        self.push_parts(&["  "])?;
        self.push_parts(parts)?;
        match nearest.best() {
            Some(name) => self.end_line(&[" Did you mean `", name, "`?"]),
            None => self.end_line(&[]),
        }
    }

    /// Adds a sentence, from its parts, and the suggestion of the nearest of some names to a word.
    ///
    /// # Errors
    ///
    /// Fails only if memory runs out.
    pub(crate) fn suggest_among(
        &mut self,
        parts: &[&str],
        wanted: &str,
        names: &[&str],
    ) -> Result<(), AllocError> {
        let mut nearest = Nearest::to(self.alloc, wanted);
        nearest.consider_all(names)?;
        self.suggest(parts, &nearest)
    }

    /// Adds a sentence that ends with some names, before their place: the first five, and how many more there are.
    ///
    /// # Errors
    ///
    /// Fails only if memory runs out.
    pub(crate) fn say_names(&mut self, before: &str, names: &[String]) -> Result<(), AllocError> {
        self.push_parts(&["  ", before])?;
        for (number, name) in names.iter().take(MOST_NAMES).enumerate() {
            let begin = if number == 0 { " `" } else { ", `" };
            self.push_parts(&[begin, name.as_str(), "`"])?;
        }
        let more = names.len().saturating_sub(MOST_NAMES);
        if more > 0 {
            write!(self.text, " and {more} more")?;
        }
        self.end_line(&[":"])
    }

    /// Adds the last parts of a line, and its end.
    fn end_line(&mut self, parts: &[&str]) -> Result<(), AllocError> {
        self.push_parts(parts)?;
        self.text.push('\n')
    }

    /// Adds parts of a line.
    fn push_parts(&mut self, parts: &[&str]) -> Result<(), AllocError> {
        for part in parts {
            push_shown(&mut self.text, *part)?;
        }
        Ok(())
    }
}
