//! Names that are near a misspelt one.

use std::alloc::{AllocError, Global};
use strsim::osa_distance;

/// The longest name that is compared, in bytes.
const LONGEST: usize = 64;

/// The most edits between a name and one that is suggested.
const MOST_EDITS: usize = 2;

/// The best name so far, and how many edits lead to it.
#[derive(Drop)]
pub(crate) struct Nearest<'a> {
    /// The allocator of the best name.
    pub(crate) alloc: Global,
    wanted: &'a str,
    best: Option<String>,
    edits: usize,
}

impl<'a> Nearest<'a> {
    /// Begins the search for names that are near one.
    pub(crate) fn to(alloc: Global, wanted: &'a str) -> Nearest<'a> {
        Nearest {
            alloc,
            wanted,
            best: None,
            edits: usize::MAX,
        }
    }

    /// Considers a name.
    ///
    /// # Errors
    ///
    /// Fails only if memory runs out.
    pub(crate) fn consider(&mut self, name: &str) -> Result<(), AllocError> {
        if name.len() > LONGEST || self.wanted.len() > LONGEST || name == self.wanted {
            return Ok(());
        }
        let edits = osa_distance(self.alloc, self.wanted, name)?;
        if edits < self.edits && is_near(edits, self.wanted.len()) {
            self.best = Some(String::from_str(self.alloc, name)?);
            self.edits = edits;
        }
        Ok(())
    }

    /// Considers some names.
    ///
    /// # Errors
    ///
    /// Fails only if memory runs out.
    pub(crate) fn consider_all(&mut self, names: &[&str]) -> Result<(), AllocError> {
        for name in names {
            self.consider(*name)?;
        }
        Ok(())
    }

    /// Considers a name after a prefix.
    ///
    /// # Errors
    ///
    /// Fails only if memory runs out.
    pub(crate) fn consider_after(&mut self, prefix: &str, name: &str) -> Result<(), AllocError> {
        let candidate = format!(in self.alloc; "{prefix}{name}")?;
        self.consider(candidate.as_str())
    }

    /// Returns the nearest name, if one is near.
    pub(crate) fn best(&self) -> Option<&str> {
        self.best.as_ref().map(|name| name.as_str())
    }
}

/// Returns whether a name of this length is near one that the given number of edits leads to: at most one edit for three bytes.
fn is_near(edits: usize, length: usize) -> bool {
    edits <= MOST_EDITS && edits.saturating_mul(3) <= length.saturating_add(1)
}
