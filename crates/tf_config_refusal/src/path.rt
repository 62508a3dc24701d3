ghost use Rattle.std.specs.Prelude.{◌≡◌, [], ◌∷◌, ◌++◌, IfOk, string_bytes, if◌then◌else◌};
ghost use Rattle.tf_config_refusal.specs.Place.{place_of, dotted, is_top};

use std::alloc::{AllocError, Global};
use std::fmt::Write;

/// A place in a JSON text, as borrowed steps from the top. No step allocates memory.
#[derive(Drop)]
pub enum Path<'a> {
    /// The top of the text.
    Root,
    /// A property of the object at a place, by its name.
    Member(&'a Path<'a>, &'a str),
    /// An element of the array at a place, by its position, counted from 0.
    Item(&'a Path<'a>, usize),
}

impl Path<'_> {
    /// Returns the names and positions from the top down to the place, joined by dots, as `a.b.0`. Names are printed as
    /// they are written. The text of the root is empty.
    ///
    /// # Errors
    ///
    /// Fails only if memory runs out.
    pub fn text(&self, alloc: Global) -> Result<String, AllocError>
        ensures { IfOk result (λ s. string_bytes s ≡ dotted (place_of self.now)) }
    {
        match self {
            Path::Root => Ok(String::new(alloc)),
            Path::Member(parent, name) => {
                let mut text = continued(parent.text(alloc)?, parent.is_root())?;
                text.push_str(name)?;
                Ok(text)
            }
            Path::Item(parent, position) => {
                let mut text = continued(parent.text(alloc)?, parent.is_root())?;
                write!(text, "{position}")?;
                Ok(text)
            }
        }
    }

    fn is_root(&self) -> bool
        ensures { result ≡ is_top (place_of self.now) }
    {
        matches!(self, Path::Root)
    }
}

// Prepares the text for another step: adds a dot, unless it is the text of the root.
fn continued(mut text: String, at_root: bool) -> Result<String, AllocError>
    ensures { IfOk result (λ s. string_bytes s
        ≡ (if at_root then string_bytes text else string_bytes text ++ 46 ∷ [])) }
{
    if !at_root {
        text.push('.')?;
    }
    Ok(text)
}
