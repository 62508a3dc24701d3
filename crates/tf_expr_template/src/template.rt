//! Reading of templates from texts.

ghost use Rattle.std.specs.Prelude.{◌≡◌, ◌<◌, ◌≤◌, Some, IfOk, MatchResult};
ghost use Rattle.tf_expr_template.specs.Refusal.{Refuses, fault_text};
ghost use Rattle.tf_expr_template.specs.Spelling.{SpellsTemplate};
ghost use Rattle.tf_expr_syntax.specs.TemplateTree.{Woven, template_depth, template_view};

use crate::fault::TemplateFault;
use crate::reader::template;
use std::alloc::Global;
use std::error::Error;
use std::fmt;
use tf_expr_syntax::Template;

/// The greatest depth of a template.
pub const MAX_DEPTH: usize = 64;

/// Why no template is read.
#[derive(Clone, Copy, Debug, PartialEq, Eq)]
pub enum ReadFault {
    /// The text is no template. No template begins with the text up to and with the token at this byte.
    At(usize),
    /// The template is deeper than `MAX_DEPTH`.
    TooDeep,
    /// Memory ran out.
    OutOfMemory,
}

impl fmt::Display for ReadFault {
    ghost output = { λ fault. Some (fault_text fault) };

    fn fmt<W: fmt::Write>(&self, f: &mut fmt::Formatter<W>) -> fmt::Result {
        match self {
            ReadFault::At(offset) => write!(f, "no template from byte {offset} on"),
            ReadFault::TooDeep => write!(f, "deeper than {MAX_DEPTH}"),
            ReadFault::OutOfMemory => write!(f, "out of memory"),
        }
    }
}

impl Error for ReadFault {}

/// Reads the template that a whole text spells, if it is no deeper than `MAX_DEPTH`.
///
/// # Errors
///
/// Fails with `At` only if the text spells no template, with `TooDeep` only if each template that it spells is
/// deeper, and with `OutOfMemory` if memory runs out.
pub fn read_template(alloc: Global, text: &str) -> Result<Template, ReadFault>
    ensures sound { IfOk result (λ t. SpellsTemplate (template_view t) text.now
        × (template_depth (template_view t) ≤ 64)) }
    ensures complete { (w : Woven) → SpellsTemplate w text.now →
        MatchResult result (λ t. template_view t ≡ w) (λ e. Refuses e (64 < template_depth w)) }
{
    match template(alloc, text, false, MAX_DEPTH - 1) {
        Ok(read) => Ok(read.template),
        Err(TemplateFault::At(left)) => Err(ReadFault::At(text.len().saturating_sub(left))),
        Err(TemplateFault::TooDeep) => Err(ReadFault::TooDeep),
        Err(TemplateFault::OutOfMemory) => Err(ReadFault::OutOfMemory),
    }
}
