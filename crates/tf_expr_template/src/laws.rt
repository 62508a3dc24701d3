//! Laws of the definitions.

ghost use Rattle.std.specs.Prelude.{◌≡◌, ℕ, List};
ghost use Rattle.std.specs.Str.{IsUtf8};
ghost use Rattle.tf_expr_template.specs.Canonical.{IsWritableTemplate, TemplateHasTexts, canonical};
ghost use Rattle.tf_expr_template.specs.Spelling.{SpellsTemplate};
ghost use Rattle.tf_expr_syntax.specs.TemplateTree.{Woven};

/// A text spells at most one template, however deep.
pub fn one_template()
    ensures { (text : List ℕ) (v w : Woven) → SpellsTemplate v text → SpellsTemplate w text → v ≡ w }
{}

/// The canonical text of a writable template spells it, and no other template. It is UTF-8 if the template's texts
/// are.
pub fn canonical_text()
    ensures spelled { (w : Woven) → IsWritableTemplate w → SpellsTemplate w (canonical w) }
    ensures alone { (v w : Woven) → IsWritableTemplate w → SpellsTemplate v (canonical w) → v ≡ w }
    ensures text { (w : Woven) → IsWritableTemplate w → TemplateHasTexts w → IsUtf8 (canonical w) }
{}

/// A template is writable if any text spells it. If that text is UTF-8, so are the literals in the template.
pub fn spelled_is_writable()
    ensures writable { (w : Woven) (text : List ℕ) → SpellsTemplate w text → IsWritableTemplate w }
    ensures texts { (w : Woven) (text : List ℕ) → IsUtf8 text → SpellsTemplate w text → TemplateHasTexts w }
{}
