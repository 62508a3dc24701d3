//! The verb in a line.

ghost use Rattle.std.specs.Prelude.{◌≡◌};
ghost use Rattle.tf_cli_lines.specs.Lines.{verb_text};

use tf_provider_protocol::Op;

/// Returns a space and the verb of an operation, or the empty text without one.
pub fn verb_text(verb: &Option<Op>) -> &'static str
    ensures { result.now ≡ verb_text verb.now }
{
    match verb {
        None => "",
        Some(Op::Create) => " create",
        Some(Op::Update) => " update",
        Some(Op::Destroy) => " destroy",
    }
}
