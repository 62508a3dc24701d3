//! The one text of a JSON tree: the pretty layout of `serde_json`, with a newline at its end.

ghost use Rattle.serde.specs.Event.{Log};
ghost use Rattle.std.specs.Prelude.{List, [], IfOk, Some, string_bytes};
ghost use Rattle.tf_value_json.specs.Text.{IsTextOfEvents, IsTextOfSentTree};

use serde::Serialize;
use serde_json::Error;
use std::alloc::Global;

/// Returns the text of the value as JSON, with no tree in between: two spaces a level, `[]` and `{}` for empty ones,
/// members in the order in which the value sends them, and one newline at the end.
///
/// # Errors
///
/// Fails if memory runs out, if what the value sends isn't JSON, or if the value's own `serialize` fails.
#[tactic(auto, using(crate::proofs::Pretty::text_of_events, crate::proofs::Pretty::text_of_sent_tree))]
pub fn text<T: Serialize>(alloc: Global, value: &T) -> Result<String, Error>
    // The tokens of the events that the value sends, in the pretty layout.
    ensures events { IfOk result (λ s. (log : Log)
        × T.writes value.now (Some []) log × IsTextOfEvents log (string_bytes s)) }
    // If those are the events of a tree without floats, the tree's own text.
    ensures tree { IfOk result (λ s. (log : Log)
        × T.writes value.now (Some []) log × IsTextOfSentTree log (string_bytes s)) }
{
    let mut text = serde_json::to_string_pretty(alloc, value)?;
    text.push('\n')?;
    Ok(text)
}
