//! The result of a recorded call.

ghost use Rattle.std.specs.Prelude.{◌≡◌, [], true, option_map, string_bytes, string_capacity};
ghost use Rattle.tf_provider_protocol.specs.Meaning.{asked, answered};
ghost use Rattle.tf_value_data.specs.Tree.{tree_of};
ghost use Rattle.tf_graph.specs.Digraph.{Digraph};
ghost use Rattle.tf_walk_action.specs.ResultViews.{HasCause, IsByFlag, result_by, action_result_of, ended_action};
ghost use Rattle.tf_walk_action.specs.Storable.{asks_planned};
ghost use Rattle.tf_walk_action.specs.Room.{message_fits};

use crate::action_result::{ActionResult, Served};
use crate::stop::InTime;
use tf_claim::Finished;
use tf_provider::Recorded;

/// Returns the result of a recorded call, and the right to report its action as done. It takes the empty text that
/// was allocated before the call, with space for each message about the reply, and the evidence that the call began after a
/// look at the walk's flag.
pub fn ended_by(recorded: Recorded, message: String, in_time: InTime) -> (ActionResult, Finished)
    requires blank { string_bytes message ≡ [] }
    requires fits { message_fits (string_capacity message) (option_map tree_of recorded.request.object) ≡ true }
    requires planned { asks_planned recorded.request.op (option_map tree_of recorded.request.object) ≡ true }
    ensures finished { result.1 ≡ recorded.action }
    ensures action { ended_action result.0 ≡ recorded.action }
    ensures cause { (order : Digraph) → HasCause order result.0 }
    ensures flag { IsByFlag in_time result.0 }
    ensures ended { action_result_of result.0 ≡ result_by (asked recorded.request) (answered recorded.reply) recorded.verdict }
{
    let (finished, judged) = recorded.split();
    match judged {
        Err(unserved) => (ActionResult::NotServed(unserved, in_time), finished),
        Ok(call) => {
            let served = Served {
                call,
                message,
                in_time,
            };
            (ActionResult::Called(served), finished)
        }
    }
}
