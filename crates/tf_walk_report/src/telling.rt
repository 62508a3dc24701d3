//! What is reported of a call, without taking memory.

ghost use Rattle.std.specs.Prelude.{◌≡◌, ◌++◌, ℕ, [], true, List, Option, Some, codes, option_map, string_bytes, string_capacity};
ghost use Rattle.tf_walk_action.specs.Words.{Answer, Asked, message_fits, tree_of};
ghost use Rattle.tf_provider_protocol.specs.declared.request.Op.{Op};
ghost use Rattle.tf_walk_report.specs.ActionReport.{listed};
ghost use Rattle.tf_walk_report.specs.Diagnostics.{diagnostics_of_verdict, failure_message, name_at};
ghost use Rattle.tf_walk_report.specs.Replied.{failure_in};

use crate::one_line::one_line;
use tf_config_refusal::Code;
use tf_provider::Verdict;
use tf_value_data::Value;

/// Returns what is reported of a call, if anything, by the verdict on its reply: a code and a message. The message is
/// that of a failure, or it is written into `message`, which has capacity for it.
pub fn telling(
    verdict: Verdict,
    mut message: String,
    object: &Option<Value>,
    failure: Option<String>,
) -> Option<(Code, String)>
    requires blank { string_bytes message ≡ [] }
    requires fits { message_fits (string_capacity message) (option_map tree_of object.now) ≡ true }
    ensures { (place : List ℕ) (op : Op) (r : Asked) (answer : Option Answer) → r.object ≡ option_map tree_of object.now
        → failure_in answer ≡ option_map string_bytes failure
        → listed (option_map (λ t. record { code = t.0; place = place; verb = Some op; message = string_bytes t.1 }) result)
        ≡ diagnostics_of_verdict place op r answer verdict }
{
    match verdict {
        Verdict::Good | Verdict::Excused => None,
        Verdict::Contradicted(place) => Some((
            Code::Contradiction,
            contradiction(message, object, place),
        )),
        Verdict::Malformed => {
            message.push_str("malformed reply").unwrap();
            Some((Code::Malformed, message))
        }
        Verdict::Failed => Some((Code::Failed, failed(message, failure))),
    }
}

/// Returns the message of a failure in one line, or else an empty one.
fn failed(message: String, failure: Option<String>) -> String
    requires { string_bytes message ≡ [] }
    ensures { (answer : Option Answer) → failure_in answer ≡ option_map string_bytes failure
        → string_bytes result ≡ failure_message answer }
{
    match failure {
        Some(failure) => one_line(failure),
        None => message,
    }
}

/// Writes the message about a reply that contradicts the plan into `message`, which has capacity for it.
fn contradiction(mut message: String, object: &Option<Value>, place: usize) -> String
    requires blank { string_bytes message ≡ [] }
    requires fits { message_fits (string_capacity message) (option_map tree_of object.now) ≡ true }
    ensures { string_bytes result ≡ codes "contradicts " ++ name_at (option_map tree_of object.now) place }
{
    message.push_str("contradicts ").unwrap();
    if let Some(object) = object {
        if let Value::Map(attributes) = object {
            if let Some((name, _)) = attributes.iter().nth(place) {
                message.push_str(name.as_str()).unwrap();
            }
        }
    }
    message
}
