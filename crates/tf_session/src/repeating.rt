//! Calls in flight that are made again, since that does no harm.

ghost use Rattle.std.specs.Arc.{arc_value};
ghost use Rattle.std.specs.Prelude.{◌≡◌, map};
ghost use Rattle.tf_provider_remote.specs.Types.{type_of};
ghost use Rattle.tf_session.specs.Repeated.{IsWithoutRepeated, not_repeated};

use std::io::Write;
use tf_cli_files::UnfinishedApply;
use tf_cli_lines::verb_text;
use tf_provider_log::LogEntry;
use tf_provider_protocol::Request;
use tf_provider_remote::RemoteTypes;

/// Takes the calls of idempotent types out of the calls in flight of an unfinished apply, and prints each. It is then recovered as if
/// they weren't made, so the next plan has them again.
pub fn repeat_idempotent<E: Write>(
    types: &RemoteTypes,
    unfinished: Option<(UnfinishedApply, Vec<LogEntry>)>,
    err: &mut E,
) -> Option<(UnfinishedApply, Vec<LogEntry>)>
    ensures { IsWithoutRepeated (map type_of (arc_value types.now.types).items) unfinished result }
{
    if let Some((found, _)) = &unfinished {
        for request in &found.in_flight {
            if types.is_idempotent(request.type_name.as_str()) {
                let verb = verb_text(&Some(request.op));
                let _ = writeln!(
                    err,
                    "warning: {}{verb} was begun, its result is not known; its type is idempotent, so it is planned again",
                    request.address
                );
            }
        }
    }
    without_idempotent(types, unfinished)
}

/// Takes the calls of idempotent types out of the calls in flight of an unfinished apply.
pub fn without_idempotent(
    types: &RemoteTypes,
    unfinished: Option<(UnfinishedApply, Vec<LogEntry>)>,
) -> Option<(UnfinishedApply, Vec<LogEntry>)>
    ensures { IsWithoutRepeated (map type_of (arc_value types.now.types).items) unfinished result }
{
    let (found, entries) = unfinished?;
    let UnfinishedApply {
        header,
        answers,
        in_flight,
    } = found;
    let found = UnfinishedApply {
        header,
        answers,
        in_flight: not_repeated(types, in_flight),
    };
    Some((found, entries))
}

/// Returns the calls in flight that aren't made again without being asked to: those of types that aren't idempotent.
fn not_repeated(types: &RemoteTypes, mut in_flight: Vec<Request>) -> Vec<Request>
    ensures { result.items ≡ not_repeated (map type_of (arc_value types.now.types).items) in_flight.items }
{
    in_flight.retain(|request| !types.is_idempotent(request.type_name.as_str()));
    in_flight
}
