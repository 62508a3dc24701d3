//! What all actions add to the report, without taking memory.

ghost use Rattle.std.specs.List.{AllByRecursion};
ghost use Rattle.std.specs.Prelude.{◌≡◌, ◌++◌, ◌<◌, ◌≤◌, [], length, map, vec_capacity};
ghost use Rattle.tf_state_next.specs.Events.{apply_of, destroy_of};
ghost use Rattle.tf_walk_action.specs.ResultViews.{action_results_of};
ghost use Rattle.tf_walk_report.specs.ActionReport.{AreJudged, listed, told_in};
ghost use Rattle.tf_walk_report.specs.Change.{MayBeStored, applies_in, changes_in, destroys_in};
ghost use Rattle.tf_walk_report.specs.Diagnostics.{diagnostic_of};
ghost use Rattle.tf_walk_report.specs.Reserved.{AreEmptyEvents};
ghost use Rattle.tf_walk_buffers.specs.BuffersHead.{buffers_head};

use crate::diagnostic::Diagnostic;
use crate::reporting::report_action;
use tf_provider::Provider;
use tf_state_next::Events;
use tf_walk_action::ActionResult;
use tf_walk_buffers::ActionBuffers;

/// Adds what the actions change, and their diagnostics, in action order.
pub(crate) fn report_actions<'p>(
    providers: &[Box<dyn Provider + Sync>],
    rooms: Vec<ActionBuffers<'p>>,
    results: Vec<Option<ActionResult>>,
    events: &mut Events<'p>,
    diagnostics: &mut Vec<Diagnostic>,
)
    requires judged { AreJudged (map meaning providers.now) (map (λ h. h.op) (map buffers_head rooms.items)) (action_results_of results.items) }
    requires paired { length rooms.items ≡ length results.items }
    requires events { AreEmptyEvents (length results.items) events.old }
    requires no_diagnostics { diagnostics.old.items ≡ [] }
    requires room_for_diagnostics { length results.items ≤ vec_capacity diagnostics.old }
    ensures applies { map apply_of events.new.applies.items ≡ applies_in (changes_in (map meaning providers.now) (map buffers_head rooms.entry.items) (action_results_of results.items)) }
    ensures destroys { map destroy_of events.new.destroys.items ≡ destroys_in (changes_in (map meaning providers.now) (map buffers_head rooms.entry.items) (action_results_of results.items)) }
    ensures metadata_updates { events.new.metadata_updates ≡ events.old.metadata_updates }
    ensures tells { map diagnostic_of diagnostics.new.items ≡ told_in (map buffers_head rooms.entry.items) (action_results_of results.items) }
    ensures stored { AllByRecursion MayBeStored (changes_in (map meaning providers.now) (map buffers_head rooms.entry.items) (action_results_of results.items)) }
    ensures few { length diagnostics.new.items ≤ length results.items }
    ensures capacity { vec_capacity diagnostics.old ≤ vec_capacity diagnostics.new }
{
    let mut ends = results.into_iter();
    for room in rooms {
        let Some(ended) = ends.next() else {
            unreachable!()
        };
        let diagnostic = report_action(providers, room, ended, events);
        add(diagnostics, diagnostic);
    }
    ends.destroy_empty();
}

/// Adds an item, if there is one, to a list that has space for it.
pub(crate) fn add<T: Drop>(items: &mut Vec<T>, item: Option<T>)
    requires { length items.old.items < vec_capacity items.old }
    ensures items { items.new.items ≡ items.old.items ++ listed item }
    ensures capacity { vec_capacity items.old ≤ vec_capacity items.new }
{
    if let Some(item) = item {
        items.push(item).unwrap();
    }
}
