//! Builds the state after an apply, without taking memory.

ghost use Rattle.std.specs.Prelude.{◌≡◌, ◌+◌, ◌<◌, ◌^◌, filter, map};
ghost use Rattle.tf_state_next.specs.Events.{AreEachAboutOne, ends_in, events_of, given_in};
ghost use Rattle.tf_state_next.specs.StateDraft.{IsStateDraft, HaveRoom, count_of};
ghost use Rattle.tf_state_next.specs.Recorded.{AreThere, IsRecorded};
ghost use Rattle.tf_state_next.specs.Sound.{AreSound};
ghost use Rattle.tf_state_next.specs.StateAfter.{IsStateAfter, has_records, next_serial};
ghost use Rattle.tf_state.specs.Valid.{IsValid};
ghost use Rattle.tf_state_data.specs.Addresses.{AreByAddress};
ghost use Rattle.tf_state_data.specs.Resource.{resource_of};
ghost use Rattle.tf_state_data.specs.State.{outputs_of, state_of};
ghost use Rattle.tf_value_data.specs.Stored.{IsTable};

use crate::draft::StateDraft;
use crate::events::Events;
use crate::recording::{apply_all, destroy_all, renew_all};
use std::collections::BTreeMap;
use tf_state_data::{Object, Resource, State};

/// Builds the state after an apply from the outcomes of its actions and from the outputs. Takes no memory and has no
/// error: `draft_state` has to have reserved space for each create and update.
pub fn state_after(
    draft: StateDraft<'_>,
    events: Events<'_>,
    outputs: BTreeMap<String, Object>,
) -> State
    requires draft { IsStateDraft (state_of draft.prior.now) (map (λ a. a.addr) (events_of events).applies) draft }
    requires serial { (state_of draft.prior.now).serial + 1 < 2 ^ 32 }
    requires apart { AreEachAboutOne (events_of events) }
    ensures after { IsStateAfter (state_of draft.entry.prior.now) (given_in (events_of events.entry)) (ends_in (events_of events.entry)) (outputs_of outputs.entries) (state_of result) }
    ensures valid { IsValid (state_of draft.entry.prior.now) → AreSound (events_of events.entry) → IsTable (outputs_of outputs.entries) → IsValid (state_of result) }
{
    let StateDraft {
        prior,
        lineage,
        terraform_version,
        resources,
    } = draft;
    let resources = present(recorded(resources, events));
    let state = State::new(
        prior.serial(),
        lineage,
        terraform_version,
        outputs,
        resources,
    );
    raised(prior, state)
}

/// Returns resources with the outcomes of all actions. What is destroyed is recorded before what replaces it.
fn recorded(mut resources: Vec<Resource>, events: Events<'_>) -> Vec<Resource>
    requires ordered { AreByAddress (map resource_of resources.items) }
    requires apart { AreEachAboutOne (events_of events) }
    requires there { AreThere (map (λ a. a.addr) (events_of events).applies) (map resource_of resources.items) }
    requires room { HaveRoom (count_of (map (λ a. a.addr) (events_of events).applies)) resources.items }
    ensures { IsRecorded (events_of events.entry) (map resource_of resources.items) (map resource_of result.items) }
{
    record_all(&mut resources, events);
    resources
}

/// Records the outcomes of all actions. Of creates and updates the first is recorded first, so records with rising keys
/// are inserted one after another.
fn record_all(resources: &mut [Resource], events: Events<'_>)
    requires ordered { AreByAddress (map resource_of resources.old) }
    requires apart { AreEachAboutOne (events_of events) }
    requires there { AreThere (map (λ a. a.addr) (events_of events).applies) (map resource_of resources.old) }
    requires room { HaveRoom (count_of (map (λ a. a.addr) (events_of events).applies)) resources.old }
    ensures { IsRecorded (events_of events.entry) (map resource_of resources.old) (map resource_of resources.new) }
{
    let Events {
        destroys,
        mut applies,
        metadata_updates,
    } = events;
    destroy_all(resources, destroys);
    renew_all(resources, metadata_updates);
    applies.reverse();
    apply_all(resources, applies);
}

/// Returns the resources of which an object is known.
fn present(mut resources: Vec<Resource>) -> Vec<Resource>
    ensures { map resource_of result.items ≡ filter has_records (map resource_of resources.items) }
{
    resources.retain(|resource| has_records(resource));
    resources
}

fn has_records(resource: &Resource) -> bool
    ensures { result ≡ has_records (resource_of resource.now) }
{
    !resource.records().is_empty()
}

/// Returns a state with a serial one more than that of the prior state, if the rest of it differs from that state.
fn raised(prior: &State, mut state: State) -> State
    requires same { (state_of state).serial ≡ (state_of prior.now).serial }
    requires serial { (state_of prior.now).serial + 1 < 2 ^ 32 }
    ensures { state_of result ≡ record (state_of state) { serial = next_serial (state_of prior.now) (state_of state) } }
{
    if state != *prior {
        state.set_serial(prior.serial() + 1);
    }
    state
}
