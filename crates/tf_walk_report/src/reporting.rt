//! Adds the outcome of an action to the events from which the state after is built, and reports it, without taking
//! memory.

ghost use Rattle.std.specs.Prelude.{◌≡◌, ◌≤◌, true, None, Option, Some, length, map, option_map, string_bytes, IfSome, IsSome};
ghost use Rattle.tf_walk_action.specs.Words.{Answer, answered, Asked, asked, result_or_skipped, fault_message, has_stored_attributes, instance_fault_of, addr_of, SchemaView, tree_of, verdict_on, with_nulls};
ghost use Rattle.tf_config_refusal.specs.declared.code.Code.TheVariants.{ArgumentFault};
ghost use Rattle.tf_provider_protocol.specs.declared.request.Op.TheVariants.{Create};
ghost use Rattle.tf_provider_protocol.specs.declared.verdict.Verdict.TheVariants.{Malformed};
ghost use Rattle.tf_state.specs.Valid.{IsAttributes};
ghost use Rattle.tf_state_next.specs.Ends.{as_applied, nothing, saved_of, unchanged};
ghost use Rattle.tf_state_next.specs.Events.{apply_of, destroy_of};
ghost use Rattle.tf_state_next.specs.Saved.{formed_in, left_by_destroy};
ghost use Rattle.tf_walk_report.specs.ActionReport.{HasRoom, IsAdded, IsJudged, IsReported, listed};
ghost use Rattle.tf_walk_report.specs.Change.{MayBeStored, a_destroy, an_apply, change_by, changed_by_call, saved_by, unchanged_at};
ghost use Rattle.tf_walk_report.specs.Diagnostics.{diagnostic_of, diagnostics_of_verdict};
ghost use Rattle.tf_walk_buffers.specs.Head.{HasVersion};
ghost use Rattle.tf_walk_buffers.specs.BuffersHead.{buffers_head, target_of};

use crate::diagnostic::Diagnostic;
use crate::replied::{has_stored_attributes, open_reply};
use crate::telling::telling;
use tf_config_address::ResourceAddr;
use tf_config_refusal::Code;
use tf_provider::{Op, Provider, Schema, Verdict, schema_for};
use tf_state_data::Object;
use tf_state_next::{
    Apply, Destroy, Events, Left, Saved, left_by_destroy, saved_by_create, saved_by_update,
};
use tf_value_data::{Value, with_nulls};
use tf_walk_action::{ActionResult, Faulted, Served};
use tf_walk_buffers::{ActionBuffers, Target};

/// Adds what an action changes to the events, and returns its diagnostic, if it has one.
pub(crate) fn report_action<'p>(
    providers: &[Box<dyn Provider + Sync>],
    room: ActionBuffers<'p>,
    ended: Option<ActionResult>,
    events: &mut Events<'p>,
) -> Option<Diagnostic>
    requires judged { IsJudged (map meaning providers.now) (buffers_head room).op (result_or_skipped ended) }
    requires room { HasRoom events.old }
    ensures { IsReported (map meaning providers.now) (buffers_head room.entry) (result_or_skipped ended) result events.old events.new }
{
    match ended {
        None => skip(room, events),
        Some(ActionResult::Skipped(_, _)) => skip(room, events),
        Some(ActionResult::NotAsked(_, _)) => not_called(room, Code::NoMemory, "no memory", events),
        Some(ActionResult::NotServed(_, _)) => not_called(
            room,
            Code::NoMemory,
            "no memory",
            events,
        ),
        Some(ActionResult::Left(_, _)) => not_called(room, Code::Left, "left", events),
        Some(ActionResult::Faulted(faulted, _)) => fault(room, faulted, events),
        Some(ActionResult::Called(served)) => {
            match schema_for(providers, served.call.request().type_name.as_str()) {
                Some(schema) => report_call(room, served, schema, events),
                None => unreachable!(),
            }
        }
    }
}

/// Adds that a skipped action changed nothing. It has no diagnostic.
fn skip<'p>(room: ActionBuffers<'p>, events: &mut Events<'p>) -> Option<Diagnostic>
    requires { HasRoom events.old }
    ensures added { IsAdded (unchanged_at (buffers_head room.entry)) events.old events.new }
    ensures diagnostic { result ≡ None }
{
    let ActionBuffers { addr, target, .. } = room;
    add_unchanged(addr, target, events);
    None
}

/// Adds that an excused action changed nothing, and returns its diagnostic, with the reason.
fn not_called<'p>(
    room: ActionBuffers<'p>,
    code: Code,
    reason: &str,
    events: &mut Events<'p>,
) -> Option<Diagnostic>
    requires short { length reason.now ≤ 15 }
    requires room { HasRoom events.old }
    ensures added { IsAdded (unchanged_at (buffers_head room.entry)) events.old events.new }
    ensures diagnostic { option_map diagnostic_of result
        ≡ Some (record { code = code; place = (buffers_head room.entry).place; verb = Some room.entry.op; message = reason.now }) }
{
    let ActionBuffers {
        place,
        op,
        addr,
        target,
        mut message,
    } = room;
    message.push_str(reason).unwrap();
    add_unchanged(addr, target, events);
    told(place, op, Some((code, message)))
}

/// Adds that an action whose request has a fault changed nothing, and returns its diagnostic.
fn fault<'p>(
    room: ActionBuffers<'p>,
    faulted: Faulted,
    events: &mut Events<'p>,
) -> Option<Diagnostic>
    requires { HasRoom events.old }
    ensures added { IsAdded (unchanged_at (buffers_head room.entry)) events.old events.new }
    ensures diagnostic { option_map diagnostic_of result
        ≡ Some (record { code = ArgumentFault; place = (buffers_head room.entry).place; verb = Some room.entry.op; message = fault_message (instance_fault_of faulted.fault) }) }
{
    let Faulted { message, .. } = faulted;
    add_unchanged(room.addr, room.target, events);
    told(room.place, room.op, Some((Code::ArgumentFault, message)))
}

/// Adds an action that changed nothing: it saved nothing, and what is known of an object stays.
fn add_unchanged<'p>(addr: &'p ResourceAddr, target: Target, events: &mut Events<'p>)
    requires { HasRoom events.old }
    ensures { IsAdded (change_by (addr_of addr.now) (target_of target) nothing unchanged) events.old events.new }
{
    match target {
        Target::Instance(given) => add_apply(
            Apply {
                addr,
                given,
                saved: None,
            },
            events,
        ),
        Target::Object(id) => add_destroy(
            Destroy {
                addr,
                id,
                left: Left::Unchanged,
            },
            events,
        ),
    }
}

/// Adds the outcome of a create or an update.
fn add_apply<'p>(apply: Apply<'p>, events: &mut Events<'p>)
    requires { HasRoom events.old }
    ensures { IsAdded (an_apply (apply_of apply.entry)) events.old events.new }
{
    events.applies.push(apply).unwrap();
}

/// Adds the outcome of a destroy.
fn add_destroy<'p>(destroy: Destroy<'p>, events: &mut Events<'p>)
    requires { HasRoom events.old }
    ensures { IsAdded (a_destroy (destroy_of destroy.entry)) events.old events.new }
{
    events.destroys.push(destroy).unwrap();
}

/// Builds the diagnostic of an action from its code and its message, if there are any.
fn told(place: String, op: Op, telling: Option<(Code, String)>) -> Option<Diagnostic>
    ensures { option_map diagnostic_of result
        ≡ option_map (λ t. record { code = t.0; place = string_bytes place; verb = Some op; message = string_bytes t.1 }) telling }
{
    match telling {
        Some((code, message)) => Some(Diagnostic {
            code,
            place,
            verb: Some(op),
            message,
        }),
        None => None,
    }
}

/// Adds what a call changes, and returns its diagnostic, if it has one.
fn report_call<'p>(
    room: ActionBuffers<'p>,
    served: Served,
    schema: &Schema,
    events: &mut Events<'p>,
) -> Option<Diagnostic>
    requires verdict { served.call.verdict ≡ verdict_on (asked served.call.request) (answered served.call.reply) schema.now }
    requires op { served.call.request.op ≡ room.op }
    requires room { HasRoom events.old }
    ensures added { IsAdded (changed_by_call (buffers_head room.entry) schema.now (asked served.call.request) (answered served.call.reply) served.call.verdict) events.old events.new }
    ensures stored { MayBeStored (changed_by_call (buffers_head room.entry) schema.now (asked served.call.request) (answered served.call.reply) served.call.verdict) }
    ensures tells { listed (option_map diagnostic_of result)
        ≡ diagnostics_of_verdict (buffers_head room.entry).place room.entry.op (asked served.call.request) (answered served.call.reply) served.call.verdict }
{
    let Served {
        call,
        message,
        in_time: _,
    } = served;
    let verdict = call.verdict();
    let (request, reply) = call.into_report();
    let ActionBuffers {
        place,
        op,
        addr,
        target,
        ..
    } = room;
    let (formed, failure) = open_reply(reply, schema);
    let telling = telling(verdict, message, &request.object, failure);
    let fallback = fallback_for(op, request.object);
    let _stored = can_be_saved(verdict, &fallback);
    add_change(addr, target, op, verdict, formed, fallback, events);
    told(place, op, telling)
}

/// Adds what a call changes, by the verdict on its reply, the object in the reply if it is well formed, and the object
/// that a create requested, with null for each unknown part.
fn add_change<'p>(
    addr: &'p ResourceAddr,
    target: Target,
    op: Op,
    verdict: Verdict,
    formed: Option<Object>,
    fallback: Option<Object>,
    events: &mut Events<'p>,
)
    requires fallback { op ≡ Create → IsSome fallback }
    requires room { HasRoom events.old }
    ensures versioned { HasVersion (target_of target) }
    ensures added { (schema : SchemaView) (r : Asked) (answer : Option Answer) → verdict ≡ verdict_on r answer schema
        → option_map (λ o. tree_of o.value) formed ≡ formed_in schema answer
        → (op ≡ Create → option_map with_nulls r.object ≡ option_map (λ o. tree_of o.value) fallback)
        → IsAdded (change_by (addr_of addr.now) (target_of target) (as_applied (saved_by op schema r answer verdict)) (left_by_destroy schema answer verdict)) events.old events.new }
{
    match target {
        Target::Instance(given) => {
            let saved = saved(op, verdict, formed, fallback);
            add_apply(Apply { addr, given, saved }, events);
        }
        Target::Object(id) => {
            let left = left_by_destroy(verdict, formed);
            add_destroy(Destroy { addr, id, left }, events);
        }
    }
}

/// Returns what a call saves.
fn saved(
    op: Op,
    verdict: Verdict,
    formed: Option<Object>,
    fallback: Option<Object>,
) -> Option<Saved>
    requires { op ≡ Create → IsSome fallback }
    ensures { (schema : SchemaView) (r : Asked) (answer : Option Answer) → verdict ≡ verdict_on r answer schema
        → option_map (λ o. tree_of o.value) formed ≡ formed_in schema answer
        → (op ≡ Create → option_map with_nulls r.object ≡ option_map (λ o. tree_of o.value) fallback)
        → option_map saved_of result ≡ saved_by op schema r answer verdict }
{
    match op {
        Op::Create => match fallback {
            Some(fallback) => saved_by_create(verdict, formed, fallback),
            None => unreachable!(),
        },
        Op::Update => saved_by_update(verdict, formed),
        Op::Destroy => None,
    }
}

/// Returns what a create saves after a malformed reply: the object that it requested, with null for each unknown part.
fn fallback_for(op: Op, object: Option<Value>) -> Option<Object>
    ensures { op ≡ Create → option_map (λ o. tree_of o.value) result ≡ option_map with_nulls (option_map tree_of object) }
{
    match (op, object) {
        (Op::Create, Some(value)) => Some(Object {
            value: with_nulls(value),
        }),
        _ => None,
    }
}

/// Checks whether what is saved after a malformed reply may be stored. The check looks through the object, which shows
/// that a text can hold its numbers and keys. With another verdict the object isn't saved, so it isn't looked through.
fn can_be_saved(verdict: Verdict, fallback: &Option<Object>) -> bool
    ensures { verdict ≡ Malformed → IfSome fallback.now (λ o. has_stored_attributes (tree_of o.value) ≡ true → IsAttributes (tree_of o.value)) }
{
    match (verdict, fallback) {
        (Verdict::Malformed, Some(object)) => has_stored_attributes(&object.value),
        _ => true,
    }
}
