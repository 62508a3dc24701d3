//! The result of an action.

ghost use Rattle.std.specs.Prelude.{◌≡◌, ◌≤◌, [], true, None, option_map, replicate, string_bytes, string_capacity, vec_capacity};
ghost use Rattle.tf_plan_object.specs.Instance.{instance_fault_of};
ghost use Rattle.tf_walk_action.specs.Storable.{asks_planned};
ghost use Rattle.tf_walk_action.specs.Message.{fault_message};
ghost use Rattle.tf_walk_action.specs.Room.{message_fits};
ghost use Rattle.tf_value_data.specs.Tree.{tree_of};

use crate::not_good::NotGood;
use crate::stop::{InTime, Stopped};
use crate::unasked::Unasked;
use tf_plan_object::InstanceFault;
use tf_provider::{Judged, Unserved, Waived};

/// A call whose provider had memory, an empty text with space for each message about its reply, and the evidence of the look
/// at the walk's flag before it. It can be neither copied nor dropped.
pub struct Served {
    pub call: Judged,
    pub message: String,
    pub in_time: InTime,
    pub ghost blank: { string_bytes message ≡ [] },
    pub ghost fits: { message_fits (string_capacity message) (option_map tree_of call.request.object) ≡ true },
    pub ghost planned: { asks_planned call.request.op (option_map tree_of call.request.object) ≡ true },
}

/// An action without a request: the fault of its request, and the message about that.
#[derive(Drop)]
pub struct Faulted {
    pub fault: InstanceFault,
    pub message: String,
    pub ghost told: { string_bytes message ≡ fault_message (instance_fault_of fault) },
}

/// The result of an action, with the evidence of whether its provider was called, and why not. So an action that was called
/// can't be reported as one that wasn't, and one that a stop left can't be reported as out of memory. As it may hold a reply, it can be neither copied nor dropped: it has to become a
/// part of the report.
pub enum ActionResult {
    /// It was skipped, since an action directly before it isn't good. `NotGood` is the evidence.
    Skipped(Waived, NotGood),
    /// Memory ran out before the call.
    NotAsked(Waived, Unasked),
    /// The provider had no memory.
    NotServed(Unserved, InTime),
    /// The walk was stopped, so nothing was requested.
    Left(Waived, Stopped),
    /// Its `for_each` or an argument has a fault, so nothing could be requested.
    Faulted(Faulted, Waived),
    /// The provider was called, and its reply was judged.
    Called(Served),
}

/// Fills an empty list with the given number of actions without a result. The list has space for them.
pub fn not_ended(mut results: Vec<Option<ActionResult>>, count: usize) -> Vec<Option<ActionResult>>
    requires empty { results.items ≡ [] }
    requires room { count ≤ vec_capacity results }
    ensures { result.items ≡ replicate count None }
{
    for _ in 0..count {
        results.push_reserved(None);
    }
    results
}
