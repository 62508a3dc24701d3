//! The memory that the report on each action needs.

ghost use Rattle.std.specs.Prelude.{◌≡◌, ◌≤◌, [], string_bytes, string_capacity};

use tf_config_address::{ObjectId, ResourceAddr};
use tf_provider_protocol::Op;
use tf_state_next::RecordInput;

/// The target of an action.
#[derive(Drop)]
pub enum Target {
    /// The current object of an instance, which the action makes or changes, with the input for the object's record.
    Instance(RecordInput),
    /// An object that the action destroys.
    Object(ObjectId),
}

/// The buffers for the report on one action.
#[derive(Drop)]
pub struct ActionBuffers<'p> {
    /// The address of its instance, followed by ` (deposed KEY)` for a deposed object.
    pub place: String,
    /// What its provider is asked to do.
    pub op: Op,
    /// The address of its resource.
    pub addr: &'p ResourceAddr,
    /// Its target.
    pub target: Target,
    /// An empty text, with capacity for the message of an excused action.
    pub message: String,
    pub ghost blank: { string_bytes message ≡ [] },
    pub ghost long: { 15 ≤ string_capacity message },
}
