//! What is allocated before a call: the request, and space for a message about its reply.

ghost use Rattle.std.specs.Prelude.{◌≡◌, [], true, option_map, string_bytes, string_capacity};
ghost use Rattle.tf_value_data.specs.Tree.{tree_of};
ghost use Rattle.tf_walk_action.specs.Storable.{asks_planned};
ghost use Rattle.tf_walk_action.specs.Room.{message_fits};

use tf_provider_protocol::Request;

/// A request, and what is allocated before its call so that its outcome is reported without taking memory.
#[derive(Drop)]
pub struct PreparedCall {
    /// The request.
    pub request: Request,
    /// An empty text with space for each message about a reply.
    pub message: String,
    pub ghost blank: { string_bytes message ≡ [] },
    pub ghost fits: { message_fits (string_capacity message) (option_map tree_of request.object) ≡ true },
    pub ghost planned: { asks_planned request.op (option_map tree_of request.object) ≡ true },
}
