//! Which requests and replies fit a line.

ghost use Rattle.std.specs.Prelude.{◌≡◌, ◌&&◌, option_map};
ghost use Rattle.tf_provider_log.specs.Fit.{fits, option_fits, request_fits, answer_fits};
ghost use Rattle.tf_provider_protocol.specs.Meaning.{asked, answered};
ghost use Rattle.tf_value_data.specs.Tree.{tree_of};

use tf_provider_protocol::{Reply, Request};
use tf_value_data::{Value, depth, has_no_set};

/// The largest depth of a value in a line.
const MAX_DEPTH: u32 = 100;

fn fits(value: &Value) -> bool
    ensures { result ≡ fits (tree_of value.now) }
{
    has_no_set(value) && depth(value) <= MAX_DEPTH
}

fn option_fits(value: &Option<Value>) -> bool
    ensures { result ≡ option_fits (option_map tree_of value.now) }
{
    match value {
        Some(value) => fits(value),
        None => true,
    }
}

/// Returns whether the values of a request fit a line.
pub(crate) fn request_fits(request: &Request) -> bool
    ensures { result ≡ request_fits (asked request.now) }
{
    option_fits(&request.prior) && option_fits(&request.object)
}

fn reply_fits(reply: &Reply) -> bool
    ensures { result ≡ answer_fits (answered reply.now) }
{
    match reply {
        Reply::Object(value) => fits(value),
        Reply::Gone | Reply::NoMemory => true,
        Reply::Failed { message: _, object } => option_fits(object),
    }
}

/// Returns whether the values of a request and of the reply to it fit a line.
pub(crate) fn both_fit(request: &Request, reply: &Reply) -> bool
    ensures { result ≡ (request_fits (asked request.now) && answer_fits (answered reply.now)) }
{
    request_fits(request) && reply_fits(reply)
}
