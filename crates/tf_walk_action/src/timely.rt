//! The call of an action's provider, after a look at the walk's flag.

ghost use Rattle.std.specs.Prelude.{◌≡◌, IfSome};
ghost use Rattle.tf_walk_action.specs.Words.{answered, asked, IsServed, verdict_on};

use crate::stop::{Going, InTime};
use tf_claim::Permit;
use tf_provider::{Called, Provider, Request, call};

/// Calls a provider once with a request, as [`call`] does, after a look at a flag that wasn't set. Also returns the evidence of
/// that look, without which the action can't end as called.
pub fn call_in_time(
    provider: &Box<dyn Provider + Sync>,
    permit: Permit,
    going: Going,
    request: Request,
) -> (Called, InTime)
    requires served { IsServed (meaning provider.now) (asked request) }
    ensures action { result.0.action ≡ permit }
    ensures request { result.0.request ≡ request }
    ensures answer { IfSome (answered result.0.reply) (λ a. a ≡ (meaning provider.now).answer (asked request)) }
    ensures verdict { IfSome ((meaning provider.now).schema_of (asked request).type_name)
        (λ s. result.0.verdict ≡ verdict_on (asked request) (answered result.0.reply) s) }
    ensures in_time { result.1 ≡ going }
{
    let in_time = InTime::of(going);
    (call(provider, permit, request), in_time)
}
