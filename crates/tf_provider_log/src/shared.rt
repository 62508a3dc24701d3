//! What threads may share.

use crate::logged::Logged;
use crate::replaying::Replayed;
use crate::sink::Sink;
use tf_provider_protocol::Provider;

/// Checks that threads may share a provider whose calls are logged, and one that answers from a log, if they may
/// share the provider and the sink.
pub fn providers_are_shared<P: Provider + Sync + Send, S: Sink + Sync + Send>(
    logged: &Logged<P, S>,
    replayed: &Replayed<P>,
) {
    share(logged);
    share(replayed);
}

/// Requires a value that threads may share.
fn share<T: Sync>(_shared: &T) {}
