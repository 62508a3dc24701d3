//! Proof that threads may share a progress provider.

use crate::progress::Progress;
use crate::screen::Screen;
use std::rt::Clock;
use tf_provider_protocol::Provider;

/// Shows that threads may share a `Progress` if they may share the provider, the screen and the clock.
pub fn progress_is_shared<
    P: Provider + Sync + Send,
    S: Screen + Sync + Send,
    C: Clock + Drop + Sync + Send,
>(progress: &Progress<P, S, C>) {
    share(progress);
}

/// Accepts any value that threads may share.
fn share<T: Sync>(_shared: &T) {}
