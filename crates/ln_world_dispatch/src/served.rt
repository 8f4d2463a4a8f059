//! Events that were served.

use ln_hooks::{ChannelEvent, Verdict};

/// An event as it was served, and what the hooks said of it.
#[derive(Drop)]
pub(crate) struct Served {
    /// The event.
    pub event: ChannelEvent,
    /// What the hooks said.
    pub verdict: Verdict,
}
