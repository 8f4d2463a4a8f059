//! What a dispatcher takes.

use ln_hooks::ChannelEvent;
use ln_log::ChannelId;

/// An item of a dispatcher's relay, where hooks are an `H`.
#[derive(Drop)]
pub enum Task<H: Drop> {
    /// An event with its number, and its channel, once both have signed its opening.
    Event(Option<ChannelId>, u64, ChannelEvent),
    /// A hook to be registered.
    Register(H),
    /// The last item.
    Stop,
}
