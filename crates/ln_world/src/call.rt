//! The end of a channel at a node.

ghost use Rattle.std.specs.Prelude.{◌≡◌, option_copied, option_map};
ghost use Rattle.ln_world.specs.World.{link_at, saved_of, id_of};

use ln_channel::{Channel as ChannelEnd, ChannelMachine};
use ln_keys::ChannelKeys;
use ln_log::ChannelId;
use ln_world_channels::World as Channels;
use ln_world_dispatch::End;

/// An end's link, where its channel is there and the node has an end of it.
pub(crate) fn link_at<K: ChannelKeys + Copy>(
    channels: &Channels<K>,
    end: End,
) -> Option<&ChannelMachine<K>>
    ensures { option_copied result ≡ link_at end channels.now.channels }
{
    match channels.channel(end.channel) {
        None => None,
        Some(channel) => match channel.side_of(end.node) {
            None => None,
            Some(side) => Some(channel.place(side).link()),
        },
    }
}

/// The end, where both have signed its opening.
pub(crate) fn end_at<K: ChannelKeys + Copy>(channels: &Channels<K>, end: End) -> Option<&ChannelEnd>
    ensures { option_copied result ≡ saved_of (link_at end channels.now.channels) }
{
    match link_at(channels, end) {
        None => None,
        Some(link) => link.saved(),
    }
}
