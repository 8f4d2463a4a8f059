//! The other leg of a payment that a node forwards.

ghost use Rattle.std.specs.Prelude.{◌≡◌};
ghost use Rattle.ln_book.specs.Legs.{channel_of, other_channel};

use ln_book_tables::{Key, OutgoingLeg, Tables};
use ln_log::ChannelId;

// The channel of the outgoing HTLC, where one was offered.
fn channel_of(outgoing: &OutgoingLeg) -> Option<ChannelId>
    ensures { result ≡ channel_of outgoing.now }
{
    match outgoing {
        OutgoingLeg::Absent | OutgoingLeg::Refused => None,
        OutgoingLeg::Offered(key) | OutgoingLeg::Resolved(key, _) => {
            let channel = key.channel;
            Some(channel)
        }
    }
}

/// Of an own HTLC the channel by which its payment came; of a peer's that in which it was offered on.
pub(crate) fn other_channel(own: bool, key: &Key, tables: &Tables) -> Option<ChannelId>
    ensures { result ≡ other_channel own key.now tables.now.htlcs }
{
    if own {
        let channel = tables.offered(key)?.key.channel;
        Some(channel)
    } else {
        channel_of(&tables.htlc(key)?.outgoing)
    }
}
