//! The keys of a script's channels.

ghost use Rattle.std.specs.Prelude.{◌≡◌};
ghost use Rattle.ln_script.specs.Keys.{tag_of, keys_of, partners_of};

use ln_keys::ToyKeys;
use ln_world::Partners;

/// 31 bytes of the channel's number, and one of the side.
fn tag_of(channel: u8, side: u8) -> [u8; 32]
    ensures { result ≡ tag_of channel side }
{
    let mut tag = [channel; 32];
    tag[31] = side;
    tag
}

fn keys_of(channel: u8, own: u8, other: u8) -> ToyKeys
    ensures { result ≡ keys_of channel own other }
{
    ToyKeys {
        seed: tag_of(channel, own),
        tag: tag_of(channel, own),
        peer_tag: tag_of(channel, other),
    }
}

/// The keys of both ends of the channel with this number: the seed and the tag of each are 31 bytes of the number and
/// then 0 for the funder, 1 for the fundee.
#[tactic(auto, unfolding(crate::specs::Keys::partners_of))]
pub(crate) fn partners_of(channel: u8) -> Partners<ToyKeys>
    ensures { result ≡ partners_of channel }
{
    let funder = keys_of(channel, 0, 1);
    let fundee = keys_of(channel, 1, 0);
    ToyKeys::crossed(funder, fundee);
    Partners { funder, fundee }
}
