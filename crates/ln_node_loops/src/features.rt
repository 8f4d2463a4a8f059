//! Which features a peer's init may ask for, and which it has to offer.

ghost use Rattle.std.specs.Prelude.{◌≡◌, ◌<◌, ◌==◌, true, false};
ghost use Rattle.std.specs.Int.{bit_at};
ghost use Rattle.ln_node_loops.specs.Features.{has_bit, sets, offers, offers_all, Fits, Misfits};

use ln_msgs::{Init, check_init};

/// What is asked of a peer's init (BOLT 1, "The `init` Message").
#[derive(Drop)]
pub struct PeerFeatures {
    /// The even bits that it may set: features that this side has.
    pub known: Vec<u16>,
    /// The features that it has to offer, each named by either of its two bits.
    pub wanted: Vec<u16>,
}

// Whether this bit of a byte is set.
fn is_set(byte: u8, bit: u16) -> bool
    requires { bit < 8 }
    ensures { result ≡ (bit_at byte bit == 1) }
{
    byte >> bit & 1 == 1
}

// Whether this bit of a map is set.
fn has_bit(features: &[u8], bit: u16) -> bool
    ensures { result ≡ has_bit features.now bit }
{
    let place = usize::from(bit / 8);
    if place >= features.len() {
        return false;
    }
    is_set(features[features.len() - 1 - place], bit % 8)
}

// Whether an init sets this bit.
fn sets(init: &Init, bit: u16) -> bool
    ensures { result ≡ sets init.now bit }
{
    has_bit(init.global_features.as_slice(), bit) || has_bit(init.features.as_slice(), bit)
}

/// Whether an init offers a feature, which is named by either of its two bits (BOLT 9). Takes no memory.
pub fn offers(init: &Init, bit: u16) -> bool
    ensures { result ≡ offers init.now bit }
{
    let even = bit - bit % 2;
    sets(init, even) || sets(init, even + 1)
}

fn offers_all(init: &Init, wanted: &[u16]) -> bool
    ensures { result ≡ offers_all init.now wanted.now }
{
    for bit in wanted {
        if !offers(init, *bit) {
            return false;
        }
    }
    true
}

/// Whether an init asks for no even feature but the known ones, and offers those that are wanted.
pub(crate) fn fits(init: &Init, peer: &PeerFeatures) -> bool
    ensures fits { result ≡ true → Fits peer.now init.now }
    ensures misfits { result ≡ false → Misfits peer.now init.now }
{
    check_init(init, peer.known.as_slice()).is_ok() && offers_all(init, peer.wanted.as_slice())
}
