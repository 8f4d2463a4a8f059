//! Features that a peer asks for.

ghost use Rattle.std.specs.Prelude.{◌≡◌, ◌<◌, ◌+◌, ◌*◌, ◌/◌, ◌%◌, ℕ, IsTrue, true, false, length, slice_index, OnOk};
ghost use Rattle.std.specs.Prelude.{IfErr};
ghost use Rattle.std.specs.Int.{bit_at};
ghost use Rattle.ln_msgs.specs.Messages.Features.{HasFeature, is_listed, IsAllKnown, HasUnknown};

use crate::messages::setup::Init;
use ln_bytes::Fault;

/// Whether a node that knows these even feature bits may go on with the peer that sent this init (BOLT 1, "The
/// `init` Message").
///
/// The two feature maps are joined by OR, aligned at their last bytes; bit 0 is the lowest bit of the last byte. A
/// set even bit that isn't in the list is 9; odd bits are free. The list may have any order, and also say what
/// doesn't matter. Takes no memory.
pub fn check_init(init: &Init, known_even_bits: &[u16]) -> Result<(), Fault>
    ensures knows_all_that_is_asked { OnOk result (IsAllKnown init.now known_even_bits.now) }
    ensures tells_an_unknown_bit { IfErr result (λ e. (e ≡ Fault.UnknownFeature)
        × HasUnknown init.now known_even_bits.now) }
{
    let global_known = knows_all(init.global_features.as_slice(), known_even_bits);
    let features_known = knows_all(init.features.as_slice(), known_even_bits);
    if global_known && features_known {
        Ok(())
    } else {
        Err(Fault::UnknownFeature)
    }
}

/// Whether each even bit that is set in the map is in the list.
fn knows_all(features: &[u8], known: &[u16]) -> bool
    ensures true_is_all_known { IsTrue result → (k : ℕ) → HasFeature features.now k → k % 2 ≡ 0
        → IsTrue (is_listed known.now k) }
    ensures false_has_an_unknown_bit { result ≡ false → (k : ℕ) × HasFeature features.now k × (k % 2 ≡ 0)
        × ¬ IsTrue (is_listed known.now k) }
{
    for place in 0..features.len() {
        let byte = features[features.len() - 1 - place];
        if !knows_byte(byte, place, known) {
            return false;
        }
    }
    true
}

/// The same for one byte of the map, which has so many bytes after it.
fn knows_byte(byte: u8, place: usize, known: &[u16]) -> bool
    ensures true_is_all_known { IsTrue result → (j : ℕ) → j < 8 → bit_at byte j ≡ 1 → j % 2 ≡ 0
        → IsTrue (is_listed known.now (8 * place + j)) }
    ensures false_has_an_unknown_bit { result ≡ false → (j : ℕ) × (j < 8) × (bit_at byte j ≡ 1) × (j % 2 ≡ 0)
        × ¬ IsTrue (is_listed known.now (8 * place + j)) }
{
    for bit in 0..8 {
        if bit % 2 == 0 && byte >> bit & 1 == 1 && !lists(known, place, bit) {
            return false;
        }
    }
    true
}

/// Whether the list has this bit of the byte that has so many bytes after it.
fn lists(known: &[u16], place: usize, bit: u8) -> bool
    requires { bit < 8 }
    ensures { result ≡ is_listed known.now (8 * place + bit) }
{
    place < 8192 && known.contains(&(place as u16 * 8 + u16::from(bit)))
}
