//! The words of a script's line.

ghost use Rattle.std.specs.Prelude.{◌≡◌, ◌≢◌, ◌≤◌, ◌<◌, ◌^◌, ◌↔◌, length, IfSome, IsTrue};
ghost use Rattle.ln_bytes.specs.ShortId.{IsPlain};
ghost use Rattle.ln_script.specs.Word.{decimal_at, number_at, node_at, end_at, id_of, short_id_at, digit_at, code_at};

use ln_bytes::ShortId;
use ln_world::{End, Node};

/// A decimal number of 64 bits without leading zeros.
pub(crate) fn decimal_of(word: &str) -> Option<u64>
    ensures { result ≡ decimal_at word.now }
{
    if !begins_plainly(word.as_bytes()) {
        return None;
    }
    word.parse().ok()
}

/// Such a number, at most this.
pub(crate) fn number_of(word: &str, greatest: u64) -> Option<u64>
    ensures exact { result ≡ number_at greatest word.now }
    ensures most { IfSome result (λ n. n ≤ greatest) }
{
    let number = decimal_of(word)?;
    if number <= greatest {
        Some(number)
    } else {
        None
    }
}

/// Such a number of 32 bits.
pub(crate) fn number_of_32_bits(word: &str) -> Option<u32>
    ensures { result ≡ number_at 4294967295 word.now }
{
    let number = number_of(word, 0xffff_ffff)?;
    Some(number as u32)
}

/// Such a number of 8 bits: a payment.
pub(crate) fn payment_of(word: &str) -> Option<u8>
    ensures { result ≡ number_at 255 word.now }
{
    let number = number_of(word, 255)?;
    Some(number as u8)
}

/// A channel's number, 0 to 99.
pub(crate) fn channel_of(word: &str) -> Option<u8>
    ensures { result ≡ number_at 99 word.now }
{
    let number = number_of(word, 99)?;
    Some(number as u8)
}

/// Neither a sign nor a leading zero stands in front.
fn begins_plainly(bytes: &[u8]) -> bool
    ensures { IsTrue result ↔ IsPlain bytes.now }
{
    match bytes {
        [b'+', ..] => false,
        [b'0', _, ..] => false,
        _ => true,
    }
}

/// A letter A to Z.
pub(crate) fn node_of(word: &str) -> Option<Node>
    ensures { result ≡ node_at word.now }
{
    match word.as_bytes() {
        [letter] if *letter >= b'A' && *letter <= b'Z' => Some(Node { letter: *letter }),
        _ => None,
    }
}

/// A node and its channel, 0 to 99.
pub(crate) fn end_of(word: &str) -> Option<End>
    ensures { result ≡ end_at word.now }
{
    match word.as_bytes() {
        [letter, ..] if *letter >= b'A' && *letter <= b'Z' => {
            let channel = channel_of(&word[1..])?;
            Some(End {
                node: Node { letter: *letter },
                channel,
            })
        }
        _ => None,
    }
}

/// The short channel id of numbers that fit.
fn id_of(block: u32, tx: u32, output: u16) -> ShortId
    requires block_fits { block < 2 ^ 24 }
    requires tx_fits { tx < 2 ^ 24 }
    ensures { result ≡ id_of block tx output }
{
    ShortId { block, tx, output }
}

/// A short channel id, BLOCKxTXxOUTPUT (BOLT 7, "Definition of `short_channel_id`").
#[tactic(auto, unfolding(crate::specs::Word::short_id_at))]
pub(crate) fn short_id_of(word: &str) -> Option<ShortId>
    ensures { result ≡ short_id_at word.now }
{
    let Some((block, rest)) = word.split_once('x') else {
        return None;
    };
    let Some((tx, output)) = rest.split_once('x') else {
        return None;
    };
    let block = number_of(block, 0xff_ffff)?;
    let tx = number_of(tx, 0xff_ffff)?;
    let output = number_of(output, 0xffff)?;
    Some(id_of(block as u32, tx as u32, output as u16))
}

/// A digit 0 to 9 or a to f.
fn digit_of(digit: u8) -> Option<u16>
    ensures exact { result ≡ digit_at digit }
    ensures below { IfSome result (λ n. n < 16) }
{
    match digit {
        b'0'..=b'9' => Some(u16::from(digit - b'0')),
        b'a'..=b'f' => Some(u16::from(digit - b'a' + 10)),
        _ => None,
    }
}

/// The code of a failure: four hexadecimal digits in lower case.
pub(crate) fn code_of(word: &str) -> Option<u16>
    ensures { result ≡ code_at word.now }
{
    match word.as_bytes() {
        [a, b, c, d] => {
            let (a, b) = (digit_of(*a)?, digit_of(*b)?);
            let (c, d) = (digit_of(*c)?, digit_of(*d)?);
            Some(a * 4096 + b * 256 + c * 16 + d)
        }
        _ => None,
    }
}
