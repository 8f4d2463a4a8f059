//! Short channel ids (BOLT 7, "Definition of `short_channel_id`").

ghost use Rattle.std.specs.Prelude.{◌≡◌, ◌≢◌, ◌↔◌, ℕ, ◌<◌, ◌^◌, List, ◌∷◌, ◌++◌, length, MatchOption, IsTrue};
ghost use Rattle.std.specs.Fmt.{decimal};
ghost use Rattle.ln_bytes.specs.ShortId.{IsPlain, short_id_bytes};

use byteorder::{BigEndian, ByteOrder};
use std::fmt;

/// Where on the chain a channel's funding output stands (BOLT 7, "Definition of `short_channel_id`").
#[derive(Clone, Copy, PartialEq, Eq, PartialOrd, Ord, Hash)]
pub struct ShortId {
    /// The height of the block, below 2^24.
    pub block: u32,
    /// The index of the transaction in the block, below 2^24.
    pub tx: u32,
    /// The index of the output in the transaction.
    pub output: u16,
    pub ghost block_fits: { block < 2 ^ 24 },
    pub ghost tx_fits: { tx < 2 ^ 24 },
}

impl ShortId {
    ghost use Rattle.std.specs.Prelude.{IfSome, IsSomeAnd};
    ghost use Rattle.ln_bytes.specs.ShortId.{short_id_bytes, short_id_text};

    /// Reads the eight bytes: three of block, three of transaction and two of output, big-endian.
    /// Every eight bytes are a short id. Takes no memory.
    pub fn from_bytes(bytes: &[u8; 8]) -> ShortId
        // What is read is spelled so.
        ensures is_spelled_so { bytes.now ≡ short_id_bytes result.block result.tx result.output }
        // What is spelled so is read.
        ensures reads_each_spelling { (block tx output : ℕ) → block < 2 ^ 24 → tx < 2 ^ 24 → output < 2 ^ 16
            → bytes.now ≡ short_id_bytes block tx output → (result.block ≡ block) × (result.tx ≡ tx)
            × (result.output ≡ output) }
    {
        from_eight(bytes)
    }

    /// The eight bytes: three of block, three of transaction and two of output, big-endian. Takes no
    /// memory.
    pub fn to_bytes(self) -> [u8; 8]
        ensures { result ≡ short_id_bytes self.block self.tx self.output }
    {
        let mut bytes = [0; 8];
        BigEndian::write_u24(&mut bytes[..3], self.block);
        BigEndian::write_u24(&mut bytes[3..6], self.tx);
        BigEndian::write_u16(&mut bytes[6..], self.output);
        bytes
    }

    /// Reads `BLOCKxTXxOUTPUT`, each a decimal number without leading zeros; block and transaction are
    /// below 2^24, and the output is below 2^16. `None` is any other text. Takes no memory.
    pub fn parse(text: &str) -> Option<ShortId>
        // What is read is written so.
        ensures is_written_so { IfSome result (λ id. text.now ≡ short_id_text id.block id.tx id.output) }
        // What is written so is read.
        ensures reads_each_text { (block tx output : ℕ) → block < 2 ^ 24 → tx < 2 ^ 24 → output < 2 ^ 16
            → text.now ≡ short_id_text block tx output → IsSomeAnd result (λ id. (id.block ≡ block) × (id.tx ≡ tx)
            × (id.output ≡ output)) }
    {
        let (block, rest) = number_and_x(text)?;
        let (tx, rest) = number_and_x(rest)?;
        let output = number(rest)?;
        if block >= 1 << 24 || tx >= 1 << 24 || output >= 1 << 16 {
            return None;
        }
        Some(ShortId {
            block,
            tx,
            output: output as u16,
        })
    }
}

fn from_eight(bytes: &[u8]) -> ShortId
    requires { length bytes.now ≡ 8 }
    ensures { bytes.now ≡ short_id_bytes result.block result.tx result.output }
{
    ShortId {
        block: BigEndian::read_u24(bytes),
        tx: BigEndian::read_u24(&bytes[3..]),
        output: BigEndian::read_u16(&bytes[6..]),
    }
}

// A decimal number and an x in front, and what follows them.
fn number_and_x(text: &str) -> Option<(u32, &str)>
    ensures { MatchOption result ((n : ℕ) (rest : List ℕ) → n < 2 ^ 32
        → text.now ≢ decimal n ++ (120 ∷ rest)) (λ x. (x.0 < 2 ^ 32) × (text.now ≡ decimal x.0 ++ (120 ∷ x.1.now))) }
{
    let (front, rest) = text.split_once('x')?;
    Some((number(front)?, rest))
}

// A decimal number without a sign and without leading zeros.
fn number(text: &str) -> Option<u32>
    ensures { MatchOption result ((n : ℕ) → n < 2 ^ 32 → text.now ≢ decimal n) (λ n. (n < 2 ^ 32)
        × (text.now ≡ decimal n)) }
{
    if !begins_plainly(text.as_bytes()) {
        return None;
    }
    text.parse().ok()
}

// Neither a sign nor a leading zero stands in front.
fn begins_plainly(bytes: &[u8]) -> bool
    ensures { IsTrue result ↔ IsPlain bytes.now }
{
    match bytes {
        [b'+', ..] => false,
        [b'0', _, ..] => false,
        _ => true,
    }
}

impl fmt::Display for ShortId {
    ghost use Rattle.std.specs.Prelude.{Some};
    ghost use Rattle.ln_bytes.specs.ShortId.{short_id_text};

    ghost output = { λ id. Some (short_id_text id.block id.tx id.output) };

    fn fmt<W: fmt::Write>(&self, f: &mut fmt::Formatter<W>) -> fmt::Result {
        let block = self.block;
        let tx = self.tx;
        let output = self.output;
        write!(f, "{block}x{tx}x{output}")
    }
}
