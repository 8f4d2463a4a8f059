//! Short channel ids, and what is done about an event, as bytes.

ghost use Rattle.std.specs.Prelude.{◌≡◌, ◌++◌, ◌<◌, ◌^◌, true, IfErr, IfOk, OnOk};
ghost use Rattle.ln_store.specs.Format.{Finds, number_at};
ghost use Rattle.ln_wire.specs.Commands as it;

use byteorder::{BigEndian, ByteOrder};
use ln_bytes::ShortId;
use ln_log::Mark;
use ln_refusals::Refusal;
use ln_store::stored::{Stored, put, put_u8, u16_at, u16_fits};
use std::alloc::Global;

// Three bytes, the highest first.
fn u24_at(bytes: &[u8]) -> Result<(u32, &[u8]), Refusal>
    ensures finds { Finds (λ x. (x.0, x.1.now)) result (number_at 3 bytes.now) }
    ensures fits { IfOk result (λ x. x.0 < 2 ^ 24) }
{
    if bytes.len() < 3 {
        return Err(Refusal::Damaged);
    }
    Ok((BigEndian::read_u24(bytes), &bytes[3..]))
}

fn id_of(block: u32, tx: u32, output: u16) -> ShortId
    requires block_fits { block < 2 ^ 24 }
    requires tx_fits { tx < 2 ^ 24 }
    ensures { result ≡ it.id_of block tx output }
{
    ShortId { block, tx, output }
}

/// The short channel id at the front of the bytes, and the bytes after it. Error: 70 where there are fewer than eight.
#[tactic(auto, unfolding(crate::specs::Commands::short_id))]
pub(crate) fn short_id_at(bytes: &[u8]) -> Result<(ShortId, &[u8]), Refusal>
    ensures { Finds (λ x. (x.0, x.1.now)) result (it.short_id.at bytes.now) }
{
    let (block, rest) = u24_at(bytes)?;
    let (tx, rest) = u24_at(rest)?;
    let (output, rest) = u16_at(rest)?;
    Ok((id_of(block, tx, output), rest))
}

#[tactic(auto, unfolding(crate::specs::Commands::short_id))]
pub(crate) fn short_id_fits(id: &ShortId) -> bool
    ensures { result ≡ it.short_id.fits id.now }
{
    u16_fits(id.output)
}

#[tactic(auto, unfolding(crate::specs::Commands::short_id))]
pub(crate) fn put_short_id(out: &mut Vec<u8>, id: &ShortId) -> Result<(), Refusal>
    ensures appends_it { OnOk result (out.new.items ≡ out.old.items ++ it.short_id.bytes id.now) }
    ensures fails_for_memory_alone { IfErr result (λ e. e ≡ Refusal.Memory) }
{
    put(out, &id.to_bytes())
}

/// The mark at the front of the bytes, and the bytes after it. Errors: 70 where there is none, 60 where there is no
/// memory for a reason.
#[tactic(auto, unfolding(crate::specs::Commands::any_mark, ln_store::specs::Items::stored_mark))]
pub(crate) fn mark_at(alloc: Global, bytes: &[u8]) -> Result<(Mark, &[u8]), Refusal>
    ensures { Finds (λ x. (x.0, x.1.now)) result (it.any_mark.at bytes.now) }
{
    match bytes {
        [0, rest @ ..] => Ok((Mark::None, rest)),
        _ => Mark::read(alloc, bytes),
    }
}

#[tactic(auto, unfolding(crate::specs::Commands::any_mark, ln_store::specs::Items::stored_mark))]
pub(crate) fn mark_fits(mark: &Mark) -> bool
    ensures { result ≡ it.any_mark.fits mark.now }
{
    match mark {
        Mark::None => true,
        _ => mark.fits(),
    }
}

#[tactic(auto, unfolding(crate::specs::Commands::any_mark, ln_store::specs::Items::stored_mark))]
pub(crate) fn put_mark(out: &mut Vec<u8>, mark: &Mark) -> Result<(), Refusal>
    requires { it.any_mark.fits mark.now ≡ true }
    ensures appends_it { OnOk result (out.new.items ≡ out.old.items ++ it.any_mark.bytes mark.now) }
    ensures fails_for_memory_alone { IfErr result (λ e. e ≡ Refusal.Memory) }
{
    match mark {
        Mark::None => put_u8(out, 0),
        _ => mark.write(out),
    }
}
