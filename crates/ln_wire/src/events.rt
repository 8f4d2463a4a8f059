//! What a channel end tells of its updates, as bytes.

ghost use Rattle.std.specs.Prelude.{◌≡◌, ◌++◌, true, IfErr, OnOk};
ghost use Rattle.ln_store.specs.Format.{Finds, number, fixed, ◌&◌};
ghost use Rattle.ln_wire.specs.Forms as forms;
ghost use Rattle.ln_wire.specs.Events as it;
ghost use Rattle.ln_wire.specs.Events.{event_at, how_at};

use crate::wire::Wire;
use ln_hooks::{ChannelEvent, How, Msat};
use ln_refusals::Refusal;
use ln_store::stored::{
    array_at, array_fits, put, put_short, put_u8, put_u16, put_u32, put_u64, short_at, u8_at,
    u16_at, u16_fits, u32_at, u32_fits, u64_at, u64_fits,
};
use std::alloc::Global;

/// A bit at the front of the bytes, in a byte, and the bytes after it. Error: 70 where there is none.
#[tactic(auto, unfolding(crate::specs::Forms::bit))]
pub(crate) fn bit_at(bytes: &[u8]) -> Result<(bool, &[u8]), Refusal>
    ensures { Finds (λ x. (x.0, x.1.now)) result (forms.bit.at bytes.now) }
{
    let (number, rest) = u8_at(bytes)?;
    match number {
        0 => Ok((false, rest)),
        1 => Ok((true, rest)),
        _ => Err(Refusal::Damaged),
    }
}

#[tactic(auto, unfolding(crate::specs::Forms::bit))]
pub(crate) fn bit_fits(bit: bool) -> bool
    ensures { result ≡ forms.bit.fits bit }
{
    bit || !bit
}

#[tactic(auto, unfolding(crate::specs::Forms::bit))]
pub(crate) fn put_bit(out: &mut Vec<u8>, bit: bool) -> Result<(), Refusal>
    ensures appends_it { OnOk result (out.new.items ≡ out.old.items ++ forms.bit.bytes bit) }
    ensures fails_for_memory_alone { IfErr result (λ e. e ≡ Refusal.Memory) }
{
    put_u8(out, if bit { 1 } else { 0 })
}

#[tactic(auto, unfolding(crate::specs::Events::msat))]
fn msat_fits(amount: Msat) -> bool
    ensures { result ≡ it.msat.fits amount }
{
    Msat::new(amount.value()).is_some()
}

#[tactic(auto, unfolding(crate::specs::Events::msat))]
fn put_msat(out: &mut Vec<u8>, amount: Msat) -> Result<(), Refusal>
    ensures appends_it { OnOk result (out.new.items ≡ out.old.items ++ it.msat.bytes amount) }
    ensures fails_for_memory_alone { IfErr result (λ e. e ≡ Refusal.Memory) }
{
    put_u64(out, amount.value())
}

impl Wire for How {
    ghost format = { it.how_form };

    #[tactic(auto, unfolding(crate::specs::Events::how_form))]
    fn read(alloc: Global, bytes: &[u8]) -> Result<(How, &[u8]), Refusal> {
        let [tag, rest @ ..] = bytes else {
            return Err(Refusal::Damaged);
        };
        match *tag {
            0 => {
                let (preimage, rest) = array_at(rest)?;
                Ok((How::Fulfilled(preimage), rest))
            }
            1 => {
                let (reason, rest) = short_at(alloc, rest)?;
                Ok((How::Failed(reason), rest))
            }
            2 => {
                let (sha, rest) = array_at(rest)?;
                let (code, rest) = u16_at(rest)?;
                Ok((How::Malformed(sha, code), rest))
            }
            _ => Err(Refusal::Damaged),
        }
    }

    #[tactic(auto, unfolding(crate::specs::Events::how_form))]
    fn fits(&self) -> bool {
        match self {
            How::Fulfilled(preimage) => array_fits(preimage),
            How::Failed(reason) => reason.len() < 65_536,
            How::Malformed(sha, code) => array_fits(sha) && u16_fits(*code),
        }
    }

    #[tactic(auto, unfolding(crate::specs::Events::how_form))]
    fn write(&self, out: &mut Vec<u8>) -> Result<(), Refusal> {
        match self {
            How::Fulfilled(preimage) => {
                put_u8(out, 0)?;
                put(out, preimage)
            }
            How::Failed(reason) => {
                put_u8(out, 1)?;
                put_short(out, reason.as_slice())
            }
            How::Malformed(sha, code) => {
                put_u8(out, 2)?;
                put(out, sha)?;
                put_u16(out, *code)
            }
        }
    }
}

#[tactic(auto, unfolding(crate::specs::Events::msat))]
fn added_at(bytes: &[u8]) -> Result<(ChannelEvent, &[u8]), Refusal>
    ensures { Finds (λ x. (x.0, x.1.now)) result (event_at 0 bytes.now) }
{
    let (own, rest) = bit_at(bytes)?;
    let (id, rest) = u64_at(rest)?;
    let (amount, rest) = u64_at(rest)?;
    let Some(amount) = Msat::new(amount) else {
        return Err(Refusal::Damaged);
    };
    let (hash, rest) = array_at(rest)?;
    let (expiry, rest) = u32_at(rest)?;
    let (onion, rest) = array_at(rest)?;
    let added = ChannelEvent::Added {
        own,
        id,
        amount,
        hash,
        expiry,
        onion,
    };
    Ok((added, rest))
}

fn settled_at(alloc: Global, bytes: &[u8]) -> Result<(ChannelEvent, &[u8]), Refusal>
    ensures { Finds (λ x. (x.0, x.1.now)) result (event_at 1 bytes.now) }
{
    let (own, rest) = bit_at(bytes)?;
    let (id, rest) = u64_at(rest)?;
    let (how, rest) = How::read(alloc, rest)?;
    Ok((ChannelEvent::Settled { own, id, how }, rest))
}

fn put_offer(
    out: &mut Vec<u8>,
    hash: &[u8; 32],
    expiry: u32,
    onion: &[u8; 1366],
) -> Result<(), Refusal>
    ensures appends_it { OnOk result (out.new.items ≡ out.old.items
        ++ (fixed 32 & number 4 & fixed 1366).bytes (hash.now, (expiry, onion.now))) }
    ensures fails_for_memory_alone { IfErr result (λ e. e ≡ Refusal.Memory) }
{
    put(out, hash)?;
    put_u32(out, expiry)?;
    put(out, onion)
}

impl Wire for ChannelEvent {
    ghost format = { it.event_form };

    #[tactic(auto, unfolding(crate::specs::Events::event_form))]
    fn read(alloc: Global, bytes: &[u8]) -> Result<(ChannelEvent, &[u8]), Refusal> {
        let [tag, rest @ ..] = bytes else {
            return Err(Refusal::Damaged);
        };
        match *tag {
            0 => added_at(rest),
            1 => settled_at(alloc, rest),
            2 => {
                let (fee, rest) = u64_at(rest)?;
                Ok((ChannelEvent::Closed(fee), rest))
            }
            _ => Err(Refusal::Damaged),
        }
    }

    #[tactic(auto, unfolding(crate::specs::Events::event_form))]
    fn fits(&self) -> bool {
        match self {
            ChannelEvent::Added {
                own,
                id,
                amount,
                hash,
                expiry,
                onion,
            } => {
                bit_fits(*own)
                    && u64_fits(*id)
                    && msat_fits(*amount)
                    && array_fits(hash)
                    && u32_fits(*expiry)
                    && array_fits(onion)
            }
            ChannelEvent::Settled { own, id, how } => bit_fits(*own) && u64_fits(*id) && how.fits(),
            ChannelEvent::Closed(fee) => u64_fits(*fee),
        }
    }

    #[tactic(auto, unfolding(crate::specs::Events::event_form))]
    fn write(&self, out: &mut Vec<u8>) -> Result<(), Refusal> {
        match self {
            ChannelEvent::Added {
                own,
                id,
                amount,
                hash,
                expiry,
                onion,
            } => {
                put_u8(out, 0)?;
                put_bit(out, *own)?;
                put_u64(out, *id)?;
                put_msat(out, *amount)?;
                put_offer(out, hash, *expiry, onion)
            }
            ChannelEvent::Settled { own, id, how } => {
                put_u8(out, 1)?;
                put_bit(out, *own)?;
                put_u64(out, *id)?;
                how.write(out)
            }
            ChannelEvent::Closed(fee) => {
                put_u8(out, 2)?;
                put_u64(out, *fee)
            }
        }
    }
}
