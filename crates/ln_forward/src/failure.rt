//! Why a payment has failed.

use byteorder::{BigEndian, ByteOrder};
use ln_bytes::{Fault, write_bigsize};
use std::alloc::Global;

/// Why a hop fails a payment (BOLT 4, "Failure Messages"). Amounts are in millisatoshi, expiries and heights in
/// blocks.
#[derive(Clone, Copy, PartialEq, Eq)]
pub enum Failure {
    /// 0x1007: the channel can't take it now.
    TemporaryChannelFailure,
    /// 0x400a: no channel has the short channel id.
    UnknownNextPeer,
    /// 0x100b, with the amount to forward: it is 0, or less than the channel takes.
    AmountBelowMinimum(u64),
    /// 0x100c, with the incoming amount: it leaves too little for the fee.
    FeeInsufficient(u64),
    /// 0x100d, with the outgoing expiry: it is too close to the incoming one.
    IncorrectCltvExpiry(u32),
    /// 0x100e: the outgoing expiry is too close.
    ExpiryTooSoon,
    /// 0x400f, with the incoming amount and the block height: no such payment is expected.
    IncorrectOrUnknownPaymentDetails(u64, u32),
    /// 0x0012, with the incoming expiry: it is less than the payload says.
    FinalIncorrectCltvExpiry(u32),
    /// 0x0013, with the incoming amount: it is less than the payload says.
    FinalIncorrectHtlcAmount(u64),
    /// 0x0015: the outgoing expiry is too far away.
    ExpiryTooFar,
    /// 0x4016, with the type of the record that is missing or wrong, 0 where there is none to name.
    InvalidOnionPayload(u64),
}

impl Failure {
    ghost use Rattle.std.specs.Prelude.{◌≡◌, IfOk, IfErr};
    ghost use Rattle.ln_forward.specs.Failure.{failure_code, failure_bytes};

    /// The failure code: the bits PERM 0x4000, NODE 0x2000 and UPDATE 0x1000, and a number.
    pub fn code(&self) -> u16
        ensures { result ≡ failure_code self.now }
    {
        match self {
            Failure::TemporaryChannelFailure => 0x1007,
            Failure::UnknownNextPeer => 0x400a,
            Failure::AmountBelowMinimum(_) => 0x100b,
            Failure::FeeInsufficient(_) => 0x100c,
            Failure::IncorrectCltvExpiry(_) => 0x100d,
            Failure::ExpiryTooSoon => 0x100e,
            Failure::IncorrectOrUnknownPaymentDetails(_, _) => 0x400f,
            Failure::FinalIncorrectCltvExpiry(_) => 0x0012,
            Failure::FinalIncorrectHtlcAmount(_) => 0x0013,
            Failure::ExpiryTooFar => 0x0015,
            Failure::InvalidOnionPayload(_) => 0x4016,
        }
    }

    /// The failure as its origin reads it: the code in two bytes, and its data. A `channel_update` is left out,
    /// which a length of 0 tells. Fault 60 where there was no memory.
    pub fn to_bytes(&self, alloc: Global) -> Result<Vec<u8>, Fault>
        ensures spells_it { IfOk result (λ v. v.items ≡ failure_bytes self.now) }
        ensures fails_for_memory_alone { IfErr result (λ e. e ≡ Fault.Memory) }
    {
        let mut bytes = Vec::new(alloc);
        put_u16(&mut bytes, self.code())?;
        match self {
            Failure::TemporaryChannelFailure => put_u16(&mut bytes, 0)?,
            Failure::UnknownNextPeer => {}
            Failure::AmountBelowMinimum(amount) | Failure::FeeInsufficient(amount) => {
                put_u64(&mut bytes, *amount)?;
                put_u16(&mut bytes, 0)?;
            }
            Failure::IncorrectCltvExpiry(expiry) => {
                put_u32(&mut bytes, *expiry)?;
                put_u16(&mut bytes, 0)?;
            }
            Failure::ExpiryTooSoon => put_u16(&mut bytes, 0)?,
            Failure::IncorrectOrUnknownPaymentDetails(amount, height) => {
                put_u64(&mut bytes, *amount)?;
                put_u32(&mut bytes, *height)?;
            }
            Failure::FinalIncorrectCltvExpiry(expiry) => put_u32(&mut bytes, *expiry)?,
            Failure::FinalIncorrectHtlcAmount(amount) => put_u64(&mut bytes, *amount)?,
            Failure::ExpiryTooFar => {}
            Failure::InvalidOnionPayload(typ) => {
                put_bigsize(&mut bytes, *typ)?;
                put_u16(&mut bytes, 0)?;
            }
        }
        Ok(bytes)
    }
}

ghost use Rattle.std.specs.Prelude.{◌≡◌, ◌++◌, OnOk, IfErr};
ghost use Rattle.ln_bytes.specs.Endian.{big_bytes};
ghost use Rattle.ln_bytes.specs.Bigsize.{bigsize};
ghost use Rattle.ln_bytes.specs.declared.fault.Fault.{Fault};

fn put_u16(bytes: &mut Vec<u8>, number: u16) -> Result<(), Fault>
    ensures appends_it { OnOk result (bytes.new.items ≡ bytes.old.items ++ big_bytes 2 number) }
    ensures fails_for_memory_alone { IfErr result (λ e. e ≡ Fault.Memory) }
{
    let mut spelling = [0; 2];
    BigEndian::write_u16(&mut spelling, number);
    bytes.extend_from_slice(&spelling)?;
    Ok(())
}

fn put_u32(bytes: &mut Vec<u8>, number: u32) -> Result<(), Fault>
    ensures appends_it { OnOk result (bytes.new.items ≡ bytes.old.items ++ big_bytes 4 number) }
    ensures fails_for_memory_alone { IfErr result (λ e. e ≡ Fault.Memory) }
{
    let mut spelling = [0; 4];
    BigEndian::write_u32(&mut spelling, number);
    bytes.extend_from_slice(&spelling)?;
    Ok(())
}

fn put_u64(bytes: &mut Vec<u8>, number: u64) -> Result<(), Fault>
    ensures appends_it { OnOk result (bytes.new.items ≡ bytes.old.items ++ big_bytes 8 number) }
    ensures fails_for_memory_alone { IfErr result (λ e. e ≡ Fault.Memory) }
{
    let mut spelling = [0; 8];
    BigEndian::write_u64(&mut spelling, number);
    bytes.extend_from_slice(&spelling)?;
    Ok(())
}

fn put_bigsize(bytes: &mut Vec<u8>, number: u64) -> Result<(), Fault>
    ensures appends_it { OnOk result (bytes.new.items ≡ bytes.old.items ++ bigsize number) }
    ensures fails_for_memory_alone { IfErr result (λ e. e ≡ Fault.Memory) }
{
    let mut spelling = [0; 9];
    let len = write_bigsize(number, &mut spelling);
    bytes.extend_from_slice(&spelling[..len])?;
    Ok(())
}
