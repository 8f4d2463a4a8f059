//! Which end of which channel it is, and what both sides agreed on, as they are stored.

ghost use Rattle.std.specs.Prelude.{◌≡◌, ◌++◌, true, IfErr, OnOk};
ghost use Rattle.ln_store.specs.Format.{Finds, optional as optionally, optional_at as optional_in, fixed, sized};
ghost use Rattle.ln_store.specs.Items as it;
ghost use Rattle.ln_store.specs.Items.{flags_of, flags_number, failure_of, failure_number};

use crate::lists::{optional_at, optional_fits, put_optional};
use crate::place::ChainPlace;
use crate::record::{Agreement, Commitments, Flags, Header};
use crate::stored::{
    Stored, array_at, array_fits, medium_at, put, put_medium, put_short, put_u8, put_u16, put_u64,
    short_at, u8_at, u16_at, u64_at, u64_fits,
};
use ln_bytes::Bytes;
use ln_close::Fees;
use ln_dance::{Later, Numbers, Peer};
use ln_keys::Role;
use ln_refusals::{LostData, Refusal};
use std::alloc::Global;

fn bit(flag: bool) -> u8
    ensures { result ≡ it.bit flag }
{
    if flag { 1 } else { 0 }
}

fn later_bit(later: Later) -> u8
    ensures { result ≡ it.later_bit later }
{
    match later {
        Later::Signature => 0,
        Later::Revocation => 1,
    }
}

// The byte of the flags.
fn number_of(flags: &Flags) -> u8
    ensures { result ≡ flags_number flags.now }
{
    bit(flags.ready_sent)
        + 2 * bit(flags.ready_received)
        + 4 * bit(flags.shut_sent)
        + 8 * bit(flags.shut_received)
        + 16 * later_bit(flags.later)
}

// The flags of a byte, where its other bits are 0.
fn flags_of(number: u8) -> Option<Flags>
    ensures { result ≡ flags_of number }
{
    if number >= 32 {
        return None;
    }
    Some(Flags {
        ready_sent: number % 2 == 1,
        ready_received: number / 2 % 2 == 1,
        shut_sent: number / 4 % 2 == 1,
        shut_received: number / 8 % 2 == 1,
        later: if number / 16 % 2 == 1 {
            Later::Revocation
        } else {
            Later::Signature
        },
    })
}

impl Stored for Flags {
    ghost format = { it.flags };

    #[tactic(auto, unfolding(crate::specs::Items::flags))]
    fn read(_alloc: Global, bytes: &[u8]) -> Result<(Flags, &[u8]), Refusal> {
        let (number, rest) = u8_at(bytes)?;
        match flags_of(number) {
            Some(flags) => Ok((flags, rest)),
            None => Err(Refusal::Damaged),
        }
    }

    #[tactic(auto, unfolding(crate::specs::Items::flags))]
    fn fits(&self) -> bool {
        let _value = *self;
        true
    }

    #[tactic(auto, unfolding(crate::specs::Items::flags))]
    fn write(&self, out: &mut Vec<u8>) -> Result<(), Refusal> {
        put_u8(out, number_of(self))
    }
}

// The failure of this code, where a channel fails by it; 0 is none. 290 and 546 are 34 with 1 and 2 in the higher byte.
fn failure_of(number: u16) -> Option<Option<Refusal>>
    ensures { result ≡ failure_of number }
{
    let refusal = match number {
        0 => return Some(None),
        21 => Refusal::OutOfPlace,
        22 => Refusal::BadId,
        23 => Refusal::AmountBelowMinimum,
        24 => Refusal::TooManyHtlcs,
        25 => Refusal::InFlightOver,
        26 => Refusal::CannotAfford,
        27 => Refusal::ExpiryRange,
        28 => Refusal::NoSuchHtlc,
        29 => Refusal::PreimageWrong,
        30 => Refusal::NotFunder,
        31 => Refusal::SignatureWrong,
        32 => Refusal::SecretWrong,
        33 => Refusal::NothingToRevoke,
        34 => Refusal::ReestablishNumber(LostData::Unproved),
        290 => Refusal::ReestablishNumber(LostData::Own),
        546 => Refusal::ReestablishNumber(LostData::Peer),
        35 => Refusal::AddAfterShutdown,
        37 => Refusal::PeerError,
        _ => return None,
    };
    Some(Some(refusal))
}

fn failure_number(failure: &Option<Refusal>) -> u16
    ensures { result ≡ failure_number failure.now }
{
    match failure {
        None => 0,
        Some(Refusal::ReestablishNumber(LostData::Own)) => 290,
        Some(Refusal::ReestablishNumber(LostData::Peer)) => 546,
        Some(refusal) => refusal.number(),
    }
}

impl Stored for Header {
    ghost format = { it.header };

    #[tactic(auto, unfolding(crate::specs::Items::header))]
    fn read(alloc: Global, bytes: &[u8]) -> Result<(Header, &[u8]), Refusal> {
        let (channel, rest) = array_at(bytes)?;
        let (role, rest) = Role::read(alloc, rest)?;
        let (flags, rest) = Flags::read(alloc, rest)?;
        let (failure, rest) = failure_at(rest)?;
        let header = Header {
            channel,
            role,
            flags,
            failure,
        };
        Ok((header, rest))
    }

    #[tactic(auto, unfolding(crate::specs::Items::header))]
    fn fits(&self) -> bool {
        array_fits(&self.channel)
            && self.role.fits()
            && self.flags.fits()
            && failure_fits(&self.failure)
    }

    #[tactic(auto, unfolding(crate::specs::Items::header))]
    fn write(&self, out: &mut Vec<u8>) -> Result<(), Refusal> {
        put(out, &self.channel)?;
        self.role.write(out)?;
        self.flags.write(out)?;
        put_failure(out, &self.failure)
    }
}

#[tactic(auto, unfolding(crate::specs::Items::failure))]
fn failure_at(bytes: &[u8]) -> Result<(Option<Refusal>, &[u8]), Refusal>
    ensures { Finds (λ x. (x.0, x.1.now)) result (it.failure.at bytes.now) }
{
    let (number, rest) = u16_at(bytes)?;
    match failure_of(number) {
        Some(failure) => Ok((failure, rest)),
        None => Err(Refusal::Damaged),
    }
}

#[tactic(auto, unfolding(crate::specs::Items::failure))]
fn failure_fits(failure: &Option<Refusal>) -> bool
    ensures { result ≡ it.failure.fits failure.now }
{
    failure_of(failure_number(failure)).is_some()
}

#[tactic(auto, unfolding(crate::specs::Items::failure))]
fn put_failure(out: &mut Vec<u8>, failure: &Option<Refusal>) -> Result<(), Refusal>
    ensures appends_it { OnOk result (out.new.items ≡ out.old.items ++ it.failure.bytes failure.now) }
    ensures fails_for_memory_alone { IfErr result (λ e. e ≡ Refusal.Memory) }
{
    put_u16(out, failure_number(failure))
}

impl Stored for Fees {
    ghost format = { it.fees };

    #[tactic(auto, unfolding(crate::specs::Items::fees))]
    fn read(_alloc: Global, bytes: &[u8]) -> Result<(Fees, &[u8]), Refusal> {
        let (first, rest) = u64_at(bytes)?;
        let (least, rest) = u64_at(rest)?;
        let (greatest, rest) = u64_at(rest)?;
        let fees = Fees {
            first,
            least,
            greatest,
        };
        Ok((fees, rest))
    }

    #[tactic(auto, unfolding(crate::specs::Items::fees))]
    fn fits(&self) -> bool {
        u64_fits(self.first) && u64_fits(self.least) && u64_fits(self.greatest)
    }

    #[tactic(auto, unfolding(crate::specs::Items::fees))]
    fn write(&self, out: &mut Vec<u8>) -> Result<(), Refusal> {
        put_u64(out, self.first)?;
        put_u64(out, self.least)?;
        put_u64(out, self.greatest)
    }
}

impl Stored for ChainPlace {
    ghost format = { fixed 8 };

    fn read(_alloc: Global, bytes: &[u8]) -> Result<(ChainPlace, &[u8]), Refusal> {
        let (place, rest) = array_at(bytes)?;
        Ok((ChainPlace::from_bytes(&place), rest))
    }

    fn fits(&self) -> bool {
        array_fits(&self.to_bytes())
    }

    fn write(&self, out: &mut Vec<u8>) -> Result<(), Refusal> {
        put(out, &self.to_bytes())
    }
}

// A script: bytes after their length in two bytes.
impl Stored for Bytes {
    ghost format = { sized 2 };

    fn read(alloc: Global, bytes: &[u8]) -> Result<(Bytes, &[u8]), Refusal> {
        short_at(alloc, bytes)
    }

    fn fits(&self) -> bool {
        self.len() < 65_536
    }

    fn write(&self, out: &mut Vec<u8>) -> Result<(), Refusal> {
        put_short(out, self.as_slice())
    }
}

fn medium_fits(bytes: &[u8]) -> bool
    ensures { result ≡ (sized 4).fits bytes.now }
{
    bytes.len() < 4_294_967_296
}

impl Stored for Agreement {
    ghost format = { it.agreement };

    #[tactic(auto, unfolding(crate::specs::Items::agreement))]
    fn read(alloc: Global, bytes: &[u8]) -> Result<(Agreement, &[u8]), Refusal> {
        let (open_payload, rest) = medium_at(alloc, bytes)?;
        let (accept_payload, rest) = medium_at(alloc, rest)?;
        let (place, rest) = optional_at(alloc, rest)?;
        let (fees, rest) = Fees::read(alloc, rest)?;
        let (script, rest) = short_at(alloc, rest)?;
        let (peer_script, rest) = optional_at(alloc, rest)?;
        let agreement = Agreement {
            open_payload,
            accept_payload,
            place,
            fees,
            script,
            peer_script,
        };
        Ok((agreement, rest))
    }

    #[tactic(auto, unfolding(crate::specs::Items::agreement))]
    fn fits(&self) -> bool {
        medium_fits(self.open_payload.as_slice())
            && medium_fits(self.accept_payload.as_slice())
            && optional_fits(&self.place)
            && self.fees.fits()
            && self.script.fits()
            && optional_fits(&self.peer_script)
    }

    #[tactic(auto, unfolding(crate::specs::Items::agreement))]
    fn write(&self, out: &mut Vec<u8>) -> Result<(), Refusal> {
        put_medium(out, self.open_payload.as_slice())?;
        put_medium(out, self.accept_payload.as_slice())?;
        put_optional(out, &self.place)?;
        self.fees.write(out)?;
        put_short(out, self.script.as_slice())?;
        put_optional(out, &self.peer_script)
    }
}

impl Stored for Numbers {
    ghost format = { it.numbers };

    #[tactic(auto, unfolding(crate::specs::Items::numbers))]
    fn read(_alloc: Global, bytes: &[u8]) -> Result<(Numbers, &[u8]), Refusal> {
        let (commitment, rest) = u64_at(bytes)?;
        let (signed, rest) = u64_at(rest)?;
        let (revoked, rest) = u64_at(rest)?;
        let numbers = Numbers {
            commitment,
            signed,
            revoked,
        };
        Ok((numbers, rest))
    }

    #[tactic(auto, unfolding(crate::specs::Items::numbers))]
    fn fits(&self) -> bool {
        u64_fits(self.commitment) && u64_fits(self.signed) && u64_fits(self.revoked)
    }

    #[tactic(auto, unfolding(crate::specs::Items::numbers))]
    fn write(&self, out: &mut Vec<u8>) -> Result<(), Refusal> {
        put_u64(out, self.commitment)?;
        put_u64(out, self.signed)?;
        put_u64(out, self.revoked)
    }
}

impl Stored for [u8; 32] {
    ghost format = { fixed 32 };

    fn read(_alloc: Global, bytes: &[u8]) -> Result<([u8; 32], &[u8]), Refusal> {
        array_at(bytes)
    }

    fn fits(&self) -> bool {
        let _value = *self;
        true
    }

    fn write(&self, out: &mut Vec<u8>) -> Result<(), Refusal> {
        put(out, self)
    }
}

impl Stored for Peer {
    ghost format = { it.peer };

    #[tactic(auto, unfolding(crate::specs::Items::peer))]
    fn read(alloc: Global, bytes: &[u8]) -> Result<(Peer, &[u8]), Refusal> {
        let (point, rest) = array_at(bytes)?;
        let (next_point, rest) = array_at(rest)?;
        let (secret, rest) = optional_at(alloc, rest)?;
        let peer = Peer {
            point,
            next_point,
            secret,
        };
        Ok((peer, rest))
    }

    #[tactic(auto, unfolding(crate::specs::Items::peer))]
    fn fits(&self) -> bool {
        array_fits(&self.point) && array_fits(&self.next_point) && optional_fits(&self.secret)
    }

    #[tactic(auto, unfolding(crate::specs::Items::peer))]
    fn write(&self, out: &mut Vec<u8>) -> Result<(), Refusal> {
        put(out, &self.point)?;
        put(out, &self.next_point)?;
        put_optional(out, &self.secret)
    }
}

impl Stored for Commitments {
    ghost format = { it.commitments };

    #[tactic(auto, unfolding(crate::specs::Items::commitments))]
    fn read(alloc: Global, bytes: &[u8]) -> Result<(Commitments, &[u8]), Refusal> {
        let (numbers, rest) = Numbers::read(alloc, bytes)?;
        let (peer, rest) = Peer::read(alloc, rest)?;
        Ok((Commitments { numbers, peer }, rest))
    }

    #[tactic(auto, unfolding(crate::specs::Items::commitments))]
    fn fits(&self) -> bool {
        self.numbers.fits() && self.peer.fits()
    }

    #[tactic(auto, unfolding(crate::specs::Items::commitments))]
    fn write(&self, out: &mut Vec<u8>) -> Result<(), Refusal> {
        self.numbers.write(out)?;
        self.peer.write(out)
    }
}
