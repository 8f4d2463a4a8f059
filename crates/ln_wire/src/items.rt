//! What stands in a link's line, as bytes.

ghost use Rattle.std.specs.Prelude.{◌≡◌};
ghost use Rattle.ln_store.specs.Format.{Finds, sized};
ghost use Rattle.ln_wire.specs.Items as it;
ghost use Rattle.ln_wire.specs.Items.{blank_at, item_at};

use crate::lists::{list_at, list_fits, optional_at, optional_fits, put_list, put_optional};
use crate::wire::Wire;
use ln_bytes::{Bytes, Signatures};
use ln_hooks::ChannelEvent;
use ln_host::{Blank, ClosingTerms, HeldSignatures, HostRecord, PeerSecret};
use ln_keys::{Role, View};
use ln_refusals::Refusal;
use ln_store::Listed;
use ln_store::stored::{
    Stored, array_at, array_fits, long_at, put, put_long, put_u8, put_u64, u64_at, u64_fits,
};
use std::alloc::Global;

/// What stands in a link's line for its host.
#[derive(Drop)]
pub enum Item {
    /// To be saved whole and synced before what follows.
    Record(HostRecord),
    /// To be filled in.
    Blank(Blank),
    /// A message to be sent: its bytes.
    Send(Bytes),
    /// The event of this number, which the host decides.
    Event(u64, ChannelEvent),
    /// The channel is closed at this fee, in satoshi.
    Closed(u64),
}

fn signatures_at(alloc: Global, bytes: &[u8]) -> Result<(Blank, &[u8]), Refusal>
    ensures { Finds (λ x. (x.0, x.1.now)) result (blank_at 1 bytes.now) }
{
    let (role, rest) = Role::read(alloc, bytes)?;
    let (number, rest) = u64_at(rest)?;
    let (point, rest) = array_at(rest)?;
    let (view, rest) = View::read(alloc, rest)?;
    let blank = Blank::Signatures {
        role,
        number,
        point,
        view,
    };
    Ok((blank, rest))
}

fn revocation_at(bytes: &[u8]) -> Result<(Blank, &[u8]), Refusal>
    ensures { Finds (λ x. (x.0, x.1.now)) result (blank_at 2 bytes.now) }
{
    let (secret, rest) = u64_at(bytes)?;
    let (point, rest) = u64_at(rest)?;
    Ok((Blank::Revocation { secret, point }, rest))
}

fn point_at(bytes: &[u8]) -> Result<(Blank, &[u8]), Refusal>
    ensures { Finds (λ x. (x.0, x.1.now)) result (blank_at 3 bytes.now) }
{
    let (number, rest) = u64_at(bytes)?;
    Ok((Blank::Point(number), rest))
}

fn close_at(alloc: Global, bytes: &[u8]) -> Result<(Blank, &[u8]), Refusal>
    ensures { Finds (λ x. (x.0, x.1.now)) result (blank_at 4 bytes.now) }
{
    let (terms, rest) = ClosingTerms::read(alloc, bytes)?;
    Ok((Blank::Close(terms), rest))
}

impl Wire for Blank {
    ghost format = { it.blank_form };

    #[tactic(auto, unfolding(crate::specs::Items::blank_form))]
    fn read(alloc: Global, bytes: &[u8]) -> Result<(Blank, &[u8]), Refusal> {
        let [tag, rest @ ..] = bytes else {
            return Err(Refusal::Damaged);
        };
        match *tag {
            1 => signatures_at(alloc, rest),
            2 => revocation_at(rest),
            3 => point_at(rest),
            4 => close_at(alloc, rest),
            _ => Err(Refusal::Damaged),
        }
    }

    #[tactic(auto, unfolding(crate::specs::Items::blank_form))]
    fn fits(&self) -> bool {
        match self {
            Blank::Signatures {
                role,
                number,
                point,
                view,
            } => role.fits() && u64_fits(*number) && array_fits(point) && view.fits(),
            Blank::Revocation { secret, point } => u64_fits(*secret) && u64_fits(*point),
            Blank::Point(number) => u64_fits(*number),
            Blank::Close(terms) => terms.fits(),
        }
    }

    #[tactic(auto, unfolding(crate::specs::Items::blank_form))]
    fn write(&self, out: &mut Vec<u8>) -> Result<(), Refusal> {
        match self {
            Blank::Signatures {
                role,
                number,
                point,
                view,
            } => {
                put_u8(out, 1)?;
                role.write(out)?;
                put_u64(out, *number)?;
                put(out, point)?;
                view.write(out)
            }
            Blank::Revocation { secret, point } => {
                put_u8(out, 2)?;
                put_u64(out, *secret)?;
                put_u64(out, *point)
            }
            Blank::Point(number) => {
                put_u8(out, 3)?;
                put_u64(out, *number)
            }
            Blank::Close(terms) => {
                put_u8(out, 4)?;
                terms.write(out)
            }
        }
    }
}

impl Wire for HeldSignatures {
    ghost format = { it.held };

    #[tactic(auto, unfolding(crate::specs::Items::held))]
    fn read(alloc: Global, bytes: &[u8]) -> Result<(HeldSignatures, &[u8]), Refusal> {
        let (number, rest) = u64_at(bytes)?;
        let (signature, rest) = array_at(rest)?;
        let (signatures, rest) = list_at(alloc, rest)?;
        let held = HeldSignatures {
            number,
            signature,
            htlc_signatures: Signatures::new(signatures),
        };
        Ok((held, rest))
    }

    #[tactic(auto, unfolding(crate::specs::Items::held))]
    fn fits(&self) -> bool {
        u64_fits(self.number)
            && array_fits(&self.signature)
            && list_fits(self.htlc_signatures.as_slice())
    }

    #[tactic(auto, unfolding(crate::specs::Items::held))]
    fn write(&self, out: &mut Vec<u8>) -> Result<(), Refusal> {
        put_u64(out, self.number)?;
        put(out, &self.signature)?;
        put_list(out, self.htlc_signatures.as_slice())
    }
}

impl Wire for PeerSecret {
    ghost format = { it.peer_secret };

    #[tactic(auto, unfolding(crate::specs::Items::peer_secret))]
    fn read(_alloc: Global, bytes: &[u8]) -> Result<(PeerSecret, &[u8]), Refusal> {
        let (number, rest) = u64_at(bytes)?;
        let (secret, rest) = array_at(rest)?;
        Ok((PeerSecret { number, secret }, rest))
    }

    #[tactic(auto, unfolding(crate::specs::Items::peer_secret))]
    fn fits(&self) -> bool {
        u64_fits(self.number) && array_fits(&self.secret)
    }

    #[tactic(auto, unfolding(crate::specs::Items::peer_secret))]
    fn write(&self, out: &mut Vec<u8>) -> Result<(), Refusal> {
        put_u64(out, self.number)?;
        put(out, &self.secret)
    }
}

fn long_fits(bytes: &Bytes) -> bool
    ensures { result ≡ (sized 8).fits bytes.now }
{
    (bytes.len() as u128) < 1 << 64
}

impl Wire for HostRecord {
    ghost format = { it.saved };

    #[tactic(auto, unfolding(crate::specs::Items::saved))]
    fn read(alloc: Global, bytes: &[u8]) -> Result<(HostRecord, &[u8]), Refusal> {
        let (channel, rest) = array_at(bytes)?;
        let (signatures, rest) = optional_at(alloc, rest)?;
        let (secrets, rest) = list_at(alloc, rest)?;
        let (record_bytes, rest) = long_at(alloc, rest)?;
        let saved = HostRecord {
            channel,
            signatures,
            secrets: Listed::new(secrets),
            record_bytes,
        };
        Ok((saved, rest))
    }

    #[tactic(auto, unfolding(crate::specs::Items::saved))]
    fn fits(&self) -> bool {
        array_fits(&self.channel)
            && optional_fits(&self.signatures)
            && list_fits(self.secrets.as_slice())
            && long_fits(&self.record_bytes)
    }

    #[tactic(auto, unfolding(crate::specs::Items::saved))]
    fn write(&self, out: &mut Vec<u8>) -> Result<(), Refusal> {
        put(out, &self.channel)?;
        put_optional(out, &self.signatures)?;
        put_list(out, self.secrets.as_slice())?;
        put_long(out, self.record_bytes.as_slice())
    }
}

fn record_at(alloc: Global, bytes: &[u8]) -> Result<(Item, &[u8]), Refusal>
    ensures { Finds (λ x. (x.0, x.1.now)) result (item_at 1 bytes.now) }
{
    let (saved, rest) = HostRecord::read(alloc, bytes)?;
    Ok((Item::Record(saved), rest))
}

fn blank_item_at(alloc: Global, bytes: &[u8]) -> Result<(Item, &[u8]), Refusal>
    ensures { Finds (λ x. (x.0, x.1.now)) result (item_at 2 bytes.now) }
{
    let (blank, rest) = Blank::read(alloc, bytes)?;
    Ok((Item::Blank(blank), rest))
}

fn send_at(alloc: Global, bytes: &[u8]) -> Result<(Item, &[u8]), Refusal>
    ensures { Finds (λ x. (x.0, x.1.now)) result (item_at 3 bytes.now) }
{
    let message = Bytes::from_slice(alloc, bytes)?;
    Ok((Item::Send(message), &[]))
}

fn event_item_at(alloc: Global, bytes: &[u8]) -> Result<(Item, &[u8]), Refusal>
    ensures { Finds (λ x. (x.0, x.1.now)) result (item_at 4 bytes.now) }
{
    let (number, rest) = u64_at(bytes)?;
    let (event, rest) = ChannelEvent::read(alloc, rest)?;
    Ok((Item::Event(number, event), rest))
}

fn closed_at(bytes: &[u8]) -> Result<(Item, &[u8]), Refusal>
    ensures { Finds (λ x. (x.0, x.1.now)) result (item_at 5 bytes.now) }
{
    let (fee, rest) = u64_at(bytes)?;
    Ok((Item::Closed(fee), rest))
}

impl Wire for Item {
    ghost format = { it.item_form };

    #[tactic(auto, unfolding(crate::specs::Items::item_form))]
    fn read(alloc: Global, bytes: &[u8]) -> Result<(Item, &[u8]), Refusal> {
        let [tag, rest @ ..] = bytes else {
            return Err(Refusal::Damaged);
        };
        match *tag {
            1 => record_at(alloc, rest),
            2 => blank_item_at(alloc, rest),
            3 => send_at(alloc, rest),
            4 => event_item_at(alloc, rest),
            5 => closed_at(rest),
            _ => Err(Refusal::Damaged),
        }
    }

    #[tactic(auto, unfolding(crate::specs::Items::item_form))]
    fn fits(&self) -> bool {
        match self {
            Item::Record(saved) => saved.fits(),
            Item::Blank(blank) => blank.fits(),
            Item::Send(_) => true,
            Item::Event(number, event) => u64_fits(*number) && event.fits(),
            Item::Closed(fee) => u64_fits(*fee),
        }
    }

    #[tactic(auto, unfolding(crate::specs::Items::item_form))]
    fn write(&self, out: &mut Vec<u8>) -> Result<(), Refusal> {
        match self {
            Item::Record(saved) => {
                put_u8(out, 1)?;
                saved.write(out)
            }
            Item::Blank(blank) => {
                put_u8(out, 2)?;
                blank.write(out)
            }
            Item::Send(message) => {
                put_u8(out, 3)?;
                put(out, message.as_slice())
            }
            Item::Event(number, event) => {
                put_u8(out, 4)?;
                put_u64(out, *number)?;
                event.write(out)
            }
            Item::Closed(fee) => {
                put_u8(out, 5)?;
                put_u64(out, *fee)
            }
        }
    }
}
