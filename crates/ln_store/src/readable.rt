//! Whether items may stand in a record.

ghost use Rattle.std.specs.Prelude.{◌≡◌, ◌∷◌, ◌⊎◌, Ok, Err, Some, None, IfOk, IfErr, if◌then◌else◌};
ghost use Rattle.ln_bytes.specs.Reading.{Gives};
ghost use Rattle.ln_msgs.specs.Messages.Message.{message_at};
ghost use Rattle.ln_msgs.specs.Messages.Typed.{heard};
ghost use Rattle.ln_store.specs.Readable.{is_open, is_of_type, is_readable, funding_of, funding_in};
ghost use Rattle.std.specs.List.{list_all};
ghost use Rattle.ln_store.specs.Readable.{is_open_payload, is_accept_payload, cover_the_same, are_settled};
ghost use Rattle.ln_store.specs.Readable.{is_of, is_of_other, names_an_update, is_sound, is_in_window};

use crate::record::{Covered, Items, Pairs, Updates};
use crate::stored::Stored;
use crate::window::updates_fit;
use ln_bytes::Fault;
use ln_dance::Numbers;
use ln_keys::Role;
use ln_log::EventRef;
use ln_msgs::{Incoming, Message, decode};
use ln_refusals::Refusal;
use std::alloc::Global;

/// The most that a channel is opened with, in satoshi.
const MOST_SATOSHIS: u64 = 2_100_000_000_000_000;

/// The most events of one end: 2^62 updates of either side, and the close.
const MOST_EVENTS: u64 = 9_223_372_036_854_775_809;

// What is said, in a box: who owns it knows nothing of its parts.
fn boxed<T: Drop>(alloc: Global, said: Result<T, Fault>) -> Result<Box<T>, Fault>
    ensures same { IfOk result (λ b. said ≡ Ok b.value) }
    ensures same_fault { IfErr result (λ e. e ≡ Fault.Memory ⊎ (said ≡ Err e)) }
{
    match said {
        Ok(said) => Ok(Box::new(alloc, said)?),
        Err(fault) => Err(fault),
    }
}

// What a message of this type with this payload says.
fn said_by(alloc: Global, typ: u8, payload: &[u8]) -> Result<Box<Incoming>, Fault>
    ensures { Gives (λ b. heard b.value) result (message_at (0 ∷ typ ∷ payload.now)) }
{
    let mut bytes = Vec::with_capacity(alloc, 2)?;
    bytes.push(0)?;
    bytes.push(typ)?;
    bytes.extend_from_slice(payload)?;
    boxed(alloc, decode(alloc, bytes.as_slice()))
}

// The funding, in satoshi, where it is an `open_channel` and that is in its range.
fn funding_of(said: &Incoming) -> Option<u64>
    ensures { result ≡ (if is_open (Ok (heard said.now)) then Some (funding_of (Ok (heard said.now))) else None) }
{
    match said {
        Incoming::Known(Message::OpenChannel(open))
            if 1 <= open.funding_satoshis && open.funding_satoshis <= MOST_SATOSHIS => {
            Some(open.funding_satoshis)
        }
        _ => None,
    }
}

// Whether it is an `accept_channel`.
fn is_accept(said: &Incoming) -> bool
    ensures { result ≡ is_of_type 33 (Ok (heard said.now)) }
{
    matches!(said, Incoming::Known(Message::AcceptChannel(_)))
}

// The funding that the payload of an `open_channel` tells, in satoshi; nothing where it is no such payload.
fn funding_in(alloc: Global, payload: &[u8]) -> Result<Option<u64>, Refusal>
    ensures tells_it { IfOk result (λ o. o ≡ (if is_open_payload payload.now then Some (funding_in payload.now)
        else None)) }
    ensures fails_for_memory_alone { IfErr result (λ e. e ≡ Refusal.Memory) }
{
    match said_by(alloc, 32, payload) {
        Ok(said) => Ok(funding_of(&said)),
        Err(Fault::Memory) => Err(Refusal::Memory),
        Err(_) => Ok(None),
    }
}

fn is_accept_payload(alloc: Global, payload: &[u8]) -> Result<bool, Refusal>
    ensures tells_it { IfOk result (λ b. b ≡ is_accept_payload payload.now) }
    ensures fails_for_memory_alone { IfErr result (λ e. e ≡ Refusal.Memory) }
{
    match said_by(alloc, 33, payload) {
        Ok(said) => Ok(is_accept(&said)),
        Err(Fault::Memory) => Err(Refusal::Memory),
        Err(_) => Ok(false),
    }
}

fn cover_the_same(one: &Covered, other: &Covered) -> bool
    ensures { result ≡ cover_the_same one.now other.now }
{
    one.own == other.own && one.peer == other.peer
}

fn are_settled(numbers: &Numbers, pairs: &Pairs) -> bool
    ensures { result ≡ are_settled numbers.now pairs.now }
{
    numbers.signed != numbers.revoked || cover_the_same(&pairs.acknowledged, &pairs.signed)
}

pub(crate) fn is_in_window(based: u64, windowed: usize, number: u64) -> bool
    ensures { result ≡ is_in_window based windowed number }
{
    based <= number && u128::from(number) < u128::from(based) + windowed as u128
}

fn is_of(role: Role, updates: &Updates, number: u64) -> bool
    ensures { result ≡ is_of role updates.now number }
{
    match role {
        Role::Funder => is_in_window(
            updates.base.updates.funder,
            updates.window.funder.as_slice().len(),
            number,
        ),
        Role::Fundee => is_in_window(
            updates.base.updates.fundee,
            updates.window.fundee.as_slice().len(),
            number,
        ),
    }
}

fn is_of_other(role: Role, updates: &Updates, number: u64) -> bool
    ensures { result ≡ is_of_other role updates.now number }
{
    match role {
        Role::Funder => is_of(Role::Fundee, updates, number),
        Role::Fundee => is_of(Role::Funder, updates, number),
    }
}

// Whether there is what the event tells of.
fn names_an_update(own: Role, updates: &Updates, event: &EventRef) -> bool
    ensures { result ≡ names_an_update own updates.now event.now }
{
    match event {
        EventRef::Own(number) => is_of(own, updates, *number),
        EventRef::Peer(number) => is_of_other(own, updates, *number),
        EventRef::Close => true,
    }
}

fn all_name_updates(own: Role, updates: &Updates, events: &[EventRef]) -> bool
    ensures { result ≡ list_all (names_an_update own updates.now) events.now }
{
    events
        .iter()
        .all(|event| names_an_update(own, updates, event))
}

// Whether what the items say fits together.
pub(crate) fn is_sound(alloc: Global, items: &Items) -> Result<bool, Refusal>
    ensures tells_it { IfOk result (λ b. b ≡ is_sound items.now) }
    ensures fails_for_memory_alone { IfErr result (λ e. e ≡ Refusal.Memory) }
{
    let events = &items.progress.events;
    let Some(satoshis) = funding_in(alloc, items.agreement.open_payload.as_slice())? else {
        return Ok(false);
    };
    Ok(
        is_accept_payload(alloc, items.agreement.accept_payload.as_slice())?
            && items.commitments.numbers.are_in_step()
            && are_settled(&items.commitments.numbers, &items.updates.pairs)
            && events.decided <= MOST_EVENTS
            && all_name_updates(
                items.header.role,
                &items.updates,
                events.undecided.as_slice(),
            )
            && updates_fit(alloc, items.header.role, satoshis, &items.updates)?,
    )
}

/// Whether the items may stand in a record.
///
/// They have their forms: a script or a reason has at most 65,535 bytes, a decision does something, a result tells of
/// a removal, a failure is one by which a channel fails (21 to 35 or 37). The payloads say an `open_channel` whose
/// funding is 1 to 2,100,000,000,000,000 satoshi and an `accept_channel`; the numbers of commitments are below 2^48
/// with at most one signature unrevoked, and where none is, what was acknowledged is what was signed; at most
/// 2^63 + 1 events were decided; each undecided event names an update of the window or the close. The counts of updates
/// rise and cover all of them, ids go on from the base's, and the base adds up to the funding (specs/Window.antt); each
/// fulfil, fail and malformed fail names an HTLC of the other side that is live in the base or added in the window, and
/// no two the same. In no view of the three pairs, nor in that of the next signature or of the next one taken, a
/// removal stands without its HTLC, or a side has spent more than it had (specs/Views.antt). Takes memory for the two
/// payloads, for the ids of the HTLCs that are removed, and for what became of HTLCs in a view.
///
/// Error: 60 alone, where there is no memory.
pub fn is_readable(alloc: Global, items: &Items) -> Result<bool, Refusal>
    ensures tells_it { IfOk result (λ b. b ≡ is_readable items.now) }
    ensures fails_for_memory_alone { IfErr result (λ e. e ≡ Refusal.Memory) }
{
    Ok(items.fits() && is_sound(alloc, items)?)
}
