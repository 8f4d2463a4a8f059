//! Which payments a channel's end takes.

ghost use Rattle.std.specs.Prelude.{◌≡◌, ◌⊎◌, ◌↔◌, OnOk, OnErr, IfErr, option_map, true, Some};
ghost use Rattle.ln_refusals.specs.declared.refusal.Refusal.TheVariants as refusal;
ghost use Rattle.ln_forward.specs.Payload.{id_bytes};
ghost use Rattle.ln_book.specs.Uses.{takes_payments, minimum_of_peer, use_of, with_route, with_use};

use crate::book::Book;
use ln_bytes::ShortId;
use ln_channel::{Channel, ChannelMachine};
use ln_forward::Policy;
use ln_keys::{ChannelKeys, Role};
use ln_log::ChannelId;
use ln_refusals::Refusal;

/// What a book is told of a channel's end.
#[derive(Clone, Copy, PartialEq, Eq)]
pub struct Use {
    /// The channel.
    pub channel: ChannelId,
    /// The eight bytes of its short id, once it is known (BOLT 7, "Definition of `short_channel_id`").
    pub short_id: Option<[u8; 8]>,
    /// The least that its other end takes, in millisatoshi.
    pub minimum: u64,
    /// Whether it takes payments.
    pub takes: bool,
}

// Whether a link takes payments: it works and is connected, its end is ready, and neither side has shut down.
fn takes_payments<K: ChannelKeys + Drop>(link: &ChannelMachine<K>, end: &Channel) -> bool
    ensures { result ≡ takes_payments link.now end.now }
{
    let closing = end.closing();
    !link.is_halted()
        && link.failure().is_none()
        && !link.connection().is_down()
        && end.is_ready()
        && !closing.shut
        && !closing.peer_shut
        && closing.closed.is_none()
}

// The least that the other end takes, in msat.
fn minimum_of_peer(end: &Channel) -> u64
    ensures { result ≡ minimum_of_peer end.now.closing.role end.now.terms }
{
    match end.closing().role {
        Role::Funder => end.terms().accept_channel.htlc_minimum_msat,
        Role::Fundee => end.terms().open_channel.htlc_minimum_msat,
    }
}

// The bytes of a short id, where it is known.
fn bytes_of(id: Option<ShortId>) -> Option<[u8; 8]>
    ensures { result ≡ option_map id_bytes id }
{
    match id {
        None => None,
        Some(id) => Some(id.to_bytes()),
    }
}

/// What a book is told of an end. Takes no memory.
pub fn use_of<K: ChannelKeys + Drop>(link: &ChannelMachine<K>, end: &Channel) -> Use
    ensures { result ≡ use_of link.now end.now }
{
    Use {
        channel: end.id(),
        short_id: bytes_of(end.readiness().short_id),
        minimum: minimum_of_peer(end),
        takes: takes_payments(link, end),
    }
}

// The book knows the channel by its short id, where that is known. 60 where there is no memory, which changes nothing.
fn set_route(book: &mut Book, policy: Policy, used: Use, id: Option<[u8; 8]>) -> Result<(), Refusal>
    ensures set { OnOk result (book.new ≡ with_route policy used id book.old) }
    ensures changes_nothing_if_refused { OnErr result (book.new ≡ book.old) }
    ensures fails_for_memory_alone { IfErr result (λ e. e ≡ refusal.Memory) }
{
    match id {
        None => Ok(()),
        Some(id) => book.set_route(ShortId::from_bytes(&id), used.channel, policy, used.minimum),
    }
}

/// The book is told which payments an end takes, for which the node asks what this policy says. Takes memory. Error: 60
/// alone, and then the book may know the short id already.
pub fn follow(book: &mut Book, policy: Policy, used: Use) -> Result<(), Refusal>
    ensures followed { OnOk result (book.new ≡ with_use policy used book.old) }
    ensures enters_the_route_at_most { OnErr result ((book.new ≡ book.old)
        ⊎ (book.new ≡ with_route policy used used.short_id book.old)) }
    ensures fails_for_memory_alone { IfErr result (λ e. e ≡ refusal.Memory) }
{
    set_route(book, policy, used, used.short_id)?;
    book.set_usable(used.channel, used.takes)
}

/// Whether this was said last. Takes no memory.
pub(crate) fn is_again(last: Option<Use>, used: Use) -> bool
    ensures { result ≡ true ↔ last ≡ Some used }
{
    match last {
        None => false,
        Some(last) => last == used,
    }
}
