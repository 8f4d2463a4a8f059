//! Events of a channel end.

ghost use Rattle.std.specs.Prelude.{◌≡◌, IfOk, IfErr, IsTrue, is_some, not};
ghost use Rattle.ln_hooks.specs.Event.{event_of, added, settled, is_bounded, is_fee};
ghost use Rattle.ln_refusals.specs.declared.refusal.Refusal.TheVariants as refusal;

use crate::amount::Msat;
use ln_bytes::Bytes;
use ln_log::{Add, Update};
use ln_refusals::Refusal;
use std::alloc::Global;

/// How an HTLC was removed (BOLT 2, "Removing an HTLC").
#[derive(Clone, Drop)]
pub enum How {
    /// It was fulfilled, by this preimage.
    Fulfilled([u8; 32]),
    /// It has failed, for this reason, which the payment's origin can read: at most 65,491 bytes.
    Failed(Bytes),
    /// It has failed as its onion couldn't be read: the onion's SHA-256, and a failure code with the BADONION bit,
    /// 0x8000.
    Malformed([u8; 32], u16),
}

/// What both sides of a channel hold as irrevocably committed from now on (BOLT 2, "Normal Operation"), or its
/// end. The events of a channel end are numbered from 0.
#[derive(Drop)]
pub enum ChannelEvent {
    /// An HTLC was added.
    Added {
        /// Whether this side offered it.
        own: bool,
        /// Its id among those that its side has offered.
        id: u64,
        /// What it pays.
        amount: Msat,
        /// The payment hash.
        hash: [u8; 32],
        /// The block height at which it times out.
        expiry: u32,
        /// What its receiver forwards by (BOLT 4).
        onion: [u8; 1366],
    },
    /// An HTLC was removed.
    Settled {
        /// Whether this side had offered it.
        own: bool,
        /// Its id among those that its side has offered.
        id: u64,
        /// How it was removed.
        how: How,
    },
    /// The channel is closed at this fee, in satoshis. It is the last event.
    Closed(u64),
}

/// The event that an update is, once it is held as irrevocably committed. None for a change of the feerate, and for an
/// add of more than an `Msat`, which no side of a channel can hold. `own` tells whether this side had proposed it.
/// Takes memory for a reason: 60 where there was none.
pub fn event_of(alloc: Global, own: bool, update: &Update) -> Result<Option<ChannelEvent>, Refusal>
    ensures gives_the_event { IfOk result (λ e. e ≡ event_of own update.now) }
    ensures only_fees_untold { IsTrue (is_bounded update.now) → IfOk result (λ e. is_some e ≡ not (is_fee update.now)) }
    ensures fails_for_memory_alone { IfErr result (λ r. r ≡ refusal.Memory) }
{
    match update {
        Update::Add(add) => Ok(added(own, add)),
        Update::Fulfil(fulfil) => Ok(Some(settled(
            own,
            fulfil.id,
            How::Fulfilled(fulfil.preimage),
        ))),
        Update::Fail(fail) => {
            let reason = Vec::from_slice(alloc, fail.reason.as_slice())?;
            Ok(Some(settled(own, fail.id, How::Failed(Bytes::new(reason)))))
        }
        Update::Malformed(malformed) => {
            let how = How::Malformed(malformed.sha256_of_onion, malformed.failure_code);
            Ok(Some(settled(own, malformed.id, how)))
        }
        Update::Fee(_) => Ok(None),
    }
}

fn added(own: bool, add: &Add) -> Option<ChannelEvent>
    ensures { result ≡ added own add.now }
{
    Some(ChannelEvent::Added {
        own,
        id: add.id,
        amount: Msat::new(add.amount)?,
        hash: add.hash,
        expiry: add.expiry,
        onion: add.onion,
    })
}

// A side removes HTLCs of the other side.
fn settled(own: bool, id: u64, how: How) -> ChannelEvent
    ensures { result ≡ settled own id how }
{
    ChannelEvent::Settled { own: !own, id, how }
}
