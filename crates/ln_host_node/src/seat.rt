//! What a node keeps of a channel for its host.

use ln_bytes::Bytes;
use ln_host::{HeldSignatures, HostKeys, PeerSecret, Seen};
use std::alloc::Global;
use std::collections::BTreeMap;

/// The message of a channel that its host has.
#[derive(Clone, Copy, PartialEq, Eq)]
pub(crate) enum Shown {
    /// None.
    Nothing,
    /// The one of this number, to fill what is blank in it.
    Blank(u64),
    /// The one of this number, to send it.
    Send(u64),
}

/// A failure as its host has wrapped it, for the message of this number.
#[derive(Drop)]
pub(crate) struct Wrapped {
    pub(crate) message: u64,
    pub(crate) reason: Bytes,
}

/// What a node keeps of a channel for its host.
#[derive(Drop)]
pub(crate) struct Seat {
    pub(crate) first_point: [u8; 33],
    // The peer's signatures over the own commitment that the channel holds.
    pub(crate) signatures: Option<HeldSignatures>,
    // The secrets that no saved batch has; so many of them are in the batch that isn't saved yet.
    pub(crate) secrets: Vec<PeerSecret>,
    pub(crate) told_secrets: usize,
    // The names of the onions of the peer's HTLCs, by their ids, and that of the event which is with the host.
    pub(crate) onions: BTreeMap<u64, [u8; 32]>,
    pub(crate) asked: Option<[u8; 32]>,
    // The id of the peer's HTLC that the event which is with the host tells the end of.
    pub(crate) over: Option<u64>,
    pub(crate) shown: Shown,
    pub(crate) wrapped: Option<Wrapped>,
}

// Puts a value in the place of another.
pub(crate) fn put_in<T: Drop>(place: &mut T, value: T) {
    *place = value;
}

impl Seat {
    /// Of a channel of which nothing is known but its first point. Takes no memory.
    pub(crate) fn new(
        alloc: Global,
        first_point: [u8; 33],
        signatures: Option<HeldSignatures>,
    ) -> Seat {
        Seat {
            first_point,
            signatures,
            secrets: Vec::new(alloc),
            told_secrets: 0,
            onions: BTreeMap::new(alloc),
            asked: None,
            over: None,
            shown: Shown::Nothing,
            wrapped: None,
        }
    }

    /// Keys that answer for a message. Takes no memory.
    pub(crate) fn keys(&self, is_right: bool, secret: [u8; 32]) -> HostKeys {
        HostKeys {
            first_point: self.first_point,
            is_right,
            secret,
        }
    }

    /// What a taken message had that the chain may need. There is a place for a secret already.
    pub(crate) fn keep(&mut self, seen: Seen) {
        match seen {
            Seen::Nothing => {}
            Seen::Signatures(signatures) => put_in(&mut self.signatures, Some(signatures)),
            Seen::Secret(secret) => drop(self.secrets.push(secret)),
        }
    }

    /// The secrets of the saved batch leave. Takes no memory.
    pub(crate) fn forget_told(&mut self) {
        let count = self.told_secrets;
        self.told_secrets = 0;
        if count <= self.secrets.len() {
            drop(self.secrets.drain(..count));
        }
    }

    /// The connection is lost, and with it the message that the host has. Takes no memory.
    pub(crate) fn lose(&mut self) {
        self.shown = Shown::Nothing;
        put_in(&mut self.wrapped, None);
    }
}
