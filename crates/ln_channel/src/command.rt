//! What a link is told to do.

use ln_bytes::{Bytes, ShortId};
use ln_log::{ChannelId, Mark};

/// What a link is told to do.
#[derive(Drop)]
pub enum Command {
    /// The funding is deep enough, and the channel has this short id.
    Confirm(ShortId),
    /// Offers an HTLC with the next id.
    Add {
        /// In millisatoshi.
        amount: u64,
        /// The payment hash.
        hash: [u8; 32],
        /// The block height at which it times out.
        expiry: u32,
        /// What its receiver forwards by (BOLT 4).
        onion: [u8; 1366],
        /// The incoming channel and HTLC that it forwards.
        origin: Option<(ChannelId, u64)>,
    },
    /// Fulfils an HTLC of the peer's.
    Fulfil {
        /// The HTLC.
        id: u64,
        /// What its payment hash is the SHA-256 of.
        preimage: [u8; 32],
    },
    /// Fails an HTLC of the peer's.
    Fail {
        /// The HTLC.
        id: u64,
        /// Why, for the payment's origin: at most 65,491 bytes.
        reason: Bytes,
    },
    /// Fails an HTLC of the peer's whose onion can't be read.
    Malformed {
        /// The HTLC.
        id: u64,
        /// The SHA-256 of the onion as it came.
        sha: [u8; 32],
        /// What was wrong; the BADONION bit, 0x8000, is set.
        code: u16,
    },
    /// Changes the feerate, in satoshi per 1000 weight.
    Fee(u32),
    /// Signs the peer's next commitment.
    Sign,
    /// Sends shutdown with this script.
    Shutdown(Bytes),
    /// What is done about the event of this number.
    Decide {
        /// The event's number.
        event: u64,
        /// What is done.
        mark: Mark,
    },
    /// What became of the own HTLC of this id has been passed on.
    Forget(u64),
    /// What is done about an HTLC that is held: in the place of that it is held.
    Resume {
        /// The number of the event that told of it.
        event: u64,
        /// What is done.
        mark: Mark,
    },
}

impl Command {
    ghost use Rattle.std.specs.Prelude.{◌≡◌};
    ghost use Rattle.ln_channel.specs.Step.{is_of_records};

    // Whether it is about what a record keeps of decisions.
    pub(crate) fn is_of_records(&self) -> bool
        ensures { result ≡ is_of_records self.now }
    {
        match self {
            Command::Decide { .. } => true,
            Command::Forget(_) => true,
            Command::Resume { .. } => true,
            _ => false,
        }
    }
}
