//! What the tests of several crates share.

use hex::FromHex;
use ln_dance::{Dance, Later, Numbers, Peer};
use ln_keys::{ChannelKeys, Role, ToyKeys};
use ln_log::{Limits, Opening, UpdateLog};
use ln_msgs::{Incoming, Message, decode};
use ln_refusals::Refusal;
use std::alloc::Global;

/// The bytes of 64 hex digits; zeros for any other text.
pub fn bytes_of(digits: &str) -> [u8; 32] {
    match <[u8; 32] as FromHex>::from_hex(digits) {
        Ok(bytes) => bytes,
        Err(_) => [0; 32],
    }
}

/// A point: 02 and the bytes of 64 hex digits.
pub fn point_of(digits: &str) -> [u8; 33] {
    let mut point = [2; 33];
    point[1..].copy_from_slice(&bytes_of(digits));
    point
}

/// A signature: the bytes of 64 hex digits, twice.
pub fn signature_of(digits: &str) -> [u8; 64] {
    let half = bytes_of(digits);
    let mut both = [0; 64];
    both[..32].copy_from_slice(&half);
    both[32..].copy_from_slice(&half);
    both
}

/// What the fundee asks of the funder's HTLCs.
const LIMITS: Limits = Limits {
    minimum: 10,
    accepted: 2,
    in_flight: 9000,
    reserve: 1,
};

/// The funder has 16,000 msat, the fundee 4000. What the funder asks of the fundee is stricter.
pub const OPENING: Opening = Opening {
    satoshis: 20,
    push: 4000,
    feerate: 253,
    funder: Limits {
        minimum: 1000,
        accepted: 1,
        in_flight: 9000,
        reserve: 0,
    },
    fundee: LIMITS,
};

pub const CHANNEL: [u8; 32] = [9; 32];

/// A side after so many commitments of either, with nothing proposed.
pub fn side(alloc: Global, role: Role, peer: &ToyKeys, past: u64) -> Dance {
    let number = past % 0x1_0000_0000_0000;
    let numbers = Numbers {
        commitment: number,
        signed: number,
        revoked: number,
    };
    let told = Peer {
        point: peer.point(number),
        next_point: peer.point(number + 1),
        secret: None,
    };
    let updates = UpdateLog::new(alloc, role, OPENING);
    Dance::new(CHANNEL, updates, numbers, told, Later::Signature)
}

/// The message of this type whose bytes after the type are these, each so many times.
pub fn message_of(alloc: Global, typ: u16, runs: &[(usize, u8)]) -> Result<Message, Refusal> {
    let mut bytes = Vec::from_slice(alloc, &typ.to_be_bytes())?;
    for (count, byte) in runs {
        let len = bytes.len().saturating_add(*count);
        bytes.resize(len, *byte)?;
    }
    match decode(alloc, &bytes) {
        Ok(Incoming::Known(message)) => Ok(message),
        _ => Err(Refusal::OutOfPlace),
    }
}
