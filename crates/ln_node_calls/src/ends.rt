//! The ends of the row, and those of a third channel of its middle node.

use ln_bytes::ShortId;
use ln_keys::ToyKeys;
use ln_tests_ends::{A0, B0, B1, C0, End};

/// B's end of its channel with F, a fourth node.
pub const B2: End = End {
    number: 4,
    node: 1,
    channel: 2,
    proxy: 2,
    connects: true,
};

/// F's end of its channel with B.
pub const F0: End = End {
    number: 5,
    node: 3,
    channel: 0,
    proxy: 2,
    connects: false,
};

/// All ends. The last two are there once a line has said so.
pub const ALL: [End; 6] = [A0, B0, B1, C0, B2, F0];

/// How many nodes there are at most.
pub const NODES: usize = 4;

/// The keys of an end.
pub fn keys_of(end: End) -> ToyKeys {
    match end.number {
        4 => ToyKeys {
            seed: [9; 32],
            tag: [10; 32],
            peer_tag: [11; 32],
        },
        5 => ToyKeys {
            seed: [12; 32],
            tag: [11; 32],
            peer_tag: [10; 32],
        },
        _ => end.keys(),
    }
}

/// The funding transaction of its channel.
pub fn txid_of(end: End) -> [u8; 32] {
    if end.proxy == 2 { [11; 32] } else { end.txid() }
}

/// The short id of its channel.
pub fn short_id_of(end: End) -> ShortId {
    if end.proxy == 2 {
        ShortId {
            block: 3,
            tx: 1,
            output: 0,
        }
    } else {
        end.short_id()
    }
}

/// The end of a node that has this number there.
pub fn end_of(node: usize, channel: usize) -> Option<End> {
    for end in ALL {
        if end.node == node && end.channel == channel {
            return Some(end);
        }
    }
    None
}
