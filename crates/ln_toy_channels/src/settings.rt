//! Keys, ids and what each end asks for: two channels in a row.

use ln_bytes::{Bytes, ShortId};
use ln_channel::{Config, FitConfig, FitSpec, OpenSpec, Points};
use ln_forward::Policy;
use ln_keys::ToyKeys;
use ln_log::Limits;
use ln_msgs::Records;
use ln_refusals::Refusal;
use std::alloc::Global;

/// What a node asks for a payment that it forwards.
pub const POLICY: Policy = Policy {
    base: 1000,
    proportional: 100,
    delta: 40,
};

/// The keys of the first channel's ends, the funder's first, and those of the second one's.
pub const KEYS: [ToyKeys; 4] = [
    ToyKeys {
        seed: [1; 32],
        tag: [2; 32],
        peer_tag: [3; 32],
    },
    ToyKeys {
        seed: [4; 32],
        tag: [3; 32],
        peer_tag: [2; 32],
    },
    ToyKeys {
        seed: [5; 32],
        tag: [6; 32],
        peer_tag: [7; 32],
    },
    ToyKeys {
        seed: [8; 32],
        tag: [7; 32],
        peer_tag: [6; 32],
    },
];

/// The funding transactions of the two channels.
pub const TXIDS: [[u8; 32]; 2] = [[9; 32], [10; 32]];

/// The short ids of the two channels.
pub const SHORT_IDS: [ShortId; 2] = [
    ShortId {
        block: 1,
        tx: 1,
        output: 0,
    },
    ShortId {
        block: 2,
        tx: 1,
        output: 0,
    },
];

const POINTS: Points = Points {
    funding_pubkey: [2; 33],
    revocation_basepoint: [2; 33],
    payment_basepoint: [2; 33],
    delayed_payment_basepoint: [2; 33],
    htlc_basepoint: [2; 33],
};

fn config(alloc: Global) -> Config {
    Config {
        limits: Limits {
            minimum: 1,
            accepted: 30,
            in_flight: 1_000_000_000_000,
            reserve: 0,
        },
        chain_hash: [0; 32],
        dust_limit: 546,
        to_self_delay: 144,
        minimum_depth: 3,
        points: POINTS,
        first: 300,
        least: 200,
        greatest: 400,
        script: Bytes::empty(alloc),
    }
}

/// What a fundee takes channels with. It fits, so the error, 40, doesn't come. Takes no memory.
pub fn fit_config(alloc: Global) -> Result<FitConfig, Refusal> {
    let config = config(alloc);
    if config.fits() {
        Ok(FitConfig::new(config))
    } else {
        drop(config);
        Err(Refusal::NotReady)
    }
}

/// What a funder opens the channel of this funding transaction with. It fits, so the error, 40, doesn't come. Takes no
/// memory.
pub fn fit_spec(alloc: Global, txid: [u8; 32]) -> Result<FitSpec, Refusal> {
    let spec = OpenSpec {
        config: config(alloc),
        funding: 1_000_000,
        push: 0,
        feerate: 253,
        flags: 0,
        temporary_id: txid,
        txid,
        output: 0,
        records: Records::empty(alloc),
    };
    if spec.fits() {
        Ok(FitSpec::new(spec))
    } else {
        drop(spec);
        Err(Refusal::NotReady)
    }
}
