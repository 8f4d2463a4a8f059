//! The ends of the two channels of three nodes in a row.

use ln_bytes::ShortId;
use ln_channel::FitConfig;
use ln_keys::ToyKeys;
use ln_refusals::Refusal;
use ln_toy_channels::{KEYS, SHORT_IDS, TXIDS, fit_config};
use std::alloc::Global;

/// An end, by numbers from 0.
#[derive(Clone, Copy)]
pub struct End {
    /// Among all ends.
    pub number: usize,
    /// Of its node.
    pub node: usize,
    /// Of its channel at its node.
    pub channel: usize,
    /// Of its channel in the row.
    pub proxy: usize,
    /// Whether it makes the connections of its channel.
    pub connects: bool,
}

/// A's end of its channel with B.
pub const A0: End = End {
    number: 0,
    node: 0,
    channel: 0,
    proxy: 0,
    connects: true,
};

/// B's end of its channel with A.
pub const B0: End = End {
    number: 1,
    node: 1,
    channel: 0,
    proxy: 0,
    connects: false,
};

/// B's end of its channel with C.
pub const B1: End = End {
    number: 2,
    node: 1,
    channel: 1,
    proxy: 1,
    connects: true,
};

/// C's end of its channel with B.
pub const C0: End = End {
    number: 3,
    node: 2,
    channel: 0,
    proxy: 1,
    connects: false,
};

/// All ends.
pub const ENDS: [End; 4] = [A0, B0, B1, C0];

impl End {
    /// Its keys.
    pub fn keys(self) -> ToyKeys {
        let [a, left, right, c] = KEYS;
        match self.number {
            0 => a,
            1 => left,
            2 => right,
            _ => c,
        }
    }

    /// The short id of its channel.
    pub fn short_id(self) -> ShortId {
        let [first, second] = SHORT_IDS;
        if self.proxy == 0 { first } else { second }
    }

    /// The funding transaction of its channel.
    pub fn txid(self) -> [u8; 32] {
        let [first, second] = TXIDS;
        if self.proxy == 0 { first } else { second }
    }
}

/// What an end takes channels with: so many HTLCs at once.
pub fn row_config(alloc: Global, accepted: u16) -> Result<FitConfig, Refusal> {
    let mut config = fit_config(alloc)?.into_config();
    config.limits.accepted = accepted;
    if config.fits() {
        Ok(FitConfig::new(config))
    } else {
        drop(config);
        Err(Refusal::NotReady)
    }
}
