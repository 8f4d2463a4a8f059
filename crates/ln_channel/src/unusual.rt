//! Values that usual peers refuse at an opening.

ghost use Rattle.std.specs.Prelude.{◌≡◌};
ghost use Rattle.ln_channel.specs.Unusual.{unusual_config, unusual_spec};

use crate::config::{Config, OpenSpec};

/// The least `dust_limit_satoshis` that is usual, in satoshi (BOLT 3, "Dust Limits": of any segwit output).
const LEAST_DUST_LIMIT: u64 = 354;

/// The most `to_self_delay` that is usual, in blocks: two weeks.
const MOST_TO_SELF_DELAY: u16 = 2016;

/// The fewest `max_accepted_htlcs` that are usual.
const FEWEST_ACCEPTED: u16 = 5;

/// The least feerate that is relayed, in satoshi per 1000 weight.
const LEAST_FEERATE: u32 = 253;

/// A value with which the link would open a channel, and usual peers wouldn't (BOLT 2, "Channel Establishment v1").
#[derive(Clone, Copy, PartialEq, Eq)]
pub enum Unusual {
    /// `dust_limit_satoshis` is below 354 satoshi.
    DustLimit,
    /// `channel_reserve_satoshis` is below `dust_limit_satoshis`.
    Reserve,
    /// `to_self_delay` is above 2,016 blocks.
    ToSelfDelay,
    /// `max_accepted_htlcs` is below 5.
    AcceptedHtlcs,
    /// `feerate_per_kw` is below 253 satoshi per 1000 weight.
    Feerate,
}

impl Config {
    /// The first of its values, in the order of `Unusual`, that usual peers refuse; none where they take it. Whether it
    /// `fits` is another question: the link takes such a value. Takes no memory.
    pub fn unusual(&self) -> Option<Unusual>
        ensures { result ≡ unusual_config self.now }
    {
        if self.dust_limit < LEAST_DUST_LIMIT {
            return Some(Unusual::DustLimit);
        }
        if self.limits.reserve < self.dust_limit {
            return Some(Unusual::Reserve);
        }
        if self.to_self_delay > MOST_TO_SELF_DELAY {
            return Some(Unusual::ToSelfDelay);
        }
        if self.limits.accepted < FEWEST_ACCEPTED {
            return Some(Unusual::AcceptedHtlcs);
        }
        None
    }
}

impl OpenSpec {
    /// The first of its values that usual peers refuse: one of its config, or its feerate. Takes no memory.
    pub fn unusual(&self) -> Option<Unusual>
        ensures { result ≡ unusual_spec self.now }
    {
        match self.config.unusual() {
            Some(value) => return Some(value),
            None => {}
        }
        if self.feerate < LEAST_FEERATE {
            return Some(Unusual::Feerate);
        }
        None
    }
}
