//! Where a link stands with its channel.

use crate::channel::Channel;
use crate::machine::{ChannelMachine, Stage};
use ln_keys::{ChannelKeys, Role};
use ln_log::{Pair, Side};
use ln_refusals::Refusal;
use std::alloc::Global;

/// How far a channel is, for one of its ends.
#[derive(Clone, Copy, Debug, PartialEq, Eq)]
pub enum ChannelStatus {
    /// None of those below.
    Open,
    /// This end has sent `channel_ready`, and taken the peer's.
    Ready,
    /// This end has sent `shutdown`.
    Shut,
    /// It is closed at this fee, in satoshis.
    Closed(u64),
    /// It failed by this refusal.
    Failed(Refusal),
}

/// Where a link stands with its channel; all is 0 where its opening isn't signed by both.
#[derive(Clone, Copy, Debug, PartialEq, Eq)]
pub struct Summary {
    /// How many of its own updates its last signature covers.
    pub signed: usize,
    /// How many of its own updates it holds as irrevocably committed.
    pub own_held: usize,
    /// How many of the peer's updates it holds as irrevocably committed.
    pub peer_held: usize,
    /// Its balance in its own commitment, in msat.
    pub own: u64,
    /// The peer's balance in that commitment, in msat.
    pub peer: u64,
    /// How many HTLCs are live in that commitment.
    pub live: usize,
    /// The last that fits.
    pub status: ChannelStatus,
}

impl Channel {
    ghost use Rattle.std.specs.Prelude.{◌≡◌, IfOk, IfErr};
    ghost use Rattle.ln_dance.specs.Dance.{view_at};
    ghost use Rattle.ln_log.specs.declared.log.Pair.TheVariants as pair;
    ghost use Rattle.ln_log.specs.declared.log.Side.TheVariants as side;
    ghost use Rattle.ln_channel.specs.End as end;
    ghost use Rattle.ln_channel.specs.End.{End};
    ghost use Rattle.ln_channel.specs.Summary.{status_of, failed_or, summary_of};

    // How far it is: the last that fits.
    fn status(&self) -> ChannelStatus
        ensures { (e : End) → end.StandsFor self.now e → result ≡ status_of e }
    {
        if let Some(fee) = self.closing.closed {
            return ChannelStatus::Closed(fee);
        }
        if self.closing.shut {
            ChannelStatus::Shut
        } else if self.is_ready() {
            ChannelStatus::Ready
        } else {
            ChannelStatus::Open
        }
    }

    // Where it stands. 60 where there is no memory for the HTLCs of its own commitment.
    fn summary(&self, alloc: Global, failure: Option<Refusal>) -> Result<Summary, Refusal>
        ensures summary { (e : End) → end.StandsFor self.now e
            → IfOk result (λ s. s ≡ summary_of (failed_or failure (status_of e))
            (view_at (pair.Current side.Own) e.dance) e) }
        ensures fails_for_memory_alone { IfErr result (λ e. e ≡ Refusal.Memory) }
    {
        let status = match failure {
            Some(refusal) => ChannelStatus::Failed(refusal),
            None => self.status(),
        };
        let log = self.dance.log();
        let view = log.view(alloc, Pair::Current(Side::Own))?;
        let (own, peer) = match self.closing.role {
            Role::Funder => (view.funder, view.fundee),
            Role::Fundee => (view.fundee, view.funder),
        };
        Ok(Summary {
            signed: log.counts(Pair::Signed).own,
            own_held: log.counts(Pair::Current(Side::Own)).own,
            peer_held: log.counts(Pair::Current(Side::Peer)).peer,
            own,
            peer,
            live: view.htlcs.len(),
            status,
        })
    }
}

impl<K: ChannelKeys + Drop> ChannelMachine<K> {
    ghost use Rattle.std.specs.Prelude.{◌≡◌, IfOk, IfErr};
    ghost use Rattle.ln_channel.specs.State.{State, StandsFor};
    ghost use Rattle.ln_channel.specs.Summary.{summary};

    /// Where it stands with its channel. 60 where there is no memory for the HTLCs of its own commitment.
    pub fn summary(&self, alloc: Global) -> Result<Summary, Refusal>
        ensures summary { (l : State K) → StandsFor self.now l → IfOk result (λ s. s ≡ summary l) }
        ensures fails_for_memory_alone { IfErr result (λ e. e ≡ Refusal.Memory) }
    {
        match &self.stage {
            Stage::Funded(channel) => channel.summary(alloc, self.failure),
            _ => {
                let status = match self.failure {
                    Some(refusal) => ChannelStatus::Failed(refusal),
                    None => ChannelStatus::Open,
                };
                Ok(Summary {
                    signed: 0,
                    own_held: 0,
                    peer_held: 0,
                    own: 0,
                    peer: 0,
                    live: 0,
                    status,
                })
            }
        }
    }
}
