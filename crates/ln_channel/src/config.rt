//! What an end of a channel is opened with.

use ln_bytes::{Bytes, tlvs_are_valid, tlvs_len};
use ln_close::Fees;
use ln_log::{Limits, MOST_HTLCS, Opening};
use ln_msgs::Records;
use std::alloc::AllocError;
use std::marker::Model;

/// `shutdown` has 36 bytes beside its script, and a message 65,535 at most.
pub(crate) const LONGEST_SCRIPT: usize = 65_499;

/// `open_channel` has 321 bytes beside its records.
pub(crate) const LONGEST_RECORDS: usize = 65_214;

/// The points of a side that serve all its commitments (BOLT 3, "Key Derivation"), each of 33 bytes.
#[derive(Clone, Copy, PartialEq, Eq)]
pub struct Points {
    /// Its key of the funding output.
    pub funding_pubkey: [u8; 33],
    /// What the peer's revocation keys come from.
    pub revocation_basepoint: [u8; 33],
    /// What it is paid to where the peer closes alone.
    pub payment_basepoint: [u8; 33],
    /// What it is paid to where it closes alone.
    pub delayed_payment_basepoint: [u8; 33],
    /// What the keys of HTLCs come from.
    pub htlc_basepoint: [u8; 33],
}

/// What a side opens channels with, as funder or as fundee (BOLT 2, "Channel Establishment v1").
#[derive(Drop)]
pub struct Config {
    /// What it asks of the HTLCs that it is offered.
    pub limits: Limits,
    /// The chain of its channels, by the hash of its first block: 32 bytes.
    pub chain_hash: [u8; 32],
    /// `dust_limit_satoshis`, in satoshis: told to the peer, and not acted upon.
    pub dust_limit: u64,
    /// `to_self_delay`, in blocks: told to the peer, and not acted upon.
    pub to_self_delay: u16,
    /// `minimum_depth`, in blocks: what a fundee tells the funder, and doesn't act upon.
    pub minimum_depth: u32,
    /// Its points but those of single commitments.
    pub points: Points,
    /// The closing fee that it proposes first where it is the funder, in satoshis.
    pub first: u64,
    /// The least closing fee that it agrees to, in satoshis.
    pub least: u64,
    /// The greatest closing fee that it agrees to, in satoshis.
    pub greatest: u64,
    /// The script of its `shutdown`, where a command names no other: at most 65,499 bytes.
    pub script: Bytes,
}

/// What a funder opens one channel with.
#[derive(Drop)]
pub struct OpenSpec {
    /// What it opens channels with.
    pub config: Config,
    /// What it pays in, in satoshis: 1 to 2,100,000,000,000,000.
    pub funding: u64,
    /// What of that the fundee has at first, in msat: at most 1000 * `funding`.
    pub push: u64,
    /// The feerate until an update changes it, in satoshis for 1000 units of weight.
    pub feerate: u32,
    /// `channel_flags`; bit 0 announces the channel.
    pub flags: u8,
    /// The channel's id until its funding is known: 32 bytes.
    pub temporary_id: [u8; 32],
    /// The funding transaction's id: 32 bytes.
    pub txid: [u8; 32],
    /// Its output that pays the channel.
    pub output: u16,
    /// The records of its `open_channel`.
    pub records: Records,
}

// By hand, as these all are: a copy is the same value, and a derived one would give up at each field.
impl Clone for Config {
    ghost use Rattle.std.specs.Prelude.{◌≡◌};

    ghost is_clone = { λ c d. d ≡ c };

    fn clone(&self) -> Result<Config, AllocError> {
        let script = self.script.clone()?;
        Ok(Config {
            limits: self.limits,
            chain_hash: self.chain_hash,
            dust_limit: self.dust_limit,
            to_self_delay: self.to_self_delay,
            minimum_depth: self.minimum_depth,
            points: self.points,
            first: self.first,
            least: self.least,
            greatest: self.greatest,
            script,
        })
    }
}

impl Clone for OpenSpec {
    ghost use Rattle.std.specs.Prelude.{◌≡◌};

    ghost is_clone = { λ s t. t ≡ s };

    fn clone(&self) -> Result<OpenSpec, AllocError> {
        let config = self.config.clone()?;
        let records = self.records.clone()?;
        Ok(OpenSpec {
            config,
            funding: self.funding,
            push: self.push,
            feerate: self.feerate,
            flags: self.flags,
            temporary_id: self.temporary_id,
            txid: self.txid,
            output: self.output,
            records,
        })
    }
}

impl Config {
    ghost use Rattle.std.specs.Prelude.{◌≡◌, ◌↔◌, IsTrue};
    ghost use Rattle.ln_channel.specs.Config.{IsFitConfig, fees_of};

    /// Whether a side may open channels with it: it asks for at most 483 HTLCs, `least` <= `first` <= `greatest`, and
    /// its script has at most 65,499 bytes, so that a `shutdown` with it can be written. Takes no memory.
    pub fn fits(&self) -> bool
        ensures { IsTrue result ↔ IsFitConfig self.now }
    {
        self.limits.accepted <= MOST_HTLCS
            && self.least <= self.first
            && self.first <= self.greatest
            && self.script.len() <= LONGEST_SCRIPT
    }

    /// The closing fees that it takes. Takes no memory.
    pub fn fees(&self) -> Fees
        ensures { result ≡ fees_of self.now }
    {
        Fees {
            first: self.first,
            least: self.least,
            greatest: self.greatest,
        }
    }
}

impl OpenSpec {
    ghost use Rattle.std.specs.Prelude.{◌≡◌, ◌≤◌, ◌↔◌, IsTrue, length};
    ghost use Rattle.ln_bytes.specs.Tlv.{stream_bytes};
    ghost use Rattle.ln_msgs.specs.Messages.Table.{open_form};
    ghost use Rattle.ln_msgs.specs.Codec.Writing.{MayFollow};
    ghost use Rattle.ln_channel.specs.Config.{IsFitSpec, longest_records, offered};

    /// Whether a funder may open a channel with it: its config fits, the funding is 1 to 2,100,000,000,000,000
    /// satoshis, no more is pushed than 1000 times that, and the records may stand in an `open_channel` and leave it
    /// at most 65,535 bytes. Takes no memory.
    pub fn fits(&self) -> bool
        ensures { IsTrue result ↔ IsFitSpec self.now }
    {
        self.config.fits() && self.offered(self.config.limits).is_fit() && self.can_be_written()
    }

    // Whether the records may stand in an `open_channel`, and leave it short enough.
    fn can_be_written(&self) -> bool
        ensures { IsTrue result ↔ (MayFollow open_form self.now.records
            × (length (stream_bytes self.now.records) ≤ longest_records)) }
    {
        let records = self.records.as_slice();
        tlvs_are_valid(records, &[0]) && tlvs_len(records, LONGEST_RECORDS).is_some()
    }

    /// What it offers, with a fundee that asks for this. Takes no memory.
    pub fn offered(&self, fundee: Limits) -> Opening
        ensures { result ≡ offered self.now fundee }
    {
        Opening {
            satoshis: self.funding,
            push: self.push,
            feerate: self.feerate,
            funder: self.config.limits,
            fundee,
        }
    }
}

/// A `Config` that fits, by its type.
#[derive(Drop)]
pub struct FitConfig {
    config: Config,
}

impl Model for FitConfig {
    ghost use Rattle.ln_channel.specs.declared.config.Config.{Config};
    ghost use Rattle.ln_channel.specs.Config.{IsFitConfig};

    ghost Value = { Config };

    ghost view = { λ c. c.config };

    ghost invariant = { λ c. IsFitConfig c.config };
}

impl Clone for FitConfig {
    ghost use Rattle.std.specs.Prelude.{◌≡◌};

    ghost is_clone = { λ c d. d ≡ c };

    fn clone(&self) -> Result<FitConfig, AllocError> {
        let config = self.config.clone()?;
        Ok(FitConfig { config })
    }
}

impl FitConfig {
    ghost use Rattle.std.specs.Prelude.{◌≡◌};
    ghost use Rattle.ln_channel.specs.Config.{IsFitConfig};

    /// A config that `Config::fits` tells to fit. Takes no memory.
    pub fn new(config: Config) -> FitConfig
        requires { IsFitConfig config }
        ensures { result ≡ config }
    {
        FitConfig { config }
    }

    /// The config. Takes no memory.
    pub fn get(&self) -> &Config
        ensures value { result.now ≡ self.now }
        ensures fits { IsFitConfig self.now }
    {
        &self.config
    }

    /// The config. Takes no memory.
    pub fn into_config(self) -> Config
        ensures value { result ≡ self }
        ensures fits { IsFitConfig self }
    {
        self.config
    }
}

/// An `OpenSpec` that fits, by its type.
#[derive(Drop)]
pub struct FitSpec {
    spec: OpenSpec,
}

impl Model for FitSpec {
    ghost use Rattle.ln_channel.specs.declared.config.OpenSpec.{OpenSpec};
    ghost use Rattle.ln_channel.specs.Config.{IsFitSpec};

    ghost Value = { OpenSpec };

    ghost view = { λ s. s.spec };

    ghost invariant = { λ s. IsFitSpec s.spec };
}

impl Clone for FitSpec {
    ghost use Rattle.std.specs.Prelude.{◌≡◌};

    ghost is_clone = { λ s t. t ≡ s };

    fn clone(&self) -> Result<FitSpec, AllocError> {
        let spec = self.spec.clone()?;
        Ok(FitSpec { spec })
    }
}

impl FitSpec {
    ghost use Rattle.std.specs.Prelude.{◌≡◌};
    ghost use Rattle.ln_channel.specs.Config.{IsFitSpec, with_funding};

    /// A spec that `OpenSpec::fits` tells to fit. Takes no memory.
    pub fn new(spec: OpenSpec) -> FitSpec
        requires { IsFitSpec spec }
        ensures { result ≡ spec }
    {
        FitSpec { spec }
    }

    /// Another funding than it has; nothing else changes. Takes no memory.
    pub fn name_funding(&mut self, txid: [u8; 32], output: u16)
        ensures { self.new ≡ with_funding txid output self.old }
    {
        self.spec.txid = txid;
        self.spec.output = output;
    }

    /// The spec. Takes no memory.
    pub fn get(&self) -> &OpenSpec
        ensures value { result.now ≡ self.now }
        ensures fits { IsFitSpec self.now }
    {
        &self.spec
    }

    /// The spec. Takes no memory.
    pub fn into_spec(self) -> OpenSpec
        ensures value { result ≡ self }
        ensures fits { IsFitSpec self }
    {
        self.spec
    }
}
