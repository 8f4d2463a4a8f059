//! What nodes open channels with (BOLT 2, "Channel Establishment v1").

ghost use Rattle.std.specs.Prelude.{◌≡◌, position, OnOk, IfOk, IfErr, IsTrue};
ghost use Rattle.ln_refusals.specs.declared.refusal.Refusal.TheVariants as refusal;
ghost use Rattle.ln_world_channels.specs.Settings.{defaults, config_with, config_of, txid_of, channel_id_of, spec_of};
ghost use Rattle.ln_world_channels.specs.Settings.{may_bring, CanBring};
ghost use Rattle.ln_world_channels.specs.WorldChannel.{is_node};
ghost use Rattle.ln_world_channels.specs.World.{settings_of, with_settings};
ghost use Rattle.ln_channel.specs.Config.{IsFitConfig, IsFitSpec};

use crate::step::Node;
use ln_bytes::Bytes;
use ln_channel::{Config, FitConfig, FitSpec, OpenSpec, Points};
use ln_close::Fees;
use ln_log::{Limits, Opening};
use ln_msgs::{Records, channel_id};
use ln_refusals::Refusal;
use std::alloc::Global;

/// What a node opens channels with.
#[derive(Clone, Copy, PartialEq, Eq)]
pub struct Settings {
    /// The closing fees that it takes.
    pub fees: Fees,
    /// What it asks of the HTLCs that it is offered.
    pub limits: Limits,
}

/// What was set for a node.
#[derive(Clone, Copy, PartialEq, Eq)]
pub struct Setting {
    /// The node.
    pub node: Node,
    /// What it opens channels with.
    pub settings: Settings,
}

impl Settings {
    ghost use Rattle.std.specs.Prelude.{◌≡◌, IsTrue};
    ghost use Rattle.ln_close.specs.Closing.{AreOrdered};
    ghost use Rattle.ln_world_channels.specs.Settings.{defaults, may_ask, CanBeTold};

    /// What a node has that nothing was set for: closing fees 300, from 200 to 400 satoshis, and HTLCs of at least 1
    /// msat, at most 30 of them and of 1,000,000,000,000 msat together, without a reserve. Takes no memory.
    pub fn defaults() -> Settings
        ensures { result ≡ defaults }
    {
        Settings {
            fees: Fees {
                first: 300,
                least: 200,
                greatest: 400,
            },
            limits: Limits {
                minimum: 1,
                accepted: 30,
                in_flight: 1_000_000_000_000,
                reserve: 0,
            },
        }
    }

    // Each of its numbers has 64 bits, so messages have room for it.
    fn has_room(self)
        ensures { CanBeTold self }
    {}

    fn may_ask(&self) -> bool
        ensures test { result ≡ may_ask self.now }
        ensures fits { IsTrue result → AreOrdered self.now.fees }
        ensures has_room { CanBeTold self.now }
    {
        self.has_room();
        self.fees.least <= self.fees.first && self.fees.first <= self.fees.greatest
    }
}

/// The points of every node.
const POINTS: Points = Points {
    funding_pubkey: [2; 33],
    revocation_basepoint: [2; 33],
    payment_basepoint: [2; 33],
    delayed_payment_basepoint: [2; 33],
    htlc_basepoint: [2; 33],
};

/// What was set, as links take it, with this script. Takes no memory.
fn config_with(settings: &Settings, script: Bytes) -> Config
    ensures { result ≡ config_with settings.now script }
{
    Config {
        limits: settings.limits,
        chain_hash: [0; 32],
        dust_limit: 546,
        to_self_delay: 144,
        minimum_depth: 3,
        points: POINTS,
        first: settings.fees.first,
        least: settings.fees.least,
        greatest: settings.fees.greatest,
        script,
    }
}

/// What a node opens channels with, as its links take it. 60 where there is no memory.
pub(crate) fn config_of(alloc: Global, node: Node, settings: &Settings) -> Result<Config, Refusal>
    ensures config { IfOk result (λ c. c ≡ config_of node settings.now) }
    ensures fails_for_memory_alone { IfErr result (λ e. e ≡ refusal.Memory) }
{
    let script = Vec::from_slice(alloc, &[node.letter])?;
    Ok(config_with(settings, Bytes::new(script)))
}

/// What a link awaits a channel with that no node was named for: the defaults, and no script. Takes no memory.
pub(crate) fn nameless_config(alloc: Global) -> FitConfig {
    let script = Bytes::new(Vec::new(alloc));
    FitConfig::new(config_with(&Settings::defaults(), script))
}

/// The id of the funding transaction of the channel with this number.
fn txid_of(channel: u8) -> [u8; 32]
    ensures { result ≡ txid_of channel }
{
    let mut txid = [0; 32];
    txid[31] = channel;
    txid
}

/// The id of the channel with this number. Takes no memory.
#[tactic(auto, unfolding(crate::specs::Settings::channel_id_of))]
pub fn channel_id_of(channel: u8) -> [u8; 32]
    ensures { result ≡ channel_id_of channel }
{
    channel_id(&txid_of(channel), 0)
}

/// What a funder opens the channel with this number by. Takes no memory.
pub(crate) fn spec_of(
    alloc: Global,
    channel: u8,
    config: Config,
    satoshis: u64,
    push: u64,
) -> OpenSpec
    ensures { result ≡ spec_of channel config satoshis push }
{
    OpenSpec {
        config,
        funding: satoshis,
        push,
        feerate: 253,
        flags: 0,
        temporary_id: [255; 32],
        txid: txid_of(channel),
        output: 0,
        records: Records::empty(alloc),
    }
}

/// Whether what both nodes of a channel bring fits: the funds in satoshis, what of them is pushed in msat, how many
/// HTLCs either takes, and the closing fees in their order. Takes no memory.
pub fn may_bring(satoshis: u64, push: u64, funder: &Settings, fundee: &Settings) -> bool
    ensures test { result ≡ may_bring satoshis push funder.now fundee.now }
    ensures fits { IsTrue result → CanBring satoshis push funder.now fundee.now }
{
    let opening = Opening {
        satoshis,
        push,
        feerate: 253,
        funder: funder.limits,
        fundee: fundee.limits,
    };
    opening.is_fit() && funder.may_ask() && fundee.may_ask()
}

/// What a fundee takes channels with. 60 where there is no memory.
pub(crate) fn fit_config(
    alloc: Global,
    node: Node,
    settings: &Settings,
) -> Result<FitConfig, Refusal>
    requires { IsFitConfig (config_of node settings.now) }
    ensures config { IfOk result (λ c. c ≡ config_of node settings.now) }
    ensures fails_for_memory_alone { IfErr result (λ e. e ≡ refusal.Memory) }
{
    Ok(FitConfig::new(config_of(alloc, node, settings)?))
}

/// What a funder opens the channel with this number by. 60 where there is no memory.
pub(crate) fn fit_spec(
    alloc: Global,
    channel: u8,
    node: Node,
    settings: &Settings,
    satoshis: u64,
    push: u64,
) -> Result<FitSpec, Refusal>
    requires { IsFitSpec (spec_of channel (config_of node settings.now) satoshis push) }
    ensures spec { IfOk result (λ s. s ≡ spec_of channel (config_of node settings.now) satoshis push) }
    ensures fails_for_memory_alone { IfErr result (λ e. e ≡ refusal.Memory) }
{
    let config = config_of(alloc, node, settings)?;
    Ok(FitSpec::new(spec_of(alloc, channel, config, satoshis, push)))
}

/// What was set for a node, or the defaults.
pub(crate) fn settings_of(all: &[Setting], node: Node) -> Settings
    ensures { result ≡ settings_of node all.now }
{
    for setting in all {
        if setting.node.letter == node.letter {
            return setting.settings;
        }
    }
    Settings::defaults()
}

/// Where what was set for a node stands.
fn place_of(all: &[Setting], node: Node) -> Option<usize>
    ensures { result ≡ position (λ s. is_node s.node node) all.now }
{
    all.iter()
        .position(|setting| setting.node.letter == node.letter)
}

/// Sets what a node opens channels with. 60 where there is no memory.
pub(crate) fn set_for(all: &mut Vec<Setting>, node: Node, settings: Settings) -> Result<(), Refusal>
    ensures set { OnOk result (all.new.items ≡ with_settings node settings all.old.items) }
    ensures fails_for_memory_alone { IfErr result (λ e. e ≡ refusal.Memory) }
{
    let setting = Setting { node, settings };
    match place_of(all, node) {
        Some(i) => all[i] = setting,
        None => all.push(setting)?,
    }
    Ok(())
}
