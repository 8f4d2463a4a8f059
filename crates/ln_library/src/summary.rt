//! Where a link stands, for its host.

ghost use Rattle.std.specs.Prelude.{◌≡◌, option_copied, IfOk, IfErr};
ghost use Rattle.ln_refusals.specs.declared.refusal.Refusal.TheVariants as refusal;
ghost use Rattle.ln_log.specs.Log as logs;
ghost use Rattle.ln_log.specs.Log.{Log};
ghost use Rattle.ln_channel.specs.State.{State, StandsFor};
ghost use Rattle.ln_host.specs.declared.keys.HostKeys.{HostKeys};
ghost use Rattle.ln_library.specs.Looks.{status_of, lost_data_of, kept_own, removed_id, removed_ids, channel_of};
ghost use Rattle.ln_library.specs.Looks.{next_id_of, removed_of, link_summary};

use ln_channel::{Channel, ChannelMachine, ChannelStatus};
use ln_host::HostKeys;
use ln_log::{Pair, Side, Update, UpdateLog, removal_of};
use ln_refusals::{LostData, Refusal};
use ln_store::Listed;
use ln_wire::{LinkStatus, LinkSummary};
use std::alloc::Global;

fn status_of(status: ChannelStatus) -> LinkStatus
    ensures { result ≡ status_of status }
{
    match status {
        ChannelStatus::Open => LinkStatus::Open,
        ChannelStatus::Ready => LinkStatus::Ready,
        ChannelStatus::Shut => LinkStatus::Shut,
        ChannelStatus::Closed(fee) => LinkStatus::Closed(fee),
        ChannelStatus::Failed(refusal) => LinkStatus::Failed(u64::from(refusal.number())),
    }
}

// Whose data is lost, where the channel failed by that.
fn lost_data_of(status: ChannelStatus) -> LostData
    ensures { result ≡ lost_data_of status }
{
    match status {
        ChannelStatus::Failed(Refusal::ReestablishNumber(lost_data)) => lost_data,
        _ => LostData::Unproved,
    }
}

// The own updates that are kept.
fn kept_own(log: &UpdateLog) -> &[Update]
    ensures { (l : Log) → logs.StandsFor log.now l → result.now ≡ kept_own l }
{
    let count = log.counts(Pair::ToSign).own;
    log.between(Side::Own, log.first(Side::Own), count)
}

// The HTLC that an update removes.
fn removed_by(update: &Update) -> Option<u64>
    ensures { result ≡ removed_id update.now }
{
    match removal_of(update) {
        None => None,
        Some(removal) => Some(removal.id),
    }
}

// The HTLCs that these updates remove.
fn removed_in(alloc: Global, updates: &[Update]) -> Result<Vec<u64>, Refusal>
    ensures ids { IfOk result (λ v. v.items ≡ removed_ids updates.now) }
    ensures fails_for_memory_alone { IfErr result (λ r. r ≡ refusal.Memory) }
{
    let mut ids = Vec::new(alloc);
    for update in updates {
        if let Some(id) = removed_by(update) {
            ids.push(id)?;
        }
    }
    Ok(ids)
}

fn channel_id(channel: Option<&Channel>) -> Option<[u8; 32]>
    ensures { result ≡ channel_of (option_copied channel.entry) }
{
    match channel {
        None => None,
        Some(channel) => Some(channel.id()),
    }
}

// The next own HTLC's id.
fn next_id_of(channel: Option<&Channel>) -> u64
    ensures { result ≡ next_id_of (option_copied channel.entry) }
{
    match channel {
        None => 0,
        Some(channel) => channel.dance().log().next_id(),
    }
}

// The peer's HTLCs whose removal is kept.
fn removed_of(alloc: Global, channel: Option<&Channel>) -> Result<Vec<u64>, Refusal>
    ensures ids { IfOk result (λ v. v.items ≡ removed_of (option_copied channel.entry)) }
    ensures fails_for_memory_alone { IfErr result (λ r. r ≡ refusal.Memory) }
{
    match channel {
        None => Ok(Vec::new(alloc)),
        Some(channel) => removed_in(alloc, kept_own(channel.dance().log())),
    }
}

/// Where a link stands. 60 where there is no memory.
pub fn summary_of(alloc: Global, machine: &ChannelMachine<HostKeys>) -> Result<LinkSummary, Refusal>
    ensures summary { (l : State HostKeys) → StandsFor machine.now l → IfOk result (λ s. s ≡ link_summary l) }
    ensures fails_for_memory_alone { IfErr result (λ r. r ≡ refusal.Memory) }
{
    let summary = machine.summary(alloc)?;
    let channel = machine.agreed();
    let removed = removed_of(alloc, channel)?;
    Ok(LinkSummary {
        connection: machine.connection(),
        halted: machine.is_halted(),
        channel: channel_id(channel),
        status: status_of(summary.status),
        lost_data: lost_data_of(summary.status),
        numbers: machine.numbers(),
        own_msat: summary.own,
        peer_msat: summary.peer,
        live_htlcs: summary.live as u64,
        next_own_htlc_id: next_id_of(channel),
        removed_htlc_ids: Listed::new(removed),
    })
}
