//! Where a link stands, as bytes.

ghost use Rattle.std.specs.Prelude.{◌≡◌, ◌++◌, true, IfErr, OnOk};
ghost use Rattle.ln_store.specs.Format.{Finds, number};
ghost use Rattle.ln_store.specs.Items.{no_number};
ghost use Rattle.ln_wire.specs.Summary as it;

use crate::events::{bit_at, bit_fits, put_bit};
use crate::wire::Wire;
use ln_channel::ConnectionState;
use ln_dance::Numbers;
use ln_log::ChannelId;
use ln_refusals::{LostData, Refusal};
use ln_store::Listed;
use ln_store::lists::{list_at, list_fits, optional_at, optional_fits, put_list, put_optional};
use ln_store::stored::{Stored, put_u8, put_u64, u8_at, u64_at, u64_fits};
use std::alloc::Global;

/// How far a channel is, for one of its ends.
#[derive(Clone, Copy, PartialEq, Eq)]
pub enum LinkStatus {
    /// None of those below.
    Open,
    /// This end has sent `channel_ready`, and taken the peer's.
    Ready,
    /// This end has sent `shutdown`.
    Shut,
    /// It is closed at this fee, in satoshi.
    Closed(u64),
    /// It failed by the refusal of this number.
    Failed(u64),
}

/// Where a link stands.
#[derive(Drop)]
pub struct LinkSummary {
    /// Whether it has a connection.
    pub connection: ConnectionState,
    /// Whether it has halted, and answers again once it is loaded from its record.
    pub halted: bool,
    /// The channel's id, once there is one: 32 bytes.
    pub channel: Option<ChannelId>,
    /// How far the channel is.
    pub status: LinkStatus,
    /// Whose data is lost, where the channel failed by 34 and its peer's `channel_reestablish` proved it.
    pub lost_data: LostData,
    /// The numbers of the own commitment, of the peer's that was signed last, and of its revocations.
    pub numbers: Numbers,
    /// The own balance in the own commitment, in millisatoshi.
    pub own_msat: u64,
    /// The peer's balance in that commitment, in millisatoshi.
    pub peer_msat: u64,
    /// How many HTLCs are live in that commitment.
    pub live_htlcs: u64,
    /// The id of the next own HTLC.
    pub next_own_htlc_id: u64,
    /// The ids of the peer's HTLCs whose removal by this end is kept.
    pub removed_htlc_ids: Listed<u64>,
}

#[tactic(auto, unfolding(crate::specs::Summary::connection_form))]
fn connection_at(bytes: &[u8]) -> Result<(ConnectionState, &[u8]), Refusal>
    ensures { Finds (λ x. (x.0, x.1.now)) result (it.connection_form.at bytes.now) }
{
    let (number, rest) = u8_at(bytes)?;
    match number {
        0 => Ok((ConnectionState::Down, rest)),
        1 => Ok((ConnectionState::AwaitingReestablish, rest)),
        2 => Ok((ConnectionState::Connected, rest)),
        _ => Err(Refusal::Damaged),
    }
}

#[tactic(auto, unfolding(crate::specs::Summary::connection_form))]
fn connection_fits(connection: ConnectionState) -> bool
    ensures { result ≡ it.connection_form.fits connection }
{
    match connection {
        ConnectionState::Down => true,
        ConnectionState::AwaitingReestablish => true,
        ConnectionState::Connected => true,
    }
}

#[tactic(auto, unfolding(crate::specs::Summary::connection_form))]
fn put_connection(out: &mut Vec<u8>, connection: ConnectionState) -> Result<(), Refusal>
    ensures appends_it { OnOk result (out.new.items ≡ out.old.items ++ it.connection_form.bytes connection) }
    ensures fails_for_memory_alone { IfErr result (λ e. e ≡ Refusal.Memory) }
{
    match connection {
        ConnectionState::Down => put_u8(out, 0),
        ConnectionState::AwaitingReestablish => put_u8(out, 1),
        ConnectionState::Connected => put_u8(out, 2),
    }
}

#[tactic(auto, unfolding(crate::specs::Summary::lost_data_form))]
fn lost_data_at(bytes: &[u8]) -> Result<(LostData, &[u8]), Refusal>
    ensures { Finds (λ x. (x.0, x.1.now)) result (it.lost_data_form.at bytes.now) }
{
    let (number, rest) = u8_at(bytes)?;
    match number {
        0 => Ok((LostData::Unproved, rest)),
        1 => Ok((LostData::Own, rest)),
        2 => Ok((LostData::Peer, rest)),
        _ => Err(Refusal::Damaged),
    }
}

#[tactic(auto, unfolding(crate::specs::Summary::lost_data_form))]
fn lost_data_fits(lost_data: LostData) -> bool
    ensures { result ≡ it.lost_data_form.fits lost_data }
{
    match lost_data {
        LostData::Unproved => true,
        LostData::Own => true,
        LostData::Peer => true,
    }
}

#[tactic(auto, unfolding(crate::specs::Summary::lost_data_form))]
fn put_lost_data(out: &mut Vec<u8>, lost_data: LostData) -> Result<(), Refusal>
    ensures appends_it { OnOk result (out.new.items ≡ out.old.items ++ it.lost_data_form.bytes lost_data) }
    ensures fails_for_memory_alone { IfErr result (λ e. e ≡ Refusal.Memory) }
{
    match lost_data {
        LostData::Unproved => put_u8(out, 0),
        LostData::Own => put_u8(out, 1),
        LostData::Peer => put_u8(out, 2),
    }
}

impl Wire for LinkStatus {
    ghost format = { it.status_form };

    #[tactic(auto, unfolding(crate::specs::Summary::status_form, ln_store::specs::Items::no_number))]
    fn read(_alloc: Global, bytes: &[u8]) -> Result<(LinkStatus, &[u8]), Refusal> {
        let [tag, rest @ ..] = bytes else {
            return Err(Refusal::Damaged);
        };
        let (value, rest) = u64_at(rest)?;
        match *tag {
            0 if value == 0 => Ok((LinkStatus::Open, rest)),
            1 if value == 0 => Ok((LinkStatus::Ready, rest)),
            2 if value == 0 => Ok((LinkStatus::Shut, rest)),
            3 => Ok((LinkStatus::Closed(value), rest)),
            4 => Ok((LinkStatus::Failed(value), rest)),
            _ => Err(Refusal::Damaged),
        }
    }

    #[tactic(auto, unfolding(crate::specs::Summary::status_form, ln_store::specs::Items::no_number))]
    fn fits(&self) -> bool {
        match self {
            LinkStatus::Open => true,
            LinkStatus::Ready => true,
            LinkStatus::Shut => true,
            LinkStatus::Closed(fee) => u64_fits(*fee),
            LinkStatus::Failed(number) => u64_fits(*number),
        }
    }

    #[tactic(auto, unfolding(crate::specs::Summary::status_form, ln_store::specs::Items::no_number))]
    fn write(&self, out: &mut Vec<u8>) -> Result<(), Refusal> {
        let (tag, value) = match self {
            LinkStatus::Open => (0, 0),
            LinkStatus::Ready => (1, 0),
            LinkStatus::Shut => (2, 0),
            LinkStatus::Closed(fee) => (3, *fee),
            LinkStatus::Failed(number) => (4, *number),
        };
        put_u8(out, tag)?;
        put_u64(out, value)
    }
}

impl Wire for LinkSummary {
    ghost format = { it.summary };

    #[tactic(auto, unfolding(crate::specs::Summary::summary))]
    fn read(alloc: Global, bytes: &[u8]) -> Result<(LinkSummary, &[u8]), Refusal> {
        let (connection, rest) = connection_at(bytes)?;
        let (halted, rest) = bit_at(rest)?;
        let (channel, rest) = optional_at(alloc, rest)?;
        let (status, rest) = LinkStatus::read(alloc, rest)?;
        let (lost_data, rest) = lost_data_at(rest)?;
        let (numbers, rest) = Numbers::read(alloc, rest)?;
        let (own_msat, rest) = u64_at(rest)?;
        let (peer_msat, rest) = u64_at(rest)?;
        let (live_htlcs, rest) = u64_at(rest)?;
        let (next_own_htlc_id, rest) = u64_at(rest)?;
        let (removed_htlc_ids, rest) = list_at(alloc, rest)?;
        let summary = LinkSummary {
            connection,
            halted,
            channel,
            status,
            lost_data,
            numbers,
            own_msat,
            peer_msat,
            live_htlcs,
            next_own_htlc_id,
            removed_htlc_ids,
        };
        Ok((summary, rest))
    }

    #[tactic(auto, unfolding(crate::specs::Summary::summary))]
    fn fits(&self) -> bool {
        connection_fits(self.connection)
            && bit_fits(self.halted)
            && optional_fits(&self.channel)
            && self.status.fits()
            && lost_data_fits(self.lost_data)
            && self.numbers.fits()
            && u64_fits(self.own_msat)
            && u64_fits(self.peer_msat)
            && u64_fits(self.live_htlcs)
            && u64_fits(self.next_own_htlc_id)
            && list_fits(self.removed_htlc_ids.as_slice())
    }

    #[tactic(auto, unfolding(crate::specs::Summary::summary))]
    fn write(&self, out: &mut Vec<u8>) -> Result<(), Refusal> {
        put_connection(out, self.connection)?;
        put_bit(out, self.halted)?;
        put_optional(out, &self.channel)?;
        self.status.write(out)?;
        put_lost_data(out, self.lost_data)?;
        self.numbers.write(out)?;
        put_u64(out, self.own_msat)?;
        put_u64(out, self.peer_msat)?;
        put_u64(out, self.live_htlcs)?;
        put_u64(out, self.next_own_htlc_id)?;
        put_list(out, self.removed_htlc_ids.as_slice())
    }
}
