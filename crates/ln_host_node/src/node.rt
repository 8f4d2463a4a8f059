//! A routing node whose host brings keys, onions, disk and sockets.

use crate::seat::Seat;
use crate::spelling::{Settings, records_at, settings_of};
use ln_book_tables::HeldHtlc;
use ln_bytes::Bytes;
use ln_channel::{Channel, ChannelMachine};
use ln_hooks::ChannelEvent;
use ln_host::{HostKeys, HostRecord};
use ln_host_onions::HostOnions;
use ln_library::{summary_of, worth};
use ln_manager::{Batch, Manager, Saved};
use ln_refusals::Refusal;
use ln_wire::encode_summary;
use std::alloc::Global;
use std::collections::{BTreeMap, VecDeque};

/// An event of a channel for its host.
#[derive(Drop)]
pub(crate) struct Pending {
    pub(crate) channel: usize,
    pub(crate) number: u64,
    pub(crate) event: ChannelEvent,
}

/// The onion of the peer's HTLC of this id of a channel.
#[derive(Clone, Copy)]
pub(crate) struct Ask {
    pub(crate) channel: usize,
    pub(crate) id: u64,
}

/// The message of this number of a channel.
#[derive(Clone, Copy)]
pub(crate) struct Handed {
    pub(crate) channel: usize,
    pub(crate) number: u64,
}

/// A routing node without threads whose host brings keys, onions, disk and sockets. Channels are told by their numbers
/// 0, 1, .. in the order in which they were loaded, opened or accepted. What calls make is handed out item by item:
/// what is to be saved, messages with what is blank in them, onions to be opened, and events to be decided.
pub struct HostNode {
    pub(crate) manager: Manager<HostKeys, HostOnions>,
    pub(crate) seats: Vec<Seat>,
    // A batch that was closed and isn't written yet; one that is written and that the host hasn't seen; the channels
    // whose secrets are in it.
    pub(crate) closed: Option<Batch>,
    pub(crate) written: Option<Bytes>,
    pub(crate) told: Vec<usize>,
    // What was taken from the manager and the host hasn't seen: messages, onions, an event.
    pub(crate) handed: VecDeque<Handed>,
    pub(crate) asks: VecDeque<Ask>,
    pub(crate) event: Option<Pending>,
    // How many HTLCs have the onion of each name, and of how many names nothing was told.
    pub(crate) uses: BTreeMap<[u8; 32], u64>,
    pub(crate) unknown: usize,
    // Whether an onion that was asked for after the load isn't known yet.
    pub(crate) is_loading: bool,
}

// By hand: crates above don't prove again how its parts are dropped.
impl Drop for HostNode {
    fn drop(self) {
        let HostNode {
            manager,
            seats,
            closed,
            written,
            told,
            handed,
            asks,
            event,
            uses,
            unknown: _,
            is_loading: _,
        } = self;
        drop(manager);
        drop(seats);
        drop(closed);
        drop(written);
        drop(told);
        drop(handed);
        drop(asks);
        drop(event);
        drop(uses);
    }
}

// Keys of a channel that was opened before.
fn loaded_keys() -> HostKeys {
    HostKeys {
        first_point: [0; 33],
        is_right: false,
        secret: [0; 32],
    }
}

// What a channel is loaded from, and what else its host has saved of it.
fn put_record(
    alloc: Global,
    record: HostRecord,
    seats: &mut Vec<Seat>,
    saved: &mut Vec<Saved<HostKeys>>,
) -> Result<[u8; 32], Refusal> {
    let HostRecord {
        channel,
        signatures,
        secrets,
        record_bytes,
    } = record;
    drop(secrets);
    seats.push(Seat::new(alloc, [0; 33], signatures))?;
    saved.push(Saved {
        keys: loaded_keys(),
        bytes: record_bytes,
    })?;
    Ok(channel)
}

fn put_records(
    alloc: Global,
    records: Vec<HostRecord>,
    seats: &mut Vec<Seat>,
    saved: &mut Vec<Saved<HostKeys>>,
) -> Result<Vec<[u8; 32]>, Refusal> {
    let mut ids = Vec::new(alloc);
    for record in records {
        let id = put_record(alloc, record, seats, saved)?;
        ids.push(id)?;
    }
    Ok(ids)
}

impl HostNode {
    // Over a manager whose channels have these seats.
    fn over(alloc: Global, manager: Manager<HostKeys, HostOnions>, seats: Vec<Seat>) -> HostNode {
        HostNode {
            manager,
            seats,
            closed: None,
            written: None,
            told: Vec::new(alloc),
            handed: VecDeque::new(alloc),
            asks: VecDeque::new(alloc),
            event: None,
            uses: BTreeMap::new(alloc),
            unknown: 0,
            is_loading: false,
        }
    }

    /// The node of what its host saved last, of all channels at once: a list of what a batch had of each. No records
    /// are a new node. `settings` are what it asks for what it forwards, and the secret mark of its failures.
    ///
    /// The onions of the HTLCs that came in are asked for again, before there is a connection; events that aren't
    /// decided come again. Errors: 70 and 71 as of `Link::from_record`, also where the bytes are nothing that a host
    /// saved, or two records have one id; 60.
    pub fn load(alloc: Global, settings: &[u8], records: &[u8]) -> Result<HostNode, Refusal> {
        let Settings { policy, mark } = settings_of(settings)?;
        let records = records_at(alloc, records)?;
        let mut seats = Vec::new(alloc);
        let mut saved = Vec::new(alloc);
        let ids = put_records(alloc, records, &mut seats, &mut saved)?;
        let onions = HostOnions::new(alloc, mark);
        let manager = Manager::load(alloc, onions, policy, saved)?;
        let mut node = HostNode::over(alloc, manager, seats);
        match node.begin(alloc, ids.as_slice()) {
            Ok(()) => Ok(node),
            Err(refusal) => {
                drop(node);
                Err(refusal)
            }
        }
    }

    // Each channel is the one of its record, and the onions of its HTLCs are asked for.
    fn begin(&mut self, alloc: Global, ids: &[[u8; 32]]) -> Result<(), Refusal> {
        for channel in 0..ids.len() {
            if !self.is_of(channel, &ids[channel]) {
                return Err(Refusal::Damaged);
            }
            self.ask_for_all(alloc, channel)?;
        }
        self.is_loading = self.unknown > 0;
        Ok(())
    }

    // Whether a channel has this id.
    fn is_of(&self, channel: usize, id: &[u8; 32]) -> bool {
        match self.end(channel) {
            None => false,
            Some(end) => end.id() == *id,
        }
    }

    /// The link of a channel, to be looked at. Error: 40 where there is no such channel.
    pub(crate) fn machine(&self, channel: usize) -> Result<&ChannelMachine<HostKeys>, Refusal> {
        match self.manager.machine(channel) {
            None => Err(Refusal::NotReady),
            Some(machine) => Ok(machine),
        }
    }

    /// The end of a channel, once both sides have signed its opening. Takes no memory.
    pub(crate) fn end(&self, channel: usize) -> Option<&Channel> {
        match self.manager.machine(channel) {
            None => None,
            Some(machine) => machine.saved(),
        }
    }

    /// Where a channel stands: what `ln_library::look` writes of a link. Errors: 40 where there is no such channel, 60.
    pub fn look(&self, alloc: Global, channel: usize) -> Result<Vec<u8>, Refusal> {
        let summary = summary_of(alloc, self.machine(channel)?)?;
        encode_summary(alloc, &summary)
    }

    /// What a commitment of a channel is worth: `ln_library::worth`. Errors: 40 where there is no such channel, and
    /// those of that call.
    pub fn view(&self, alloc: Global, channel: usize, which: u8) -> Result<Vec<u8>, Refusal> {
        let machine = self.machine(channel)?;
        worth(alloc, machine.agreed(), which)
    }

    /// The HTLCs that are held. Error: 60 alone.
    pub(crate) fn held_htlcs(&self, alloc: Global) -> Result<Vec<HeldHtlc>, Refusal> {
        self.manager.held(alloc)
    }
}
