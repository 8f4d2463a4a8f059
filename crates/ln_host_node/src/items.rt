//! What a node hands out, item by item.

use crate::node::{Ask, Handed, HostNode, Pending};
use crate::seat::{Seat, put_in};
use crate::sending::onion_item;
use crate::spelling::{item_of, put_all, put_saved};
use ln_batches::Waiting;
use ln_bytes::{Bytes, Signatures};
use ln_hooks::ChannelEvent;
use ln_host::{HeldSignatures, HostRecord};
use ln_manager::{Batch, Posted, SavedRecord};
use ln_refusals::Refusal;
use ln_store::Listed;
use ln_store::stored::{put_u8, put_u64};
use ln_wire::encode_event_item;
use std::alloc::Global;

// What stands first.
#[derive(Clone, Copy)]
enum Head {
    Nothing,
    Batch,
    Message(Handed),
    Onion(Ask),
    Event,
}

fn copied_held(
    alloc: Global,
    held: &Option<HeldSignatures>,
) -> Result<Option<HeldSignatures>, Refusal> {
    match held {
        None => Ok(None),
        Some(held) => {
            let htlcs = Vec::from_slice(alloc, held.htlc_signatures.as_slice())?;
            Ok(Some(HeldSignatures {
                number: held.number,
                signature: held.signature,
                htlc_signatures: Signatures::new(htlcs),
            }))
        }
    }
}

// What the host saves of a channel, whole.
fn host_record(
    alloc: Global,
    record: &SavedRecord,
    seat: Option<&Seat>,
) -> Result<HostRecord, Refusal> {
    let record_bytes = Bytes::from_slice(alloc, record.bytes.as_slice())?;
    let (signatures, secrets) = match seat {
        None => (None, Vec::new(alloc)),
        Some(seat) => (
            copied_held(alloc, &seat.signatures)?,
            Vec::from_slice(alloc, seat.secrets.as_slice())?,
        ),
    };
    Ok(HostRecord {
        channel: record.id,
        signatures,
        secrets: Listed::new(secrets),
        record_bytes,
    })
}

fn batch_item(alloc: Global, batch: &Batch, seats: &[Seat]) -> Result<Bytes, Refusal> {
    let mut out = Vec::new(alloc);
    put_u8(&mut out, 1)?;
    put_u64(&mut out, batch.number)?;
    put_u64(&mut out, batch.records.len() as u64)?;
    for saved in &batch.records {
        let record = host_record(alloc, saved, seats.get(saved.channel))?;
        put_saved(alloc, &mut out, saved.channel, &record)?;
    }
    Ok(Bytes::new(out))
}

fn channels_of(alloc: Global, batch: &Batch) -> Result<Vec<usize>, Refusal> {
    let mut channels = Vec::new(alloc);
    for saved in &batch.records {
        channels.push(saved.channel)?;
    }
    Ok(channels)
}

// The secrets that a channel's record has in a batch that was written.
fn note_told(seats: &mut [Seat], channels: &[usize]) {
    for channel in channels {
        if let Some(seat) = seats.get_mut(*channel) {
            seat.told_secrets = seat.secrets.len();
        }
    }
}

// They are saved.
fn forget_told(seats: &mut [Seat], channels: &[usize]) {
    for channel in channels {
        if let Some(seat) = seats.get_mut(*channel) {
            seat.forget_told();
        }
    }
}

// The id of the peer's HTLC that an event offers.
fn offered_by(event: &ChannelEvent) -> Option<u64> {
    match event {
        ChannelEvent::Added { own, id, .. } => { if *own { None } else { Some(*id) } }
        _ => None,
    }
}

// The id of the peer's HTLC that is over by an event.
fn over_by(event: &ChannelEvent) -> Option<u64> {
    match event {
        ChannelEvent::Settled { own, id, .. } => { if *own { None } else { Some(*id) } }
        _ => None,
    }
}

// Whether a message is the one of this number.
fn has_number(waiting: Option<&Waiting<Posted>>, number: u64) -> bool {
    match waiting {
        None => false,
        Some(waiting) => waiting.number == number,
    }
}

impl HostNode {
    ghost use Rattle.std.specs.Prelude.{◌≡◌};

    // ---- what stands first

    // A batch that was closed is written, by what its channels have now.
    pub(crate) fn write_batch(&mut self, alloc: Global) -> Result<(), Refusal>
        ensures manager_stays { self.new.manager ≡ self.old.manager }
    {
        let (item, channels) = match &self.closed {
            None => return Ok(()),
            Some(batch) => {
                let item = batch_item(alloc, batch, self.seats.as_slice())?;
                let channels = channels_of(alloc, batch)?;
                (item, channels)
            }
        };
        note_told(&mut self.seats, channels.as_slice());
        put_in(&mut self.told, channels);
        put_in(&mut self.written, Some(item));
        put_in(&mut self.closed, None);
        Ok(())
    }

    // The next batch, where there is one. Errors: 60, 46.
    fn fetch_batch(&mut self, alloc: Global) -> Result<(), Refusal> {
        if self.closed.is_none() && self.written.is_none() {
            let batch = self.manager.close_batch(alloc)?;
            put_in(&mut self.closed, batch);
        }
        self.write_batch(alloc)
    }

    // The message that is handed out first is still there.
    pub(crate) fn is_there(&self, handed: Handed) -> bool {
        has_number(self.manager.first_message(handed.channel), handed.number)
    }

    // Messages that were lost with their connection leave.
    fn drop_lost(&mut self) {
        for _ in 0..self.handed.len() {
            let Some(handed) = self.handed.front().copied() else {
                return;
            };
            if self.is_there(handed) {
                return;
            }
            drop(self.handed.pop_front());
        }
    }

    // The number of the first message of a channel.
    fn first_number(&self, channel: usize) -> Option<u64> {
        match self.manager.first_message(channel) {
            None => None,
            Some(waiting) => Some(waiting.number),
        }
    }

    // The next message, where there is one. Error: 60 alone.
    fn fetch_message(&mut self) -> Result<(), Refusal> {
        self.drop_lost();
        if !self.handed.is_empty() {
            return Ok(());
        }
        self.handed.reserve(1)?;
        if let Some(channel) = self.manager.next_message()? {
            if let Some(number) = self.first_number(channel) {
                drop(self.handed.push_back(Handed { channel, number }));
            }
        }
        Ok(())
    }

    // The next event, where there is one. Error: 60 alone.
    fn fetch_event(&mut self, alloc: Global) -> Result<(), Refusal> {
        if self.event.is_none() {
            if let Some((channel, number, event)) = self.manager.next_event(alloc)? {
                let pending = Pending {
                    channel,
                    number,
                    event,
                };
                put_in(&mut self.event, Some(pending));
            }
        }
        self.prepare_event()
    }

    // The onion of an HTLC that an event offers is asked for first. Error: 60 alone.
    fn prepare_event(&mut self) -> Result<(), Refusal> {
        let (channel, offered, over) = match &self.event {
            None => return Ok(()),
            Some(pending) => (
                pending.channel,
                offered_by(&pending.event),
                over_by(&pending.event),
            ),
        };
        let asked = match offered {
            None => None,
            Some(id) => {
                self.ask_for(channel, id)?;
                self.asked_name(channel, id)
            }
        };
        if let Some(seat) = self.seats.get_mut(channel) {
            seat.asked = asked;
            seat.over = over;
        }
        Ok(())
    }

    fn fetch(&mut self, alloc: Global) -> Result<(), Refusal> {
        self.fetch_batch(alloc)?;
        if self.written.is_some() {
            return Ok(());
        }
        self.fetch_message()?;
        if self.handed.is_empty() {
            return self.fetch_event(alloc);
        }
        Ok(())
    }

    fn head(&self) -> Head {
        if self.written.is_some() {
            return Head::Batch;
        }
        if let Some(handed) = self.handed.front() {
            return Head::Message(*handed);
        }
        if let Some(ask) = self.asks.front() {
            return Head::Onion(*ask);
        }
        if self.event.is_some() {
            Head::Event
        } else {
            Head::Nothing
        }
    }

    fn batch_bytes(&self, alloc: Global) -> Result<Vec<u8>, Refusal> {
        match &self.written {
            None => Ok(Vec::new(alloc)),
            Some(item) => Ok(Vec::from_slice(alloc, item.as_slice())?),
        }
    }

    fn event_bytes(&self, alloc: Global) -> Result<Vec<u8>, Refusal> {
        match &self.event {
            None => Ok(Vec::new(alloc)),
            Some(pending) => {
                let item = encode_event_item(alloc, pending.number, &pending.event)?;
                let mut out = item_of(alloc, 3, pending.channel)?;
                put_all(&mut out, item.as_slice())?;
                Ok(out)
            }
        }
    }

    /// What stands first; no bytes where nothing does. It is shown once the host has these bytes: `shown`. Errors: 7
    /// where a message has more than 65,535 bytes, 46, 60.
    pub fn next(&mut self, alloc: Global) -> Result<Vec<u8>, Refusal> {
        self.fetch(alloc)?;
        match self.head() {
            Head::Nothing => Ok(Vec::new(alloc)),
            Head::Batch => self.batch_bytes(alloc),
            Head::Message(handed) => self.message_bytes(alloc, handed),
            Head::Onion(ask) => onion_item(alloc, self.incoming(ask.channel, ask.id)),
            Head::Event => self.event_bytes(alloc),
        }
    }

    /// The host has what `next` gave last. Takes no memory.
    pub fn shown(&mut self) {
        match self.head() {
            Head::Nothing => {}
            Head::Batch => put_in(&mut self.written, None),
            Head::Message(handed) => self.show_message(handed),
            Head::Onion(_) => drop(self.asks.pop_front()),
            Head::Event => put_in(&mut self.event, None),
        }
    }
}

impl HostNode {
    ghost use Rattle.std.specs.Prelude.{◌≡◌, true, None, OnOk, OnErr};
    ghost use Rattle.ln_batches.specs.Queues.{saved, is_closed};

    /// The batch of this number is saved, and synced: what waited for it may leave. Errors: 40 where it isn't the batch
    /// that the host has seen last, or was saved before; 60; nothing has changed then.
    pub fn saved(&mut self, batch: u64) -> Result<(), Refusal>
        ensures only_what_the_host_has_seen { OnOk result ((self.old.closed ≡ None) × (self.old.written ≡ None)) }
        ensures saved { OnOk result (self.new.manager.lines ≡ saved self.old.manager.lines) }
        ensures only_the_closed_one { OnOk result (is_closed batch self.old.manager.lines ≡ true) }
        ensures lines_stay_if_refused { OnErr result (self.new.manager.lines ≡ self.old.manager.lines) }
    {
        if self.closed.is_some() || self.written.is_some() {
            return Err(Refusal::NotReady);
        }
        self.manager.saved(batch)?;
        forget_told(&mut self.seats, self.told.as_slice());
        self.told.clear();
        Ok(())
    }
}
