//! Messages that are handed out: with what is blank in them, with a failure to wrap, or to be sent.

use crate::node::{Handed, HostNode};
use crate::seat::{Shown, Wrapped, put_in};
use crate::spelling::{item_of, put_all};
use ln_bytes::Bytes;
use ln_host::{Blank, Filling, HostRefusal, filling_at};
use ln_library::written;
use ln_log::Add;
use ln_manager::Posted;
use ln_msgs::{Message, Records, UpdateFailHtlc};
use ln_refusals::Refusal;
use ln_store::stored::{put, put_u8, put_u64};
use ln_wire::encode_blank_item;
use std::alloc::Global;

/// The most bytes of a failure that a message can carry.
const LONGEST_REASON: usize = 65_491;

// What is done with a message that is handed out.
#[derive(Clone, Copy, PartialEq, Eq)]
enum Way {
    // The host fills what is blank.
    Fill,
    // The host wraps its failure.
    Wrap,
    // The host sends it.
    Send,
}

// A failure that leaves: of which HTLC, and by which bytes.
#[derive(Drop)]
struct Failure {
    channel_id: [u8; 32],
    id: u64,
    reason: Bytes,
}

// The failure of a message.
fn failure_of(alloc: Global, message: &Message) -> Result<Option<Failure>, Refusal> {
    match message {
        Message::UpdateFailHtlc(m) => Ok(Some(Failure {
            channel_id: m.channel_id,
            id: m.id,
            reason: Bytes::from_slice(alloc, m.reason.as_slice())?,
        })),
        _ => Ok(None),
    }
}

fn is_failure(message: &Message) -> bool {
    match message {
        Message::UpdateFailHtlc(_) => true,
        _ => false,
    }
}

// What is done with a message, whose failure is wrapped or not.
fn way_of(posted: &Posted, is_wrapped: bool) -> Way {
    if posted.blank.is_some() {
        Way::Fill
    } else if is_failure(&posted.message) && !is_wrapped {
        Way::Wrap
    } else {
        Way::Send
    }
}

// The front of an item that is a message.
fn message_item(alloc: Global, handed: Handed) -> Result<Vec<u8>, Refusal> {
    let mut out = item_of(alloc, 2, handed.channel)?;
    put_u64(&mut out, handed.number)?;
    Ok(out)
}

// A message with what is blank in it.
fn blank_item(alloc: Global, handed: Handed, blank: &Blank) -> Result<Vec<u8>, Refusal> {
    let mut out = message_item(alloc, handed)?;
    let item = encode_blank_item(alloc, blank)?;
    put_all(&mut out, item.as_slice())?;
    Ok(out)
}

// A message that is to be sent.
fn send_item(alloc: Global, handed: Handed, message: &Message) -> Result<Vec<u8>, Refusal> {
    let mut out = message_item(alloc, handed)?;
    put_u8(&mut out, 3)?;
    let bytes = written(alloc, message)?;
    put_all(&mut out, bytes.as_slice())?;
    Ok(out)
}

// A failure that is to be sent as the host has wrapped it.
fn failing_item(
    alloc: Global,
    handed: Handed,
    failure: Failure,
    wrapped: &Wrapped,
) -> Result<Vec<u8>, Refusal> {
    let Failure {
        channel_id,
        id,
        reason,
    } = failure;
    drop(reason);
    let reason = Bytes::from_slice(alloc, wrapped.reason.as_slice())?;
    let message = Message::UpdateFailHtlc(UpdateFailHtlc {
        channel_id,
        id,
        reason,
        records: Records::empty(alloc),
    });
    send_item(alloc, handed, &message)
}

// A payment hash and an onion, where there is an HTLC.
fn put_incoming(out: &mut Vec<u8>, add: Option<&Add>) -> Result<(), Refusal> {
    match add {
        None => put_u8(out, 0),
        Some(add) => {
            put_u8(out, 1)?;
            put(out, &add.hash)?;
            put(out, &add.onion)
        }
    }
}

/// An onion that is to be opened: its payment hash, and its 1,366 bytes. No bytes where the HTLC is gone.
pub(crate) fn onion_item(alloc: Global, add: Option<&Add>) -> Result<Vec<u8>, Refusal> {
    let mut out = Vec::new(alloc);
    put_u8(&mut out, 4)?;
    put_incoming(&mut out, add)?;
    Ok(out)
}

// What the host is to fill in a message by these bytes. Errors: 81 where they are none of it, 60.
fn filling_of(alloc: Global, blank: &Blank, bytes: &[u8]) -> Result<Filling, HostRefusal> {
    match filling_at(alloc, blank, bytes) {
        Ok(filling) => Ok(filling),
        Err(Refusal::Memory) => Err(HostRefusal::Refused(Refusal::Memory)),
        Err(_) => Err(HostRefusal::Answer),
    }
}

impl HostNode {
    ghost use Rattle.std.specs.Prelude.{◌≡◌, true, OnOk, OnErr};
    ghost use Rattle.ln_batches.specs.Queues.{first_at, may_leave, is_with_host, sent};
    ghost use Rattle.ln_host_node.specs.declared.seat.Shown.TheVariants as shown;
    ghost use Rattle.ln_host_node.specs.Shown.{shown_at};

    // The failure of this message as its host has wrapped it.
    fn wrapped(&self, handed: Handed) -> Option<&Wrapped> {
        match self.seats.get(handed.channel) {
            None => None,
            Some(seat) => match &seat.wrapped {
                None => None,
                Some(wrapped) => {
                    if wrapped.message == handed.number {
                        Some(wrapped)
                    } else {
                        None
                    }
                }
            },
        }
    }

    fn way(&self, handed: Handed) -> Way {
        match self.manager.first_message(handed.channel) {
            None => Way::Send,
            Some(waiting) => way_of(&waiting.message, self.wrapped(handed).is_some()),
        }
    }

    // The failure of the first message of a channel. Error: 60 alone.
    fn failure(&self, alloc: Global, channel: usize) -> Result<Option<Failure>, Refusal> {
        match self.manager.first_message(channel) {
            None => Ok(None),
            Some(waiting) => failure_of(alloc, &waiting.message.message),
        }
    }

    // A failure for its host to wrap: the HTLC that it fails, and whether the node has made it, or it came back.
    fn wrap_item(
        &mut self,
        alloc: Global,
        handed: Handed,
        failure: Failure,
    ) -> Result<Vec<u8>, Refusal> {
        let mut out = item_of(alloc, 5, handed.channel)?;
        put_u64(&mut out, handed.number)?;
        put_u64(&mut out, failure.id)?;
        put_incoming(&mut out, self.incoming(handed.channel, failure.id))?;
        match self
            .manager
            .onion_mut()
            .own_failure(failure.reason.as_slice())
        {
            Some(own) => {
                put_u8(&mut out, 0)?;
                put_all(&mut out, own)?;
            }
            None => {
                put_u8(&mut out, 1)?;
                put_all(&mut out, failure.reason.as_slice())?;
            }
        }
        Ok(out)
    }

    fn failure_item(
        &mut self,
        alloc: Global,
        handed: Handed,
        failure: Failure,
    ) -> Result<Vec<u8>, Refusal> {
        match self.wrapped(handed) {
            Some(wrapped) => failing_item(alloc, handed, failure, wrapped),
            None => self.wrap_item(alloc, handed, failure),
        }
    }

    fn plain_item(&self, alloc: Global, handed: Handed) -> Result<Vec<u8>, Refusal> {
        match self.manager.first_message(handed.channel) {
            None => Ok(Vec::new(alloc)),
            Some(waiting) => match &waiting.message.blank {
                Some(blank) => blank_item(alloc, handed, blank),
                None => send_item(alloc, handed, &waiting.message.message),
            },
        }
    }

    /// The item of a message that is handed out. Errors: 7, 60.
    pub(crate) fn message_bytes(
        &mut self,
        alloc: Global,
        handed: Handed,
    ) -> Result<Vec<u8>, Refusal> {
        match self.failure(alloc, handed.channel)? {
            Some(failure) => self.failure_item(alloc, handed, failure),
            None => self.plain_item(alloc, handed),
        }
    }

    /// The host has the item of a message. Takes no memory.
    pub(crate) fn show_message(&mut self, handed: Handed) {
        let shown = match self.way(handed) {
            Way::Send => Shown::Send(handed.number),
            _ => Shown::Blank(handed.number),
        };
        drop(self.handed.pop_front());
        if let Some(seat) = self.seats.get_mut(handed.channel) {
            seat.shown = shown;
        }
    }

    // The message of a channel that the host has.
    fn shown_of(&self, channel: usize) -> Shown
        ensures { result ≡ shown_at channel self.now.seats.items }
    {
        match self.seats.get(channel) {
            None => Shown::Nothing,
            Some(seat) => seat.shown,
        }
    }

    fn set_shown(&mut self, channel: usize, shown: Shown)
        ensures manager_stays { self.new.manager ≡ self.old.manager }
    {
        if let Some(seat) = self.seats.get_mut(channel) {
            seat.shown = shown;
        }
    }

    // What fills the blank of the first message of a channel; none where it has none. Errors: 81, 60.
    fn filling(
        &self,
        alloc: Global,
        channel: usize,
        bytes: &[u8],
    ) -> Result<Option<Filling>, HostRefusal> {
        match self.manager.first_message(channel) {
            None => Ok(None),
            Some(waiting) => match &waiting.message.blank {
                None => Ok(None),
                Some(blank) => Ok(Some(filling_of(alloc, blank, bytes)?)),
            },
        }
    }

    // A failure as its host has wrapped it leaves next. Errors: 81 where it is longer than a message can carry, 60.
    fn wrap(&mut self, alloc: Global, handed: Handed, bytes: &[u8]) -> Result<(), HostRefusal> {
        if bytes.len() > LONGEST_REASON {
            return Err(HostRefusal::Answer);
        }
        match Bytes::from_slice(alloc, bytes) {
            Ok(reason) => Ok(self.keep_wrapped(handed, reason)?),
            Err(_) => Err(HostRefusal::Refused(Refusal::Memory)),
        }
    }

    fn keep_wrapped(&mut self, handed: Handed, reason: Bytes) -> Result<(), Refusal> {
        if self.handed.reserve(1).is_err() {
            drop(reason);
            return Err(Refusal::Memory);
        }
        match self.seats.get_mut(handed.channel) {
            None => drop(reason),
            Some(seat) => {
                let message = handed.number;
                put_in(&mut seat.wrapped, Some(Wrapped { message, reason }));
                drop(self.handed.push_back(handed));
            }
        }
        Ok(())
    }

    /// What the host gives for a message that it has to fill or to wrap, by its channel and its number: it comes again
    /// to be sent.
    ///
    /// Errors: 40 where the host has no such message to fill; 81 where the bytes are none of what is blank; 60. Nothing
    /// has changed then.
    pub fn fill(
        &mut self,
        alloc: Global,
        channel: usize,
        message: u64,
        bytes: &[u8],
    ) -> Result<(), HostRefusal>
        ensures only_what_was_handed_out_to_fill { OnOk result
            (shown_at channel self.old.seats.items ≡ shown.Blank message) }
    {
        let number = message;
        let handed = Handed { channel, number };
        if self.shown_of(channel) != Shown::Blank(message) || !self.is_there(handed) {
            return Err(HostRefusal::Refused(Refusal::NotReady));
        }
        match self.filling(alloc, channel, bytes)? {
            Some(filling) => self.manager.fill(channel, filling)?,
            None => self.wrap(alloc, handed, bytes)?,
        }
        self.set_shown(channel, Shown::Nothing);
        Ok(())
    }

    /// The message of this number of a channel, which the host has to send, has left. Errors: 40 where it has no such
    /// message; 60. Nothing has changed then.
    pub fn sent(&mut self, channel: usize, message: u64) -> Result<(), Refusal>
        ensures only_what_was_handed_out_to_send { OnOk result
            (shown_at channel self.old.seats.items ≡ shown.Send message) }
        ensures has_left { OnOk result (self.new.manager.lines ≡ sent channel self.old.manager.lines) }
        ensures only_what_may { OnOk result ((is_with_host channel message self.old.manager.lines ≡ true)
            × (may_leave self.old.manager.lines (first_at channel self.old.manager.lines) ≡ true)) }
        ensures lines_stay_if_refused { OnErr result (self.new.manager.lines ≡ self.old.manager.lines) }
    {
        if self.shown_of(channel) != Shown::Send(message) {
            return Err(Refusal::NotReady);
        }
        self.manager.sent(channel, message)?;
        self.set_shown(channel, Shown::Nothing);
        Ok(())
    }
}
