//! What waits in one channel.

use std::collections::VecDeque;
use std::marker::Model;

/// A message that waits to leave.
#[derive(Drop)]
pub struct Waiting<M: Drop> {
    /// Its number among all messages of all channels, from 0.
    pub number: u64,
    /// How many records had changed as it came: they have to be saved before it leaves.
    pub records: u64,
    /// The message.
    pub message: M,
}

/// What waits in one channel, and of how many events its record tells.
#[derive(Drop)]
pub(crate) struct Row<M: Drop> {
    pub(crate) messages: VecDeque<Waiting<M>>,
    // Whether the first message is with the host.
    pub(crate) is_out: bool,
    // Whether its record stands in the open batch.
    pub(crate) is_changed: bool,
    // How many events are told by its newest record, by that of the closed batch, and by the saved one.
    pub(crate) events: u64,
    pub(crate) closed_events: u64,
    pub(crate) saved_events: u64,
    // Whether the channel is listed as one that has a message.
    pub(crate) is_listed: bool,
}

impl<M: Drop> Model for Row<M> {
    ghost use Rattle.ln_batches.specs.Queues as queues;

    ghost Value = { queues.Row M };

    ghost view = { λ r. record {
      messages = r.messages.items;
      is_out = r.is_out;
      is_changed = r.is_changed;
      events = r.events;
      closed_events = r.closed_events;
      saved_events = r.saved_events;
    } };
}
