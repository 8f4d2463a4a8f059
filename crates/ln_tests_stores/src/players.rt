//! Ends of a channel with the messages in flight to them, a payment from one to the other, and a close.

use crate::is_same;
use ln_bytes::Bytes;
use ln_channel::{ChannelStatus, Command, Output, Summary};
use ln_keys::ToyKeys;
use ln_link::Link;
use ln_msgs::Message;
use ln_refusals::Refusal;
use ln_store::RecordStore;
use ln_tests_ends::{Side, boxed, code_of, messages_of, offer, stored};
use std::alloc::Global;
use std::collections::VecDeque;

/// An end of a channel, and the messages in flight to it.
#[derive(Drop)]
pub struct Player<S: RecordStore + Drop> {
    name: &'static str,
    keys: ToyKeys,
    pub side: Side<S>,
    inbox: VecDeque<Message>,
    /// What it does, or did last.
    pub act: (&'static str, &'static str),
    /// Its record before that.
    record: Vec<u8>,
}

impl<S: RecordStore + Drop> Player<S> {
    pub fn new(alloc: Global, name: &'static str, keys: ToyKeys, side: Side<S>) -> Player<S> {
        Player {
            name,
            keys,
            side,
            inbox: VecDeque::new(alloc),
            act: ("", ""),
            record: Vec::new(alloc),
        }
    }

    pub fn summary(&self, alloc: Global) -> Result<Summary, Refusal> {
        self.side.link.channel_machine().summary(alloc)
    }

    /// What it does next, and its record before that.
    fn begins(
        &mut self,
        alloc: Global,
        verb: &'static str,
        word: &'static str,
    ) -> Result<(), Refusal> {
        self.act = (verb, word);
        self.record = stored(alloc, &mut self.side)?;
        Ok(())
    }

    /// It does what it is told, and gives what it hands out.
    fn obey(
        &mut self,
        alloc: Global,
        word: &'static str,
        command: Command,
    ) -> Result<Vec<Output>, Refusal> {
        match self.begins(alloc, "sends", word) {
            Ok(()) => self.side.link.command(alloc, &mut self.side.store, command),
            Err(refusal) => {
                drop(command);
                Err(refusal)
            }
        }
    }

    /// It takes the oldest message in flight to it, where there is one, and gives what it hands out.
    fn take(&mut self, alloc: Global) -> Result<Vec<Output>, Refusal> {
        match self.inbox.pop_front() {
            Some(message) => self.heed(alloc, message),
            None => Ok(Vec::new(alloc)),
        }
    }

    fn heed(&mut self, alloc: Global, message: Message) -> Result<Vec<Output>, Refusal> {
        match self.begins(alloc, "takes", word_of(&message)) {
            Ok(()) => self.side.link.handle(alloc, &mut self.side.store, message),
            Err(refusal) => {
                drop(message);
                Err(refusal)
            }
        }
    }

    /// How it is after a save that failed: what a command is refused by, how many saves have failed, and whether its
    /// record is as it was before.
    pub fn stopped(&mut self, alloc: Global) -> Result<(u32, u64, bool), Refusal> {
        let sign = self
            .side
            .link
            .command(alloc, &mut self.side.store, Command::Sign);
        let bytes = stored(alloc, &mut self.side)?;
        Ok((
            code_of(sign.err()),
            self.side.store.failures(),
            is_same(&bytes, &self.record),
        ))
    }

    /// It comes back from its record.
    fn restart(&mut self, alloc: Global) -> Result<(), Refusal> {
        let bytes = stored(alloc, &mut self.side)?;
        let link = Link::from_record(alloc, self.keys, bytes.as_slice())?;
        self.side.link = boxed(alloc, link)?;
        self.inbox.clear();
        Ok(())
    }
}

/// Both stores, or why there aren't two. What is generic pays nothing for the depth of what it drops.
pub fn both<S: Drop>(
    store: Result<S, Refusal>,
    other: Result<S, Refusal>,
) -> Result<(S, S), Refusal> {
    let store = store?;
    let other = other?;
    Ok((store, other))
}

fn word_of(message: &Message) -> &'static str {
    match message {
        Message::ChannelReady(_) => "channel_ready",
        Message::UpdateAddHtlc(_) => "add",
        Message::UpdateFulfillHtlc(_) => "fulfil",
        Message::CommitmentSigned(_) => "sign",
        Message::RevokeAndAck(_) => "revoke",
        Message::Shutdown(_) => "shutdown",
        Message::ClosingSigned(_) => "closing",
        Message::ChannelReestablish(_) => "reestablish",
        _ => "another message",
    }
}

/// What an end hands out is told, and is in flight to the other.
fn pass<S: RecordStore + Drop>(
    alloc: Global,
    outputs: Vec<Output>,
    x: &Player<S>,
    y: &mut Player<S>,
    story: &mut String,
) -> Result<(), Refusal> {
    let messages = messages_of(alloc, outputs)?;
    for message in &messages {
        let name = x.name;
        let word = word_of(message);
        write!(story, ", {name} {word}")?;
    }
    queue(messages, &mut y.inbox)
}

/// Puts items after others.
fn queue<T: Drop>(items: Vec<T>, others: &mut VecDeque<T>) -> Result<(), Refusal> {
    for item in items {
        others.push_back(item)?;
    }
    Ok(())
}

pub fn commands<S: RecordStore + Drop>(
    alloc: Global,
    x: &mut Player<S>,
    y: &mut Player<S>,
    word: &'static str,
    command: Command,
    story: &mut String,
) -> Result<(), Refusal> {
    let outputs = x.obey(alloc, word, command)?;
    pass(alloc, outputs, x, y, story)
}

fn takes<S: RecordStore + Drop>(
    alloc: Global,
    x: &mut Player<S>,
    y: &mut Player<S>,
    story: &mut String,
) -> Result<(), Refusal> {
    let outputs = x.take(alloc)?;
    pass(alloc, outputs, x, y, story)
}

/// Both take what is in flight, and what that brings.
fn deliver<S: RecordStore + Drop>(
    alloc: Global,
    x: &mut Player<S>,
    y: &mut Player<S>,
    story: &mut String,
) -> Result<(), Refusal> {
    for _ in 0..10u8 {
        takes(alloc, x, y, story)?;
        takes(alloc, y, x, story)?;
    }
    Ok(())
}

/// An end signs, where there is something to sign, and both take what that brings.
pub fn signs<S: RecordStore + Drop>(
    alloc: Global,
    x: &mut Player<S>,
    y: &mut Player<S>,
    story: &mut String,
) -> Result<(), Refusal> {
    match commands(alloc, x, y, "sign", Command::Sign, story) {
        Ok(()) => deliver(alloc, x, y, story),
        Err(Refusal::NothingToSign) => Ok(()),
        Err(refusal) => Err(refusal),
    }
}

/// What of a payment from a to b isn't done yet.
pub fn pays<S: RecordStore + Drop>(
    alloc: Global,
    a: &mut Player<S>,
    b: &mut Player<S>,
    story: &mut String,
) -> Result<(), Refusal> {
    if a.summary(alloc)?.signed == 0 {
        commands(alloc, a, b, "add", offer(), story)?;
    }
    signs(alloc, a, b, story)?;
    signs(alloc, b, a, story)?;
    if b.summary(alloc)?.signed == 0 {
        let preimage = [0; 32];
        commands(
            alloc,
            b,
            a,
            "fulfil",
            Command::Fulfil { id: 0, preimage },
            story,
        )?;
    }
    signs(alloc, b, a, story)?;
    signs(alloc, a, b, story)
}

/// What of a close that a begins isn't done yet.
pub fn closes<S: RecordStore + Drop>(
    alloc: Global,
    a: &mut Player<S>,
    b: &mut Player<S>,
    story: &mut String,
) -> Result<(), Refusal> {
    match a.summary(alloc)?.status {
        ChannelStatus::Ready => {
            let script = Bytes::empty(alloc);
            commands(alloc, a, b, "shutdown", Command::Shutdown(script), story)?;
        }
        _ => {}
    }
    deliver(alloc, a, b, story)
}

/// An end comes back from its record, the other has lost its connection, and there is a new one.
pub fn meet<S: RecordStore + Drop>(
    alloc: Global,
    x: &mut Player<S>,
    y: &mut Player<S>,
    story: &mut String,
) -> Result<(), Refusal> {
    x.restart(alloc)?;
    y.side.link.drop_connection();
    y.inbox.clear();
    let from_x = x.side.link.connect(alloc)?;
    let from_y = y.side.link.connect(alloc)?;
    pass(alloc, from_x, x, y, story)?;
    pass(alloc, from_y, y, x, story)?;
    deliver(alloc, x, y, story)
}

/// Whether each update of the payment is committed on both sides, once.
pub fn is_paid<S: RecordStore + Drop>(
    alloc: Global,
    a: &Player<S>,
    b: &Player<S>,
) -> Result<bool, Refusal> {
    let mut paid = true;
    for (player, own, peer) in [(a, 999_995_000, 5000), (b, 5000, 999_995_000)] {
        let at = player.summary(alloc)?;
        paid = paid && (at.signed, at.own_held, at.peer_held) == (1, 1, 1);
        paid = paid && (at.own, at.peer, at.live) == (own, peer, 0);
    }
    Ok(paid)
}

/// Whether both sides have closed at this fee.
pub fn are_closed<S: RecordStore + Drop>(
    alloc: Global,
    a: &Player<S>,
    b: &Player<S>,
    fee: u64,
) -> Result<bool, Refusal> {
    let of_a = a.summary(alloc)?;
    let of_b = b.summary(alloc)?;
    Ok(of_a.status == ChannelStatus::Closed(fee) && of_b.status == ChannelStatus::Closed(fee))
}
