//! What a link answers, as text.

use crate::end::{CHANNEL, End, written};
use ln_channel::{ChannelStatus, ConnectionState, Output, Summary};
use ln_hooks::{ChannelEvent, How};
use ln_keys::sha256_32;
use ln_msgs::Message;
use ln_refusals::Refusal;
use ln_store::{Progress, Updates, decode_record};
use std::alloc::{AllocError, Global};
use std::fmt::Write;

fn owner(own: bool) -> &'static str {
    if own { "own" } else { "peer" }
}

fn ending(how: &How) -> &'static str {
    match how {
        How::Fulfilled(_) => "fulfilled",
        How::Failed(_) => "failed",
        How::Malformed(..) => "malformed",
    }
}

/// An event with its number.
pub fn put_event(text: &mut String, number: u64, event: &ChannelEvent) -> Result<(), AllocError> {
    match event {
        ChannelEvent::Added { own, id, .. } => {
            let (owner, id) = (owner(*own), *id);
            write!(text, " event {number} added {owner} {id}")
        }
        ChannelEvent::Settled { own, id, how } => {
            let (owner, id, ending) = (owner(*own), *id, ending(how));
            write!(text, " event {number} settled {owner} {id} {ending}")
        }
        ChannelEvent::Closed(fee) => {
            let fee = *fee;
            write!(text, " event {number} closed {fee}")
        }
    }
}

/// A message is sent to an end.
fn put_sent(
    alloc: Global,
    text: &mut String,
    message: &Message,
    y: &mut End,
) -> Result<(), AllocError> {
    match written(alloc, message)? {
        None => text.push_str(" sends what can't be written"),
        Some(bytes) => {
            let digits = hex::encode(alloc, bytes.as_slice())?;
            text.push_str(" sends ")?;
            text.push_str(digits.as_str())?;
            y.reach(bytes)
        }
    }
}

fn put_output(
    alloc: Global,
    text: &mut String,
    output: &Output,
    y: &mut End,
) -> Result<(), AllocError> {
    match output {
        Output::Send(message) => put_sent(alloc, text, message, y),
        Output::Signed(own) => {
            let own = *own;
            write!(text, " signed {own}")
        }
        Output::Committed { own, peer } => {
            let (own, peer) = (*own, *peer);
            write!(text, " committed {own} {peer}")
        }
        Output::Event(number, event) => put_event(text, *number, event),
        Output::Closed(fee) => {
            let fee = *fee;
            write!(text, " closed {fee}")
        }
    }
}

/// How the peer is told of a refusal, if at all.
fn put_reply(
    alloc: Global,
    text: &mut String,
    refusal: Refusal,
    y: &mut End,
) -> Result<(), AllocError> {
    let reply = Message::reply_to(alloc, refusal, &CHANNEL);
    let put = match &reply {
        Ok(Some(message)) => put_sent(alloc, text, message, y),
        Ok(None) => Ok(()),
        Err(_) => Err(AllocError),
    };
    drop(reply);
    put
}

/// A refusal, and where it is one of a message, how the peer is told of it.
pub fn refused(
    alloc: Global,
    refusal: Refusal,
    y: &mut End,
    replies: bool,
) -> Result<String, AllocError> {
    let mut text = String::new(alloc);
    write!(&mut text, "{refusal}")?;
    if replies {
        put_reply(alloc, &mut text, refusal, y)?;
    }
    Ok(text)
}

fn handed(alloc: Global, outputs: &[Output], y: &mut End) -> Result<String, AllocError> {
    let mut text = String::from_str(alloc, "ok")?;
    for output in outputs {
        put_output(alloc, &mut text, output, y)?;
    }
    Ok(text)
}

/// What a link answers. What it sends is in flight to the other end.
pub fn shown(
    alloc: Global,
    answer: Result<Vec<Output>, Refusal>,
    y: &mut End,
    replies: bool,
) -> Result<String, AllocError> {
    let text = match &answer {
        Ok(outputs) => handed(alloc, outputs.as_slice(), y),
        Err(refusal) => refused(alloc, *refusal, y, replies),
    };
    drop(answer);
    text
}

fn put_status(text: &mut String, status: ChannelStatus) -> Result<(), AllocError> {
    match status {
        ChannelStatus::Open => text.push_str(" open"),
        ChannelStatus::Ready => text.push_str(" ready"),
        ChannelStatus::Shut => text.push_str(" shut"),
        ChannelStatus::Closed(fee) => write!(text, " closed {fee}"),
        ChannelStatus::Failed(refusal) => {
            text.push_str(" ")?;
            write!(text, "{refusal}")
        }
    }
}

fn put_summary(text: &mut String, summary: &Summary) -> Result<(), AllocError> {
    let Summary {
        signed,
        own_held,
        peer_held,
        own,
        peer,
        live,
        status,
    } = *summary;
    write!(
        text,
        " signed {signed} committed {own_held} peer {peer_held} balance {own}/{peer} live {live}"
    )?;
    put_status(text, status)
}

/// Where an end stands with its connection and its channel.
pub fn stand(alloc: Global, x: &End) -> Result<String, AllocError> {
    let channel_machine = x.link.channel_machine();
    let line = match channel_machine.connection() {
        ConnectionState::Down => "down",
        ConnectionState::AwaitingReestablish => "waiting",
        ConnectionState::Connected => "met",
    };
    let mut text = String::from_str(alloc, line)?;
    if channel_machine.is_halted() {
        text.push_str(" halted")?;
    }
    match channel_machine.summary(alloc) {
        Ok(summary) => put_summary(&mut text, &summary)?,
        Err(_) => return Err(AllocError),
    }
    Ok(text)
}

/// The SHA-256 of an end's record.
pub fn record(alloc: Global, x: &mut End) -> Result<String, AllocError> {
    match x.record(alloc) {
        Ok(None) => String::from_str(alloc, "no record"),
        Ok(Some(bytes)) => hex::encode(alloc, &sha256_32(bytes.as_slice())),
        Err(_) => Err(AllocError),
    }
}

fn put_events(text: &mut String, events: &[(u64, ChannelEvent)]) -> Result<(), AllocError> {
    for event in events {
        put_event(text, event.0, &event.1)?;
    }
    Ok(())
}

/// The events that an end hasn't decided.
pub fn pending(alloc: Global, x: &End) -> Result<String, AllocError> {
    let events = x.link.pending_events(alloc);
    let mut text = String::from_str(alloc, "pending")?;
    let put = match &events {
        Ok(events) => put_events(&mut text, events.as_slice()),
        Err(_) => Err(AllocError),
    };
    drop(events);
    put?;
    Ok(text)
}

/// How many events are decided and how many aren't, how many decisions there are, and each result: the HTLC's id, and
/// which one of which channel it forwards.
fn ledger(alloc: Global, progress: &Progress) -> Result<String, AllocError> {
    let decided = progress.events.decided;
    let undecided = progress.events.undecided.as_slice().len();
    let decisions = progress.forwards.decisions.as_slice().len();
    let mut text = format!(in alloc;
        "decided {decided} undecided {undecided} decisions {decisions}"
    )?;
    for result in progress.forwards.results.as_slice() {
        let (id, origin) = (result.id, result.origin.1);
        let channel = hex::encode(alloc, &result.origin.0)?;
        write!(text, " result {id} of {origin} {channel}")?;
    }
    Ok(text)
}

/// How many updates of the funder and of the fundee are in the base, how many HTLCs are live there, and how many
/// updates of each are kept one by one.
fn shape(alloc: Global, updates: &Updates) -> Result<String, AllocError> {
    let (funder, fundee) = (updates.base.updates.funder, updates.base.updates.fundee);
    let live = updates.base.live.as_slice().len();
    let of_funder = updates.window.funder.as_slice().len();
    let of_fundee = updates.window.fundee.as_slice().len();
    format!(in alloc; "base {funder} {fundee} live {live} window {of_funder} {of_fundee}")
}

/// What an end's record says of its events, or of its updates, by the line's word.
pub fn told_by_record(alloc: Global, x: &mut End, word: &str) -> Result<String, AllocError> {
    let Ok(bytes) = x.record(alloc) else {
        return Err(AllocError);
    };
    let Some(bytes) = bytes else {
        return String::from_str(alloc, "no record");
    };
    let found = decode_record(alloc, bytes.as_slice());
    let text = match &found {
        Ok(record) if word == "ledger" => ledger(alloc, &record.items().progress),
        Ok(record) => shape(alloc, &record.items().updates),
        Err(_) => Err(AllocError),
    };
    drop(found);
    text
}
